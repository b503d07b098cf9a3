//! Gathering: the members of an arena are taken back.

ghost use Rattle.std.specs.Prelude.{◌≡◌, ◌≢◌, All, IfOk, IfErr, OnOk, IfSome, IsSome, vec_len};
ghost use Rattle.rmeworld.specs.ImageRules.{IsLawfulImage};
ghost use Rattle.one_lock.specs.Member.{AreAll, steps_taken};
ghost use Rattle.one_lock.specs.Execution.{IsLeftBy};

use crate::member::Member;
use crate::sizes::Sizes;
use rmeworld::Image;
use std::sync::ledger::{Ledger, Share};
use std::sync::{Arc, Wait};
use table_runs::gather_fault::GatherFault;

/// Takes all members of an arena back, and answers the image of its words. The shares of all members, merged, are the whole
/// ledger: the run of the world has as many steps as they took together.
///
/// After a fault the members are handed back and nothing was merged. `NotAll`: some are missing. `OutOfMemory`: there was no
/// room for the image; they may be gathered again.
pub fn gather<L: Ledger, S: Sizes, R: Wait>(
    rt: &R,
    members: Vec<Member<L, S>>,
) -> Result<Image, (Vec<Member<L, S>>, GatherFault)>
    requires arena { All (λ m. m.layout.procs ≡ L.parts) members.items }
    ensures all { OnOk result (AreAll L.parts members.items) }
    ensures missing { IfErr result (λ e. e.1 ≡ GatherFault.NotAll → AreAll L.parts members.items → ⊥) }
    ensures memory { IfErr result (λ e. e.1 ≡ GatherFault.OutOfMemory → AreAll L.parts members.items) }
    ensures back { IfErr result (λ e. e.0.items ≡ members.items) }
    ensures left { IfOk result (λ image. IsLeftBy (steps_taken members.items) image) }
    ensures lawful { IfOk result (λ image. IsLawfulImage image) }
{
    let Some(first) = members.first() else {
        return Err((members, GatherFault::NotAll));
    };
    if members.len() as u64 != first.layout.procs {
        return Err((members, GatherFault::NotAll));
    }
    let Ok(shared) = Arc::try_clone(&first.shared) else {
        return Err((members, GatherFault::OutOfMemory));
    };
    let mut held = shared.lock(rt);
    let Ok(image) = held.image() else {
        return Err((members, GatherFault::OutOfMemory));
    };
    let Some(mut all) = merge_shares(members) else {
        unreachable!()
    };
    held.audit(&mut all);
    Ok(image)
}

/// The shares of these members as one.
#[tactic(auto, using(crate::proofs::Steps::steps_more))]
fn merge_shares<L: Ledger, S: Sizes>(members: Vec<Member<L, S>>) -> Option<Share<L>>
    ensures some { vec_len members ≢ 0 → IsSome result }
    ensures parts { IfSome result (λ all. all.parts ≡ vec_len members) }
    ensures amount { IfSome result (λ all. all.amount ≡ steps_taken members.items) }
{
    let mut rest = members;
    let mut all = rest.pop()?.into_share();
    for member in rest {
        all.merge(member.into_share());
    }
    Some(all)
}
