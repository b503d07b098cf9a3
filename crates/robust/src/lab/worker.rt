//! A worker of the lab over the running lock.

ghost use Rattle.std.specs.Prelude.{◌≡◌, ◌≤◌, ◌⊎◌, ℕ, None, IfOk, IfErr, OnOk, length};
ghost use Rattle.rmeworld.specs.declared.call.Call.TheVariants.{Lock, Append};
ghost use Rattle.table_runs.specs.Faults.{refusal_now, free_to_start};
ghost use Rattle.table_runs.specs.SeatView.{own_of};
ghost use Rattle.table_runs.specs.Ruins.{AreInWorkerOrder, HasReadRuin};
ghost use Rattle.table_runs.specs.AppendReplies.{ReportedIn};
ghost use Rattle.table_runs.specs.Under.{Appends};
ghost use Rattle.robust.specs.LabFaults.{NumbersWereSpent};
ghost use Rattle.robust.specs.Worked.{HasWorked, sizes_of};
ghost use Rattle.robust.specs.WorkerSends.{IsNew, IsSending, SendsOnly, HasShown};
ghost use Rattle.robust.specs.MemberLaws.{seat_of};

use crate::member::Member;
use redomail::Reply;
use rmecore::Body;
use std::snapshot::Snapshot;
use std::sync::Wait;
use std::thread::Promise;
use table_runs::LockFault;
use table_runs::lab::sent_messages::{is_crash, is_sent, value_sent};
use table_runs::lab::{Gate, Spec, WorkerEnd};

/// A worker that has ended, with the member that it was given.
#[derive(Drop)]
pub struct Done {
    pub member: Member,
    pub ending: WorkerEnd,
}

/// The promise of a worker's thread: it hands back the member that it was given, with its messages sent.
#[derive(Drop)]
pub struct HandsBack(pub Snapshot<Member>, pub Spec);

impl Promise<Done> for HandsBack {
    ghost use Rattle.std.specs.Prelude.{◌≡◌};
    ghost use Rattle.robust.specs.Worked.{HasWorked};
    ghost use Rattle.robust.specs.MemberLaws.{seat_of};

    ghost kept_by = { λ promise done. (seat_of done.member ≡ seat_of promise.0.value) × HasWorked promise.1 done };
}

/// Sends the messages of a worker, numbered from 1, each again until it is answered. Each answer is reported to the gate.
pub fn work<G: Gate + Drop, R: Wait>(rt: &R, mut member: Member, mut gate: G, spec: Spec) -> Done
    requires some { 1 ≤ spec.messages }
    requires most { spec.messages ≤ 4096 }
    requires least { 1 ≤ spec.width }
    requires wide { spec.width ≤ 8 }
    requires new { IsNew (sizes_of spec) member }
    ensures seat { seat_of result.member ≡ seat_of member }
    ensures worked { HasWorked spec result }
{
    let p = member.number();
    for seq in 1..spec.messages + 1 {
        let value = value_sent(p, seq, spec.width);
        match send(rt, &mut member, &mut gate, seq, value) {
            Ok(reply) => {
                if !is_sent(reply) {
                    let ending = WorkerEnd::Refused(reply);
                    return Done { member, ending };
                }
            }
            Err(fault) => {
                let ending = WorkerEnd::Fault(fault);
                return Done { member, ending };
            }
        }
    }
    let ending = WorkerEnd::AllSent;
    Done { member, ending }
}

/// Sends one message until it is answered. Then the answer is reported to the gate.
fn send<G: Gate, R: Wait>(
    rt: &R,
    member: &mut Member,
    gate: &mut G,
    seq: u64,
    value: Body,
) -> Result<Reply, LockFault>
    requires width { length value ≡ member.old.seat_view.setup.layout.width }
    requires out { refusal_now (free_to_start member.old) Lock ≡ None }
    ensures out { refusal_now (free_to_start member.new) Lock ≡ None }
    ensures kind { IfOk result (Appends seq) }
    ensures tells { IfOk result (λ reply. ReportedIn member.old seq reply member.new) }
    ensures faults { IfErr result (λ purpose. (purpose ≡ LockFault.NumbersSpent) ⊎ (purpose ≡ LockFault.NotRecoverable)) }
    ensures ordered { AreInWorkerOrder None (own_of member.old.seat_view) → AreInWorkerOrder None (own_of member.new.seat_view) }
    ensures ruin { IfErr result (λ purpose. AreInWorkerOrder None (own_of member.old.seat_view)
        → purpose ≡ LockFault.NotRecoverable → HasReadRuin (own_of member.new.seat_view)) }
    ensures spent { IfErr result (λ purpose. purpose ≡ LockFault.NumbersSpent
        → NumbersWereSpent member.new.seat_view.setup (own_of member.new.seat_view)) }
    ensures seat { seat_of member.new ≡ seat_of member.old }
    ensures only { (width k : ℕ) → IsSending width k member.old.seat_view.by (Append seq value)
        → SendsOnly width k member.old → SendsOnly width k member.new }
    ensures shown { IfOk result (λ reply. (reply ≡ Reply.Stored) ⊎ (reply ≡ Reply.Already) → HasShown seq member.new) }
    ensures reports { OnOk result ((asking : G) × G.heard asking seq gate.new) }
{
    for _ in rt.forever() {
        match member.append(rt, seq, value, gate) {
            Ok(reply) => {
                gate.answered(seq);
                return Ok(reply);
            }
            Err(fault) => {
                if !is_crash(fault) {
                    return Err(fault);
                }
            }
        }
    }
    unreachable!()
}
