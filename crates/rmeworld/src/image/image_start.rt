//! The start of an image, for a judge.

ghost use Rattle.std.specs.Prelude.{◌≡◌, ℕ, ◌<◌, IfOk, IfErr, OnOk, length, map, slice_index_or, []};
ghost use Rattle.rmecore.specs.Lawful.{phase_by, is_ahead as is_ahead_by, start_of as start_by};
ghost use Rattle.rmecore.specs.Simulated.{own_at};
ghost use Rattle.rmecore.specs.declared.refusal.Refusal.TheVariants.{OutOfMemory};
ghost use Rattle.redomail.specs.Layout.{words_of};
ghost use Rattle.redomail.specs.Shape.{mailbox_of};
ghost use Rattle.judge.specs.Starts.{is_named, IsStart};
ghost use Rattle.rmeworld.specs.ImageRules.{layout_of, IsLawfulImage};
ghost use Rattle.rmeworld.specs.ImageStart.{IsInAlone, IsStartOf, IsUnstarted};
ghost use Rattle.rmeworld.specs.ImageWiden.{shown_in};

use crate::image::Image;
use crate::image::rules::{find_in, first_rule, layout, word};
use judge::{Ahead, Messages, Phases, Start};
use redomail::contents::value_at;
use redomail::layout::{ARMED, CLOSED, COUNT, RECORD, RUINED};
use redomail::{Message, content};
use rmecore::{Own, Phase, Refusal};
use std::alloc::{AllocError, Global};

/// The start of a history that continues from an image: the phases and ahead sets of the lock words, and what is shown and
/// pending in the data words. `Judge::from_start` accepts it.
///
/// `BadImage` names the first rule that the image breaks. `OutOfMemory`: an allocation failed.
pub fn start_of(alloc: Global, image: &Image) -> Result<Start, Refusal>
    ensures start { IfOk result (IsStartOf image.now) }
    ensures judged { IfOk result IsStart }
    ensures lawful { OnOk result (IsLawfulImage image.now) }
    ensures refused { IfErr result (IsUnstarted image.now) }
{
    if let Some(rule) = first_rule(image) {
        return Err(Refusal::BadImage { rule });
    }
    start_of_lawful(alloc, image)
}

/// The start of a lawful image.
fn start_of_lawful(alloc: Global, image: &Image) -> Result<Start, Refusal>
    requires { IsLawfulImage image.now }
    ensures start { IfOk result (IsStartOf image.now) }
    ensures err { IfErr result (λ e. e ≡ OutOfMemory) }
{
    let words = image.cells.as_slice();
    let lock = image.lock.as_slice();
    let shown = shown_messages(alloc, image)?;
    let phases = phases(alloc, lock)?;
    let ahead = ahead_sets(alloc, lock)?;
    Ok(Start {
        procs: lock.len() as u64,
        cap: image.cap,
        phases: Phases::new(phases),
        ahead: Ahead::new(ahead),
        shown: Messages::new(shown),
        pending: pending(image),
        closed: word(words, CLOSED) == 1,
        ruined: word(words, RUINED) == 1,
    })
}

/// The messages shown in a lawful image.
fn shown_messages(alloc: Global, image: &Image) -> Result<Vec<Message>, Refusal>
    requires { IsLawfulImage image.now }
    ensures ok { IfOk result (λ messages. messages.items ≡ shown_in image.now) }
    ensures err { IfErr result (λ e. e ≡ OutOfMemory) }
{
    content(alloc, layout(image), image.cells.as_slice())
}

/// The phase that a process's words describe.
fn phase(own: &Own) -> Phase
    ensures { result ≡ phase_by own.now }
{
    if own.number == 0 {
        if own.choosing == 0 {
            return Phase::Out;
        }
        return Phase::Door;
    }
    if own.inside == 0 {
        Phase::Ready
    } else {
        Phase::DeadIn
    }
}

/// The phases that the words of all processes describe.
fn phases(alloc: Global, lock: &[Own]) -> Result<Vec<Phase>, AllocError>
    ensures { IfOk result (λ phases. phases.items ≡ map phase_by lock.now) }
{
    let mut phases = Vec::with_capacity(alloc, lock.len())?;
    for own in lock {
        phases.push_reserved(phase(own));
    }
    Ok(phases)
}

/// Whether q is ahead of p. All ready processes are ahead of one in the doorway. Of a ready process, those with a smaller
/// pair are ahead.
fn is_ahead(lock: &[Own], p: u64, q: u64) -> bool
    requires first { p < length lock.now }
    requires second { q < length lock.now }
    ensures { result ≡ is_ahead_by (phase_by (own_at lock.now p)) p (own_at lock.now p) q (own_at lock.now q) }
{
    let own = lock[p as usize];
    let other = lock[q as usize];
    if phase(&other) != Phase::Ready {
        return false;
    }
    match phase(&own) {
        Phase::Door => true,
        Phase::Ready => other.number < own.number || (other.number == own.number && q < p),
        _ => false,
    }
}

/// The processes ahead of p.
fn ahead_of(alloc: Global, lock: &[Own], p: u64) -> Result<Vec<u64>, AllocError>
    requires { p < length lock.now }
    ensures { IfOk result (λ names. (q : ℕ) → is_named names.items q ≡ (start_by (own_at lock.now)).ahead p q) }
{
    let mut names = Vec::new(alloc);
    for q in 0..lock.len() as u64 {
        if is_ahead(lock, p, q) {
            names.push(q)?;
        }
    }
    Ok(names)
}

/// For each process the processes ahead of it.
fn ahead_sets(alloc: Global, lock: &[Own]) -> Result<Vec<Vec<u64>>, AllocError>
    ensures each { IfOk result (λ sets. length sets.items ≡ length lock.now) }
    ensures ahead { IfOk result (λ sets. (p q : ℕ) → is_named (slice_index_or (map (λ names. names.items) sets.items) p []) q
        ≡ (start_by (own_at lock.now)).ahead p q) }
{
    let mut sets = Vec::with_capacity(alloc, lock.len())?;
    for p in 0..lock.len() as u64 {
        sets.push_reserved(ahead_of(alloc, lock, p)?);
    }
    Ok(sets)
}

/// The message that is committed and not shown yet. Its sender is the process inside.
fn pending(image: &Image) -> Option<Message>
    requires { IsLawfulImage image.now }
    ensures { (p : ℕ) → IsInAlone image.now p → result ≡ (mailbox_of (layout_of image.now) p (words_of image.now.cells)).pending }
{
    let words = image.cells.as_slice();
    if word(words, RUINED) == 1
        || word(words, ARMED) != 1
        || word(words, COUNT) != word(words, RECORD)
    {
        return None;
    }
    let sender = find_in(image.lock.as_slice())?;
    Some(Message {
        sender,
        seq: word(words, RECORD + 1),
        value: value_at(words, RECORD + 2, image.width),
    })
}
