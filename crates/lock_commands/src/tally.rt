//! The messages of a mailbox, counted for each sender.

ghost use Rattle.std.specs.Prelude.{◌≡◌, ◌↔◌, true, [], IfOk, slice_index_or, slice_set};
ghost use Rattle.lock_commands.specs.Tallies.{IsFine, tallies_by, tally_of, with_number};

use indexmap::IndexSet;
use redomail::Message;
use std::alloc::{AllocError, Global};

/// The count of one sender's messages: how many there are, how many of them have a number that comes again later, the last number,
/// and whether the numbers never fall.
#[derive(Clone, Copy, Debug, PartialEq, Eq)]
pub struct SenderTally {
    pub sender: u64,
    pub messages: u64,
    pub twice: u64,
    pub last: u64,
    pub ordered: bool,
}

impl SenderTally {
    /// The tally of a sender without messages.
    #[tactic(auto, unfolding(crate::specs::Tallies::repeats, crate::specs::Tallies::last_number, crate::specs::Tallies::never_fall))]
    fn new(sender: u64) -> SenderTally
        ensures { result ≡ tally_of sender [] }
    {
        SenderTally {
            sender,
            messages: 0,
            twice: 0,
            last: 0,
            ordered: true,
        }
    }

    /// With one more message. `again`: its number came before.
    fn with(self, seq: u64, again: bool) -> SenderTally
        ensures { result ≡ with_number self seq again }
    {
        let twice = if again {
            self.twice.saturating_add(1)
        } else {
            self.twice
        };
        SenderTally {
            sender: self.sender,
            messages: self.messages.saturating_add(1),
            twice,
            last: seq,
            ordered: self.ordered && self.last <= seq,
        }
    }

    /// Whether each number came once, and in order.
    pub fn is_fine(&self) -> bool
        ensures { result ≡ true ↔ IsFine self.now }
    {
        self.twice == 0 && self.ordered
    }
}

/// The tallies of senders without messages.
#[tactic(auto, using(crate::proofs::Tallies::one_sender_more))]
fn no_tallies(alloc: Global, procs: u64) -> Result<Vec<SenderTally>, AllocError>
    ensures { IfOk result (λ tallies. tallies.items ≡ tallies_by procs []) }
{
    let mut tallies = Vec::new(alloc);
    for sender in 0..procs {
        tallies.push(SenderTally::new(sender))?;
    }
    Ok(tallies)
}

/// Counts one message, if its sender has a tally. `again`: its number came before.
fn count(tallies: &mut Vec<SenderTally>, message: &Message, again: bool)
    ensures { tallies.new.items ≡ slice_set tallies.old.items message.now.sender
        (with_number (slice_index_or tallies.old.items message.now.sender (tally_of 0 [])) message.now.seq again) }
{
    if let Some(tally) = tallies.get_mut(message.sender as usize) {
        *tally = tally.with(message.seq, again);
    }
}

/// The tallies of all senders, each at its index. `AllocError`: out of memory.
pub fn tallies_of(
    alloc: Global,
    procs: u64,
    messages: &[Message],
) -> Result<Vec<SenderTally>, AllocError>
    ensures { IfOk result (λ tallies. tallies.items ≡ tallies_by procs messages.now) }
{
    let mut tallies = no_tallies(alloc, procs)?;
    let mut met = IndexSet::new(alloc);
    for message in messages {
        let again = !met.insert((message.sender, message.seq))?;
        count(&mut tallies, message, again);
    }
    Ok(tallies)
}
