//! Senders on threads.

use cli::arguments::args::RunArgs;
use crashlab::{CrashPlan, Seeded};
use lock_commands::run_command::{gates_of, lines_of, status_of_tallies};
use lock_commands::tally::tallies_of;
use redomail::Message;
use rmecore::Body;
use std::test::Fail;

pub const FOUR_SENDERS: &str = "
@text FOUR
sender 0 messages 50 twice 0 order yes
sender 1 messages 50 twice 0 order yes
sender 2 messages 50 twice 0 order yes
sender 3 messages 50 twice 0 order yes
total 200
@row rmelab run --procs 4 --messages 50 --crash 20 --seed 7 @out FOUR
@row rmelab run --procs 4 --messages 50 --crash 20 --seed 7 --width 8 @out FOUR
";

/// Whether each plan falls where the one with this seed does, or with the next one for each that follows.
fn fall_as_seeded(plans: &mut [Seeded], first: u64, per_mille: u64) -> bool {
    let mut seed = first;
    for plan in plans.iter_mut() {
        let mut own = Seeded::new(seed, per_mille);
        for _ in 0..64 {
            if plan.falls() != own.falls() {
                return false;
            }
        }
        seed = seed.wrapping_add(1);
    }
    true
}

/// The crashes of sender p are drawn from the seed and p.
#[test]
fn each_sender_has_the_next_seed(rt: HostRuntime) -> Result<(), Fail> {
    let args = RunArgs {
        procs: 3,
        messages: 1,
        crash: 500,
        seed: 7,
        width: 1,
    };
    let mut gates = gates_of(rt.alloc(), &args)?;
    assert!(rt; gates.len() == 3 && fall_as_seeded(&mut gates, 7, 500));
    Ok(())
}

const BROKEN: &str = "sender 0 messages 3 twice 1 order no
sender 1 messages 2 twice 1 order yes
total 5
";

/// No lock allows such a mailbox, so the tallies are tested by themselves.
#[test]
fn a_message_twice_and_one_out_of_order(rt: HostRuntime) -> Result<(), Fail> {
    let value = Body::new(&[7])?;
    let messages = [(0, 2), (1, 1), (0, 1), (1, 1), (0, 2)].map(|(sender, seq)| Message {
        sender,
        seq,
        value,
    });
    let tallies = tallies_of(rt.alloc(), 2, &messages)?;
    let text = lines_of(rt.alloc(), &tallies)?;
    assert!(rt; text.as_str() == BROKEN && status_of_tallies(&tallies) == 1);
    Ok(())
}
