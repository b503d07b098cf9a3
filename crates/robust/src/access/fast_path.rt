//! The fast paths of a lock and of an unlock, for plans that never fall: loops over the words alone, proved to be the run of
//! their steps. The machine's state is set once, afterwards. The wait in the line is in `in_line.rt`.
ghost use Rattle.std.specs.Prelude.{◌≡◌, ◌≢◌, ℕ, ◌+◌, ◌<◌, ◌≤◌, max, [], ◌∷◌, true, false, ◌==◌, ◌||◌, None, IfSome, if◌then◌else◌};
ghost use Rattle.rmecore.specs.Place.{Rest, Reread, Opening, Door, Shutting, Wait, Leaving, Unmarking, others, lock_restart};
ghost use Rattle.rmecore.specs.declared.core_call.CoreCall.TheVariants.{Lock, Unlock};
ghost use Rattle.rmecore.specs.Machine.{place_of};
ghost use Rattle.robust.specs.declared.access.fast_path.Reached.TheVariants as Reaches;
ghost use Rattle.rmeworld.specs.declared.call.Call.TheVariants as CallOf;
ghost use Rattle.rmeworld.specs.declared.answer.Answer.TheVariants as AnswerOf;
ghost use Rattle.rmecore.specs.declared.kind.Kind.TheVariants.{Get as Gets, Mark as Marks};
ghost use Rattle.rmecore.specs.declared.word.Word.TheVariants.{Data as DataAt, Inside as InsideOf};
ghost use Rattle.table_runs.specs.SeatView.{CarriesPending, IsSeatView, process_state_now};
ghost use Rattle.table_runs.specs.Under.{Begun, IsUnder};
ghost use Rattle.rmeworld.specs.ProcessState.{Free};
ghost use Rattle.robust.specs.FastPath.{free_process_state, IsClear, IsSame, Unanswered, Way, waits_at, EndsIn, FastPathReaches, checking_process_state, checked_process_state};

use crate::access::in_line::wait_on;
use crate::access::port::Port;
use rmecore::{CoreCall, Kind, Stage, Word};

/// Rereads the own choosing.
fn read_choosing(port: &mut Port) -> u64
    requires at { process_state_now port.old ≡ free_process_state (Reread Lock []) (process_state_now port.old).mended }
    ensures way { Way port.old 1 port.new (Reread Lock (result ∷ [])) }
{
    let own = port.by();
    port.load(Kind::Reread, Word::Choosing(own))
}

/// Rereads the own number.
fn read_number(port: &mut Port, choosing: u64) -> u64
    requires clear { IsClear port.old }
    requires at { process_state_now port.old ≡ free_process_state (Reread Lock (choosing ∷ [])) (process_state_now port.old).mended }
    ensures way { Way port.old 1 port.new (Reread Lock (choosing ∷ result ∷ [])) }
{
    // For the proof alone: its value is read.
    let _ = choosing;
    let own = port.by();
    port.load(Kind::Reread, Word::Number(own))
}

/// Rereads the own inside, where the other two words are 0.
fn read_inside(port: &mut Port) -> u64
    requires clear { IsClear port.old }
    requires at { process_state_now port.old ≡ free_process_state (Reread Lock (0 ∷ 0 ∷ [])) (process_state_now port.old).mended }
    ensures way { Way port.old 1 port.new (lock_restart port.old.setup.layout.procs port.old.by 0 0 result) }
{
    let own = port.by();
    port.load(Kind::Reread, Word::Inside(own))
}

/// Opens the doorway.
fn open(port: &mut Port)
    requires clear { IsClear port.old }
    requires at { process_state_now port.old ≡ free_process_state Opening (process_state_now port.old).mended }
    ensures way { Way port.old 1 port.new (Door (others port.old.setup.layout.procs port.old.by) 0) }
{
    let own = port.by();
    port.store(Kind::Open, Word::Choosing(own), 1);
}

/// Takes the number after the greatest.
fn take(port: &mut Port, greatest: u64)
    requires clear { IsClear port.old }
    requires below { greatest < port.old.setup.limit }
    requires at { process_state_now port.old ≡ free_process_state (Door [] greatest) (process_state_now port.old).mended }
    ensures way { Way port.old 1 port.new (Shutting Lock (greatest + 1)) }
{
    let own = port.by();
    port.store(Kind::Take, Word::Number(own), greatest + 1);
}

/// Closes the doorway after taking a number.
fn shut(port: &mut Port, number: u64)
    requires clear { IsClear port.old }
    requires at { process_state_now port.old ≡ free_process_state (Shutting Lock number) (process_state_now port.old).mended }
    ensures way { Way port.old 1 port.new (Wait number (others port.old.setup.layout.procs port.old.by) None) }
{
    // For the proof alone: its value is read.
    let _ = number;
    let own = port.by();
    port.store(Kind::Shut, Word::Choosing(own), 0);
}

/// The greater of two numbers.
fn max_of(a: u64, b: u64) -> u64
    ensures { result ≡ max a b }
{
    if a < b { b } else { a }
}

/// Reads the numbers of all others, in the doorway. Answers the greatest, and the number of steps.
// Inline: one path of each lock.
#[inline(always)]
fn peek_others(port: &mut Port) -> (u64, u64)
    requires clear { IsClear port.old }
    requires at { process_state_now port.old ≡ free_process_state (Door (others port.old.setup.layout.procs port.old.by) 0)
        (process_state_now port.old).mended }
    ensures way { Way port.old result.1 port.new (Door [] result.0) }
    ensures few { result.1 ≤ 64 }
{
    let own = port.by();
    let procs = port.procs();
    let mut greatest = 0;
    let mut taken = 0;
    for j in 0..procs {
        if j != own {
            let number = port.load(Kind::Peek, Word::Number(j));
            greatest = max_of(greatest, number);
            taken += 1;
        }
    }
    (greatest, taken)
}

/// Rereads the own words while they are 0. None: all three are 0, after three steps. Otherwise the stage that follows from
/// the word read last, and the number of steps.
// Inline: one path of each lock.
#[inline(always)]
fn reread_own(port: &mut Port) -> Option<(Stage, u64)>
    requires at { process_state_now port.old ≡ free_process_state (Reread Lock []) (process_state_now port.old).mended }
    ensures stands { IfSome result (λ r. Way port.old r.1 port.new (place_of port.old.setup.layout.procs port.old.by r.0)) }
    ensures few { IfSome result (λ r. r.1 ≤ 3) }
    ensures begun { IfSome result (λ r. Begun CallOf.Lock port.old.setup.layout.procs (process_state_now port.new)) }
    ensures rests { result ≡ None → Way port.old 3 port.new Opening }
{
    // For the proof alone: its value is read.
    let _seat_view = port.by();
    let call = CoreCall::Lock;
    let choosing = read_choosing(port);
    if choosing != 0 {
        return Some((Stage::ReadingNumber { call, choosing }, 1));
    }
    let number = read_number(port, choosing);
    if number != 0 {
        return Some((
            Stage::ReadingInside {
                call,
                choosing,
                number,
            },
            2,
        ));
    }
    let inside = read_inside(port);
    if inside != 0 {
        return Some((Stage::Unmarking { call }, 3));
    }
    None
}

/// From right after the start of a lock into the line, while the process's words are all 0 and a number is left. Answers the
/// stage that it has reached, and the number of steps.
// Inline: one path of each lock.
#[inline(always)]
fn through_doorway(port: &mut Port) -> (Stage, u64)
    requires at { process_state_now port.old ≡ free_process_state (Reread Lock []) (process_state_now port.old).mended }
    ensures way { Way port.old result.1 port.new (place_of port.old.setup.layout.procs port.old.by result.0) }
    ensures few { result.1 ≤ 70 }
    ensures begun { Begun CallOf.Lock port.old.setup.layout.procs (process_state_now port.new) }
{
    let procs = port.procs();
    let limit = port.limit();
    if let Some(stands) = reread_own(port) {
        return stands;
    }
    open(port);
    let (greatest, peeks) = peek_others(port);
    if greatest >= limit {
        return (
            Stage::Door {
                next: procs,
                greatest,
            },
            peeks + 4,
        );
    }
    take(port, greatest);
    shut(port, greatest + 1);
    let stage = Stage::Wait {
        number: greatest + 1,
        next: 0,
        looked: false,
    };
    (stage, peeks + 6)
}

/// Enters, past all others.
fn mark(port: &mut Port, number: u64)
    requires at { process_state_now port.old ≡ free_process_state (Wait number [] None) (process_state_now port.old).mended }
    ensures comes { (process_state_now port.new ≡ checking_process_state port.old) × Unanswered port.old 1 0 port.new }
    ensures clear { IsClear port.new }
    ensures same { IsSame port.old port.new }
{
    // For the proof alone: its value is read.
    let _ = number;
    let own = port.by();
    port.store(Kind::Mark, Word::Inside(own), 1);
}

/// Reads whether the lock is ruined: 1 if it is.
fn check(port: &mut Port) -> u64
    requires clear { IsClear port.old }
    requires at { process_state_now port.old ≡ checking_process_state port.old }
    ensures advances { CarriesPending port.old Gets (DataAt 0) result port.new }
    ensures at { process_state_now port.new ≡ checked_process_state (result == 1) }
{
    // For the proof alone: its value is read.
    let _seat_view = port.by();
    port.load(Kind::Get, Word::Data(0))
}

/// Enters past all others, and reads whether the lock is ruined. True: it is.
// Inline: one path of each lock.
#[inline(always)]
fn come_in(port: &mut Port, number: u64) -> bool
    requires at { process_state_now port.old ≡ free_process_state (Wait number [] None) (process_state_now port.old).mended }
    ensures at { process_state_now port.new ≡ checked_process_state result }
    ensures clean { result ≡ false → EndsIn port.old 2 AnswerOf.Clean port.new }
    ensures ruined { result ≡ true → Unanswered port.old 2 0 port.new }
    ensures same { IsSame port.old port.new }
{
    mark(port, number);
    check(port) == 1
}

/// How far the fast path of a lock has got: to a blocked step in the line (`Blocked`); to a stage outside the section from
/// where the machine goes on (`Stands`); into the section (`Clean`); or out of it again, since the lock is ruined
/// (`Ruined`).
#[derive(Clone, Copy)]
pub enum Reached {
    Blocked(Stage),
    Stands(Stage),
    Clean,
    Ruined,
}

/// How far an entry has got, by whether the lock is ruined.
fn reached_by_entry(is_ruined: bool) -> Reached
    ensures { result ≡ (if is_ruined then Reached.Ruined else Reached.Clean) }
{
    if is_ruined {
        Reached::Ruined
    } else {
        Reached::Clean
    }
}

/// From a place in the line into the section, unless a step is blocked. Also answers the number of steps.
// Inline: one path of each lock.
#[inline(always)]
fn enter_from_line(port: &mut Port, number: u64, next: u64, looked: bool) -> (Reached, u64)
    requires next { next ≤ 64 }
    requires other { looked ≡ true → (next < port.old.setup.layout.procs) × (next ≢ port.old.by) }
    requires at { process_state_now port.old ≡ waits_at port.old number next looked }
    ensures enters { FastPathReaches port.old result.0 result.1 port.new }
    ensures few { result.1 ≤ 133 }
{
    // For the proof alone: its value is read.
    let _seat_view = port.by();
    let passed = wait_on(port, number, next, looked);
    if passed.is_blocked {
        let there = Stage::Wait {
            number,
            next: passed.next,
            looked: passed.looked,
        };
        return (Reached::Blocked(there), passed.taken);
    }
    let is_ruined = come_in(port, number);
    (reached_by_entry(is_ruined), passed.taken + 2)
}

/// From right after the start of a lock into the section, unless a step is blocked. Also answers the number of steps.
// Inline: one path of each lock.
#[inline(always)]
fn enter(port: &mut Port) -> (Reached, u64)
    requires at { process_state_now port.old ≡ free_process_state (Reread Lock []) (process_state_now port.old).mended }
    ensures { FastPathReaches port.old result.0 result.1 port.new }
{
    let (stage, taken) = through_doorway(port);
    match stage {
        Stage::Wait {
            number,
            next,
            looked: false,
        } if next <= 64 => {
            let (reached, after_it) = enter_from_line(port, number, next, false);
            (reached, taken + after_it)
        }
        _ => (Reached::Stands(stage), taken),
    }
}

/// The fast path of a lock from this stage. None: there is no fast path from it. There is one from the start and from a
/// blocked reading.
// Inline: one path of each lock.
#[inline(always)]
pub fn go_in(port: &mut Port, stage: Stage) -> Option<(Reached, u64)>
    requires under { IsUnder CallOf.Lock (process_state_now port.old) }
    requires free { (process_state_now port.old).script_state ≡ Free }
    requires at { (process_state_now port.old).lock ≡ place_of port.old.setup.layout.procs port.old.by stage }
    ensures some { IfSome result (λ r. FastPathReaches port.old r.0 r.1 port.new) }
    ensures none { result ≡ None → port.new ≡ port.old }
{
    let own = port.by();
    let procs = port.procs();
    match stage {
        Stage::ReadingChoosing {
            call: CoreCall::Lock,
        } => Some(enter(port)),
        Stage::Wait {
            number,
            next,
            looked,
        } if next < procs && next != own => Some(enter_from_line(port, number, next, looked)),
        _ => None,
    }
}

/// Gives up the own number, right after the start of an unlock.
fn drop_number(port: &mut Port)
    requires at { process_state_now port.old ≡ free_process_state Leaving (process_state_now port.old).mended }
    ensures way { Way port.old 1 port.new (Unmarking Unlock) }
{
    let own = port.by();
    port.store(Kind::Drop, Word::Number(own), 0);
}

/// Resets the own inside word.
fn unmark(port: &mut Port)
    requires clear { IsClear port.old }
    requires at { process_state_now port.old ≡ free_process_state (Unmarking Unlock) (process_state_now port.old).mended }
    ensures advances { CarriesPending port.old Marks (InsideOf port.old.by) 0 port.new }
    ensures at { process_state_now port.new ≡ free_process_state Rest (process_state_now port.old).mended }
{
    let own = port.by();
    port.store(Kind::Mark, Word::Inside(own), 0);
}

/// From right after the start of an unlock out of the section, in two steps.
pub fn leave(port: &mut Port)
    requires at { process_state_now port.old ≡ free_process_state Leaving (process_state_now port.old).mended }
    ensures at { process_state_now port.new ≡ free_process_state Rest (process_state_now port.old).mended }
    ensures ends { EndsIn port.old 2 AnswerOf.Unlocked port.new }
    ensures same { IsSame port.old port.new }
{
    drop_number(port);
    unmark(port);
}
