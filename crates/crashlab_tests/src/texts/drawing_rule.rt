//! Hunts draw the schedules that a plain program draws by the same rule, and each case of the rule is met in them.

use crate::texts::drawn::{DRAWN, DRAWN_WITH_SYSTEM_CRASHES};
use crashlab::hunts::hunt_watched;
use crashlab::{RandomMoves, Variant, VariantWorld};
use explorer::Unwatched;
use redomail::Reply;
use rmecore::{Body, Refusal};
use rmeworld::{Answer, Call, Machine};
use schedule::{Line, Schedule, write_schedule};
use std::alloc::Global;

const CRASH_AT_REST: u64 = 1;

const CRASH_IN_A_CALL: u64 = 2;

const CRASH_INSIDE: u64 = 4;

const STEP: u64 = 8;

const LOCK_AT_REST: u64 = 16;

const LOCK_AFTER_A_CRASH: u64 = 32;

const CONSISTENT: u64 = 64;

const FIRST_APPEND: u64 = 128;

const APPEND_AFTER_STORED: u64 = 256;

const APPEND_AFTER_ALREADY: u64 = 512;

const UNLOCK: u64 = 1024;

const SYSTEM_CRASH: u64 = 2048;

/// All cases of a hunt that draws no crash of all.
const ALL: u64 = 2047;

/// Where a process is.
#[derive(Clone, Copy, PartialEq, Eq)]
enum Position {
    AtRest,
    Dead,
    InACall,
    Inside,
}

/// What the rule asks of a process.
#[derive(Clone, Copy)]
struct Seen {
    position: Position,
    mended: bool,
    /// Whether an append was answered since it entered.
    appended: bool,
    /// How many appends were answered stored or already, and whether the last of these was answered already.
    counted: u64,
    already: bool,
}

const UNSEEN: Seen = Seen {
    position: Position::AtRest,
    mended: true,
    appended: false,
    counted: 0,
    already: false,
};

impl Seen {
    /// The call that the rule asks for next, and its case.
    fn next(&self) -> Result<(Call, u64), Refusal> {
        if self.position == Position::AtRest {
            return Ok((Call::Lock, LOCK_AT_REST));
        }
        if self.position == Position::Dead {
            return Ok((Call::Lock, LOCK_AFTER_A_CRASH));
        }
        if !self.mended {
            return Ok((Call::Consistent, CONSISTENT));
        }
        if self.appended {
            return Ok((Call::Unlock, UNLOCK));
        }
        let seq = self.counted.saturating_add(1);
        let value = Body::new(&[seq])?;
        let case = if self.counted == 0 {
            FIRST_APPEND
        } else if self.already {
            APPEND_AFTER_ALREADY
        } else {
            APPEND_AFTER_STORED
        };
        Ok((Call::Append { seq, value }, case))
    }

    /// Notes an answer.
    fn answered(&mut self, answer: Answer) {
        self.position = Position::Inside;
        match answer {
            Answer::Clean => {
                self.mended = true;
                self.appended = false;
            }
            Answer::OwnerDied => {
                self.mended = false;
                self.appended = false;
            }
            Answer::Mail(Reply::Mended(_)) => self.mended = true,
            Answer::Mail(reply) => {
                self.appended = true;
                if reply == Reply::Stored || reply == Reply::Already {
                    self.counted = self.counted.saturating_add(1);
                    self.already = reply == Reply::Already;
                }
            }
            _ => self.position = Position::AtRest,
        }
    }
}

/// Makes the move of a line, and notes what it does. The case of the rule; 0 where the rule asks for another move.
fn made(world: &mut VariantWorld, seen: &mut Seen, line: Line) -> Result<u64, Refusal> {
    match line {
        Line::Crash(p) => {
            world.crash(p)?;
            let case = match seen.position {
                Position::AtRest | Position::Dead => CRASH_AT_REST,
                Position::InACall => CRASH_IN_A_CALL,
                Position::Inside => CRASH_INSIDE,
            };
            seen.position = Position::Dead;
            Ok(case)
        }
        Line::Step(p, count) => {
            if count.get() != 1 || seen.position != Position::InACall {
                return Ok(0);
            }
            if let Some(answer) = world.advance(p)?.answer {
                seen.answered(answer);
            }
            Ok(STEP)
        }
        Line::Start(p, call) => {
            let (asked, case) = seen.next()?;
            if call != asked || seen.position == Position::InACall {
                return Ok(0);
            }
            world.start(p, call)?;
            seen.position = Position::InACall;
            Ok(case)
        }
        Line::CrashAll => Ok(0),
    }
}

/// Makes a crash of all, and notes it. The case of the rule; 0 where a process can't crash.
fn made_of_all(world: &mut VariantWorld, seen: &mut [Seen; 3]) -> u64 {
    for (p, here) in (0u64..).zip(seen) {
        if made(world, here, Line::Crash(p)).is_err() {
            return 0;
        }
    }
    SYSTEM_CRASH
}

/// The cases of the rule in a schedule that was found. None: the rule does not ask for one of its moves.
fn cases(world: &mut VariantWorld, found: &Schedule) -> Option<u64> {
    let mut seen = [UNSEEN; 3];
    let mut cases = 0;
    for line in found.lines() {
        let case = match line {
            Line::Crash(p) | Line::Step(p, _) | Line::Start(p, _) => {
                let here = seen.get_mut(*p as usize)?;
                made(world, here, *line).unwrap_or(0)
            }
            Line::CrashAll => made_of_all(world, &mut seen),
        };
        if case == 0 {
            return None;
        }
        cases |= case;
    }
    Some(cases)
}

/// The line of a move, or a part of it.
fn spelled(letter: u8) -> &'static [u8] {
    match letter {
        b'0' => b"step 0\n",
        b'1' => b"step 1\n",
        b'2' => b"step 2\n",
        b'x' => b"crash 0\n",
        b'y' => b"crash 1\n",
        b'z' => b"crash 2\n",
        b'l' => b"lock 0\n",
        b'm' => b"lock 1\n",
        b'n' => b"lock 2\n",
        b'f' => b"consistent 0\n",
        b'g' => b"consistent 1\n",
        b'h' => b"consistent 2\n",
        b'u' => b"unlock 0\n",
        b'v' => b"unlock 1\n",
        b'w' => b"unlock 2\n",
        b'a' => b"append 0 ",
        b'b' => b"append 1 ",
        b'c' => b"append 2 ",
        b'A' => b"1 1\n",
        b'B' => b"2 2\n",
        b'C' => b"3 3\n",
        b'*' => b"crash all\n",
        _ => b"",
    }
}

/// Whether the text is the schedule of these moves.
fn is_spelled(text: &[u8], moves: &str) -> bool {
    let Some(mut rest) = text.strip_prefix(b"rme 1 procs 3 limit 1000000 cap 64\n") else {
        return false;
    };
    for letter in moves.as_bytes() {
        let Some(left) = rest.strip_prefix(spelled(*letter)) else {
            return false;
        };
        rest = left;
    }
    rest.is_empty()
}

/// Whether the schedule has these moves.
fn has_moves(alloc: Global, found: &Schedule, moves: &str) -> bool {
    match write_schedule(alloc, found) {
        Ok(text) => is_spelled(&text, moves),
        Err(_) => false,
    }
}

/// The cases of the rule in the schedule, played on a new world of the variant.
fn cases_on(alloc: Global, variant: Variant, found: &Schedule) -> Option<u64> {
    match VariantWorld::new(alloc, variant, 3, 1_000_000, 64, 1) {
        Ok(mut world) => cases(&mut world, found),
        Err(_) => None,
    }
}

/// The cases of the rule in the schedule that the hunt finds. None: it does not have these moves.
fn drawn(alloc: Global, variant: Variant, asked: RandomMoves, moves: &str) -> Option<u64> {
    match hunt_watched(alloc, variant, asked, 10_000, &mut Unwatched) {
        Ok(Some(found)) if has_moves(alloc, &found, moves) => cases_on(alloc, variant, &found),
        _ => None,
    }
}

/// The cases of the rule in the schedules that the hunts of the first seeds find. None: one does not have its moves.
fn all_drawn(alloc: Global, variant: Variant, system_crashes: u64, schedules: &str) -> Option<u64> {
    let mut all = 0;
    let mut asked = RandomMoves {
        seed: 0,
        steps: 1_000,
        system_crashes,
    };
    for moves in schedules.split(' ') {
        asked.seed = asked.seed.saturating_add(1);
        all |= drawn(alloc, variant, asked, moves)?;
    }
    Some(all)
}

#[test]
fn hunts_draw_by_the_rule(rt: HostRuntime) {
    let mut all = 0;
    for (variant, schedules) in DRAWN {
        let cases = all_drawn(rt.alloc(), variant, 0, schedules);
        assert!(rt; cases.is_some(), "{variant:?}");
        all |= cases.unwrap_or(0);
    }
    // each case
    assert!(rt; all == ALL);
}

/// With 20 crashes of all in 1,000 moves. A schedule is found of each wrong variant, and one is drawn in each.
#[test]
fn hunts_draw_system_crashes_by_the_rule(rt: HostRuntime) {
    for (variant, schedules) in DRAWN_WITH_SYSTEM_CRASHES {
        let cases = all_drawn(rt.alloc(), variant, 20, schedules);
        assert!(rt; cases.unwrap_or(0) & SYSTEM_CRASH > 0, "{variant:?}");
    }
}
