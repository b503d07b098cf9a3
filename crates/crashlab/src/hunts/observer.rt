//! The observer of a hunt: what it knows of the processes, and the move that it makes of a drawn word.

ghost use Rattle.std.specs.Prelude.{◌≡◌, ◌/◌, ◌%◌, ◌↔◌, ◌∷◌, [], ℕ, IsTrue, List, Some, true, false};
ghost use Rattle.crashlab.specs.hunts.Found.{mover, is_crash};
ghost use Rattle.crashlab.specs.hunts.Draws.{Sight, Begins, Ends, Falls, seen_after_answer as answered_of, answered_if, at_process, call_after, drawn_move, move_of_word, is_inside, move_onward as onward_of};
ghost use Rattle.crashlab.specs.hunts.Observed.{Observes, observation_of};

use crate::hunts::PROCS;
use crate::hunts::moves::{DrawnMove, NextCall};
use crate::hunts::random_moves::RandomMoves;
use redomail::Reply;
use rmeworld::Answer;
use std::marker::Model;

/// What a process is doing.
#[derive(Clone, Copy)]
enum ObservedStage {
    /// It is outside, at rest or dead.
    Outside,
    /// It is in this call.
    Calling(NextCall),
    /// It is inside, with no call under way.
    Inside,
}

/// What is known of one process.
#[derive(Clone, Copy)]
struct Observation {
    stage: ObservedStage,
    mended: bool,
    /// Whether an append was answered since its entry or re-entry.
    appended: bool,
    /// The number of its next message.
    next: u64,
}

const UNSEEN: Observation = Observation {
    stage: ObservedStage::Outside,
    mended: true,
    appended: false,
    next: 1,
};

impl Observation {
    /// The call that the process starts next, while it is inside.
    fn call_inside(&self) -> NextCall
        ensures { (seen : List Sight) → self.now ≡ observation_of seen → is_inside seen ≡ true → result ≡ call_after seen }
    {
        if !self.mended {
            NextCall::Consistent
        } else if !self.appended {
            NextCall::Append(self.next)
        } else {
            NextCall::Unlock
        }
    }

    /// The move of process p, unless it is a crash: a step, or the start of its next call.
    fn move_onward(&self, p: u64) -> DrawnMove
        ensures process { mover result ≡ Some p }
        ensures crash { is_crash result ≡ false }
        ensures onward { (seen : List Sight) → self.now ≡ observation_of seen → result ≡ onward_of p seen }
    {
        match self.stage {
            ObservedStage::Calling(_) => DrawnMove::Step(p),
            ObservedStage::Outside => DrawnMove::Start(p, NextCall::Lock),
            ObservedStage::Inside => DrawnMove::Start(p, self.call_inside()),
        }
    }

    /// Notes a crash.
    fn note_crash(&mut self)
        ensures { (seen : List Sight) → self.old ≡ observation_of seen → self.new ≡ observation_of (Falls ∷ seen) }
    {
        self.stage = ObservedStage::Outside;
    }

    /// Notes that a call was started.
    fn note_start(&mut self, next_call: NextCall)
        ensures { (seen : List Sight) → self.old ≡ observation_of seen → self.new ≡ observation_of (Begins next_call ∷ seen) }
    {
        self.stage = ObservedStage::Calling(next_call);
    }

    /// Notes an answer, where a call is under way.
    fn note_step(&mut self, answer: Answer)
        ensures { (seen : List Sight) → self.old ≡ observation_of seen → self.new ≡ observation_of (answered_of answer seen) }
    {
        if let ObservedStage::Calling(next_call) = self.stage {
            self.note_answer(next_call, answer);
        }
    }

    /// Notes the answer of the call under way.
    fn note_answer(&mut self, next_call: NextCall, answer: Answer)
        ensures { (seen : List Sight) → self.old ≡ observation_of (Begins next_call ∷ seen)
            → self.new ≡ observation_of (Ends next_call answer ∷ seen) }
    {
        self.stage = ObservedStage::Inside;
        match (next_call, answer) {
            (_, Answer::Clean) => {
                self.mended = true;
                self.appended = false;
            }
            (_, Answer::OwnerDied) => {
                self.mended = false;
                self.appended = false;
            }
            (_, Answer::Mail(Reply::Mended(_))) => self.mended = true,
            (_, Answer::Mail(Reply::Stored | Reply::Already)) => {
                self.appended = true;
                self.next = self.next.saturating_add(1);
            }
            (_, Answer::Mail(_)) => self.appended = true,
            (NextCall::Consistent, Answer::NotRecoverable) => {}
            _ => self.stage = ObservedStage::Outside,
        }
    }
}

/// What is known of all processes.
#[derive(Drop)]
pub struct Observer {
    observer: [Observation; 3],
}

impl Model for Observer {
    ghost use Rattle.std.specs.Prelude.{List};
    ghost use Rattle.crashlab.specs.declared.hunts.observer.Observation.{Observation as ObservationOf};

    ghost Value = { List ObservationOf };

    ghost view = { λ o. o.observer };
}

impl Observer {
    /// In a new world.
    pub fn new() -> Observer
        ensures { Observes (λ p. []) result }
    {
        Observer {
            observer: [UNSEEN; 3],
        }
    }

    /// The move of a drawn word: a crash of all, or a move of one process.
    pub fn draw(&self, asked: RandomMoves, word: u32) -> DrawnMove
        ensures { (seen : ℕ → List Sight) → Observes seen self.now → result ≡ drawn_move asked.system_crashes seen word }
    {
        if asked.is_system_crash(word) {
            return DrawnMove::CrashAll;
        }
        self.draw_alone(word)
    }

    /// The move of one process of a drawn word: a crash, a step, or the next call of the process.
    fn draw_alone(&self, word: u32) -> DrawnMove
        ensures process { mover result ≡ Some (word % 3) }
        ensures crash { IsTrue (is_crash result) ↔ (word / 64 % 16 ≡ 0) }
        ensures drawn { (seen : ℕ → List Sight) → Observes seen self.now → result ≡ move_of_word seen word }
    {
        let p = word % 3;
        let observation = &self.observer[p as usize];
        let p = u64::from(p);
        if word / 64 % 16 == 0 {
            return DrawnMove::Crash(p);
        }
        observation.move_onward(p)
    }

    /// Notes that a process crashed.
    pub fn note_crash(&mut self, p: u64)
        ensures { (seen : ℕ → List Sight) → Observes seen self.old → Observes (at_process p (λ s. Falls ∷ s) seen) self.new }
    {
        if p < PROCS {
            self.observer[p as usize].note_crash();
        }
    }

    /// Notes that every process crashed.
    pub fn note_system_crash(&mut self)
        ensures { (seen : ℕ → List Sight) → Observes seen self.old → Observes (λ p. Falls ∷ seen p) self.new }
    {
        self.note_crash(0);
        self.note_crash(1);
        self.note_crash(2);
    }

    /// Notes that a process started a call.
    pub fn note_start(&mut self, p: u64, next_call: NextCall)
        ensures { (seen : ℕ → List Sight) → Observes seen self.old
            → Observes (at_process p (λ s. Begins next_call ∷ s) seen) self.new }
    {
        if p < PROCS {
            self.observer[p as usize].note_start(next_call);
        }
    }

    /// Notes that a process took a step, and the answer where the step ended its call.
    pub fn note_step(&mut self, p: u64, answer: Option<Answer>)
        ensures { (seen : ℕ → List Sight) → Observes seen self.old → Observes (at_process p (answered_if answer) seen) self.new }
    {
        if let Some(answer) = answer {
            self.note_answer(p, answer);
        }
    }

    /// Notes the answer of the call that a process has under way.
    fn note_answer(&mut self, p: u64, answer: Answer)
        ensures { (seen : ℕ → List Sight) → Observes seen self.old → Observes (at_process p (answered_of answer) seen) self.new }
    {
        if p < PROCS {
            self.observer[p as usize].note_step(answer);
        }
    }
}
