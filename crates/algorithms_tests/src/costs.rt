//! The greatest numbers of remote references of passages and super-passages, against the numbers of the reference program's second
//! version, in which a word lives at no process that its text does not name.

use crate::remote_references::MODELS;
use crate::support::{number, searched_with, text_named};
use algorithm_explorer::{
    AlgorithmMove, CostQuestion, CostlySchedule, PassageCost, Unwatched, algorithm_cost,
};
use algorithm_texts::read_algorithm;
use algorithms::{
    AlgorithmCall, AlgorithmWorld, Copies, InitializedAlgorithm, MemoryEvent, MemoryModel,
    PassageKind,
};
use std::alloc::Global;
use std::fmt::Write;
use std::test::Fail;

/// After the text the sizes and the crashes. Of each model the greatest cost of a passage and of a super-passage.
pub const COSTS: &str = "\
cost of a passage\n\
== ticket 2 4 0\n--\ndsm unbounded unbounded\nwrite-through 4 4\nwrite-back 4 4\n\
== ticket 3 4 0\n--\ndsm unbounded unbounded\nwrite-through 5 5\nwrite-back 5 5\n\
== mcs 2 4 0\n--\ndsm unbounded unbounded\nwrite-through 8 8\nwrite-back 8 8\n\
== anderson 2 4 0\n--\ndsm unbounded unbounded\nwrite-through 5 5\nwrite-back 5 5\n\
== recoverable_ticket 2 4 0\n--\ndsm unbounded unbounded\nwrite-through 7 7\nwrite-back 6 6\n\
== peterson 2 4 0\n--\ndsm unbounded unbounded\nwrite-through 6 6\nwrite-back 6 6\n\
== recoverable_peterson 2 4 1\n--\ndsm unbounded unbounded\nwrite-through 12 15\nwrite-back 11 14\n\
== test_and_set 2 4 0\n--\ndsm unbounded unbounded\nwrite-through unbounded unbounded\nwrite-back unbounded unbounded\n\
== recoverable_test_and_set 2 4 1\n--\ndsm unbounded unbounded\nwrite-through unbounded unbounded\nwrite-back unbounded unbounded\n\
";

const CALLS: [AlgorithmCall; 2] = [AlgorithmCall::Lock, AlgorithmCall::Unlock];

/// What the last passage of a process costs, as far as a run has come.
#[derive(Drop)]
struct PassageCount {
    question: CostQuestion,
    process: u64,
    copies: Copies,
    count: u64,
    /// The process has crashed since its passage began.
    crashed: bool,
}

impl PassageCount {
    /// Makes a move in the world, and counts what it costs. A lock that is started begins a new passage, but after a crash no new
    /// super-passage.
    fn count_move(&mut self, world: &mut AlgorithmWorld, made: AlgorithmMove) -> Result<(), Fail> {
        match made {
            AlgorithmMove::Start(p, call) => {
                world.start(p, call)?;
                if p == self.process && call == AlgorithmCall::Lock {
                    if self.question.kind == PassageKind::Passage || !self.crashed {
                        self.count = 0;
                    }
                    self.crashed = false;
                }
            }
            AlgorithmMove::Step(p) => {
                let access = world.step(p)?.access;
                let algorithm = world.algorithm();
                let home = algorithm.home_of(access.address, world.procs(), world.limit());
                let model = self.question.model;
                if p == self.process && self.copies.is_remote(model, home, p, access) {
                    self.count = self.count.saturating_add(1);
                }
                self.copies.note(MemoryEvent::Access(p, access));
            }
            AlgorithmMove::Crash(p) => {
                world.crash(p)?;
                self.copies.note(MemoryEvent::Crash(p));
                self.crashed = self.crashed || p == self.process;
            }
            AlgorithmMove::CrashAll => {
                for p in 0..world.procs() {
                    world.crash(p)?;
                }
                self.copies.note(MemoryEvent::CrashAll);
                self.crashed = true;
            }
        }
        Ok(())
    }
}

/// What the last passage on a schedule costs, by a run of it.
fn cost_on_run(
    alloc: Global,
    algorithm: InitializedAlgorithm,
    sizes: (u64, u64),
    question: CostQuestion,
    found: &CostlySchedule<AlgorithmMove>,
) -> Result<u64, Fail> {
    let copies = Copies::new(alloc, algorithm.algorithm.declarations.len())?;
    let mut world = AlgorithmWorld::new(alloc, algorithm, sizes.0, sizes.1)?;
    let mut passage = PassageCount {
        question,
        process: found.process,
        copies,
        count: 0,
        crashed: false,
    };
    for made in found.schedule.as_slice() {
        passage.count_move(&mut world, *made)?;
    }
    Ok(passage.count)
}

/// Writes the greatest cost, and where its schedule costs otherwise, that too.
fn put_cost(
    alloc: Global,
    words: &[&str; 8],
    model: MemoryModel,
    kind: PassageKind,
    text: &mut String,
) -> Result<(), Fail> {
    let [name, procs, limit, ..] = words;
    let question = CostQuestion { model, kind };
    let sizes = (number(procs), number(limit));
    let search = searched_with(alloc, words, &CALLS)?;
    let answer = algorithm_cost(alloc, search, question, 1_000_000, &mut Unwatched)?;
    let PassageCost::Greatest(found) = answer else {
        text.push_str(" unbounded")?;
        return Ok(());
    };
    write!(text, " {}", found.cost)?;
    let algorithm = read_algorithm(alloc, text_named(name))?;
    let cost = cost_on_run(alloc, algorithm, sizes, question, &found)?;
    if cost != found.cost {
        write!(text, " but on its schedule {cost}")?;
    }
    Ok(())
}

/// The costs of an algorithm, as a case: the text, the sizes, and the crashes.
pub fn put_costs(alloc: Global, words: &[&str; 8], text: &mut String) -> Result<(), Fail> {
    for (model, name) in MODELS {
        text.push_str(name)?;
        for kind in [PassageKind::Passage, PassageKind::SuperPassage] {
            put_cost(alloc, words, model, kind, text)?;
        }
        text.push_str("\n")?;
    }
    Ok(())
}
