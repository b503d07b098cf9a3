//! A gate that holds its worker at one asking until the other worker has got far enough.

use super::text::number;
use crash_plans::{CrashPlan, Never};
use crossbeam_utils::Backoff;
use std::alloc::{AllocError, Global};
use std::sync::Arc;
use std::sync::atomic::{AtomicU64, Ordering};
use table_runs::lab::Gate;
use test_support::text::cut;

/// How often a gate checks before it gives up.
const MOST_LOOKS: u64 = 10_000_000;

/// How far a worker has got, and whether its gate has given up.
#[derive(Drop)]
pub struct WorkerProgress {
    askings: AtomicU64,
    answer: AtomicU64,
    /// The number of askings when the answer was reported.
    answered_at: AtomicU64,
    gave_up: AtomicU64,
}

impl WorkerProgress {
    /// Adds this many workers that have not asked yet.
    pub fn add(
        alloc: Global,
        count: u64,
        workers: &mut Vec<Arc<WorkerProgress>>,
    ) -> Result<(), AllocError> {
        for _ in 0..count {
            workers.push(WorkerProgress::new(alloc)?)?;
        }
        Ok(())
    }

    /// A worker that has not asked yet.
    fn new(alloc: Global) -> Result<Arc<WorkerProgress>, AllocError> {
        let progress = WorkerProgress {
            askings: AtomicU64::new(0),
            answer: AtomicU64::new(0),
            answered_at: AtomicU64::new(0),
            gave_up: AtomicU64::new(0),
        };
        Ok(Arc::new(alloc, progress)?)
    }

    /// Whether the gate has given up waiting.
    pub fn has_given_up(&self) -> bool {
        self.gave_up.load(Ordering::SeqCst) > 0
    }

    /// The worker has asked at least and at most this often, and its last answer, reported after its last asking, is this
    /// one; 0 is none.
    fn has_reported(&self, answer: u64, least: u64, most: u64) -> bool {
        let askings = self.askings.load(Ordering::SeqCst);
        let last = if answer == 0 { 0 } else { askings };
        least <= askings
            && askings <= most
            && self.answer.load(Ordering::SeqCst) == answer
            && self.answered_at.load(Ordering::SeqCst) == last
    }
}

/// How far the other worker has to get.
#[derive(Clone, Copy)]
pub enum Until {
    Asking(u64),
    Answer(u64),
}

/// Where the gate of a worker holds it, and what the worker has reported in the end.
#[derive(Clone, Copy)]
struct Hold {
    // the asking at which it is held; 0 for none
    at: u64,
    until: Until,
    // the worker that has to get that far
    on: usize,
    // its last answer; 0 for none
    answer: u64,
    // the askings in the end: at least and at most as many
    least: u64,
    most: u64,
}

/// The hold of these words, as in `12 asking 20 1 1 27 27`.
fn hold_of(words: &str) -> Hold {
    let mut rest = words;
    let at = number(&mut rest);
    let is_asking = cut(&mut rest, " ") == "asking";
    let far = number(&mut rest);
    Hold {
        at,
        until: if is_asking {
            Until::Asking(far)
        } else {
            Until::Answer(far)
        },
        on: number(&mut rest) as usize,
        answer: number(&mut rest),
        least: number(&mut rest),
        most: number(&mut rest),
    }
}

/// A gate without a crash. It holds its worker at the asking with this number.
#[derive(Drop)]
pub struct Gated {
    never: Never,
    askings: u64,
    at: u64,
    until: Until,
    mine: Arc<WorkerProgress>,
    others: Arc<WorkerProgress>,
}

impl Gated {
    fn new(
        at: u64,
        until: Until,
        mine: &Arc<WorkerProgress>,
        others: &Arc<WorkerProgress>,
    ) -> Result<Gated, AllocError> {
        Ok(Gated {
            never: Never::new(),
            askings: 0,
            at,
            until,
            mine: Arc::try_clone(mine)?,
            others: Arc::try_clone(others)?,
        })
    }

    fn is_let_go(&self) -> bool {
        match self.until {
            Until::Asking(k) => self.others.askings.load(Ordering::SeqCst) >= k,
            Until::Answer(call) => self.others.answer.load(Ordering::SeqCst) >= call,
        }
    }

    fn hold(&self) {
        let backoff = Backoff::new();
        for _ in 0..MOST_LOOKS {
            if self.is_let_go() {
                return;
            }
            backoff.snooze();
        }
        self.mine.gave_up.store(1, Ordering::SeqCst);
    }
}

impl CrashPlan for Gated {
    ghost askings = { λ g. g.never };

    fn falls(&mut self) -> bool {
        self.askings = self.askings.saturating_add(1);
        self.mine.askings.store(self.askings, Ordering::SeqCst);
        if self.askings == self.at {
            self.hold();
        }
        self.never.falls()
    }
}

impl Gate for Gated {
    fn answered(&mut self, call: u64) {
        self.mine.answered_at.store(self.askings, Ordering::SeqCst);
        self.mine.answer.store(call, Ordering::SeqCst);
    }
}

/// Two gates that meet. The second gate's first asking waits until worker 0 is at its asking 12, inside; and that asking
/// waits until worker 1 is at this one.
pub fn meeting(
    alloc: Global,
    asking: u64,
) -> Result<(Gated, Gated, Arc<WorkerProgress>, Arc<WorkerProgress>), AllocError> {
    let zero = WorkerProgress::new(alloc)?;
    let one = WorkerProgress::new(alloc)?;
    let first = Gated::new(12, Until::Asking(asking), &zero, &one)?;
    let second = Gated::new(1, Until::Asking(12), &one, &zero)?;
    Ok((first, second, zero, one))
}

/// Adds a gate for each worker, by these holds, which are separated by `; `.
pub fn add_gates(
    holds: &str,
    workers: &[Arc<WorkerProgress>],
    gates: &mut Vec<Gated>,
) -> Result<(), AllocError> {
    let mut rest = holds;
    for mine in workers {
        let hold = hold_of(cut(&mut rest, "; "));
        let Some(others) = workers.get(hold.on) else {
            return Err(AllocError);
        };
        gates.push(Gated::new(hold.at, hold.until, mine, others)?)?;
    }
    Ok(())
}

/// Whether no gate has given up, and each worker has reported what its hold says.
pub fn have_reported(workers: &[Arc<WorkerProgress>], holds: &str) -> bool {
    let mut rest = holds;
    for worker in workers {
        let hold = hold_of(cut(&mut rest, "; "));
        if worker.has_given_up() || !worker.has_reported(hold.answer, hold.least, hold.most) {
            return false;
        }
    }
    true
}
