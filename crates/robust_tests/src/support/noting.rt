//! A gate that notes which answers its worker reports, and after which asking.

use crash_plans::{Both, CrashPlan};
use std::alloc::{AllocError, Global};
use std::sync::Arc;
use std::sync::atomic::{AtomicU64, Ordering};
use table_runs::lab::{Gate, Spec};

/// One worker with three messages. No other process takes a number, so the limit 1 is enough.
pub const ALONE: Spec = Spec {
    procs: 1,
    messages: 3,
    limit: 1,
    cap: 3,
    width: 1,
};

/// The answers of that worker, each with the askings up to it, if it crashes at its askings 12 and 42. An append that isn't
/// cut off takes 23 steps; one that is called again after a crash inside before its commit takes 21.
const TOLD: [(u64, u64); 3] = [(1, 34), (2, 64), (3, 88)];

/// What a gate has noted: the askings, the answers that came as expected, and whether another answer came.
#[derive(Drop)]
pub struct GateNotes {
    askings: AtomicU64,
    right: AtomicU64,
    wrong: AtomicU64,
}

impl GateNotes {
    /// Each of the three answers was reported once, in order, after its asking, and the worker has not asked since.
    pub fn are_right(&self) -> bool {
        self.right.load(Ordering::SeqCst) == 3
            && self.wrong.load(Ordering::SeqCst) == 0
            && self.askings.load(Ordering::SeqCst) == 88
    }
}

/// The gate of that worker.
#[derive(Drop)]
pub struct Noting {
    plan: Both,
    askings: u64,
    heard: usize,
    notes: Arc<GateNotes>,
}

impl Noting {
    /// The gate, and its notes for the test.
    pub fn new(alloc: Global) -> Result<(Noting, Arc<GateNotes>), AllocError> {
        let notes = GateNotes {
            askings: AtomicU64::new(0),
            right: AtomicU64::new(0),
            wrong: AtomicU64::new(0),
        };
        let notes = Arc::new(alloc, notes)?;
        let gate = Noting {
            plan: Both::new(12, 30),
            askings: 0,
            heard: 0,
            notes: Arc::try_clone(&notes)?,
        };
        Ok((gate, notes))
    }
}

impl CrashPlan for Noting {
    ghost askings = { λ g. g.plan.askings };

    fn falls(&mut self) -> bool {
        self.askings = self.askings.saturating_add(1);
        self.notes.askings.store(self.askings, Ordering::SeqCst);
        self.plan.falls()
    }
}

impl Gate for Noting {
    fn answered(&mut self, call: u64) {
        if TOLD.get(self.heard) == Some(&(call, self.askings)) {
            self.heard = self.heard.saturating_add(1);
            self.notes.right.store(self.heard as u64, Ordering::SeqCst);
        } else {
            self.notes.wrong.store(1, Ordering::SeqCst);
        }
    }
}
