//! The state under the mutex.

ghost use Rattle.std.specs.Prelude.{◌≡◌, ◌≢◌, ◌<◌, ◌+◌, ◌⊎◌, ◌↔◌, Some, None, IfOk, IfErr, OnOk, OnErr, IsTrue};
ghost use Rattle.rmecore.specs.Simulated.{tally_at};
ghost use Rattle.rmeworld.specs.Replayed.{world_after_step, world_step_report, world_after_start, world_after_crash, start_refusal, advance_refusal, crash_refusal, image_of};
ghost use Rattle.rmeworld.specs.ImageRules.{IsLawfulImage};
ghost use Rattle.rmeworld.specs.WorldState.{new_world};
ghost use Rattle.one_lock.specs.Answers.{crash_by, world_after_opening, Opens, Reports, RefusesStep, RefusesToOpen};
ghost use Rattle.one_lock.specs.Execution.{AreSizes};

use crate::opening::Opening;
use crate::sizes::Sizes;
use crate::turn::StepReport;
use rmecore::Refusal;
use rmeworld::{Call, Image, World};
use std::marker::{Model, PhantomData};
use std::sync::ledger::{Book, Ledger, Share};

/// The world that all members step in, and the book that counts their steps.
#[derive(Drop)]
pub struct Shared<L: Ledger, S: Sizes> {
    world: World,
    book: Book<L>,
    sizes: PhantomData<S>,
}

impl<L: Ledger, S: Sizes> Model for Shared<L, S> {
    ghost use Rattle.one_lock.specs.Execution.{LockedState, HasExecution, AreSizes};

    ghost Value = { LockedState };

    ghost view = { λ s. record { world = s.world; total = s.book.total } };

    ghost invariant = { λ s. HasExecution s.world s.book.total × AreSizes S.named s.world.layout s.world.limit };
}

impl<L: Ledger, S: Sizes> Shared<L, S> {
    ghost use Rattle.one_lock.specs.Execution.{IsLeftBy, HasExecution};

    /// A new world, and a book that has counted nothing.
    pub fn new(world: World, book: Book<L>) -> Shared<L, S>
        requires sizes { AreSizes S.named world.layout world.limit }
        requires world { world ≡ new_world world.layout world.limit }
        requires book { book.total ≡ 0 }
        ensures { result ≡ record { world = world; total = 0 } }
    {
        Shared {
            world,
            book,
            sizes: PhantomData,
        }
    }

    /// One step of a process, after its crash or start if `opening` has one. The book and the share grow by one. An error is
    /// the world's refusal: nothing was counted.
    pub fn step(
        &mut self,
        share: &mut Share<L>,
        p: u64,
        opening: Opening,
    ) -> Result<StepReport, Refusal>
        requires { 0 < share.old.parts }
        ensures world { OnOk result (self.new.world ≡ world_after_step (world_after_opening opening p self.old.world) p) }
        ensures left { OnErr result ((self.new.world ≡ self.old.world)
            ⊎ (self.new.world ≡ crash_by opening.crash p self.old.world)
            ⊎ (self.new.world ≡ world_after_opening opening p self.old.world)) }
        ensures book { OnOk result (self.new.total ≡ self.old.total + 1) }
        ensures share { OnOk result (share.new.amount ≡ share.old.amount + 1) }
        ensures uncounted { OnErr result ((self.new.total ≡ self.old.total) × (share.new.amount ≡ share.old.amount)) }
        ensures parts { share.new.parts ≡ share.old.parts }
        ensures reports { IfOk result (Reports S.named p opening) }
        ensures refused { IfErr result (RefusesStep p opening self.old.world) }
    {
        self.knows_execution();
        self.open(p, opening)?;
        self.advance(share, p)
    }

    /// What is known whenever the mutex is free: the world is the end of some run, and has the sizes that are named.
    fn knows_execution(&self)
        ensures run { HasExecution self.now.world self.now.total }
        ensures sizes { AreSizes S.named self.now.world.layout self.now.world.limit }
    {
        // For the proof alone: its value is read.
        let _ = &self.world;
    }

    /// The crash and the start before a step.
    fn open(&mut self, p: u64, opening: Opening) -> Result<(), Refusal>
        ensures ok { OnOk result (self.new.world ≡ world_after_opening opening p self.old.world) }
        ensures opens { OnOk result (Opens p opening self.old.world) }
        ensures err { OnErr result ((self.new.world ≡ self.old.world)
            ⊎ (self.new.world ≡ crash_by opening.crash p self.old.world)) }
        ensures refused { IfErr result (RefusesToOpen p opening self.old.world) }
        ensures book { self.new.total ≡ self.old.total }
    {
        if opening.crash {
            self.crash(p)?;
        }
        if let Some(call) = opening.call {
            self.start(p, call)?;
        }
        Ok(())
    }

    /// One step of the world, which the book counts.
    fn advance(&mut self, share: &mut Share<L>, p: u64) -> Result<StepReport, Refusal>
        requires { 0 < share.old.parts }
        ensures accepted { OnOk result (advance_refusal self.old.world p ≡ None) }
        ensures world { OnOk result (self.new.world ≡ world_after_step self.old.world p) }
        ensures happened { IfOk result (λ turn. turn.happened ≡ (world_step_report self.old.world p).happened) }
        ensures answer { IfOk result (λ turn. turn.answer ≡ (world_step_report self.old.world p).answer) }
        ensures blocked { IfOk result (λ turn. IsTrue turn.blocked
            ↔ ((tally_at self.new.world.tallies p).blocked ≢ (tally_at self.old.world.tallies p).blocked)) }
        ensures book { OnOk result (self.new.total ≡ self.old.total + 1) }
        ensures share { OnOk result (share.new.amount ≡ share.old.amount + 1) }
        ensures refused { IfErr result (λ e. (e ≡ Refusal.OutOfMemory) ⊎ (advance_refusal self.old.world p ≡ Some e)) }
        ensures uncounted { OnErr result ((self.new.world ≡ self.old.world) × (self.new.total ≡ self.old.total)
            × (share.new.amount ≡ share.old.amount)) }
        ensures parts { share.new.parts ≡ share.old.parts }
    {
        let before = self.world.blocked(p)?;
        let step = self.world.advance(p)?;
        self.book.add(share, 1);
        let blocked = match self.world.blocked(p) {
            Ok(after) => after != before,
            Err(_) => false,
        };
        Ok(StepReport {
            happened: step.happened,
            answer: step.answer,
            blocked,
        })
    }

    /// A process loses its private memory.
    fn crash(&mut self, p: u64) -> Result<(), Refusal>
        ensures accepted { OnOk result (crash_refusal self.old.world p ≡ None) }
        ensures ok { OnOk result (self.new.world ≡ world_after_crash self.old.world p) }
        ensures refused { IfErr result (λ e. (e ≡ Refusal.OutOfMemory) ⊎ (crash_refusal self.old.world p ≡ Some e)) }
        ensures err { OnErr result (self.new.world ≡ self.old.world) }
        ensures book { self.new.total ≡ self.old.total }
    {
        self.world.crash(p)?;
        Ok(())
    }

    /// A process starts a call.
    fn start(&mut self, p: u64, call: Call) -> Result<(), Refusal>
        ensures accepted { OnOk result (start_refusal self.old.world p call ≡ None) }
        ensures ok { OnOk result (self.new.world ≡ world_after_start self.old.world p call) }
        ensures refused { IfErr result (λ e. start_refusal self.old.world p call ≡ Some e) }
        ensures err { OnErr result (self.new.world ≡ self.old.world) }
        ensures book { self.new.total ≡ self.old.total }
    {
        self.world.start(p, call)?;
        Ok(())
    }

    /// The image of the world's words after the steps counted so far. `OutOfMemory`: there was no room for it.
    pub fn image(&self) -> Result<Image, Refusal>
        ensures ok { IfOk result (λ image. image ≡ image_of self.now.world) }
        ensures left { IfOk result (λ image. IsLeftBy self.now.total image) }
        ensures lawful { IfOk result (λ image. IsLawfulImage image) }
        ensures memory { IfErr result (λ e. e ≡ Refusal.OutOfMemory) }
    {
        self.world.image()
    }

    /// Changes nothing. It shows that the holder of all shares has taken all steps.
    pub fn audit(&mut self, all: &mut Share<L>)
        requires { all.old.parts ≡ L.parts }
        ensures same { self.new ≡ self.old }
        ensures whole { all.old.amount ≡ self.old.total }
    {
        self.book.audit(all);
    }
}
