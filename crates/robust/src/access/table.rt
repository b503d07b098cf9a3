//! The shared table, which no other file names: its rule, what the caller learns from a step, and each load and store.
ghost use Rattle.std.specs.Prelude.{◌≡◌, ℕ, ◌<◌, []};
ghost use Rattle.atomic_table.specs.Table.{Splits, Joins};
ghost use Rattle.table_runs.specs.SeatView.{glance_step};
ghost use Rattle.table_runs.specs.Rule.{TableRuleHolds, Did, MayLoad, MayStore, MayStepPastEnd, without_first, first_alone, joined_knowledge, spent_known};
ghost use Rattle.robust.specs.PendingEvents.{step_of};

use crate::access::pending_events::PendingEvents;
use atomic_table::{Join, Play, Seat, Split, Table, TableRule};
use rmecore::{Kind, Word};
use std::alloc::Global;
use std::marker::{Brand, PhantomData};
use table_runs::Setup;
use table_runs::entry::SeatKnowledge;

/// The rule of the table: there is one run, its words are the table's, and each seat's view is a prefix of it. The key is
/// the sizes.
pub struct OneRun;

impl TableRule<(), SeatKnowledge, Setup> for OneRun {
    ghost use Rattle.table_runs.specs.Rule.{TableRuleHolds, opening_known};

    ghost holds = { TableRuleHolds };

    ghost first = { opening_known };
}

/// The table: three lock words for each process, then the data words.
pub type LockTable = Table<(), SeatKnowledge, Setup, OneRun, Global>;

/// A seat at the table. What it knows is in `SeatKnowledge`.
pub type RunSeat = Seat<(), SeatKnowledge>;

/// Gives a name to the step that a load or a store is. Only contracts use it.
trait StepName {
    ghost use Rattle.std.specs.Prelude.{ℕ};
    ghost use Rattle.table_runs.specs.declared.entry.Step.{Step};

    ghost step: { Step };

    /// The value of a step at a word past the table's end.
    ghost value: { ℕ };
}

impl StepName for Brand {
    ghost use Rattle.table_runs.specs.Rule.{no_step};

    ghost step = { no_step };

    ghost value = { 0 };
}

/// What a load or store shows: the run has grown by the step that D names.
struct Does<D> {
    of: PhantomData<D>,
}

impl<D: StepName> Play<(), SeatKnowledge> for Does<D> {
    ghost use Rattle.std.specs.Prelude.{◌≡◌};
    ghost use Rattle.table_runs.specs.Rule.{Did};

    ghost then = { λ step before found after. Did D.step before.0 found after.0 × (after.1 ≡ before.1) };
}

/// What a step at a word past the table's end shows: the run has grown by the step that D names.
struct Passes<D> {
    of: PhantomData<D>,
}

impl<D: StepName> Play<(), SeatKnowledge> for Passes<D> {
    ghost use Rattle.std.specs.Prelude.{◌≡◌};
    ghost use Rattle.table_runs.specs.Rule.{Did};

    ghost then = { λ step before found after. Did D.step before.0 D.value after.0 × (after.1 ≡ before.1) };
}

/// Split: the first process of a seat gets a seat of its own.
struct Cut;

impl Split<SeatKnowledge> for Cut {
    ghost use Rattle.table_runs.specs.Rule.{without_first, first_alone};

    ghost left = { without_first };

    ghost right = { first_alone };
}

/// Join: one seat answers for the processes of both.
struct Glue;

impl Join<SeatKnowledge> for Glue {
    ghost use Rattle.table_runs.specs.Rule.{joined_knowledge, spent_known};

    ghost both = { joined_knowledge };

    ghost spent = { spent_known };
}

/// Makes one load through the seat, as the step that `D` names. Answers the value that was read.
fn load_named<D: StepName>(
    table: &LockTable,
    seat: &mut RunSeat,
    pending_events: &PendingEvents,
    kind: Kind,
    word: Word,
    at: u64,
) -> u64
    requires table { seat.old.table_id ≡ table.now.shared.table_id }
    requires word { at < table.now.shared.table_id.words }
    requires step { step_of pending_events.now kind word ≡ D.step }
    requires may { MayLoad (step_of pending_events.now kind word) at seat.old.me.0.view }
    ensures same { (seat.new.table_id ≡ seat.old.table_id) × (seat.new.id ≡ seat.old.id) × (seat.new.me.1 ≡ seat.old.me.1) }
    ensures did { Did (step_of pending_events.now kind word) seat.old.me.0 result seat.new.me.0 }
{
    // For the proof alone: its value is read.
    let _ = pending_events;
    let _ = (kind, word);
    table.shared.load::<Does<D>>(seat, at as usize)
}

/// Makes one store through the seat, as the step that `D` names.
fn store_named<D: StepName>(
    table: &LockTable,
    seat: &mut RunSeat,
    pending_events: &PendingEvents,
    kind: Kind,
    word: Word,
    at: u64,
    new: u64,
)
    requires table { seat.old.table_id ≡ table.now.shared.table_id }
    requires word { at < table.now.shared.table_id.words }
    requires step { step_of pending_events.now kind word ≡ D.step }
    requires may { MayStore (step_of pending_events.now kind word) at seat.old.me.0.view new }
    ensures same { (seat.new.table_id ≡ seat.old.table_id) × (seat.new.id ≡ seat.old.id) × (seat.new.me.1 ≡ seat.old.me.1) }
    ensures did { Did (step_of pending_events.now kind word) seat.old.me.0 new seat.new.me.0 }
{
    // For the proof alone: its value is read.
    let _ = pending_events;
    let _ = (kind, word);
    table.shared.store::<Does<D>>(seat, at as usize, new);
}

/// Takes the step that `D` names, of a data word past the end of the mailbox: it loads word 0 of the table, and no word
/// changes.
fn step_past_end_named<D: StepName>(
    table: &LockTable,
    seat: &mut RunSeat,
    pending_events: &PendingEvents,
    kind: Kind,
    word: Word,
    value: u64,
)
    requires table { seat.old.table_id ≡ table.now.shared.table_id }
    requires some { 0 < table.now.shared.table_id.words }
    requires step { step_of pending_events.now kind word ≡ D.step }
    requires value { value ≡ D.value }
    requires may { MayStepPastEnd (step_of pending_events.now kind word) seat.old.me.0.view value }
    ensures same { (seat.new.table_id ≡ seat.old.table_id) × (seat.new.id ≡ seat.old.id) × (seat.new.me.1 ≡ seat.old.me.1) }
    ensures did { Did (step_of pending_events.now kind word) seat.old.me.0 value seat.new.me.0 }
{
    // For the proof alone: its value is read.
    let _ = pending_events;
    let _ = (kind, word, value);
    table.shared.load::<Passes<D>>(seat, 0);
}

/// A step at a data word past the table's end. The view grows by this step, and no word changes.
pub fn step_past_end(
    table: &LockTable,
    seat: &mut RunSeat,
    pending_events: &PendingEvents,
    kind: Kind,
    word: Word,
    value: u64,
)
    requires table { seat.old.table_id ≡ table.now.shared.table_id }
    requires some { 0 < table.now.shared.table_id.words }
    requires may { MayStepPastEnd (step_of pending_events.now kind word) seat.old.me.0.view value }
    ensures same { (seat.new.table_id ≡ seat.old.table_id) × (seat.new.id ≡ seat.old.id) × (seat.new.me.1 ≡ seat.old.me.1) }
    ensures did { Did (step_of pending_events.now kind word) seat.old.me.0 value seat.new.me.0 }
{
    step_past_end_named::<Brand>(table, seat, pending_events, kind, word, value);
}

/// One load of word `at`. The view grows by this step.
pub fn load(
    table: &LockTable,
    seat: &mut RunSeat,
    pending_events: &PendingEvents,
    kind: Kind,
    word: Word,
    at: u64,
) -> u64
    requires table { seat.old.table_id ≡ table.now.shared.table_id }
    requires word { at < table.now.shared.table_id.words }
    requires may { MayLoad (step_of pending_events.now kind word) at seat.old.me.0.view }
    ensures same { (seat.new.table_id ≡ seat.old.table_id) × (seat.new.id ≡ seat.old.id) × (seat.new.me.1 ≡ seat.old.me.1) }
    ensures did { Did (step_of pending_events.now kind word) seat.old.me.0 result seat.new.me.0 }
{
    load_named::<Brand>(table, seat, pending_events, kind, word, at)
}

/// One load of word `at` that belongs to no call. Pending events stay pending.
pub fn glance(table: &LockTable, seat: &mut RunSeat, word: Word, at: u64) -> u64
    requires table { seat.old.table_id ≡ table.now.shared.table_id }
    requires word { at < table.now.shared.table_id.words }
    requires may { MayLoad (glance_step word) at seat.old.me.0.view }
    ensures same { (seat.new.table_id ≡ seat.old.table_id) × (seat.new.id ≡ seat.old.id) × (seat.new.me.1 ≡ seat.old.me.1) }
    ensures did { Did (glance_step word) seat.old.me.0 result seat.new.me.0 }
{
    let pending_events = PendingEvents::nothing();
    load_named::<Brand>(table, seat, &pending_events, Kind::Glance, word, at)
}

/// One store into word `at`. The view grows by this step.
pub fn store(
    table: &LockTable,
    seat: &mut RunSeat,
    pending_events: &PendingEvents,
    kind: Kind,
    word: Word,
    at: u64,
    new: u64,
)
    requires table { seat.old.table_id ≡ table.now.shared.table_id }
    requires word { at < table.now.shared.table_id.words }
    requires may { MayStore (step_of pending_events.now kind word) at seat.old.me.0.view new }
    ensures same { (seat.new.table_id ≡ seat.old.table_id) × (seat.new.id ≡ seat.old.id) × (seat.new.me.1 ≡ seat.old.me.1) }
    ensures did { Did (step_of pending_events.now kind word) seat.old.me.0 new seat.new.me.0 }
{
    store_named::<Brand>(table, seat, pending_events, kind, word, at, new);
}

/// Gives the first process of a seat a seat of its own, which is answered.
pub fn cut_off(table: &LockTable, seat: &mut RunSeat) -> RunSeat
    requires { (seat.old.table_id ≡ table.now.shared.table_id) × (0 < table.now.shared.table_id.words)
        × Splits (TableRuleHolds table.now.shared.key) seat.old.id seat.old.me.0 (without_first seat.old.me.0)
        (first_alone seat.old.me.0) }
    ensures { (seat.new.table_id ≡ seat.old.table_id) × (seat.new.me ≡ (without_first seat.old.me.0, seat.old.me.1))
        × (result.table_id ≡ seat.old.table_id) × (result.me ≡ (first_alone seat.old.me.0, [])) }
{
    table.shared.split_seat::<Cut>(seat)
}

/// Joins the other seat into this one, which then answers for the processes of both.
pub fn take_in(table: &LockTable, seat: &mut RunSeat, other: RunSeat)
    requires { (seat.old.table_id ≡ table.now.shared.table_id) × (other.table_id ≡ table.now.shared.table_id)
        × (other.me.1 ≡ []) × (0 < table.now.shared.table_id.words)
        × Joins (TableRuleHolds table.now.shared.key) seat.old.id seat.old.me.0 other.id other.me.0
        (joined_knowledge seat.old.me.0 other.me.0)
        spent_known }
    ensures { (seat.new.table_id ≡ seat.old.table_id) × (seat.new.me ≡ (joined_knowledge seat.old.me.0 other.me.0, seat.old.me.1)) }
{
    table.shared.join_seat::<Glue>(seat, other);
}
