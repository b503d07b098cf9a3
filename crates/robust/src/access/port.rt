//! The port of a process: its seat at the table, with its view. Each method takes at most one step.
ghost use Rattle.std.specs.Prelude.{◌≡◌, ℕ, ◌<◌, ◌≤◌, ◌+◌, ◌^◌, true, false, [], Some, None, IsSome, IfOk, OnOk};
ghost use Rattle.std.specs.Arc.{arc_value};
ghost use Rattle.rmecore.specs.World.{is_store};
ghost use Rattle.redomail.specs.Layout.{size};
ghost use Rattle.rmeworld.specs.ProcessState.{next_process_state, Begins};
ghost use Rattle.rmeworld.specs.MachineState.{IsSize};
ghost use Rattle.table_runs.specs.Runs.{InTable, IsBeyond, index as index_of, word_count, IsRun};
ghost use Rattle.table_runs.specs.SeatView.{SeatView, CarriesPending, Looks, IsSeatView, single_seat, rest_known, new_seat_view, process_state_now, moved_process_state};

use crate::access::pending_events::PendingEvents;
use crate::access::table;
use crate::access::table::{LockTable, RunSeat};
use redomail::Layout;
use rmecore::{Kind, Word};
use rmeworld::Call;
use std::alloc::{AllocError, Global};
use std::marker::Model;
use std::sync::Arc;
use table_runs::Setup;

/// A process's access to the table, through its seat. Contracts see it as its view.
#[derive(Drop)]
pub struct Port {
    board: Arc<LockTable, Global>,
    seat: RunSeat,
    setup: Setup,
    by: u64,
    pending_events: PendingEvents,
}

impl Model for Port {
    ghost use Rattle.std.specs.Prelude.{◌≡◌, []};
    ghost use Rattle.std.specs.Arc.{arc_value};
    ghost use Rattle.robust.specs.PendingEvents.{has_crashed, started_call};
    ghost use Rattle.table_runs.specs.SeatView.{SeatView, IsSeatView, single_seat};

    ghost Value = { SeatView };

    ghost view = { λ w. record { table = w.seat.table_id; setup = w.setup; by = w.by; fallen = has_crashed w.pending_events; start = started_call w.pending_events; seen = w.seat.me.0.view.seen } };

    ghost invariant = { λ w. record {
      table : w.seat.table_id ≡ (arc_value w.board).shared.table_id;
      seat : w.seat.me
          ≡ (single_seat w.setup w.by w.seat.me.0.view.seen, []);
      seat_view : IsSeatView
          (record { table = w.seat.table_id; setup = w.setup; by = w.by; fallen = has_crashed w.pending_events; start = started_call w.pending_events; seen = w.seat.me.0.view.seen });
    } };
}

/// How many data words a mailbox of these sizes has.
#[tactic(auto, using(table_runs::proofs::Running::size_is))]
pub fn data_words(layout: &Layout) -> u64
    requires { IsSize layout.now }
    ensures { result ≡ size layout.now }
{
    10 + layout.width + layout.procs + (2 + layout.width) * layout.cap
}

/// The index of a word in the table.
pub fn index(setup: &Setup, word: Word) -> u64
    requires size { IsSize setup.now.layout }
    requires table { InTable setup.now word }
    ensures index { result ≡ index_of setup.now word }
    ensures within { result < word_count setup.now }
{
    match word {
        Word::Choosing(p) => 3 * p,
        Word::Number(p) => 3 * p + 1,
        Word::Inside(p) => 3 * p + 2,
        Word::Data(i) => 3 * setup.layout.procs + i,
    }
}

impl Port {
    /// Cuts the seat of process `by` off the seat of all later ones. `AllocError`: out of memory.
    pub fn first(
        board: &Arc<LockTable, Global>,
        seat: &mut RunSeat,
        setup: Setup,
        by: u64,
    ) -> Result<Port, AllocError>
        requires table { (seat.old.table_id ≡ (arc_value board.now).shared.table_id) × (seat.old.table_id.words ≡ word_count setup) }
        requires seat { seat.old.me ≡ (rest_known setup by, []) }
        requires within { (by < setup.layout.procs) × IsSize setup.layout }
        requires limited { (1 ≤ setup.limit) × (setup.limit ≤ 2 ^ 62) }
        ensures rest { OnOk result ((seat.new.table_id ≡ seat.old.table_id) × (seat.new.me ≡ (rest_known setup (by + 1), []))) }
        ensures port { IfOk result (λ w. w ≡ new_seat_view seat.old.table_id setup by) }
    {
        let board = Arc::try_clone(board)?;
        let own = table::cut_off(&board, seat);
        Ok(Port {
            board,
            seat: own,
            setup,
            by,
            pending_events: PendingEvents::nothing(),
        })
    }

    /// Its process.
    pub fn by(&self) -> u64
        ensures is { result ≡ self.now.by }
        ensures seat_view { IsSeatView self.now }
    {
        self.by
    }

    /// The number of processes.
    pub fn procs(&self) -> u64
        ensures is { result ≡ self.now.setup.layout.procs }
        ensures seat_view { IsSeatView self.now }
    {
        self.setup.layout.procs
    }

    /// The greatest number that a process may take.
    pub fn limit(&self) -> u64
        ensures is { result ≡ self.now.setup.limit }
        ensures seat_view { IsSeatView self.now }
    {
        self.setup.limit
    }

    /// The sizes of the arena.
    pub fn setup(&self) -> Setup
        ensures is { result ≡ self.now.setup }
        ensures seat_view { IsSeatView self.now }
    {
        self.setup
    }

    /// One load, which carries the pending crash and start.
    pub fn load(&mut self, kind: Kind, word: Word) -> u64
        requires table { InTable self.old.setup word }
        requires kind { is_store kind ≡ false }
        requires may { (found : ℕ) → found < 2 ^ 64 → IsSome (moved_process_state self.old kind word found) }
        ensures { CarriesPending self.old kind word result self.new }
    {
        let at = index(&self.setup, word);
        let events = &self.pending_events;
        let found = table::load(&self.board, &mut self.seat, events, kind, word, at);
        self.pending_events = PendingEvents::nothing();
        found
    }

    /// One store, which carries the pending crash and start.
    pub fn store(&mut self, kind: Kind, word: Word, new: u64)
        requires table { InTable self.old.setup word }
        requires kind { is_store kind ≡ true }
        requires may { IsSome (moved_process_state self.old kind word new) }
        ensures { CarriesPending self.old kind word new self.new }
    {
        let at = index(&self.setup, word);
        table::store(
            &self.board,
            &mut self.seat,
            &self.pending_events,
            kind,
            word,
            at,
            new,
        );
        self.pending_events = PendingEvents::nothing();
    }

    /// A step at a data word past the table's end: no word changes, and a load reads 0. It loads word 0 and drops the value.
    pub fn step_past_end(&mut self, kind: Kind, word: Word, value: u64)
        requires beyond { IsBeyond self.old.setup word }
        requires zero { is_store kind ≡ false → value ≡ 0 }
        requires may { IsSome (moved_process_state self.old kind word value) }
        ensures { CarriesPending self.old kind word value self.new }
    {
        table::step_past_end(
            &self.board,
            &mut self.seat,
            &self.pending_events,
            kind,
            word,
            value,
        );
        self.pending_events = PendingEvents::nothing();
    }

    /// Reads any word, at any stage of a call. Pending events stay pending.
    pub fn glance(&mut self, word: Word) -> u64
        requires { InTable self.old.setup word }
        ensures { Looks self.old word result self.new }
    {
        let at = index(&self.setup, word);
        table::glance(&self.board, &mut self.seat, word, at)
    }

    /// The process loses its private memory. The words stay as they are.
    pub fn crash(&mut self)
        ensures { self.new ≡ record self.old { fallen = true; start = None } }
    {
        self.pending_events = PendingEvents::crash();
    }

    /// The process starts a call.
    pub fn begin(&mut self, call: Call)
        requires none { self.old.start ≡ None }
        requires may { IsSome (next_process_state self.old.setup.layout self.old.setup.limit (process_state_now self.old)
            (Begins self.old.by call)) }
        ensures { self.new ≡ record self.old { start = Some call } }
    {
        self.pending_events.begin(&call);
    }

    /// The table and the seat.
    pub fn into_parts(self) -> (Arc<LockTable, Global>, RunSeat)
        ensures table { (result.1.table_id ≡ self.table) × ((arc_value result.0).shared.table_id ≡ self.table) }
        ensures seat { result.1.me ≡ (single_seat self.setup self.by self.seen, []) }
        ensures seat_view { IsSeatView self }
    {
        let Port {
            board,
            seat,
            setup: _,
            by: _,
            pending_events: _,
        } = self;
        (board, seat)
    }
}
