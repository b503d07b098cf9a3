//! The lock words after the rows so far.

ghost use Rattle.std.specs.Prelude.{◌≡◌, slice_set};
ghost use Rattle.diagram.specs.StepLines.{lock_after, lock_with, own_at, played_with, words_after_store};

use crate::act::{DiagramRow, RowAct};
use crate::marked_steps::MarkedSteps;
use passages::lock_memory::stores;
use rmecore::{Happened, Own, Word};
use std::marker::Model;

/// The lock words of process j; past the list all 0.
fn own_at(lock: &[Own], j: u64) -> Own
    ensures { result ≡ own_at lock.now j }
{
    let none = Own {
        choosing: 0,
        number: 0,
        inside: 0,
    };
    lock.get(j as usize).copied().unwrap_or(none)
}

/// Sets the lock words of process j, if there is one.
fn set_own(lock: &mut Vec<Own>, j: u64, own: Own)
    ensures { lock.new.items ≡ slice_set lock.old.items j own }
{
    if let Some(place) = lock.get_mut(j as usize) {
        *place = own;
    }
}

/// Stores a word, if it is a lock word.
fn store(lock: &mut Vec<Own>, word: Word, value: u64)
    ensures { lock.new.items ≡ words_after_store lock.old.items word value }
{
    match word {
        Word::Choosing(j) => {
            let own = own_at(lock, j);
            set_own(
                lock,
                j,
                Own {
                    choosing: value,
                    ..own
                },
            );
        }
        Word::Number(j) => {
            let own = own_at(lock, j);
            set_own(
                lock,
                j,
                Own {
                    number: value,
                    ..own
                },
            );
        }
        Word::Inside(j) => {
            let own = own_at(lock, j);
            set_own(
                lock,
                j,
                Own {
                    inside: value,
                    ..own
                },
            );
        }
        Word::Data(_) => {}
    }
}

/// Makes the store of a step, if it is one.
fn take_access(lock: &mut Vec<Own>, happened: &Happened)
    ensures { lock.new.items ≡ lock_after lock.old.items happened.now }
{
    if stores(happened.kind) {
        store(lock, happened.word, happened.value);
    }
}

/// Makes the store of a row, if it has one.
fn take_act(lock: &mut Vec<Own>, act: &RowAct)
    ensures { lock.new.items ≡ lock_with lock.old.items act.now }
{
    match act {
        RowAct::Silent(happened, _) => take_access(lock, happened),
        RowAct::Telling(stepped) => take_access(lock, &stepped.happened),
        RowAct::Fell(_) => {}
    }
}

/// What the steps so far have shown, and the lock words after them.
#[derive(Drop)]
pub struct Played {
    steps: MarkedSteps,
    lock: Vec<Own>,
}

impl Model for Played {
    ghost use Rattle.diagram.specs.StepLines.{PlayedState};

    ghost Value = { PlayedState };

    ghost view = { λ p. record { steps = p.steps; lock = p.lock.items } };
}

impl Played {
    /// Before the first row, with these lock words.
    pub fn new(steps: MarkedSteps, lock: Vec<Own>) -> Played
        ensures { result ≡ record { steps = steps; lock = lock.items } }
    {
        Played { steps, lock }
    }

    /// What the steps have shown.
    pub fn steps(&self) -> &MarkedSteps
        ensures { result.now ≡ self.now.steps }
    {
        &self.steps
    }

    /// The lock words.
    pub fn lock(&self) -> &[Own]
        ensures { result.now ≡ self.now.lock }
    {
        self.lock.as_slice()
    }

    /// Takes the next row.
    pub fn take(&mut self, row: &DiagramRow)
        ensures { self.new ≡ played_with self.old row.now }
    {
        self.steps.take(row);
        take_act(&mut self.lock, &row.act);
    }
}
