//! The copies of one process.

ghost use Rattle.std.specs.Prelude.{◌≡◌, IfOk, replicate};
ghost use Rattle.algorithms.specs.remote_references.OwnCopies.{copy_after, copy_at, is_remote_with};

use crate::access::{Address, WordAccess};
use crate::constants::MOST_PROCS;
use crate::first_rows::{all_zero, zero_all};
use crate::refusal::AlgorithmRefusal;
use crate::remote_references::copies::lives_at;
use crate::remote_references::memory_event::MemoryEvent;
use crate::remote_references::memory_model::MemoryModel;
use crate::world::store;
use std::alloc::Global;
use std::marker::Model;

/// The copies that a process has in a model: for each word 0 where it has none, 1 for a copy, 2 for an exclusive one. Only `new`
/// allocates.
#[derive(Drop)]
pub struct OwnCopies {
    model: MemoryModel,
    process: u64,
    words: Vec<[u64; MOST_PROCS]>,
}

impl Model for OwnCopies {
    ghost use Rattle.algorithms.specs.remote_references.OwnCopies.{OwnCopiesState};

    ghost Value = { OwnCopiesState };

    ghost view = { λ c. record { model = c.model; process = c.process; words = c.words.items } };
}

/// The number of a copy after an access of its word.
fn copy_after(model: MemoryModel, own: bool, stores: bool, copy: u64) -> u64
    ensures { result ≡ copy_after model own stores copy }
{
    match (model, own, stores) {
        (MemoryModel::Distributed, _, _) => 0,
        (MemoryModel::WriteThrough, true, _) => 1,
        (MemoryModel::WriteThrough, false, true) => 0,
        (MemoryModel::WriteThrough, false, false) => copy,
        (MemoryModel::WriteBack, true, true) => 2,
        (MemoryModel::WriteBack, true, false) => copy.max(1),
        (MemoryModel::WriteBack, false, true) => 0,
        (MemoryModel::WriteBack, false, false) => copy.min(1),
    }
}

/// The number of a word's copy.
fn copy_at(words: &[[u64; MOST_PROCS]], word: Address) -> u64
    ensures { result ≡ copy_at words.now word }
{
    match words.get(word.declaration) {
        None => 0,
        Some(row) => match row.get(word.index as usize) {
            None => 0,
            Some(copy) => *copy,
        },
    }
}

impl OwnCopies {
    ghost use Rattle.std.specs.Prelude.{Some};
    ghost use Rattle.algorithms.specs.Worlds.{words_after_access};
    ghost use Rattle.algorithms.specs.remote_references.OwnCopies.{own_copies_after};

    /// A process without copies of the words of this many declarations.
    pub fn new(
        alloc: Global,
        model: MemoryModel,
        process: u64,
        declarations: usize,
    ) -> Result<OwnCopies, AlgorithmRefusal>
        ensures { IfOk result (λ c. c ≡ record {
          model = model;
          process = process;
          words = replicate declarations (replicate 64 0);
        }) }
    {
        let words = all_zero(alloc, declarations)?;
        Ok(OwnCopies {
            model,
            process,
            words,
        })
    }

    /// The process.
    pub fn process(&self) -> u64
        ensures { result ≡ self.now.process }
    {
        self.process
    }

    /// Changes the copies as an event of a run does.
    pub fn note(&mut self, event: MemoryEvent)
        ensures { self.new ≡ record self.old { words = own_copies_after self.old.model self.old.process self.old.words event } }
    {
        match event {
            MemoryEvent::Access(q, access) => {
                let copy = copy_at(self.words.as_slice(), access.address);
                let own = q == self.process;
                let copy = copy_after(self.model, own, access.stores_or_swaps(), copy);
                let stored = WordAccess {
                    address: access.address,
                    stores: Some(copy),
                    swaps: false,
                };
                store(self.words.as_mut_slice(), stored);
            }
            MemoryEvent::Crash(q) => {
                if q == self.process {
                    zero_all(self.words.as_mut_slice());
                }
            }
            MemoryEvent::CrashAll => zero_all(self.words.as_mut_slice()),
        }
    }

    /// Whether the next access of the process is remote, where its word has this home.
    pub fn is_remote(&self, home: Option<u64>, access: WordAccess) -> bool
        ensures { result ≡ is_remote_with self.now.model home (copy_at self.now.words access.address) self.now.process access }
    {
        let copy = copy_at(self.words.as_slice(), access.address);
        match self.model {
            MemoryModel::Distributed => !lives_at(home, self.process),
            MemoryModel::WriteThrough => access.stores_or_swaps() || copy == 0,
            MemoryModel::WriteBack => {
                if access.stores_or_swaps() {
                    copy != 2
                } else {
                    copy == 0
                }
            }
        }
    }

    /// The numbers of the copies, a row for each declaration.
    pub fn words(&self) -> &[[u64; MOST_PROCS]]
        ensures { result.now ≡ self.now.words }
    {
        self.words.as_slice()
    }

    /// For this workspace alone, to decode copies: sets the number of a word's copy. A word that is not there has none.
    pub fn seam_set_copy(&mut self, address: Address, copy: u64)
        ensures { self.new ≡ record self.old { words = words_after_access self.old.words address (Some copy) } }
    {
        let stored = WordAccess {
            address,
            stores: Some(copy),
            swaps: false,
        };
        store(self.words.as_mut_slice(), stored);
    }
}
