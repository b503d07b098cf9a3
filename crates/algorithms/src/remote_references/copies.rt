//! Which processes have copies of shared words in their caches.

ghost use Rattle.std.specs.Prelude.{◌≡◌, ℕ, ◌<◌, ◌*◌, List, [], ◌∷◌, ◌++◌, IfOk};
ghost use Rattle.algorithms.specs.remote_references.CopyRows.{AreCopiesAfter, IsRowOf};
ghost use Rattle.algorithms.specs.remote_references.RemoteReferences.{has_copy_for, is_remote, lives_at};

use crate::access::WordAccess;
use crate::remote_references::memory_event::MemoryEvent;
use crate::remote_references::memory_model::MemoryModel;
use crate::remote_references::process_rows::{
    clear_rows, has_in, note_exclusive, note_held, remove_process,
};
use std::alloc::{AllocError, Global};
use std::marker::Model;

/// The copies that 64 processes have of shared words. Only `new` allocates.
#[derive(Debug, Drop)]
pub struct Copies {
    held: Vec<u64>,
    exclusive: Vec<u64>,
}

impl Model for Copies {
    ghost use Rattle.algorithms.specs.remote_references.CopyRows.{CopyRows};

    ghost Value = { CopyRows };

    ghost view = { λ c. record { held = c.held.items; exclusive = c.exclusive.items } };
}

/// Whether a word with this home lives at process p.
pub(crate) fn lives_at(home: Option<u64>, p: u64) -> bool
    ensures { result ≡ lives_at home p }
{
    match home {
        None => false,
        Some(home) => home == p,
    }
}

impl Copies {
    /// Nobody has a copy of a word of these declarations.
    pub fn new(alloc: Global, declarations: usize) -> Result<Copies, AllocError>
        ensures { IfOk result (λ copies. AreCopiesAfter declarations [] copies) }
    {
        let Some(words) = declarations.checked_mul(64) else {
            return Err(AllocError);
        };
        let held = vec![in alloc; 0; words]?;
        let exclusive = vec![in alloc; 0; words]?;
        Ok(Copies { held, exclusive })
    }

    /// Changes the copies as this event does: an access gives its process one, a store and a swap take those of the others, and
    /// a crash takes all of its process.
    pub fn note(&mut self, event: MemoryEvent)
        ensures { (declarations : ℕ) (run : List MemoryEvent) → AreCopiesAfter declarations run self.old
            → AreCopiesAfter declarations (run ++ event ∷ []) self.new }
    {
        match event {
            MemoryEvent::Access(p, access) => {
                note_held(self.held.as_mut_slice(), p, access);
                note_exclusive(self.exclusive.as_mut_slice(), p, access);
            }
            MemoryEvent::Crash(p) => {
                remove_process(self.held.as_mut_slice(), p);
                remove_process(self.exclusive.as_mut_slice(), p);
            }
            MemoryEvent::CrashAll => {
                clear_rows(self.held.as_mut_slice());
                clear_rows(self.exclusive.as_mut_slice());
            }
        }
    }

    /// Whether the next access is remote in this model, where p makes it and its word has this home.
    pub fn is_remote(
        &self,
        model: MemoryModel,
        home: Option<u64>,
        p: u64,
        access: WordAccess,
    ) -> bool
        ensures { (declarations : ℕ) (run : List MemoryEvent) → AreCopiesAfter declarations run self.now → p < 64
            → IsRowOf (declarations * 64) access.address → result ≡ is_remote model home run p access }
    {
        match model {
            MemoryModel::Distributed => !lives_at(home, p),
            MemoryModel::WriteThrough => {
                access.stores_or_swaps() || !has_in(self.held.as_slice(), access.address, p)
            }
            MemoryModel::WriteBack => !self.has_copy_for(p, access),
        }
    }

    /// Whether p has a copy that is good for this access: a store and a swap need an exclusive one.
    fn has_copy_for(&self, p: u64, access: WordAccess) -> bool
        ensures { (declarations : ℕ) (run : List MemoryEvent) → AreCopiesAfter declarations run self.now → p < 64
            → IsRowOf (declarations * 64) access.address → result ≡ has_copy_for p access run }
    {
        if access.stores_or_swaps() {
            has_in(self.exclusive.as_slice(), access.address, p)
        } else {
            has_in(self.held.as_slice(), access.address, p)
        }
    }
}
