//! Models of memory.

ghost use Rattle.std.specs.Prelude.{◌≡◌};
ghost use Rattle.algorithms.specs.remote_references.Passages.{ends_by_crash};

/// A model of memory. It says which accesses are remote.
#[derive(Clone, Copy, Debug, PartialEq, Eq)]
pub enum MemoryModel {
    /// Distributed shared memory: each word lives at one process, or at none. Nothing is cached.
    Distributed,
    /// Coherent caches in which each store goes through to the memory.
    WriteThrough,
    /// Coherent caches in which a store stays in the cache of its process until another process accesses the word.
    WriteBack,
}

/// What is measured: the remote references of a passage, or of a super-passage, which a crash does not end.
#[derive(Clone, Copy, Debug, PartialEq, Eq)]
pub enum PassageKind {
    Passage,
    SuperPassage,
}

impl PassageKind {
    /// Whether a crash of its process ends it.
    pub fn ends_by_crash(self) -> bool
        ensures { result ≡ ends_by_crash self }
    {
        match self {
            PassageKind::Passage => true,
            PassageKind::SuperPassage => false,
        }
    }
}
