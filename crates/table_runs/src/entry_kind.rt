//! How a lock was entered.

/// How a process has entered the section: the answer of a lock.
#[derive(Clone, Copy, Debug, PartialEq, Eq)]
pub enum Entry {
    /// There is nothing to mend.
    Clean,
    /// The process itself crashed inside before and holds the section again (POSIX: EOWNERDEAD). It has to call `consistent`
    /// first: an unlock without it ruins the lock for good.
    OwnerDied,
}
