//! The calls of the lock's core.

/// A call of the lock's core. It touches no data word.
#[derive(Clone, Copy, Debug, PartialEq, Eq)]
pub enum CoreCall {
    Lock,
    Recover,
    Unlock,
    Withdraw,
}
