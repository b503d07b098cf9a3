//! Why a hunt gives no answer.

use thiserror::Error;

/// Why a hunt gives no answer.
#[derive(Clone, Copy, Debug, PartialEq, Eq, Error)]
pub enum HuntFault {
    /// The number of rounds is not 1 to 10,000.
    #[error("bad rounds")]
    BadRounds,
    /// The number of moves a round is not 1 to 10,000.
    #[error("bad steps")]
    BadSteps,
    #[error("out of memory")]
    OutOfMemory,
}
