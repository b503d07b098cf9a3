//! Replays, as the reference interpreter of the format reports them: the sizes, each move of a schedule with what it does, and the
//! values of all words at its end.

pub mod bakeries;
pub mod others;
