//! Replays of schedules, as the reference program reports them: a schedule, and the whole report of its replay.

pub mod bakeries;
pub mod constructs;
pub mod others;
pub mod refusals;
pub mod variants;
