//! Tests of texts, replays, wrong variants, hunts, minimized schedules and searches: each worked row of these.
//!
//! Main items: `texts`, `search`.
#![tactic(auto)]

mod search;
mod texts;
