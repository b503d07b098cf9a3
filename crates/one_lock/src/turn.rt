//! What a member learns of a step of the world.

use rmecore::Happened;
use rmeworld::Answer;

/// The report of a step, for the member that took it.
#[derive(Clone, Copy, Debug)]
pub struct StepReport {
    pub happened: Happened,
    /// The answer of the call, if the step ended it.
    pub answer: Option<Answer>,
    /// Whether it was a look or a weigh that has to be taken again.
    pub blocked: bool,
}
