//! The deeds of one step.

ghost use Rattle.std.specs.Prelude.{◌≡◌};
ghost use Rattle.algorithms.specs.LocalRuns.{nothing_noted, noting};

use crate::line::AlgorithmDeed;

/// The deeds that one step has noted, in their order: a doorway of one step that also enters has three.
#[derive(Clone, Copy, Debug, PartialEq, Eq)]
pub struct NotedDeeds {
    pub first: Option<AlgorithmDeed>,
    pub second: Option<AlgorithmDeed>,
    pub third: Option<AlgorithmDeed>,
}

impl NotedDeeds {
    /// No deed.
    pub fn nothing() -> NotedDeeds
        ensures { result ≡ nothing_noted }
    {
        NotedDeeds {
            first: None,
            second: None,
            third: None,
        }
    }

    /// These deeds and one more. `None` where it is the fourth.
    pub fn and(self, deed: AlgorithmDeed) -> Option<NotedDeeds>
        ensures { result ≡ noting deed self }
    {
        let deed = Some(deed);
        match (self.first, self.second, self.third) {
            (None, _, _) => Some(NotedDeeds {
                first: deed,
                ..self
            }),
            (Some(_), None, _) => Some(NotedDeeds {
                second: deed,
                ..self
            }),
            (Some(_), Some(_), None) => Some(NotedDeeds {
                third: deed,
                ..self
            }),
            (Some(_), Some(_), Some(_)) => None,
        }
    }
}
