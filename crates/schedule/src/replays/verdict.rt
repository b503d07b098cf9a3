//! What a judge says of a run.

ghost use Rattle.std.specs.Prelude.{◌≡◌};
ghost use Rattle.schedule.specs.Verdicts.{number_of_fault};

use rmecore::Fault;

/// What is said of a run.
#[derive(Clone, Copy, Debug, PartialEq, Eq)]
pub enum Verdict {
    /// All deeds are allowed, one after another, and no bound on own steps is exceeded.
    Fine,
    /// The first deed that is not allowed, counted from 1, and why. Of a bound on own steps, the deed that comes next.
    Against { at: u64, fault: Fault },
}

/// The number of a fault in a report, from 1 to 11.
pub fn fault_number(fault: Fault) -> u64
    ensures { result ≡ number_of_fault fault }
{
    match fault {
        Fault::OutOfPlace => 1,
        Fault::TwoInside => 2,
        Fault::NotReentered => 3,
        Fault::Overtaken { .. } => 4,
        Fault::NotInside => 5,
        Fault::MailOrder => 6,
        Fault::AfterClose => 7,
        Fault::LongExit => 8,
        Fault::LongRecovery => 9,
        Fault::LongDoorway => 10,
        Fault::BrokenClaim => 11,
    }
}
