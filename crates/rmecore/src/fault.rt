//! Why a verdict is against a run.

use std::error::Error;
use std::fmt;

/// Why a verdict is against a run. A judge refuses a deed for the first of its needs that fails; the judge table orders the needs.
/// The last four come from no judge: three count the own steps of an algorithm's process, and one is of its state.
#[derive(Clone, Copy, Debug, PartialEq, Eq)]
pub enum Fault {
    /// The process is in the wrong phase for the deed, or there is no such process.
    OutOfPlace,
    /// Another process is inside.
    TwoInside,
    /// A process crashed inside, and has to enter again before any other enters.
    NotReentered,
    /// Process `of` was ready before process `by` began its doorway, and `of` has not entered yet.
    Overtaken { by: u64, of: u64 },
    /// A process that is not inside writes the mailbox.
    NotInside,
    /// The mailbox's state does not allow the deed.
    MailOrder,
    /// The mailbox is closed.
    AfterClose,
    /// A process takes more own steps in its exit section than the algorithm promises.
    LongExit,
    /// A process that crashed inside takes more own steps up to its re-entry than the algorithm promises.
    LongRecovery,
    /// A process takes more own steps in its doorway than the algorithm promises.
    LongDoorway,
    /// A condition holds that the algorithm promises never to hold.
    BrokenClaim,
}

impl fmt::Display for Fault {
    fn fmt<W: fmt::Write>(&self, f: &mut fmt::Formatter<W>) -> fmt::Result {
        let text = match self {
            Fault::OutOfPlace => "the deed is out of place",
            Fault::TwoInside => "another process is inside",
            Fault::NotReentered => "one that crashed inside has not entered again",
            Fault::Overtaken { by, of } => return write!(
                f,
                "process {by} goes before process {of}"
            ),
            Fault::NotInside => "the process is not inside",
            Fault::MailOrder => "the mailbox is not in a state for this deed",
            Fault::AfterClose => "the mailbox is closed",
            Fault::LongExit => "the exit takes more steps than are promised",
            Fault::LongRecovery => "the recovery takes more steps than are promised",
            Fault::LongDoorway => "the doorway takes more steps than are promised",
            Fault::BrokenClaim => "a condition holds that is promised never to hold",
        };
        f.write_str(text)
    }
}

impl Error for Fault {}
