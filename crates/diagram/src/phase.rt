//! The phase of a process, as its steps show it.

ghost use Rattle.std.specs.Prelude.{◌≡◌, Some};
ghost use Rattle.redomail.specs.declared.deed.Deed.TheVariants.{Outer as DeedOuter};
ghost use Rattle.diagram.specs.Phases.{phase_of_deed as phase_to, phase_of_kind as phase_by, phase_of_last as phase_at_last, phase_shown as phase_in};

use crate::act::{DiagramRow, RowAct};
use redomail::Deed;
use rmecore::{Kind, Outer};

/// The phase of a process, as its steps show it.
#[derive(Clone, Copy)]
pub enum LifelinePhase {
    /// It is outside, and not on its way in.
    Rest,
    /// It takes a number.
    Doorway,
    /// It has a number, and waits.
    Waiting,
    /// It is inside.
    Section,
    /// It has crashed, and no step has shown yet where it goes on.
    Dead,
}

/// The phase that a deed of the lock leads to.
fn phase_of_outer(outer: Outer) -> LifelinePhase
    ensures { result ≡ phase_to (DeedOuter outer) }
{
    match outer {
        Outer::Begin(_) => LifelinePhase::Doorway,
        Outer::Ready(_) => LifelinePhase::Waiting,
        Outer::Enter(_) | Outer::Reenter(_) => LifelinePhase::Section,
        Outer::Leave(_) | Outer::Quit(_) => LifelinePhase::Rest,
        Outer::Crash(_) => LifelinePhase::Dead,
    }
}

/// The phase that a deed leads to. A deed of the mailbox is done in the section.
fn phase_of_deed(deed: &Deed) -> LifelinePhase
    ensures { result ≡ phase_to deed.now }
{
    match *deed {
        Deed::Outer(outer) => phase_of_outer(outer),
        Deed::Commit { .. } | Deed::Show { .. } => LifelinePhase::Section,
        Deed::Close { .. } | Deed::Ruin { .. } => LifelinePhase::Section,
    }
}

/// The phase that a step of this kind shows where it has no deed.
fn phase_of_kind(kind: Kind) -> Option<LifelinePhase>
    ensures { result ≡ phase_by kind }
{
    match kind {
        Kind::Peek => Some(LifelinePhase::Doorway),
        Kind::Shut | Kind::Look | Kind::Weigh => Some(LifelinePhase::Waiting),
        Kind::Get | Kind::Put => Some(LifelinePhase::Section),
        Kind::Mark => Some(LifelinePhase::Rest),
        Kind::Open | Kind::Take | Kind::Drop => None,
        Kind::Reread | Kind::Glance => None,
    }
}

/// The phase that a step of this kind shows where it ends a call and has no deed: a recover ends at rest.
fn phase_of_last(kind: Kind) -> Option<LifelinePhase>
    ensures { result ≡ phase_at_last kind }
{
    match kind {
        Kind::Reread | Kind::Shut => Some(LifelinePhase::Rest),
        _ => phase_of_kind(kind),
    }
}

/// The phase of its process that a row shows. None where the process stays in its phase.
pub fn phase_shown(row: &DiagramRow) -> Option<LifelinePhase>
    ensures { result ≡ phase_in row.now.act }
{
    match row.act {
        RowAct::Silent(happened, _) => phase_of_kind(happened.kind),
        RowAct::Telling(stepped) => match stepped.deed {
            Some(deed) => Some(phase_of_deed(&deed)),
            None => phase_of_last(stepped.happened.kind),
        },
        RowAct::Fell(_) => Some(LifelinePhase::Dead),
    }
}
