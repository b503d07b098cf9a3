//! The sections of a process whose own steps a text may bound.

ghost use Rattle.std.specs.Prelude.{◌≡◌};
ghost use Rattle.algorithm_lab.specs.Sections.{begins_between, promised_bound, bound_on, excess, excess_fault, is_still_in, bounds_steps, is_in_call, section_at, section_of_line, section_of_lock, steps_after, one_step_more};

use algorithms::{AlgorithmPlace, Entries, PromisedSteps, StepBounds};
use rmecore::{Fault, Phase};

/// A section of a process whose own steps a text may bound.
#[derive(Clone, Copy, Debug, PartialEq, Eq)]
pub enum BoundedSection {
    /// The call `unlock`.
    Exit,
    /// The call `lock` after a crash inside, up to the re-entry.
    Recovery,
    /// The call `lock` from its start to the step after which its process is ready.
    Doorway,
}

/// A section with the most own steps that a process may take in it.
#[derive(Clone, Copy, Debug, PartialEq, Eq)]
pub struct StepBound {
    pub section: BoundedSection,
    pub most: u64,
}

impl BoundedSection {
    /// What is wrong where a process takes more own steps in it than is promised.
    pub fn fault(self) -> Fault
        ensures { result ≡ excess_fault self }
    {
        match self {
            BoundedSection::Exit => Fault::LongExit,
            BoundedSection::Recovery => Fault::LongRecovery,
            BoundedSection::Doorway => Fault::LongDoorway,
        }
    }
}

/// Whether a process that was in a section is in it now.
fn is_still_in(section: BoundedSection, now: Option<BoundedSection>) -> bool
    ensures { result ≡ is_still_in section now }
{
    match (section, now) {
        (BoundedSection::Exit, Some(BoundedSection::Exit))
        | (BoundedSection::Recovery, Some(BoundedSection::Recovery))
        | (BoundedSection::Doorway, Some(BoundedSection::Doorway)) => true,
        _ => false,
    }
}

/// Whether a text bounds the own steps of a section.
pub(crate) fn bounds_steps(bounds: &StepBounds) -> bool
    ensures { result ≡ bounds_steps bounds.now }
{
    bounds.exit.is_some() || (bounds.recovery.is_some() || bounds.doorway.is_some())
}

/// The bound on the own steps of a section, where the text promises one.
fn promised_bound(promised: PromisedSteps, section: BoundedSection) -> Option<u64>
    ensures { result ≡ promised_bound promised section }
{
    match section {
        BoundedSection::Exit => promised.exit,
        BoundedSection::Recovery => promised.recovery,
        BoundedSection::Doorway => promised.doorway,
    }
}

/// A section with its bound, where the text promises one.
pub(crate) fn bound_on(promised: PromisedSteps, section: BoundedSection) -> Option<StepBound>
    ensures { result ≡ bound_on promised section }
{
    let most = promised_bound(promised, section)?;
    Some(StepBound { section, most })
}

/// Whether a call begins at a place after the first one, and at or before the second.
fn begins_between(begin: usize, at: usize, entry: Option<usize>) -> bool
    ensures { result ≡ begins_between begin at entry }
{
    match entry {
        None => false,
        Some(entry) => begin < entry && entry <= at,
    }
}

/// Whether the line at a place is one of the call that begins at the place `begin`.
fn is_in_call(entries: Entries, begin: usize, at: usize) -> bool
    ensures { result ≡ is_in_call entries begin at }
{
    let lock = begins_between(begin, at, Some(entries.lock));
    let unlock = begins_between(begin, at, Some(entries.unlock));
    let recover = begins_between(begin, at, entries.recover);
    let withdraw = begins_between(begin, at, entries.withdraw);
    begin <= at && !(lock || (unlock || (recover || withdraw)))
}

/// The section of `lock` in which a process in this phase is.
fn section_of_lock(phase: Phase) -> Option<BoundedSection>
    ensures { result ≡ section_of_lock phase }
{
    match phase {
        Phase::Out | Phase::Door => Some(BoundedSection::Doorway),
        Phase::DeadIn => Some(BoundedSection::Recovery),
        Phase::Ready | Phase::Inside => None,
    }
}

/// The section in which a process in this phase takes the line at a place.
fn section_of_line(entries: Entries, phase: Phase, at: usize) -> Option<BoundedSection>
    ensures { result ≡ section_of_line entries phase at }
{
    if is_in_call(entries, entries.unlock, at) {
        Some(BoundedSection::Exit)
    } else if is_in_call(entries, entries.lock, at) {
        section_of_lock(phase)
    } else {
        None
    }
}

/// The section that a process in this phase is in at this place.
pub(crate) fn section_at(
    entries: Entries,
    phase: Phase,
    place: AlgorithmPlace,
) -> Option<BoundedSection>
    ensures { result ≡ section_at entries phase place }
{
    match place {
        AlgorithmPlace::Rest | AlgorithmPlace::Dead => None,
        AlgorithmPlace::At(at) => section_of_line(entries, phase, at),
    }
}

/// The own steps in a section after one more. They are not counted on past one above the bound.
fn one_step_more(most: u64, taken: u64) -> u64
    ensures { result ≡ one_step_more most taken }
{
    if most < taken {
        taken
    } else {
        taken.saturating_add(1)
    }
}

/// The own steps of a process that are counted after a step of it, which leaves it in this section.
pub(crate) fn steps_after(bound: Option<StepBound>, taken: u64, now: Option<BoundedSection>) -> u64
    ensures { result ≡ steps_after bound taken now }
{
    match bound {
        None => 0,
        Some(bound) => {
            if is_still_in(bound.section, now) {
                one_step_more(bound.most, taken)
            } else {
                0
            }
        }
    }
}

/// The section in which a step is the first above the bound, where `taken` own steps were taken in it before.
pub(crate) fn excess(bound: Option<StepBound>, taken: u64) -> Option<BoundedSection>
    ensures { result ≡ excess bound taken }
{
    match bound {
        Some(bound) if bound.most == taken => Some(bound.section),
        _ => None,
    }
}
