//! Tests of a process's phase.

ghost use Rattle.std.specs.Prelude.{◌≡◌, count_by};
ghost use Rattle.std.specs.List.{list_any};
ghost use Rattle.rmecore.specs.AbstractLock.{is_out as is_at_out, is_door as is_at_door, is_ready as is_at_ready, is_inside as is_at_inside, is_dead_in as is_at_dead_in, phase_after_crash as crashed_from};

use rmecore::Phase;

/// The process is out.
pub(crate) fn is_out(phase: Phase) -> bool
    ensures { result ≡ is_at_out phase }
{
    matches!(phase, Phase::Out)
}

/// The process is in the doorway.
pub(crate) fn is_door(phase: Phase) -> bool
    ensures { result ≡ is_at_door phase }
{
    matches!(phase, Phase::Door)
}

/// The process is ready.
pub(crate) fn is_ready(phase: Phase) -> bool
    ensures { result ≡ is_at_ready phase }
{
    matches!(phase, Phase::Ready)
}

/// The process is inside.
pub(crate) fn is_inside(phase: Phase) -> bool
    ensures { result ≡ is_at_inside phase }
{
    matches!(phase, Phase::Inside)
}

/// The process crashed inside.
pub(crate) fn is_dead_in(phase: Phase) -> bool
    ensures { result ≡ is_at_dead_in phase }
{
    matches!(phase, Phase::DeadIn)
}

/// The phase after a crash.
pub(crate) fn phase_after_crash(phase: Phase) -> Phase
    ensures { result ≡ crashed_from phase }
{
    match phase {
        Phase::Inside => Phase::DeadIn,
        _ => phase,
    }
}

/// Whether a process is inside.
pub(crate) fn anyone_inside(phases: &[Phase]) -> bool
    ensures { result ≡ list_any is_at_inside phases.now }
{
    phases.contains(&Phase::Inside)
}

/// How many processes are inside.
pub(crate) fn count_inside(phases: &[Phase]) -> usize
    ensures { result ≡ count_by is_at_inside phases.now }
{
    let mut count = 0;
    for phase in phases {
        if is_inside(*phase) {
            count += 1;
        }
    }
    count
}

/// How many processes are dead in.
pub(crate) fn count_dead_in(phases: &[Phase]) -> usize
    ensures { result ≡ count_by is_at_dead_in phases.now }
{
    let mut count = 0;
    for phase in phases {
        if is_dead_in(*phase) {
            count += 1;
        }
    }
    count
}
