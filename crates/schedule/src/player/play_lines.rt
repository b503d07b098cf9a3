//! Plays the lines of a schedule on a machine. A listener hears each event.

ghost use Rattle.std.specs.Prelude.{IsTrue, IsFalse, ◌≡◌, ◌≤◌};
ghost use Rattle.schedule.specs.Fragments.{crash_all_line, crash_line, itself, later_steps, steps_line, line_on, run_on};
ghost use Rattle.schedule.specs.Plays.{TakesUnheard, Plays, PlaysOn, IsStopOf, IsLastCrash, IsLateEnd};

use crate::lines::line::Line;
use crate::player::automaton::Automaton;
use crate::player::listener::Listener;
use crate::player::play_stop::PlayStop;
use rmecore::simulated::MOST_PROCS;

/// Takes the next step of p if the listener need not hear it, and the machine sees cheaply that it is silent. True: the step was
/// taken. False: nothing changed.
// Inline: one call a step.
#[inline(always)]
fn take_unheard_step<M: Automaton, L: Listener<M>>(machine: &mut M, listener: &L, p: u64) -> bool
    ensures taken { IsTrue result → TakesUnheard M.transitions L.effects listener.now machine.old p machine.new }
    ensures same { IsFalse result → machine.new ≡ machine.old }
{
    listener.skips_silent_steps() && machine.take_silent_step(p)
}

/// Why a first step or a crash is not taken.
fn stop_of<M: Automaton, S>(refusal: M::Refusal) -> PlayStop<M::Refusal, S>
    ensures { IsStopOf M.transitions refusal result }
{
    if M::is_out_of_memory(&refusal) {
        return PlayStop::OutOfMemory;
    }
    PlayStop::Refused(refusal)
}

/// How steps end where one after the first is not taken.
fn end_of<M: Automaton, S>(refusal: M::Refusal) -> Result<(), PlayStop<M::Refusal, S>>
    ensures { IsLateEnd M.transitions refusal result }
{
    if M::is_out_of_memory(&refusal) {
        return Err(PlayStop::OutOfMemory);
    }
    if M::refuses_late() {
        return Err(PlayStop::Refused(refusal));
    }
    Ok(())
}

/// Takes at most n more steps of p, until its call is answered.
// Apart: most lines ask one step.
#[inline(never)]
fn more_steps<M: Automaton, L: Listener<M>>(
    machine: &mut M,
    listener: &mut L,
    p: u64,
    n: u64,
) -> Result<(), PlayStop<M::Refusal, L::Stop>>
    ensures { Plays M.transitions L.effects listener.old listener.new (later_steps M.transitions itself p n machine.old)
        machine.new result }
{
    for _ in 0..n {
        if take_unheard_step(machine, listener, p) {
            continue;
        }
        let step = match machine.take_step(p) {
            Ok(step) => step,
            Err(refusal) => return end_of::<M, L::Stop>(refusal),
        };
        if let Err(stop) = listener.hear_step(p, &step) {
            return Err(PlayStop::Stopped(stop));
        }
        if M::ends(&step) {
            return Ok(());
        }
    }
    Ok(())
}

/// As `take_steps`, where the machine has not taken the first step silently.
// Apart: most steps are silent.
#[inline(never)]
fn take_shown_steps<M: Automaton, L: Listener<M>>(
    machine: &mut M,
    listener: &mut L,
    p: u64,
    n: u64,
) -> Result<(), PlayStop<M::Refusal, L::Stop>>
    requires { 1 ≤ n }
    ensures { Plays M.transitions L.effects listener.old listener.new (steps_line M.transitions itself p n machine.old)
        machine.new result }
{
    let step = match machine.take_step(p) {
        Ok(step) => step,
        Err(refusal) => return Err(stop_of::<M, L::Stop>(refusal)),
    };
    if let Err(stop) = listener.hear_step(p, &step) {
        return Err(PlayStop::Stopped(stop));
    }
    if n == 1 {
        return Ok(());
    }
    if M::ends(&step) {
        return Ok(());
    }
    more_steps(machine, listener, p, n - 1)
}

/// Takes at most n steps of p, until its call is answered.
// Inline: one call a line.
#[inline(always)]
pub(crate) fn take_steps<M: Automaton, L: Listener<M>>(
    machine: &mut M,
    listener: &mut L,
    p: u64,
    n: u64,
) -> Result<(), PlayStop<M::Refusal, L::Stop>>
    requires { 1 ≤ n }
    ensures { Plays M.transitions L.effects listener.old listener.new (steps_line M.transitions itself p n machine.old)
        machine.new result }
{
    if !take_unheard_step(machine, listener, p) {
        return take_shown_steps(machine, listener, p, n);
    }
    let left = n - 1;
    if left == 0 {
        return Ok(());
    }
    more_steps(machine, listener, p, left)
}

/// Crashes p.
// Apart: few lines are crashes.
#[inline(never)]
fn take_crash<M: Automaton, L: Listener<M>>(
    machine: &mut M,
    listener: &mut L,
    p: u64,
) -> Result<(), PlayStop<M::Refusal, L::Stop>>
    ensures { Plays M.transitions L.effects listener.old listener.new
        (crash_line M.transitions itself p machine.old) machine.new result }
{
    let crash = match machine.crash_process(p) {
        Ok(crash) => crash,
        Err(refusal) => return Err(stop_of::<M, L::Stop>(refusal)),
    };
    if let Err(stop) = listener.hear_crash(p, &crash) {
        return Err(PlayStop::Stopped(stop));
    }
    Ok(())
}

/// How the crashes of all processes end where one is not taken: it has no process, or there is no memory.
fn last_crash<M: Automaton, S>(refusal: M::Refusal) -> Result<(), PlayStop<M::Refusal, S>>
    ensures { IsLastCrash M.transitions refusal result }
{
    if M::is_out_of_memory(&refusal) {
        return Err(PlayStop::OutOfMemory);
    }
    Ok(())
}

/// Crashes every process, one after another. There is none whose crash is refused.
// Apart: few lines are crashes.
#[inline(never)]
fn take_crashes<M: Automaton, L: Listener<M>>(
    machine: &mut M,
    listener: &mut L,
) -> Result<(), PlayStop<M::Refusal, L::Stop>>
    ensures { Plays M.transitions L.effects listener.old listener.new
        (crash_all_line M.transitions itself machine.old) machine.new result }
{
    for p in 0..MOST_PROCS {
        let said = match machine.crash_process(p) {
            Ok(said) => said,
            Err(refusal) => return last_crash::<M, L::Stop>(refusal),
        };
        if let Err(stop) = listener.hear_crash(p, &said) {
            return Err(PlayStop::Stopped(stop));
        }
    }
    Ok(())
}

/// Plays one line: the listener hears just its events, in their order, up to the one where it stops or where the machine has no
/// memory.
pub fn play_line<M: Automaton, L: Listener<M>>(
    machine: &mut M,
    listener: &mut L,
    line: &Line,
) -> Result<(), PlayStop<M::Refusal, L::Stop>>
    ensures { Plays M.transitions L.effects listener.old listener.new (line_on M.transitions itself machine.old line.now)
        machine.new result }
{
    match *line {
        Line::Start(p, call) => match machine.start_call(p, call) {
            Ok(()) => Ok(()),
            Err(refusal) => Err(PlayStop::Refused(refusal)),
        },
        Line::Step(p, count) => take_steps(machine, listener, p, count.get()),
        Line::Crash(p) => take_crash(machine, listener, p),
        Line::CrashAll => take_crashes(machine, listener),
    }
}

/// Plays the lines of a schedule, of which the first has number 2. Where it ends before, it answers the line as well.
pub fn play_lines<M: Automaton, L: Listener<M>>(
    machine: &mut M,
    listener: &mut L,
    lines: &[Line],
) -> Result<(), (u64, PlayStop<M::Refusal, L::Stop>)>
    ensures { PlaysOn M.transitions L.effects listener.old listener.new (run_on M.transitions itself 2 machine.old lines.now)
        machine.new result }
{
    let mut number = 2;
    for line in lines {
        if let Err(stop) = play_line(machine, listener, line) {
            return Err((number, stop));
        }
        number += 1;
    }
    Ok(())
}
