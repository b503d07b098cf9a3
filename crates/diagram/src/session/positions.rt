//! Says where each process stands.

ghost use Rattle.std.specs.Prelude.{◌≡◌, ◌++◌, ◌<◌, OnOk, get_or, None};
ghost use Rattle.rmecore.specs.Place.{is_before as is_before_in};
ghost use Rattle.diagram.specs.Standings.{dead_text, doorway_text, holder as holder_in, inside_line};
ghost use Rattle.diagram.specs.Standings.{is_inside as is_inside_in, look_text, numbers_read as numbers_read_in};
ghost use Rattle.diagram.specs.Standings.{own_text, place_text, process_line, process_lines};
ghost use Rattle.diagram.specs.Standings.{read_so_far as read_so_far_in, restart_row as restart_row_in};
ghost use Rattle.diagram.specs.Standings.{row_with_number as row_with, row_without_number as row_without, state_text};
ghost use Rattle.diagram.specs.Standings.{waiting_text, waits_for, weigh_text};

use crate::page_parts::{put_around, put_decimal, put_piece, put_text};
use crate::phase::LifelinePhase;
use crate::session::last_steps::LastSteps;
use crate::step_by_step::phase_of;
use rmecore::{Happened, Kind, Own, Word};
use std::alloc::AllocError;

/// The row of the restart table of words without a number.
fn row_without_number(own: &Own) -> &'static [u8]
    ensures { result.now ≡ row_without own.now }
{
    if own.choosing != 0 {
        b"1,0,0 doorway unfinished"
    } else if own.inside != 0 {
        b"0,0,1 leaving"
    } else {
        b"0,0,0 idle"
    }
}

/// The row of the restart table of words with a number.
fn row_with_number(own: &Own) -> &'static [u8]
    ensures { result.now ≡ row_with own.now }
{
    if own.choosing != 0 {
        b"1,k,0 number taken"
    } else if own.inside != 0 {
        b"0,k,1 inside"
    } else {
        b"0,k,0 waiting"
    }
}

/// The row of the restart table that the words are.
fn restart_row(own: &Own) -> &'static [u8]
    ensures { result.now ≡ restart_row_in own.now }
{
    if own.number == 0 {
        row_without_number(own)
    } else {
        row_with_number(own)
    }
}

/// Whether these are the lock words of a process inside.
fn is_inside(own: &Own) -> bool
    ensures { result ≡ is_inside_in own.now }
{
    own.number != 0 && own.inside != 0
}

/// How many numbers p has read after that of process j.
fn numbers_read(p: u64, j: u64) -> u64
    ensures { result ≡ numbers_read_in p j }
{
    if j < p { j + 1 } else { j }
}

/// The numbers that a process in the doorway has read.
fn read_so_far(p: u64, last: Option<Happened>) -> u64
    ensures { result ≡ read_so_far_in p last }
{
    let Some(happened) = last else {
        return 0;
    };
    match (happened.kind, happened.word) {
        (Kind::Peek, Word::Number(j)) => numbers_read(p, j),
        _ => 0,
    }
}

/// Writes how far a process in the doorway has read the others' numbers.
fn put_doorway(
    out: &mut Vec<u8>,
    procs: u64,
    p: u64,
    last: Option<Happened>,
) -> Result<(), AllocError>
    ensures { OnOk result (out.new.items ≡ out.old.items ++ doorway_text procs p last) }
{
    let read = read_so_far(p, last);
    put_piece(out, b"in the doorway, has read ", read)?;
    put_around(out, b" of ", procs.saturating_sub(1), b" numbers")
}

/// Whether the pair of p is before that of j.
fn is_before(k: u64, p: u64, v: u64, j: u64) -> bool
    ensures { result ≡ is_before_in k p v j }
{
    k < v || (k == v && p < j)
}

/// Writes what a look at process j has shown.
fn put_look(out: &mut Vec<u8>, j: u64, value: u64) -> Result<(), AllocError>
    ensures { OnOk result (out.new.items ≡ out.old.items ++ look_text j value) }
{
    if value == 0 {
        return put_around(out, b"waits, process ", j, b" is not in the doorway");
    }
    put_around(out, b"waits for process ", j, b", which is in the doorway")
}

/// Writes whom a process waits for, and the number of that one.
fn put_waits_for(out: &mut Vec<u8>, j: u64, value: u64) -> Result<(), AllocError>
    ensures { OnOk result (out.new.items ≡ out.old.items ++ waits_for j value) }
{
    put_piece(out, b"waits for process ", j)?;
    put_around(out, b", which has number ", value, b"")
}

/// Writes what weighing the number of process j has shown.
fn put_weigh(out: &mut Vec<u8>, p: u64, own: &Own, j: u64, value: u64) -> Result<(), AllocError>
    ensures { OnOk result (out.new.items ≡ out.old.items ++ weigh_text p own.now j value) }
{
    if value != 0 && !is_before(own.number, p, value, j) {
        return put_waits_for(out, j, value);
    }
    put_around(out, b"waits, has passed process ", j, b"")
}

/// Writes what a waiting process has learned by its last step.
fn put_waiting(
    out: &mut Vec<u8>,
    p: u64,
    own: &Own,
    last: Option<Happened>,
) -> Result<(), AllocError>
    ensures { OnOk result (out.new.items ≡ out.old.items ++ waiting_text p own.now last) }
{
    let Some(happened) = last else {
        return put_text(out, b"waits");
    };
    match (happened.kind, happened.word) {
        (Kind::Look, Word::Choosing(j)) => put_look(out, j, happened.value),
        (Kind::Weigh, Word::Number(j)) => put_weigh(out, p, own, j, happened.value),
        _ => put_text(out, b"waits"),
    }
}

/// The words for a process that has crashed, and may be reading its own words again.
fn crashed_words(last: Option<Happened>) -> &'static [u8]
    ensures { result.now ≡ dead_text last }
{
    match last {
        None => b"crashed",
        Some(_) => b"crashed, rereads its words",
    }
}

/// Writes where a process stands.
fn put_place(
    out: &mut Vec<u8>,
    procs: u64,
    p: u64,
    own: &Own,
    phase: LifelinePhase,
    last: Option<Happened>,
) -> Result<(), AllocError>
    ensures { OnOk result (out.new.items ≡ out.old.items ++ place_text procs p own.now phase last) }
{
    match phase {
        LifelinePhase::Rest => put_text(out, b"outside"),
        LifelinePhase::Doorway => put_doorway(out, procs, p, last),
        LifelinePhase::Waiting => put_waiting(out, p, own, last),
        LifelinePhase::Section => put_text(out, b"inside"),
        LifelinePhase::Dead => put_text(out, crashed_words(last)),
    }
}

/// Writes the lock words of a process, with commas.
#[tactic(auto, unfolding(crate::specs::Standings::own_text))]
fn put_own(out: &mut Vec<u8>, own: &Own) -> Result<(), AllocError>
    ensures { OnOk result (out.new.items ≡ out.old.items ++ own_text own.now) }
{
    put_decimal(out, own.choosing)?;
    put_piece(out, b",", own.number)?;
    put_around(out, b",", own.inside, b"")
}

/// Writes the line of a process.
#[tactic(auto, unfolding(crate::specs::Standings::process_line))]
fn put_process(
    out: &mut Vec<u8>,
    procs: u64,
    p: u64,
    own: &Own,
    phase: LifelinePhase,
    last: Option<Happened>,
) -> Result<(), AllocError>
    ensures { OnOk result (out.new.items ≡ out.old.items ++ process_line procs p own.now phase last) }
{
    put_around(out, b"process ", p, b": ")?;
    put_own(out, own)?;
    put_text(out, b" (row ")?;
    put_text(out, restart_row(own))?;
    put_text(out, b"), ")?;
    put_place(out, procs, p, own, phase, last)?;
    put_text(out, b"\n")
}

/// The last access of process p; past the list none.
fn last_of(lasts: &[Option<Happened>], p: u64) -> Option<Happened>
    ensures { result ≡ get_or lasts.now p None }
{
    lasts.get(p as usize).copied().unwrap_or(None)
}

/// Writes the lines of all processes.
fn put_processes(
    out: &mut Vec<u8>,
    procs: u64,
    owns: &[Own],
    last_steps: &LastSteps,
) -> Result<(), AllocError>
    ensures { OnOk result (out.new.items ≡ out.old.items ++ process_lines last_steps.now procs 0 owns.now) }
{
    let mut p = 0;
    for own in owns {
        let phase = phase_of(last_steps.phases(), p);
        let last = last_of(last_steps.lasts(), p);
        put_process(out, procs, p, own, phase, last)?;
        p += 1;
    }
    Ok(())
}

/// The first process whose words are inside.
fn holder(owns: &[Own]) -> Option<u64>
    ensures { result ≡ holder_in 0 owns.now }
{
    let mut p = 0;
    for own in owns {
        if is_inside(own) {
            return Some(p);
        }
        p += 1;
    }
    None
}

/// Writes who is inside.
fn put_inside(out: &mut Vec<u8>, holder: Option<u64>) -> Result<(), AllocError>
    ensures { OnOk result (out.new.items ≡ out.old.items ++ inside_line holder) }
{
    match holder {
        None => put_text(out, b"inside: nobody\n"),
        Some(p) => put_around(out, b"inside: process ", p, b"\n"),
    }
}

/// Writes where the processes with these words stand, and who is inside.
pub fn put_state(
    out: &mut Vec<u8>,
    procs: u64,
    owns: &[Own],
    last_steps: &LastSteps,
) -> Result<(), AllocError>
    ensures { OnOk result (out.new.items ≡ out.old.items ++ state_text procs owns.now last_steps.now) }
{
    put_processes(out, procs, owns, last_steps)?;
    put_inside(out, holder(owns))
}
