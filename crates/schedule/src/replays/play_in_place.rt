//! Plays the lines of a schedule in place, from its text.

ghost use Rattle.std.specs.Prelude.{◌≡◌, ℕ, ◌+◌, ◌^◌, ◌<◌, ◌≤◌, List, length, Ok, IfOk, IfErr};
ghost use Rattle.schedule.specs.declared.lines.line.Line.{Line as LineOf};
ghost use Rattle.schedule.specs.Commands.{line_at};
ghost use Rattle.schedule.specs.Texts.{items_at};
ghost use Rattle.schedule.specs.FirstLines.{IsRead, BeginsWithItem};
ghost use Rattle.schedule.specs.Words.{parts_of};
ghost use Rattle.schedule.specs.Fragments.{itself, line_on, run_on};
ghost use Rattle.schedule.specs.Plays.{Plays, PlaysOn};

use crate::lexer::in_place::next_line;
use crate::lexer::tokens::steps;
use crate::player::automaton::Automaton;
use crate::player::listener::Listener;
use crate::player::play_lines::{play_line, take_steps};
use crate::player::play_stop::PlayStop;

/// Plays the first line of a text that was checked. Answers the text after it.
// Apart: most lines are steps.
#[inline(never)]
fn play_next<'a, M: Automaton, L: Listener<M>>(
    machine: &mut M,
    listener: &mut L,
    width: u64,
    text: &'a [u8],
) -> Result<&'a [u8], PlayStop<M::Refusal, L::Stop>>
    requires width { (1 ≤ width) × (width ≤ 8) }
    requires some { 0 < length text.now }
    requires read { IsRead (line_at width) text.now }
    ensures ok { IfOk result (λ rest. (line : LineOf) × BeginsWithItem (line_at width) text.now line rest.now
        × Plays M.transitions L.effects listener.old listener.new (line_on M.transitions itself machine.old line)
        machine.new result) }
    ensures err { IfErr result (λ _. (line : LineOf) × (after : List ℕ) × BeginsWithItem (line_at width) text.now line after
        × Plays M.transitions L.effects listener.old listener.new (line_on M.transitions itself machine.old line)
        machine.new result) }
{
    let Ok((line, after)) = next_line(width, text) else {
        unreachable!()
    };
    play_line(machine, listener, &line)?;
    Ok(after)
}

/// The same. A line of steps, the commonest, is tried first.
// Inline: one call a line.
#[inline(always)]
fn play_first<'a, M: Automaton, L: Listener<M>>(
    machine: &mut M,
    listener: &mut L,
    width: u64,
    text: &'a [u8],
) -> Result<&'a [u8], PlayStop<M::Refusal, L::Stop>>
    requires width { (1 ≤ width) × (width ≤ 8) }
    requires some { 0 < length text.now }
    requires read { IsRead (line_at width) text.now }
    ensures ok { IfOk result (λ rest. (line : LineOf) × BeginsWithItem (line_at width) text.now line rest.now
        × Plays M.transitions L.effects listener.old listener.new (line_on M.transitions itself machine.old line)
        machine.new result) }
    ensures err { IfErr result (λ _. (line : LineOf) × (after : List ℕ) × BeginsWithItem (line_at width) text.now line after
        × Plays M.transitions L.effects listener.old listener.new (line_on M.transitions itself machine.old line)
        machine.new result) }
{
    let Some((p, n, after)) = steps(text) else {
        return play_next(machine, listener, width, text);
    };
    take_steps(machine, listener, p, n)?;
    Ok(after)
}

/// Plays all lines of a text that was checked. The first of them has number 2.
// Apart: a loop by itself.
#[inline(never)]
pub(crate) fn play_text<M: Automaton, L: Listener<M>>(
    machine: &mut M,
    listener: &mut L,
    width: u64,
    text: &[u8],
) -> Result<(), (u64, PlayStop<M::Refusal, L::Stop>)>
    requires width { (1 ≤ width) × (width ≤ 8) }
    requires room { length text.now + 2 < 2 ^ 64 }
    requires read { (lines : List LineOf) × (items_at (line_at width) 2 (parts_of text.now) ≡ Ok lines) }
    ensures { (lines : List LineOf) → items_at (line_at width) 2 (parts_of text.now) ≡ Ok lines
        → PlaysOn M.transitions L.effects listener.old listener.new (run_on M.transitions itself 2 machine.old lines)
        machine.new result }
{
    let mut rest = text;
    let mut number = 2;
    while !rest.is_empty() {
        match play_first(machine, listener, width, rest) {
            Ok(after) => rest = after,
            Err(stop) => return Err((number, stop)),
        }
        number += 1;
    }
    Ok(())
}
