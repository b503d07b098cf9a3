//! A session over a schedule.

ghost use Rattle.std.specs.Prelude.{◌≡◌, ◌++◌, [], IfOk, Ok, OnOk, is_some, not};
ghost use Rattle.diagram.specs.LockSimulations.{lock_session};
ghost use Rattle.diagram.specs.Semantics.{lines_on};
ghost use Rattle.diagram.specs.Sessions.{after_redo, after_request, after_undo, answer_text_by};
ghost use Rattle.diagram.specs.Sessions.{answered_by, at_schedule, last_line as last_line_in, play_text, played};
ghost use Rattle.diagram.specs.Sessions.{redo_text, refusal_in, reply_to, request_in, without_last_line as shortened_in};
ghost use Rattle.diagram.specs.Sessions.{standing_text, state_of, text_of_request, undo_text, way_of};

use crate::page_parts::{put_around, put_text};
use crate::session::lock_simulation::LockSimulation;
use crate::session::request::{Request, read_request};
use crate::session::session_lines::{put_fault, put_help};
use crate::session::simulation::Simulation;
use schedule::texts::head::Head;
use schedule::{Line, Schedule};
use std::alloc::{AllocError, Global};
use std::marker::Model;

/// What is to be done after a line of a session was answered.
#[derive(Clone, Copy, PartialEq, Eq)]
pub enum SessionReply {
    /// The next line is awaited.
    Goes,
    /// The schedule so far is to be saved to the file that the line names.
    Saves,
    /// The session ends.
    Quits,
}

/// Plays lines, and writes nothing. A line that is refused changes nothing.
fn play_all<S: Simulation>(
    alloc: Global,
    simulation: &mut S,
    head: Head,
    lines: &[Line],
) -> Result<(), AllocError>
    ensures { OnOk result (simulation.new ≡ lines_on S.semantics.after simulation.old lines.now) }
{
    let mut page = Vec::new(alloc);
    for line in lines {
        page.clear();
        simulation.play_line(alloc, head, line, &mut page)?;
    }
    Ok(())
}

/// Goes to the end of a schedule. `Err`: out of memory, or no world has the sizes.
fn go_to<S: Simulation>(
    alloc: Global,
    simulation: &mut S,
    schedule: &Schedule,
) -> Result<(), AllocError>
    ensures { OnOk result (simulation.new ≡ state_of S.semantics simulation.old schedule.now) }
{
    let head = schedule.head();
    simulation.begin(alloc, head)?;
    play_all(alloc, simulation, head, schedule.lines())
}

/// The last of some lines.
fn last_line(lines: &[Line]) -> Option<Line>
    ensures { result ≡ last_line_in lines.now }
{
    lines.last().copied()
}

/// The schedule without its last line.
fn without_last_line(alloc: Global, schedule: &Schedule) -> Result<Schedule, AllocError>
    ensures { IfOk result (λ shorter. shorter ≡ shortened_in schedule.now) }
{
    let head = schedule.head();
    let made = Schedule::new(alloc, head.procs, head.limit, head.cap, head.width);
    let Ok(mut shorter) = made else {
        return Err(AllocError);
    };
    let lines = schedule.lines();
    for line in &lines[..lines.len().saturating_sub(1)] {
        if shorter.push(*line).is_err() {
            return Err(AllocError);
        }
    }
    Ok(shorter)
}

/// A session: the schedule so far, what was undone, and the simulation that plays it.
#[derive(Drop)]
pub struct Session<S: Simulation = LockSimulation> {
    schedule: Schedule,
    undone: Vec<Line>,
    simulation: S,
}

impl<S: Simulation> Model for Session<S> {
    ghost use Rattle.diagram.specs.Sessions.{HasWidth, SessionState};

    ghost Value = { SessionState S };

    ghost view = { λ s. record { schedule = s.schedule; undone = s.undone.items; simulation = s.simulation } };

    ghost invariant = { λ s. HasWidth s.schedule };
}

impl Session<LockSimulation> {
    /// A session over the built-in lock that begins with this schedule, none of whose lines is refused. `Err`: out of memory,
    /// or no world has the sizes.
    pub fn new(alloc: Global, schedule: Schedule) -> Result<Session<LockSimulation>, AllocError>
        ensures { IfOk result (λ session. session ≡ lock_session schedule) }
    {
        let lock = LockSimulation::new(alloc, schedule.head())?;
        Session::with_simulation(alloc, lock, schedule)
    }
}

impl<S: Simulation> Session<S> {
    /// A session over this simulation that begins with this schedule, none of whose lines is refused. `Err`: out of memory,
    /// or no world has the sizes.
    pub fn with_simulation(
        alloc: Global,
        mut simulation: S,
        schedule: Schedule,
    ) -> Result<Session<S>, AllocError>
        ensures { IfOk result (λ session. session ≡ at_schedule S.semantics simulation schedule []) }
    {
        go_to(alloc, &mut simulation, &schedule)?;
        schedule.can_be_spelled();
        Ok(Session {
            schedule,
            undone: Vec::new(alloc),
            simulation,
        })
    }

    /// The schedule so far.
    pub fn schedule(&self) -> &Schedule
        ensures { result.now ≡ self.now.schedule }
    {
        &self.schedule
    }

    /// Writes where the processes stand.
    pub fn put_state(&self, out: &mut Vec<u8>) -> Result<(), AllocError>
        ensures { OnOk result (out.new.items ≡ out.old.items ++ standing_text S.semantics self.now) }
    {
        self.simulation.put_state(self.schedule.head(), out)
    }

    /// Takes a line of the schedule, and writes its steps and the state after it. Answers whether it was taken.
    fn play(&mut self, alloc: Global, line: &Line, out: &mut Vec<u8>) -> Result<bool, AllocError>
        ensures text { OnOk result (out.new.items ≡ out.old.items ++ play_text S.semantics self.old line.now) }
        ensures session { OnOk result (self.new ≡ played S.semantics self.old self.old.undone line.now) }
        ensures taken { IfOk result (λ taken. is_some (refusal_in S.semantics self.old line.now) ≡ not taken) }
    {
        let head = self.schedule.head();
        if let Some(number) = self.simulation.play_line(alloc, head, line, out)? {
            let next = self.schedule.lines().len() as u64 + 2;
            put_fault(out, next, b"refused ", number)?;
            return Ok(false);
        }
        if self.schedule.push(*line).is_err() {
            return Err(AllocError);
        }
        self.put_state(out)?;
        Ok(true)
    }

    /// Takes a new line of the schedule. What was undone is gone.
    fn play_new(&mut self, alloc: Global, line: &Line, out: &mut Vec<u8>) -> Result<(), AllocError>
        ensures text { OnOk result (out.new.items ≡ out.old.items ++ play_text S.semantics self.old line.now) }
        ensures session { OnOk result (self.new ≡ played S.semantics self.old [] line.now) }
    {
        if self.play(alloc, line, out)? {
            self.undone.clear();
        }
        Ok(())
    }

    /// Goes back to the schedule without its last line.
    fn undo(&mut self, alloc: Global, out: &mut Vec<u8>) -> Result<(), AllocError>
        ensures text { OnOk result (out.new.items ≡ out.old.items ++ undo_text S.semantics self.old) }
        ensures session { OnOk result (self.new ≡ after_undo S.semantics self.old) }
    {
        let Some(line) = last_line(self.schedule.lines()) else {
            return put_text(out, b"nothing to undo\n");
        };
        self.schedule = without_last_line(alloc, &self.schedule)?;
        go_to(alloc, &mut self.simulation, &self.schedule)?;
        self.undone.push(line)?;
        self.put_state(out)
    }

    /// Takes the line again that was undone last.
    fn redo(&mut self, alloc: Global, out: &mut Vec<u8>) -> Result<(), AllocError>
        ensures text { OnOk result (out.new.items ≡ out.old.items ++ redo_text S.semantics self.old) }
        ensures session { OnOk result (self.new ≡ after_redo S.semantics self.old) }
    {
        let Some(line) = last_line(self.undone.as_slice()) else {
            return put_text(out, b"nothing to redo\n");
        };
        if self.play(alloc, &line, out)? {
            let count = self.undone.len() - 1;
            self.undone.truncate(count);
        }
        Ok(())
    }

    /// Takes steps of p until its call is answered.
    fn play_to_answer(&mut self, alloc: Global, p: u64, out: &mut Vec<u8>) -> Result<(), AllocError>
        ensures text { OnOk result (out.new.items
            ≡ out.old.items ++ answer_text_by S.semantics self.old p (way_of S.semantics self.old p)) }
        ensures session { OnOk result (self.new ≡ answered_by S.semantics self.old p (way_of S.semantics self.old p)) }
    {
        match self.simulation.steps_to_answer(alloc, &self.schedule, p)? {
            Some(count) => self.play_new(alloc, &Line::Step(p, count), out),
            None => put_around(out, b"process ", p, b" gets no answer by its own steps\n"),
        }
    }

    /// Does what is asked for.
    fn grant(
        &mut self,
        alloc: Global,
        request: &Request,
        out: &mut Vec<u8>,
    ) -> Result<SessionReply, AllocError>
        ensures text { OnOk result (out.new.items ≡ out.old.items ++ text_of_request S.semantics self.old (Ok request.now)) }
        ensures session { OnOk result (self.new ≡ after_request S.semantics self.old (Ok request.now)) }
        ensures reply { IfOk result (λ reply. reply ≡ reply_to (Ok request.now)) }
    {
        match request {
            Request::Play(line) => self.play_new(alloc, line, out)?,
            Request::Undo => self.undo(alloc, out)?,
            Request::Redo => self.redo(alloc, out)?,
            Request::ToAnswer(p) => self.play_to_answer(alloc, *p, out)?,
            Request::Help => put_help(out)?,
            Request::Save => return Ok(SessionReply::Saves),
            Request::Quit => return Ok(SessionReply::Quits),
        }
        Ok(SessionReply::Goes)
    }

    /// Answers a line of the input, without its LF. Where the line can't be read or is refused, its fault is written and
    /// nothing has changed. After `Err` the session is of no more use.
    pub fn answer(
        &mut self,
        alloc: Global,
        line: &[u8],
        out: &mut Vec<u8>,
    ) -> Result<SessionReply, AllocError>
        // Just the text of the definitions is written.
        ensures text { OnOk result (out.new.items
            ≡ out.old.items ++ text_of_request S.semantics self.old (request_in self.old line.now)) }
        // The schedule and what was undone are as the line leaves them.
        ensures session { OnOk result (self.new ≡ after_request S.semantics self.old (request_in self.old line.now)) }
        ensures reply { IfOk result (λ reply. reply ≡ reply_to (request_in self.old line.now)) }
    {
        let head = self.schedule.head();
        match read_request(head.width, line) {
            Ok(request) => self.grant(alloc, &request, out),
            Err(fault) => {
                let next = self.schedule.lines().len() as u64 + 2;
                put_fault(out, next, b"fault ", fault.number())?;
                Ok(SessionReply::Goes)
            }
        }
    }
}
