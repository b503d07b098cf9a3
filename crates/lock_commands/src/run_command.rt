//! The command `run`.

ghost use Rattle.std.specs.Prelude.{◌≡◌, ◌⊎◌, ◌↔◌, ◌≤◌, All, false, IfErr, IfOk, OnOk, string_bytes, vec_len};
ghost use Rattle.schedule.specs.Tapes.{Writes};
ghost use Rattle.command_parts.specs.Endings.{FailsIn, IsEnded};
ghost use Rattle.lock_commands.specs.Ends.{HasNoTallies, lab_for, RunEnds, TellsTallies, fault_of_lab};
ghost use Rattle.lock_commands.specs.Gates.{gates_for};
ghost use Rattle.lock_commands.specs.Tallies.{IsFine, order_word, sender_line, tallies_sent, tallies_text, total_line};
ghost use Rattle.table_runs.specs.Lab.{AreAllSent};

use crate::tally::{SenderTally, tallies_of};
use cli::arguments::args::RunArgs;
use command_parts::{CommandFault, Ending};
use crashlab::Seeded;
use robust::{LabFault, LabResult, Spec, run_lab};
use schedule::Sink;
use schedule::texts::device::write_all;
use std::alloc::{AllocError, Global};
use std::sync::Wait;
use std::thread::Threads;

/// The greatest limit of a lock's numbers.
const MOST: u64 = 1 << 62;

/// The sizes of a run's lab: room for each message, and the greatest limit.
fn spec_of(args: &RunArgs) -> Spec
    ensures { result ≡ lab_for args.now }
{
    Spec {
        procs: args.procs,
        messages: args.messages,
        limit: MOST,
        cap: args.procs.saturating_mul(args.messages),
        width: args.width,
    }
}

/// The crash plan of each sender. `AllocError`: out of memory.
#[tactic(auto, using(crate::proofs::Gates::gates_more))]
pub fn gates_of(alloc: Global, args: &RunArgs) -> Result<Vec<Seeded>, AllocError>
    ensures each { IfOk result (λ gates. gates.items ≡ gates_for args.now) }
    ensures count { IfOk result (λ gates. vec_len gates ≡ args.now.procs) }
{
    let mut gates = Vec::new(alloc);
    for p in 0..args.procs {
        gates.push(Seeded::new(args.seed.wrapping_add(p), args.crash))?;
    }
    Ok(gates)
}

/// Whether the numbers of a sender never fell, as a word.
fn order_of(ordered: bool) -> &'static str
    ensures { result.now ≡ order_word ordered }
{
    if ordered { "yes" } else { "no" }
}

/// The line of a sender.
fn line_of_sender(alloc: Global, tally: &SenderTally) -> Result<String, AllocError>
    ensures { IfOk result (λ line. string_bytes line ≡ sender_line tally.now) }
{
    let order = order_of(tally.ordered);
    format!(in alloc;
        "sender {} messages {} twice {} order {order}\n",
        tally.sender, tally.messages, tally.twice
    )
}

/// The last line.
fn line_of_total(alloc: Global, total: u64) -> Result<String, AllocError>
    ensures { IfOk result (λ line. string_bytes line ≡ total_line total) }
{
    format!(in alloc; "total {total}\n")
}

/// One line for each sender, and a last line with the total. `AllocError`: out of memory.
pub fn lines_of(alloc: Global, tallies: &[SenderTally]) -> Result<String, AllocError>
    ensures { IfOk result (λ text. string_bytes text ≡ tallies_text tallies.now) }
{
    let mut text = String::new(alloc);
    let mut total = 0u64;
    for tally in tallies {
        let line = line_of_sender(alloc, tally)?;
        text.push_str(&line)?;
        total = total.saturating_add(tally.messages);
    }
    let line = line_of_total(alloc, total)?;
    text.push_str(&line)?;
    Ok(text)
}

/// The exit status: 0 if each message came once and in order, otherwise 1.
pub fn status_of_tallies(tallies: &[SenderTally]) -> u8
    ensures either { (result ≡ 0) ⊎ (result ≡ 1) }
    ensures fine { (result ≡ 0) ↔ All IsFine tallies.now }
{
    for tally in tallies {
        if !tally.is_fine() {
            return 1;
        }
    }
    0
}

/// The command's fault for the fault of a lab.
fn lab_fault(fault: LabFault) -> CommandFault
    ensures { result ≡ fault_of_lab fault }
{
    match fault {
        LabFault::BadSpec => CommandFault::BadSize,
        LabFault::OutOfMemory => CommandFault::OutOfMemory,
        LabFault::Member { p, .. } | LabFault::Reply { p, .. } => CommandFault::Member { p },
    }
}

/// Runs the lab, in which each sender sends its messages on a thread of its own.
fn run_workers<T: Threads + Wait + Sync>(
    rt: &T,
    alloc: Global,
    args: &RunArgs,
    gates: Vec<Seeded>,
) -> Result<LabResult, CommandFault>
    requires { vec_len gates ≡ args.now.procs }
    ensures sent { IfOk result (λ r. AreAllSent (lab_for args.now) r.messages.items) }
    ensures few { OnOk result (args.now.messages ≤ 4096) }
    ensures failed { IfErr result (HasNoTallies args.now) }
{
    match run_lab(rt, alloc, spec_of(args), gates) {
        Ok(result) => Ok(result),
        Err(fault) => Err(lab_fault(fault)),
    }
}

/// Runs the lab, and counts the messages in the mailbox.
fn count_messages<T: Threads + Wait + Sync>(
    rt: &T,
    alloc: Global,
    args: &RunArgs,
) -> Result<Vec<SenderTally>, CommandFault>
    ensures sent { IfOk result (λ tallies. tallies.items ≡ tallies_sent args.now.procs args.now.messages) }
    ensures failed { IfErr result (HasNoTallies args.now) }
{
    let gates = gates_of(alloc, args)?;
    let result = run_workers(rt, alloc, args, gates)?;
    Ok(tallies_of(alloc, args.procs, &result.messages)?)
}

/// Writes the lines of the tallies.
fn write_lines<W: Sink>(
    alloc: Global,
    tallies: &[SenderTally],
    w: &mut W,
) -> Result<(), CommandFault>
    ensures written { OnOk result (Writes (W.tape w.old) (W.tape w.new) (tallies_text tallies.now)) }
    ensures unwritten { IfErr result (FailsIn (tallies_text tallies.now) (W.tape w.old) (W.tape w.new)) }
{
    let text = lines_of(alloc, tallies)?;
    if write_all(w, text.as_bytes()).is_err() {
        return Err(CommandFault::Write);
    }
    Ok(())
}

/// Writes the tallies.
fn tell_tallies<W: Sink>(
    alloc: Global,
    tallies: &[SenderTally],
    w: &mut W,
) -> Result<Ending, CommandFault>
    ensures reports { TellsTallies tallies.now (W.tape w.old) (W.tape w.new) result }
    ensures ended { IfOk result (IsEnded false (W.tape w.old).failures (W.tape w.new).failures) }
{
    let status = status_of_tallies(tallies);
    write_lines(alloc, tallies, w)?;
    Ok(Ending { status, save: None })
}

/// Runs `run`: the messages in the mailbox are counted, and the counts written. `BadSize`: a number is outside its range.
/// `Member`: that sender could not go on.
pub fn run_command<T: Threads + Wait + Sync, W: Sink>(
    rt: &T,
    alloc: Global,
    args: &RunArgs,
    w: &mut W,
) -> Result<Ending, CommandFault>
    ensures ends { RunEnds args.now (W.tape w.old) (W.tape w.new) result }
    ensures ended { IfOk result (IsEnded false (W.tape w.old).failures (W.tape w.new).failures) }
{
    let tallies = count_messages(rt, alloc, args)?;
    tell_tallies(alloc, &tallies, w)
}
