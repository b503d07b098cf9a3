//! `rmebench`: repeats the calls of members of the running lock, so that they can be timed from outside.
//!
//! Main items: `Order`, `enter`, `send`.
#![tactic(auto)]

mod fault;
mod order;
#[cfg(test)]
mod tests;
mod work;

use crate::fault::RunningJudgeFault;
use crate::order::Order;
use crate::work::do_work;
use std::alloc::Global;
use std::io;
use std::process::ExitCode;
use std::rt::Env;

const USAGE: &str =
    "usage: rmebench lock PROCS THREADS ROUNDS      each of THREADS members locks and unlocks ROUNDS times
       rmebench append PROCS WIDTH ROUNDS      one member appends ROUNDS messages, at most 65536, of WIDTH words
PROCS is 1 to 64, THREADS 1 to PROCS, WIDTH 1 to 8.";

/// The words of the command line, with the program's name.
fn words_given<R: Env + Alloc<A = Global>>(rt: &R) -> io::Result<Vec<String>> {
    Ok(std::env::args(rt)?.collect(rt.alloc())?)
}

/// Writes a fault of the work to standard error, and answers the exit status of such a fault.
fn reports<R: Eprint>(rt: &R, fault: RunningJudgeFault) -> ExitCode {
    let _ = eprintln!(rt; "rmebench: {fault}");
    ExitCode::from(3)
}

/// Does the work that the words ask for, and prints how many entries or messages there were.
fn main(rt: HostRuntime) -> ExitCode {
    let Ok(words) = words_given(&rt) else {
        return reports(&rt, RunningJudgeFault::OutOfMemory);
    };
    let Some(order) = Order::of_words(&words) else {
        let _ = eprintln!(rt; "{USAGE}");
        return ExitCode::from(2);
    };
    let name = order.counted_name();
    match do_work(&rt, rt.alloc(), order) {
        Ok(count) => match println!(rt; "{name} {count}") {
            Ok(()) => ExitCode::from(0),
            Err(_) => ExitCode::from(3),
        },
        Err(fault) => reports(&rt, fault),
    }
}
