//! `replay`: reads a schedule from standard input and prints its report, as `rmelab replay` does for the right lock. It uses
//! the simulated side alone, so that a first proved report needs few libraries.
//!
//! Main item: `report`.
#![tactic(auto)]

use schedule::{ReplayFault, replay_to_writer};
use std::alloc::Global;
use std::io::{self, BufReader, BufWriter, Write};
use std::process::ExitCode;

/// Replays the schedule on standard input, and writes the report to standard output. If the flush fails, that is the fault.
fn report<R: Input + Print>(rt: &R, alloc: Global) -> Result<(), ReplayFault> {
    let Ok(reader) = BufReader::new(alloc, rt.reader()) else {
        return Err(ReplayFault::OutOfMemory);
    };
    let Ok(writer) = BufWriter::new(alloc, io::writer(rt)) else {
        return Err(ReplayFault::OutOfMemory);
    };
    let (verdict, mut writer) = replay_to_writer(alloc, reader, writer);
    if writer.flush().is_err() {
        return Err(ReplayFault::Write);
    }
    verdict?;
    Ok(())
}

/// The exit status, as that of `rmelab`: 2 for a fault of the input, 3 for a fault of a device or of memory.
fn status(fault: ReplayFault) -> u8 {
    match fault {
        ReplayFault::Text { .. } | ReplayFault::Refused { .. } => 2,
        ReplayFault::Read | ReplayFault::Write | ReplayFault::OutOfMemory => 3,
    }
}

/// Writes the report of the schedule on standard input. A fault is written to standard error, and decides the exit status.
fn main(rt: HostRuntime) -> ExitCode {
    match report(&rt, rt.alloc()) {
        Ok(()) => ExitCode::from(0),
        Err(fault) => {
            let _ = eprintln!(&rt; "{fault}");
            ExitCode::from(status(fault))
        }
    }
}
