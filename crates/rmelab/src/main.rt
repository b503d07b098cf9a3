//! `rmelab`: a laboratory of recoverable first-come first-served locks. Its commands are in `commands`, their words in `cli`,
//! and `rmelab_tests` runs whole invocations.
//!
//! Main item: `main`.
#![tactic(auto)]

pub use cli::arguments::args::Command;
use cli::arguments::words::words_given;
pub use cli::arguments::words::{WordsFault, read_words};
pub use commands::Ending;
use commands::Terminal;
pub use commands::command::command;
use commands::disk::Disk;
use commands::program::run_program;
use std::io::{BufWriter, IsTerminal};
use std::process::ExitCode;

/// Runs the program on its words, the files of the system, and the standard streams.
fn main(rt: HostRuntime) -> ExitCode {
    let mut folder = Disk::new(&rt);
    let mut screen = Terminal::new(&rt, rt.stderr(), rt.stderr().is_terminal());
    let words = words_given(&rt);
    let output = BufWriter::new(rt.alloc(), rt.stdout());
    run_program(
        &rt,
        rt.alloc(),
        words,
        &mut folder,
        &mut screen,
        rt.stdin(),
        output,
        rt.stderr(),
    )
}
