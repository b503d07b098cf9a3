//! The command's fault for a fault of a run on an algorithm.

ghost use Rattle.std.specs.Prelude.{◌≡◌, ℕ, List, Option, IfErr, IfOk, map, slice_get, unwrap_or};
ghost use Rattle.algorithms.specs.declared.algorithm.Algorithm.{Algorithm as AlgorithmOf};
ghost use Rattle.algorithm_commands.specs.AlgorithmReplays.{fault_of_run, line_numbers as numbers_of, refused_at as refused_on, refused_by as refused_by_both};
ghost use Rattle.algorithm_commands.specs.AlgorithmTexts.{IsAlgorithmFault};
ghost use Rattle.algorithm_states.specs.RangeSpaces.{line_of};

use algorithm_lab::{AlgorithmReplayFault, RunRefusal};
use algorithms::{Algorithm, AlgorithmLine, AlgorithmRefusal};
use command_parts::CommandFault;
use std::alloc::{AllocError, Global};

/// The number of each of these lines in the text of their algorithm.
fn numbers_in(alloc: Global, lines: &[AlgorithmLine]) -> Result<Vec<u64>, AllocError>
    ensures { IfOk result (λ numbers. numbers.items ≡ map (λ line. line.number) lines.now) }
{
    let mut numbers = Vec::new(alloc);
    for line in lines {
        numbers.push(line.number)?;
    }
    Ok(numbers)
}

/// The number of each line of an algorithm, which was read from a file, in its text. There may be no memory for them.
pub(crate) fn line_numbers(alloc: Global, algorithm: &Algorithm) -> Result<Vec<u64>, CommandFault>
    ensures numbers { IfOk result (λ numbers. numbers.items ≡ numbers_of algorithm.now) }
    ensures unread { (file : Option (List ℕ)) → IfErr result (IsAlgorithmFault file) }
{
    match numbers_in(alloc, &algorithm.lines) {
        Ok(numbers) => Ok(numbers),
        Err(AllocError) => Err(CommandFault::OutOfMemory),
    }
}

/// The number of the line at this place.
fn number_at(numbers: &[u64], place: usize) -> u64
    ensures { result ≡ unwrap_or (slice_get numbers.now place) 0 }
{
    match numbers.get(place) {
        Some(number) => *number,
        None => 0,
    }
}

/// The line of the text at which a value would leave its range, by the numbers of the algorithm's lines.
#[tactic(auto, using(crate::proofs::RunFaults::numbered))]
fn line_out(numbers: &[u64], refusal: RunRefusal) -> Option<u64>
    ensures { (a : AlgorithmOf) → numbers.now ≡ numbers_of a → result ≡ line_of a refusal }
{
    match refusal {
        RunRefusal::Refused(AlgorithmRefusal::OutOfRange { place }) => Some(number_at(
            numbers, place,
        )),
        _ => None,
    }
}

/// The fault for a line that is refused: by the line of the text at which a value would leave its range, else by the refusal's
/// number.
fn refused_by(line: u64, algorithm_line: Option<u64>, number: Option<u64>) -> CommandFault
    ensures { result ≡ refused_by_both line algorithm_line number }
{
    match algorithm_line {
        Some(algorithm_line) => CommandFault::OutOfRange {
            line,
            algorithm_line,
        },
        None => match number {
            Some(number) => CommandFault::Refused { line, number },
            None => CommandFault::OutOfMemory,
        },
    }
}

/// The fault for a line that is refused, by the numbers of the algorithm's lines.
fn refused_at(numbers: &[u64], line: u64, refusal: RunRefusal) -> CommandFault
    ensures { (a : AlgorithmOf) → numbers.now ≡ numbers_of a → result ≡ refused_on a line refusal }
{
    refused_by(line, line_out(numbers, refusal), refusal.number())
}

/// The command's fault for a fault of a replay on an algorithm, by the numbers of its lines.
pub(crate) fn replay_fault(numbers: &[u64], fault: AlgorithmReplayFault) -> CommandFault
    ensures { (a : AlgorithmOf) → numbers.now ≡ numbers_of a → result ≡ fault_of_run a fault }
{
    match fault {
        AlgorithmReplayFault::Refused { line, refusal } => refused_at(numbers, line, refusal),
        AlgorithmReplayFault::Write => CommandFault::Write,
        AlgorithmReplayFault::OutOfMemory => CommandFault::OutOfMemory,
    }
}
