//! The one line of a fault, in a buffer of fixed size: it needs no memory.

ghost use Rattle.std.specs.Prelude.{◌≡◌, ◌+◌, ◌<◌, ◌≤◌, ◌/◌, ◌++◌, ◌∷◌, [], codes, length};
ghost use Rattle.std.specs.Fmt.{decimal};
ghost use Rattle.command_parts.specs.AlgorithmFaults.{column_text, sentence_with, text_of_detail};
ghost use Rattle.command_parts.specs.Lines.{fault_line, IsLineWritten};
ghost use Rattle.command_parts.specs.Findings.{starves_line as starves_line_by};
ghost use Rattle.command_parts.specs.declared.fault.CommandFault.TheVariants.{Algorithm as AlgorithmFault, OutOfRange, States as StatesFaultAt};
ghost use Rattle.command_parts.specs.Statuses.{status_of};

use crate::algorithm_fault::{
    column_of_detail, number_of_text_fault, sentence_of, words_of_detail,
};
use crate::fault::CommandFault;
use crate::states::states_fault::StatesFault;
use algorithm_texts::FaultDetail;
use algorithms::ReadFault;
use arrayvec::ArrayString;
use itoa::Buffer;
use schedule::Sink;
use schedule::texts::device::write_all;

/// Appends a text and then a number to a line.
pub fn put(line: &mut ArrayString<192>, text: &str, number: u64)
    requires { length line.old.bytes + length text.now + 20 ≤ 192 }
    ensures bytes { line.new.bytes ≡ line.old.bytes ++ text.now ++ decimal number }
    ensures few { length line.new.bytes ≤ length line.old.bytes + length text.now + 20 }
{
    line.push_str(text);
    line.push_str(Buffer::new().format(number));
}

/// The line for a fault of an input line.
fn line_of_place(at: u64, cause: &str, number: u64) -> ArrayString<192>
    requires { length cause.now ≤ 20 }
    ensures { result.bytes ≡ codes "rmelab: line " ++ decimal at ++ cause.now ++ decimal number ++ 10 ∷ [] }
{
    let mut line = ArrayString::new();
    put(&mut line, "rmelab: line ", at);
    put(&mut line, cause, number);
    line.push_str("\n");
    line
}

/// The line for a fault of a line of states, with the sentence that says what is wrong.
fn line_with_sentence(before: &str, at: u64, number: u64, sentence: &str) -> ArrayString<192>
    requires { (length before.now ≤ 23) × (length sentence.now ≤ 54) }
    ensures { result.bytes ≡ before.now ++ decimal at ++ codes ": fault " ++ decimal number ++ codes ": " ++ sentence.now ++ 10 ∷ [] }
{
    let mut line = ArrayString::new();
    put(&mut line, before, at);
    put(&mut line, ": fault ", number);
    line.push_str(": ");
    line.push_str(sentence);
    line.push_str("\n");
    line
}

/// The line for an input line that is refused, since a value would leave its range at a line of the algorithm's text.
fn line_of_range(at: u64, algorithm_line: u64) -> ArrayString<192>
    ensures { result.bytes ≡ fault_line (OutOfRange at algorithm_line) }
{
    let mut line = ArrayString::new();
    put(&mut line, "rmelab: line ", at);
    put(
        &mut line,
        ": refused 16: out of range at algorithm line ",
        algorithm_line,
    );
    line.push_str("\n");
    line
}

/// Appends the column that a detail names.
fn put_column(line: &mut ArrayString<192>, detail: Option<FaultDetail>)
    requires { length line.old.bytes + 29 ≤ 192 }
    ensures bytes { line.new.bytes ≡ line.old.bytes ++ column_text detail }
    ensures few { length line.new.bytes ≤ length line.old.bytes + 29 }
{
    if let Some(detail) = detail {
        if let Some(column) = column_of_detail(detail) {
            put(line, ", column ", column);
        }
    }
}

/// Appends what a detail says.
fn put_detail(line: &mut ArrayString<192>, detail: FaultDetail)
    requires { length line.old.bytes + 74 ≤ 192 }
    ensures bytes { line.new.bytes ≡ line.old.bytes ++ text_of_detail detail }
    ensures few { length line.new.bytes ≤ length line.old.bytes + 74 }
{
    match detail {
        FaultDetail::WrongIndexes {
            declared,
            given,
            ..
        } => {
            put(line, "indexes given: ", given);
            put(line, ", declared: ", declared);
        }
        FaultDetail::NoEnd { line: begun } => put(line, "no `end` for the block of line ", begun),
        _ => line.push_str(words_of_detail(detail)),
    }
}

/// Appends the sentence of a fault, or what is said more of it.
fn put_sentence(line: &mut ArrayString<192>, fault: ReadFault, detail: Option<FaultDetail>)
    requires { length line.old.bytes + 74 ≤ 192 }
    ensures bytes { line.new.bytes ≡ line.old.bytes ++ sentence_with fault detail }
    ensures few { length line.new.bytes ≤ length line.old.bytes + 74 }
{
    match detail {
        Some(FaultDetail::AtColumn { .. }) | None => line.push_str(sentence_of(fault)),
        Some(detail) => put_detail(line, detail),
    }
}

/// The line for a fault of a line of an algorithm's text.
fn line_of_algorithm(at: u64, fault: ReadFault, detail: Option<FaultDetail>) -> ArrayString<192>
    ensures { result.bytes ≡ fault_line (AlgorithmFault at fault detail) }
{
    let mut line = ArrayString::new();
    put(&mut line, "rmelab: algorithm line ", at);
    put_column(&mut line, detail);
    put(&mut line, ": fault ", number_of_text_fault(fault));
    line.push_str(": ");
    put_sentence(&mut line, fault, detail);
    line.push_str("\n");
    line
}

/// The line for a fault of a line of states.
fn line_of_states(at: u64, fault: StatesFault) -> ArrayString<192>
    ensures { result.bytes ≡ fault_line (StatesFaultAt at fault) }
{
    line_with_sentence("rmelab: states line ", at, fault.number(), fault.sentence())
}

/// A line of a text, a number and a text.
pub fn line_around(before: &str, number: u64, after: &str) -> ArrayString<192>
    requires { (length before.now ≤ 21) × (length after.now ≤ 20) }
    ensures { result.bytes ≡ before.now ++ decimal number ++ after.now }
{
    let mut line = ArrayString::new();
    put(&mut line, before, number);
    line.push_str(after);
    line
}

/// The line that tells whose call starves, and how many moves of the schedule before it are the cycle.
pub(crate) fn starves_line(process: u64, cycle: u64) -> ArrayString<192>
    ensures { result.bytes ≡ starves_line_by process cycle }
{
    let mut line = ArrayString::new();
    put(&mut line, "starves ", process);
    put(&mut line, " cycle ", cycle);
    line.push_str("\n");
    line
}

/// The line with this text, which has room in it.
fn line_of_text(text: &str) -> ArrayString<192>
    requires { length text.now ≤ 40 }
    ensures { result.bytes ≡ text.now }
{
    let mut line = ArrayString::new();
    line.push_str(text);
    line
}

/// The one line of a fault.
pub fn line_of(fault: CommandFault) -> ArrayString<192>
    ensures { result.bytes ≡ fault_line fault }
{
    match fault {
        CommandFault::Text { line, number } => line_of_place(line, ": fault ", number),
        CommandFault::Refused { line, number } => line_of_place(line, ": refused ", number),
        CommandFault::OutOfRange {
            line,
            algorithm_line,
        } => line_of_range(line, algorithm_line),
        CommandFault::Algorithm {
            line,
            fault,
            detail,
        } => line_of_algorithm(line, fault, detail),
        CommandFault::States { line, fault } => line_of_states(line, fault),
        CommandFault::Image { rule } => line_around("rmelab: image: rule ", rule, "\n"),
        CommandFault::Member { p } => line_around("rmelab: member ", p, " failed\n"),
        CommandFault::BadVariant => line_of_text("rmelab: bad variant\n"),
        CommandFault::BadSize => line_of_text("rmelab: bad size\n"),
        CommandFault::Read => line_of_text("rmelab: read failed\n"),
        CommandFault::Write => line_of_text("rmelab: write failed\n"),
        CommandFault::OutOfMemory => line_of_text("rmelab: out of memory\n"),
        CommandFault::TooManyStates => line_of_text("rmelab: too many states\n"),
    }
}

/// Writes the one line of a fault to `e`, and answers its exit status. It needs no memory. A failed write is ignored: the
/// exit status still says that there was a fault.
pub fn write_fault<E: Sink>(fault: CommandFault, e: &mut E) -> u8
    ensures status { result ≡ status_of fault }
    ensures least { 2 ≤ result }
    ensures line { IsLineWritten (E.tape e.old) (E.tape e.new) (fault_line fault) }
{
    let line = line_of(fault);
    let _ = write_all(e, line.as_bytes());
    fault.status()
}
