//! The draft of a text: its lines, and what they say.

ghost use Rattle.std.specs.Prelude.{◌≡◌, ◌⊎◌, ◌==◌, ◌<◌, ◌≤◌, ℕ, ◌++◌, ◌∷◌, [], List, position, map, length, drop, slice_get, Some, None, Ok, IfOk, IfErr, OnOk, IfSome, IfNone, true};
ghost use Rattle.std.specs.List.{list_all};
ghost use Rattle.algorithms.specs.Faults.{fault_of};
ghost use Rattle.algorithms.specs.declared.fault.ReadFault.TheVariants.{TooBig};
ghost use Rattle.algorithm_texts.specs.Drafts.{Drafted, draft_view};
ghost use Rattle.algorithm_texts.specs.PromiseLines.{promises_said};
ghost use Rattle.algorithm_texts.specs.TextLines.{IsRefusalOf, RefusesLines, SaysTokens, TextSays, and_line, is_no_feed, second_said, spoken_of};
ghost use Rattle.algorithm_texts.specs.TextDrafts.{IsEmpty, Spoken, empty_draft, read_head, read_line, read_lines, read_promises, read_text, with_number};
ghost use Rattle.algorithm_texts.specs.LineFaults.{head_fault, line_fault, promises_fault};
ghost use Rattle.algorithm_texts.specs.TextFaults.{BeginsDraft, IsFaultOfForms, IsFaultOfHead, IsFaultOfLater, IsFaultOfLines, IsFaultOfSecond, IsFaultOfTokens, OrMemory, StopsOnLine};
ghost use Rattle.algorithm_texts.specs.Tokens.{LineSays};

use crate::calls::head;
use crate::filled::Filled;
use crate::lines::Draft;
use crate::promises::{SecondLine, promises};
use crate::tokens::{place_of_byte, tail, tokens_of};
use algorithms::algorithm::Algorithm;
use algorithms::fault::{AlgorithmFault, ReadFault};
use std::alloc::Global;

/// The most lines of a text.
const MOST_LINES: usize = 4096;

/// The most lines of a text that are not empty.
const MOST_FILLED: usize = 1024;

/// The most characters of a line.
const LONGEST_LINE: usize = 1000;

/// The tokens of one line, with its number.
fn read_tokens(alloc: Global, number: u64, line: &[u8]) -> Result<Filled, AlgorithmFault>
    ensures number { IfOk result (λ filled. filled.number ≡ number) }
    ensures says { IfOk result (λ filled. LineSays line.now (Ok (filled.tokens.all.items, filled.tokens.answer.items))) }
    ensures few { OnOk result (number ≤ 4096) }
    ensures short { OnOk result (length line.now ≤ 1000) }
    ensures first { IfErr result (λ fault. OrMemory fault (IsFaultOfTokens number line.now fault)) }
    ensures err { IfErr result (λ fault. IsRefusalOf fault (SaysTokens number line.now)) }
{
    if number > MOST_LINES as u64 || line.len() > LONGEST_LINE {
        return Err(ReadFault::TooBig.at(number));
    }
    match tokens_of(alloc, line) {
        Ok(tokens) => Ok(Filled { number, tokens }),
        Err(fault) => Err(fault.at(number)),
    }
}

/// Adds a line, unless it is empty.
fn add_filled(lines: &mut Vec<Filled>, line: Filled) -> Result<(), AlgorithmFault>
    ensures added { OnOk result (map spoken_of lines.new.items
        ≡ map spoken_of lines.old.items ++ and_line line.number line.tokens.all.items line.tokens.answer.items []) }
    ensures few { OnOk result (length lines.old.items ≤ 1024 → length lines.new.items ≤ 1024) }
    ensures err { IfErr result (λ fault. IsRefusalOf fault (length (map spoken_of lines.old.items
        ++ and_line line.number line.tokens.all.items line.tokens.answer.items []) ≤ 1024)) }
    ensures first { IfErr result (λ fault. OrMemory fault ((1024 < length (map spoken_of lines.old.items
        ++ and_line line.number line.tokens.all.items line.tokens.answer.items [])) × (fault ≡ fault_of line.number TooBig))) }
{
    if line.tokens.all.is_empty() {
        return Ok(());
    }
    if lines.len() >= MOST_FILLED {
        return Err(ReadFault::TooBig.at(line.number));
    }
    lines.push(line).map_err(|_| AlgorithmFault::OutOfMemory)
}

/// The bytes up to the first line feed, and those after it.
fn split_line(bytes: &[u8]) -> Option<(&[u8], &[u8])>
    ensures parts { IfSome result (λ parts. bytes.now ≡ parts.0.now ++ (10 ∷ parts.1.now)) }
    ensures first { IfSome result (λ parts. list_all is_no_feed parts.0.now ≡ true) }
    ensures none { IfNone result (list_all is_no_feed bytes.now ≡ true) }
{
    let end = line_end(bytes)?;
    Some((&bytes[..end], tail(bytes, end + 1)))
}

/// The place of the first line feed.
fn line_end(bytes: &[u8]) -> Option<usize>
    ensures { result ≡ position (λ b. b == 10) bytes.now }
{
    place_of_byte(bytes, b'\n')
}

/// The lines of a text that are not empty.
fn lines_of(alloc: Global, text: &[u8]) -> Result<Vec<Filled>, AlgorithmFault>
    ensures ok { IfOk result (λ lines. TextSays text.now (map spoken_of lines.items)) }
    ensures err { IfErr result (λ fault. IsRefusalOf fault ((spoken : List Spoken) × TextSays text.now spoken)) }
    ensures first { IfErr result (λ fault. OrMemory fault (IsFaultOfLines text.now fault)) }
{
    let mut lines = Vec::new(alloc);
    let mut number: u64 = 1;
    let mut rest = text;
    while let Some((line, after)) = split_line(rest) {
        let filled = read_tokens(alloc, number, line)?;
        add_filled(&mut lines, filled)?;
        rest = after;
        number = number.saturating_add(1);
    }
    if rest.is_empty() {
        Ok(lines)
    } else {
        Err(ReadFault::NoNewline.at(number))
    }
}

/// The promises that the second line says, and its number. `first` is the number of the line before it.
fn second_line(
    alloc: Global,
    lines: &[Filled],
    first: u64,
) -> Result<(SecondLine, u64), AlgorithmFault>
    ensures ok { IfOk result (λ second. second_said (slice_get lines.now 1) ≡ Some (promises_said second.0, second.1)) }
    ensures err { IfErr result (λ fault. RefusesLines fault (second_said (slice_get lines.now 1))) }
    ensures first { IfErr result (λ fault. OrMemory fault (IsFaultOfSecond first (slice_get (map spoken_of lines.now) 1) fault)) }
{
    match lines.get(1) {
        None => Err(ReadFault::NoHeader.at(first)),
        Some(second) => promises_of(alloc, second),
    }
}

/// The promises that a line says, and its number.
fn promises_of(alloc: Global, line: &Filled) -> Result<(SecondLine, u64), AlgorithmFault>
    ensures ok { IfOk result (λ second. second_said (Some line.now) ≡ Some (promises_said second.0, second.1)) }
    ensures err { IfErr result (λ fault. RefusesLines fault (second_said (Some line.now))) }
    ensures at { IfErr result (λ fault. OrMemory fault (StopsOnLine line.now.number (read_promises line.now.tokens.all.items)
        (promises_fault line.now.tokens.all.items) fault)) }
{
    match promises(alloc, &line.tokens) {
        Ok(said) => Ok((said, line.number)),
        Err(fault) => Err(fault.at(line.number)),
    }
}

/// The draft of a text of which the first two lines are read.
fn draft(alloc: Global, lines: &[Filled]) -> Result<Draft, AlgorithmFault>
    ensures ok { IfOk result (λ draft.
        read_text (map spoken_of lines.now) ≡ read_lines (draft_view draft) (drop 2 (map spoken_of lines.now))) }
    ensures err { IfErr result (λ fault. RefusesLines fault (read_text (map spoken_of lines.now))) }
    ensures begins { IfOk result (λ draft. BeginsDraft (map spoken_of lines.now) (draft_view draft)) }
    ensures first { IfErr result (λ fault. OrMemory fault
        (IsFaultOfHead (slice_get (map spoken_of lines.now) 0) (slice_get (map spoken_of lines.now) 1) fault)) }
{
    let first = match lines.first() {
        Some(first) => first,
        None => return Err(ReadFault::NoHeader.at(1)),
    };
    let algorithm = head_of(alloc, first)?;
    match second_line(alloc, lines, first.number) {
        Ok((said, number)) => Ok(new_draft(alloc, algorithm, said, number)),
        Err(fault) => {
            drop(algorithm);
            Err(fault)
        }
    }
}

/// What the first line says.
fn head_of(alloc: Global, line: &Filled) -> Result<Algorithm, AlgorithmFault>
    ensures ok { IfOk result (λ a. (h : List ℕ × ℕ × ℕ)
        × (read_head line.now.tokens.all.items ≡ Some h) × IsEmpty a h.0 h.1 h.2) }
    ensures err { IfErr result (λ fault. RefusesLines fault (read_head line.now.tokens.all.items)) }
    ensures at { IfErr result (λ fault. OrMemory fault (StopsOnLine line.now.number (read_head line.now.tokens.all.items)
        (head_fault line.now.tokens.all.items) fault)) }
{
    match head(alloc, &line.tokens) {
        Ok(algorithm) => Ok(algorithm),
        Err(fault) => Err(fault.at(line.number)),
    }
}

/// A draft of this algorithm, after the line of this number.
fn new_draft(alloc: Global, algorithm: Algorithm, said: SecondLine, number: u64) -> Draft
    ensures { (h : List ℕ × ℕ × ℕ) → IsEmpty algorithm h.0 h.1 h.2
        → draft_view result ≡ empty_draft h (promises_said said) number }
{
    let SecondLine {
        promises,
        step_bounds,
    } = said;
    let mut algorithm = algorithm;
    algorithm.promises = promises;
    algorithm.step_bounds = step_bounds;
    Draft {
        algorithm,
        opened: Vec::new(alloc),
        blocks: Vec::new(alloc),
        labels: Vec::new(alloc),
        jumps: Vec::new(alloc),
        calls: Vec::new(alloc),
        claim_labels: Vec::new(alloc),
        number,
        starts: Vec::new(alloc),
        says_values: false,
    }
}

/// The lines after the first two.
fn after_head(lines: &[Filled]) -> &[Filled]
    ensures { result.now ≡ drop 2 lines.now }
{
    if lines.len() > 2 {
        &lines[2..]
    } else {
        &lines[..0]
    }
}

/// Reads a line.
fn read_line(alloc: Global, draft: &mut Draft, line: &Filled) -> Result<(), AlgorithmFault>
    ensures ok { OnOk result ((ss : List Spoken)
        → read_lines (draft_view draft.old) (spoken_of line.now ∷ ss) ≡ read_lines (draft_view draft.new) ss) }
    ensures err { IfErr result (λ fault. (ss : List Spoken)
        → RefusesLines fault (read_lines (draft_view draft.old) (spoken_of line.now ∷ ss))) }
    ensures made { OnOk result (read_line (with_number line.now.number (draft_view draft.old)) line.now.tokens.all.items
        line.now.tokens.answer.items (draft_view draft.old).number ≡ Some (draft_view draft.new)) }
    ensures first { IfErr result (λ fault. OrMemory fault (StopsOnLine line.now.number
        (read_line (with_number line.now.number (draft_view draft.old)) line.now.tokens.all.items
        line.now.tokens.answer.items (draft_view draft.old).number)
        (line_fault (with_number line.now.number (draft_view draft.old)) line.now.tokens.all.items (draft_view draft.old).number) fault)) }
{
    let last = draft.number;
    draft.number = line.number;
    match draft.line(alloc, &line.tokens, last) {
        Ok(()) => Ok(()),
        Err(fault) => Err(fault.at(line.number)),
    }
}

/// Ends the last call.
fn end_calls(draft: &mut Draft) -> Result<(), AlgorithmFault>
    ensures ok { OnOk result (read_lines (draft_view draft.old) [] ≡ Some (draft_view draft.new)) }
    ensures err { IfErr result (λ fault. RefusesLines fault (read_lines (draft_view draft.old) [])) }
    ensures first { IfErr result (λ fault. OrMemory fault (IsFaultOfForms (draft_view draft.old) [] fault)) }
{
    let last = draft.number;
    match draft.end_call(last) {
        Ok(()) => Ok(()),
        Err(fault) => Err(fault.at(last)),
    }
}

/// Reads all lines after the first two.
fn read_all(alloc: Global, draft: &mut Draft, lines: &[Filled]) -> Result<(), AlgorithmFault>
    ensures ok { OnOk result (read_lines (draft_view draft.old) (map spoken_of lines.now) ≡ Some (draft_view draft.new)) }
    ensures err { IfErr result (λ fault. RefusesLines fault (read_lines (draft_view draft.old) (map spoken_of lines.now))) }
    ensures first { IfErr result (λ fault. OrMemory fault
        (IsFaultOfForms (draft_view draft.old) (map spoken_of lines.now) fault)) }
{
    for line in lines {
        read_line(alloc, draft, line)?;
    }
    end_calls(draft)
}

/// The draft of a whole text.
pub fn forms(alloc: Global, text: &[u8]) -> Result<Draft, AlgorithmFault>
    ensures ok { IfOk result (λ draft. (spoken : List Spoken) × TextSays text.now spoken
        × (read_text spoken ≡ Some (draft_view draft))) }
    ensures err { IfErr result (λ fault. IsRefusalOf fault ((spoken : List Spoken) × (draft : Drafted) × TextSays text.now spoken
        × (read_text spoken ≡ Some draft))) }
    ensures first { IfErr result (λ fault. OrMemory fault
        (IsFaultOfLines text.now fault ⊎ IsFaultOfLater text.now fault)) }
{
    let lines = lines_of(alloc, text)?;
    let mut draft = draft(alloc, lines.as_slice())?;
    read_all(alloc, &mut draft, after_head(lines.as_slice()))?;
    Ok(draft)
}
