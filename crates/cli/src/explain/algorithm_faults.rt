//! The meanings of the faults of algorithms' texts, and of what their runs refuse.

ghost use Rattle.std.specs.Prelude.{◌≡◌};
ghost use Rattle.cli.specs.declared.explain.dictionary_entry.DictionaryEntry.TheVariants.{AlgorithmFault as OfAlgorithm, AlgorithmRefused as OfRefused};
ghost use Rattle.cli.specs.Names.{name_of};

use crate::explain::algorithm_refused::AlgorithmRefused;
use crate::explain::meaning::Meaning;
use crate::explain::refusals::OUT_OF_MEMORY;
use algorithms::ReadFault;

const NO_HEADER: &str =
    "The text is empty, its first line is no header, or its second line has no promises. It begins with `algorithm \
NAME for 2 processes` and `promises exclusion`.";

const BAD_CHARACTER: &str =
    "A byte is not printable ASCII, such as a tab, or a character belongs to no word, number or sign of the format. \
Comments may have any printable character.";

const NO_NEWLINE: &str =
    "The last line does not end with a line feed. Each line of an algorithm has to end with one.";

const BAD_FORM: &str =
    "The line has none of the forms, or a part of it is not what is expected there. Each kind of line, such as an \
access, an assignment or a condition, has one form.";

const NAME_TAKEN: &str =
    "The name is declared already, or is a word of the format. In one call each label is there once, and a loop within \
a loop has another name.";

const UNKNOWN_NAME: &str =
    "No such shared word is declared, or the call never sets this name. The name of a loop is known within the loop \
alone.";

const TWO_ACCESSES: &str =
    "A shared word is part of a value, a condition or an index, or is stored into another. One line makes one access: \
read the word into a private name in a line of its own.";

const NOT_ASSIGNABLE: &str =
    "This can't be set here: `me`, `procs`, `limit`, the name of a loop, or a shared word where a private name is \
required, as after `await` or `for`. A private name can be set.";

const BAD_BLOCK: &str =
    "An `end` is missing or one too many, an `else` has no `if`, or a call begins within a block. Each `if` of several \
lines and each `for` has an `end` of its own.";

const BAD_LABEL: &str =
    "The call has no such label, or the label is in a block that the `goto` is not in. A `goto` leads out of blocks, \
never into one.";

const UNSET: &str =
    "A name may be read here before it is set. Every path to this line has to set it, also one that skips an `if` or a \
loop that may have no round.";

const ENDLESS: &str =
    "A `goto` can repeat local lines without a step. Each way back but that of a loop has to make an access, such as a load.";

const NO_STEP: &str =
    "A `done` or a deed can come before the first step of the call. The first access of the call has to come first.";

const FALLS_OFF: &str =
    "A run can go past the last line of the call, or the call has no lines. Each path ends with `done` or goes back.";

const BAD_DEED: &str =
    "The deed does not fit the promises, or comes after a line that takes no step; or the lock has no `enter`, or the \
unlock no `leave`. Without order the only deeds are `enter` and `leave`; `reenter` needs order and re-entry.";

const TOO_BIG: &str =
    "A number is greater than 18446744073709551615, or a limit of the format is exceeded. There are limits on lines, \
their length, names, words, nesting and processes.";

const BAD_CALL: &str =
    "There is no lock or no unlock, or a call is there twice. `may withdraw` is for lines of the lock, and requires a \
`call withdraw`.";

const NEVER_REACHED: &str =
    "No run reaches this line. A `goto` or a `done` before it leads elsewhere, and no `goto` leads here.";

const OUT_OF_RANGE: &str =
    "A value is not 0 to 18446744073709551615, a division is by 0, an index is no process, a store is above its bound, \
a deed is the fourth of its step, or loops have too many rounds without an access. The start or the step is refused, and \
nothing changes.";

const NO_SUCH_CALL: &str =
    "The text of the algorithm has no such call. No text has the calls of the mailbox and its board.";

const MALFORMED: &str =
    "The algorithm is wrong at a line: there is no such line, or local lines repeat for ever. No text that was read \
has this fault.";

/// The name of a fault of an algorithm's text, and its sentences. Out of memory has those of the refusal.
#[tactic(auto, unfolding(crate::proofs::ExplainCommon::digits))]
fn entry_of(fault: ReadFault) -> (&'static str, &'static str)
    ensures { result.0.now ≡ name_of (OfAlgorithm fault) }
{
    match fault {
        ReadFault::NoHeader => ("algorithm fault 1", NO_HEADER),
        ReadFault::BadCharacter => ("algorithm fault 2", BAD_CHARACTER),
        ReadFault::NoNewline => ("algorithm fault 3", NO_NEWLINE),
        ReadFault::BadForm => ("algorithm fault 4", BAD_FORM),
        ReadFault::NameTaken => ("algorithm fault 5", NAME_TAKEN),
        ReadFault::UnknownName => ("algorithm fault 6", UNKNOWN_NAME),
        ReadFault::TwoAccesses => ("algorithm fault 7", TWO_ACCESSES),
        ReadFault::NotAssignable => ("algorithm fault 8", NOT_ASSIGNABLE),
        ReadFault::BadBlock => ("algorithm fault 9", BAD_BLOCK),
        ReadFault::BadLabel => ("algorithm fault 10", BAD_LABEL),
        ReadFault::Unset => ("algorithm fault 11", UNSET),
        ReadFault::Endless => ("algorithm fault 12", ENDLESS),
        ReadFault::NoStep => ("algorithm fault 13", NO_STEP),
        ReadFault::FallsOff => ("algorithm fault 14", FALLS_OFF),
        ReadFault::BadDeed => ("algorithm fault 15", BAD_DEED),
        ReadFault::TooBig => ("algorithm fault 16", TOO_BIG),
        ReadFault::BadCall => ("algorithm fault 17", BAD_CALL),
        ReadFault::NeverReached => ("algorithm fault 18", NEVER_REACHED),
        ReadFault::OutOfMemory => ("out of memory", OUT_OF_MEMORY),
    }
}

/// The page that defines such a fault, and the part of it.
fn page_of(fault: ReadFault) -> &'static str {
    match fault {
        ReadFault::OutOfMemory => "docs/dev/surface.md, Rules for all calls",
        _ => "docs/use/algorithms.md, Faults of a text",
    }
}

/// The meaning of a fault of an algorithm's text.
pub fn of_algorithm_fault(fault: ReadFault) -> Meaning
    ensures { result.name.now ≡ name_of (OfAlgorithm fault) }
{
    let (name, text) = entry_of(fault);
    let page = page_of(fault);
    Meaning { name, text, page }
}

/// The name of what a run of an algorithm's text refuses, and its sentences.
#[tactic(auto, unfolding(crate::proofs::ExplainCommon::digits))]
fn entry_of_refused(refused: AlgorithmRefused) -> (&'static str, &'static str)
    ensures { result.0.now ≡ name_of (OfRefused refused) }
{
    match refused {
        AlgorithmRefused::OutOfRange => ("refused 16", OUT_OF_RANGE),
        AlgorithmRefused::NoSuchCall => ("refused 17", NO_SUCH_CALL),
        AlgorithmRefused::Malformed => ("refused 18", MALFORMED),
    }
}

/// The meaning of what a run of an algorithm's text refuses.
pub fn of_algorithm_refused(refused: AlgorithmRefused) -> Meaning
    ensures { result.name.now ≡ name_of (OfRefused refused) }
{
    let (name, text) = entry_of_refused(refused);
    Meaning {
        name,
        text,
        page: "docs/use/algorithms.md, Meaning",
    }
}
