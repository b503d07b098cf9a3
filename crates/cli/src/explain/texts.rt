//! The meanings of the faults of texts, the rules of images and the faults of judges.

ghost use Rattle.std.specs.Prelude.{◌≡◌};
ghost use Rattle.cli.specs.declared.explain.dictionary_entry.DictionaryEntry.TheVariants.{Fault as OfFault, Rule as OfRule, Against as OfAgainst};
ghost use Rattle.cli.specs.Names.{name_of};

use crate::explain::meaning::Meaning;
use crate::explain::rule::Rule;
use rmecore::Fault;
use schedule::LineFault;

const NO_HEADER: &str =
    "There is no line, or the first line is no header. A schedule begins with `rme 1 procs N limit L cap C` and a \
trace with `trace 1 procs N cap C`; with 2 in place of 1, `width W` follows.";

const BAD_WORD: &str =
    "The first word of the line is no command of a schedule, or no deed of a trace. The first word of an empty line is \
empty.";

const BAD_NUMBER: &str =
    "A number is missing, or it has a sign, a leading zero or another byte that is no digit. A number of steps or a \
width that is written out is at least 2.";

const TOO_BIG: &str =
    "The number is greater than is allowed here. A number of steps is at most 1000000, the width of a header at most \
8, and any other number at most 18446744073709551615.";

const NO_NEWLINE: &str =
    "The last line does not end with a line feed. Each line of a schedule or a trace has to end with one.";

const TRAILING_TEXT: &str =
    "There is a space after the last word that the line may have. The line has too many values for the width of the \
header, or ends with a space.";

const FORM: &str =
    "The text is one JSON object with the members `cap`, `data`, `limit`, `lock` and `version`, and with `width` or \
without it. Each number in it is an integer, at most 18446744073709551615, and written without point or exponent.";

const VERSION: &str =
    "The version is 1 without `width`, and 2 with it. An image of version 1 has width 1.";

const SIZES: &str =
    "The sizes are within their limits. `lock` has 1 to 64 processes, `limit` is 1 to 4611686018427387904, `cap` is 1 \
to 65536 and `width` is 1 to 8.";

const LENGTH: &str =
    "`data` has as many words as the other sizes require. With n processes and width W these are 10 + W + n, and 2 + W \
more for each place of `cap`.";

const ROWS: &str =
    "The three words of each process are a row of the restart table, and its number is at most the limit. The table is \
in docs/theory/model.md.";

const INSIDE: &str =
    "At most one process is inside, that is, has the words 0, a number and 1. It is the first in the line: its pair of \
number and process is the least of all whose number is not 0.";

const HEADS: &str =
    "The words ruined, closed and armed are at most 1, and count is at most the capacity. Closed and armed are not \
both 1.";

const LIST: &str =
    "If no record is armed, the entries are messages of processes, and the messages of each process are numbered 1, 2, \
3 and so on. The word `last` of each process is the number of its messages.";

const RECORD: &str =
    "If a record is armed, the process inside can have written it, and its entry is not begun, written in part, or \
complete. In a ruined lock any process can have written it.";

const OUT_OF_PLACE: &str =
    "The process is not in a state that this deed can follow, or there is no such process. A begin comes from outside \
the line, a ready from the doorway, an enter from the line, a re-entry after a crash inside, a leave from inside, and \
a quit from the doorway or the line.";

const TWO_INSIDE: &str =
    "A process entered while another was inside, or, of a text that promises `exclusion of K`, K others. Mutual \
exclusion is violated.";

const NOT_REENTERED: &str =
    "A process entered after another had crashed inside and before that one entered again. Until that one has entered \
again, no other may; with `exclusion of K` it counts as inside.";

const OVERTAKEN: &str =
    "`by Q of P`: process Q entered, though P was ready before Q began, and P has neither entered since nor given up \
its place. First come, first served is violated.";

const NOT_INSIDE: &str =
    "A process that is not inside wrote to the mailbox. Commit, show, close and ruin are deeds of the process inside.";

const MAIL_ORDER: &str =
    "The state of the mailbox does not allow the deed. A message is pending or none is, the place or the number is not \
the next one, there is no place left, or the lock is ruined.";

const AFTER_CLOSE: &str =
    "The mailbox was closed before. After a close no message is committed, and the mailbox is not closed again.";

const LONG_EXIT: &str =
    "A process takes more own steps in a call of unlock than the text promises by `exit within`. The exit is not bounded as \
promised; a step that waits for another process counts too.";

const LONG_RECOVERY: &str =
    "A process that crashed inside takes more own steps of its lock before it enters again than the text promises by \
`recovery within`. The re-entry is not bounded as promised.";

const LONG_DOORWAY: &str =
    "A process takes more own steps of its lock before it is ready than the text promises by `doorway within`. The doorway \
is not bounded as promised.";

const BROKEN_CLAIM: &str =
    "A condition holds that the text says never holds, by a line `never`. The line `breaks N` of the report has the number of that \
line, and stands where the condition holds after a step or a crash, or held before it.";

/// The name of a fault of a line, and its sentences.
#[tactic(auto, unfolding(crate::proofs::ExplainCommon::digits))]
fn entry_of_line_fault(fault: LineFault) -> (&'static str, &'static str)
    ensures { result.0.now ≡ name_of (OfFault fault) }
{
    match fault {
        LineFault::NoHeader => ("fault 1", NO_HEADER),
        LineFault::BadWord => ("fault 2", BAD_WORD),
        LineFault::BadNumber => ("fault 3", BAD_NUMBER),
        LineFault::TooBig => ("fault 4", TOO_BIG),
        LineFault::NoNewline => ("fault 5", NO_NEWLINE),
        LineFault::TrailingText => ("fault 6", TRAILING_TEXT),
    }
}

/// The meaning of a fault of a line of a schedule or a trace.
pub fn of_line_fault(fault: LineFault) -> Meaning
    ensures { result.name.now ≡ name_of (OfFault fault) }
{
    let (name, text) = entry_of_line_fault(fault);
    Meaning {
        name,
        text,
        page: "docs/dev/texts.md, Faults of the text",
    }
}

/// The name of a rule of an image, and its sentences.
#[tactic(auto, unfolding(crate::proofs::ExplainCommon::digits))]
fn entry_of_rule(rule: Rule) -> (&'static str, &'static str)
    ensures { result.0.now ≡ name_of (OfRule rule) }
{
    match rule {
        Rule::Form => ("rule 1", FORM),
        Rule::Version => ("rule 2", VERSION),
        Rule::Sizes => ("rule 3", SIZES),
        Rule::Length => ("rule 4", LENGTH),
        Rule::Rows => ("rule 5", ROWS),
        Rule::Inside => ("rule 6", INSIDE),
        Rule::Heads => ("rule 7", HEADS),
        Rule::List => ("rule 8", LIST),
        Rule::Record => ("rule 9", RECORD),
    }
}

/// The meaning of a rule of an image.
pub fn of_rule(rule: Rule) -> Meaning
    ensures { result.name.now ≡ name_of (OfRule rule) }
{
    let (name, text) = entry_of_rule(rule);
    Meaning {
        name,
        text,
        page: "docs/dev/texts.md, Image",
    }
}

/// The name of the fault for which a verdict is against a run, and its sentences.
#[tactic(auto, unfolding(crate::proofs::ExplainCommon::digits))]
fn entry_of_judge_fault(fault: Fault) -> (&'static str, &'static str)
    ensures { result.0.now ≡ name_of (OfAgainst fault) }
{
    match fault {
        Fault::OutOfPlace => ("against 1", OUT_OF_PLACE),
        Fault::TwoInside => ("against 2", TWO_INSIDE),
        Fault::NotReentered => ("against 3", NOT_REENTERED),
        Fault::Overtaken { .. } => ("against 4", OVERTAKEN),
        Fault::NotInside => ("against 5", NOT_INSIDE),
        Fault::MailOrder => ("against 6", MAIL_ORDER),
        Fault::AfterClose => ("against 7", AFTER_CLOSE),
        Fault::LongExit => ("against 8", LONG_EXIT),
        Fault::LongRecovery => ("against 9", LONG_RECOVERY),
        Fault::LongDoorway => ("against 10", LONG_DOORWAY),
        Fault::BrokenClaim => ("against 11", BROKEN_CLAIM),
    }
}

/// The page that defines such a fault, and the part of it: a deed before the judge, or a promise of an algorithm's text.
fn page_of(fault: Fault) -> &'static str {
    match fault {
        Fault::LongExit | Fault::LongRecovery => "docs/use/algorithms.md, Meaning",
        Fault::LongDoorway | Fault::BrokenClaim => "docs/use/algorithms.md, Meaning",
        _ => "docs/theory/judge.md, The judge table",
    }
}

/// The meaning of the fault for which a verdict is against a run.
pub fn of_judge_fault(fault: Fault) -> Meaning
    ensures { result.name.now ≡ name_of (OfAgainst fault) }
{
    let (name, text) = entry_of_judge_fault(fault);
    let page = page_of(fault);
    Meaning { name, text, page }
}
