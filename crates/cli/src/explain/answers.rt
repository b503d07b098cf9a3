//! The meanings of the answers of calls.

ghost use Rattle.std.specs.Prelude.{◌≡◌};
ghost use Rattle.cli.specs.declared.explain.dictionary_entry.DictionaryEntry.TheVariants.{Answer as OfAnswer};
ghost use Rattle.cli.specs.Names.{name_of, name_of_found, name_of_reply};

use crate::explain::meaning::Meaning;
use redomail::Reply;
use rmecore::Found;
use rmeworld::Answer;

const CLEAN: &str = "The process waited in the line, and is inside. There is nothing to mend.";

const OWNER_DIED: &str =
    "The process is inside again, where it had crashed. It has to mend by `consistent` before it leaves, or the lock \
is ruined.";

const NUMBERS_SPENT: &str =
    "A number in the line is the limit, so no greater one can be taken. The process has left the doorway, and is at \
rest.";

const NOT_RECOVERABLE: &str =
    "The lock is ruined, since a process left it without mending. After `lock` the process is outside again; after \
`consistent` it is still inside.";

const UNLOCKED: &str =
    "The process has left the section. If it had to mend and has not, it has ruined the lock.";

const WITHDRAWN: &str = "The process has given up its place in the line. It is at rest.";

const IDLE: &str =
    "`recover` read the words 0,0,0: the process was neither inside nor on its way in. It is at rest.";

const LEFT: &str =
    "`recover` read the words 0,0,1: the process had crashed on its way out. It has completed its exit, and is at rest.";

const DOORWAY: &str =
    "`recover` read the words 1,0,0: the process had crashed in the doorway, without a number. Its next lock goes \
through the doorway from its first reading.";

const WAITING: &str =
    "`recover` read a number and not inside: the process has its place in the line. Its next lock goes on waiting with \
the same number.";

const INSIDE: &str =
    "`recover` read a number and inside: the process had crashed inside, and is inside again. It has to mend by \
`consistent` before it leaves, or the lock is ruined.";

const STORED: &str = "The message is committed and shown. It is at the next place of the mailbox.";

const ALREADY: &str =
    "The mailbox has the sender's message with this number. Nothing was written, so an append that a crash cut off can \
be made again.";

const OUT_OF_ORDER: &str =
    "The number is 0, or greater than the sender's next one. Nothing was written.";

const FULL: &str = "The mailbox has no place left. Nothing was written.";

const CLOSED: &str =
    "The mailbox was closed before, and takes no more messages. Nothing was written.";

const CLOSED_NOW: &str =
    "The mailbox was open, and is closed from now on. The messages in it stay.";

const ALREADY_CLOSED: &str = "The mailbox was closed before. Nothing was written.";

const WORD: &str =
    "A word of the board was read. It comes after the name, as in `answer 0 word 7`.";

const DONE: &str = "A word of the board was written. The messages stay as they are.";

const MENDED: &str =
    "The process that crashed had committed a message, and the rest of its append is done now. From here on the \
process holds the lock as any other.";

const NOTHING_TO_MEND: &str =
    "No committed message was left unfinished. From here on the process holds the lock as any other.";

const RUINED: &str =
    "The task Check read that the lock is ruined. Only programs get this answer: in a report the lock answers \
`not-recoverable`.";

const NOT_RUINED: &str =
    "The task Check read that the lock is not ruined. Only programs get this answer: in a report the lock answers \
`clean` or `owner-died`.";

/// The name of a call's answer, and its sentences.
fn entry_of(answer: Answer) -> (&'static str, &'static str)
    ensures { result.0.now ≡ name_of (OfAnswer answer) }
{
    match answer {
        Answer::Clean => ("answer clean", CLEAN),
        Answer::OwnerDied => ("answer owner-died", OWNER_DIED),
        Answer::NumbersSpent => ("answer numbers-spent", NUMBERS_SPENT),
        Answer::NotRecoverable => ("answer not-recoverable", NOT_RECOVERABLE),
        Answer::Unlocked => ("answer unlocked", UNLOCKED),
        Answer::Withdrawn => ("answer withdrawn", WITHDRAWN),
        Answer::Found(found) => entry_of_found(found),
        Answer::Mail(reply) => entry_of_reply(reply),
    }
}

/// The name of what `recover` finds, and its sentences.
fn entry_of_found(found: Found) -> (&'static str, &'static str)
    ensures { result.0.now ≡ name_of_found found }
{
    match found {
        Found::Idle => ("answer found idle", IDLE),
        Found::Left => ("answer found left", LEFT),
        Found::Doorway => ("answer found doorway", DOORWAY),
        Found::Waiting => ("answer found waiting", WAITING),
        Found::Inside => ("answer found inside", INSIDE),
    }
}

/// The name of a task's reply, and its sentences.
fn entry_of_reply(reply: Reply) -> (&'static str, &'static str)
    ensures { result.0.now ≡ name_of_reply reply }
{
    match reply {
        Reply::Stored => ("answer stored", STORED),
        Reply::Already => ("answer already", ALREADY),
        Reply::OutOfOrder => ("answer out-of-order", OUT_OF_ORDER),
        Reply::Full => ("answer full", FULL),
        Reply::Closed => ("answer closed", CLOSED),
        Reply::ClosedNow => ("answer closed-now", CLOSED_NOW),
        Reply::AlreadyClosed => ("answer already-closed", ALREADY_CLOSED),
        Reply::Mended(mended) => entry_of_mending(mended),
        Reply::Word(_) => ("answer word", WORD),
        Reply::Done => ("answer put", DONE),
        Reply::Ruined(ruined) => entry_of_check(ruined),
    }
}

/// The name of what `consistent` has mended, and its sentences.
fn entry_of_mending(mended: bool) -> (&'static str, &'static str)
    ensures { result.0.now ≡ name_of_reply (Reply.Mended mended) }
{
    if mended {
        ("answer mended", MENDED)
    } else {
        ("answer nothing-to-mend", NOTHING_TO_MEND)
    }
}

/// The name of whether the lock is ruined, and its sentences.
fn entry_of_check(ruined: bool) -> (&'static str, &'static str)
    ensures { result.0.now ≡ name_of_reply (Reply.Ruined ruined) }
{
    if ruined {
        ("answer ruined", RUINED)
    } else {
        ("answer not-ruined", NOT_RUINED)
    }
}

/// The page that defines a call's answer, and the part of it.
fn page_of(answer: Answer) -> &'static str {
    match answer {
        Answer::Found(_) => "docs/theory/model.md, Restart table",
        Answer::Mail(_) => "docs/theory/mailbox.md, Tasks",
        _ => "docs/theory/model.md, Calls as rows of steps",
    }
}

/// The meaning of a call's answer.
pub fn of_answer(answer: Answer) -> Meaning
    ensures { result.name.now ≡ name_of (OfAnswer answer) }
{
    let (name, text) = entry_of(answer);
    let page = page_of(answer);
    Meaning { name, text, page }
}
