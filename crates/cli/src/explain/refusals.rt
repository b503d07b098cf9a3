//! The meanings of the refusals of calls.

ghost use Rattle.std.specs.Prelude.{◌≡◌};
ghost use Rattle.cli.specs.declared.explain.dictionary_entry.DictionaryEntry.TheVariants.{Refused as OfRefused};
ghost use Rattle.cli.specs.Names.{name_of};

use crate::explain::meaning::Meaning;
use rmecore::Refusal;

const BAD_PROCS: &str =
    "The number of processes is not 1 to 64, or the algorithm has no world of it. The first line has it as `procs`.";

const BAD_LIMIT: &str =
    "The limit of the lock's numbers is not 1 to 4611686018427387904. The first line has it as `limit`.";

const NO_SUCH_PROCESS: &str =
    "There is no process with this number. Processes count from 0, so the last is one less than `procs`.";

const CALL_UNDER_WAY: &str =
    "A call of the process is under way. First the process has to take its steps up to its answer, or to crash.";

const NOT_OWNER: &str =
    "The process is not in the section. It can neither leave the section nor use what it guards; POSIX says EPERM.";

const ALREADY_IN: &str =
    "The process is in the section already. It may lock or recover after it has left or crashed.";

const NOTHING_TO_DO: &str =
    "No call of the process is under way, so it has no step to take. First a line has to start one, such as `lock P`.";

const BAD_CAP: &str =
    "The capacity of the mailbox is not 1 to 65536. The first line has it as `cap`.";

const BAD_IMAGE: &str =
    "The first line does not fit the image: it has to have the image's processes, limit and capacity, and at least its \
width. If the image itself is wrong, the refusal names the rule that it breaks.";

const NOT_INCONSISTENT: &str =
    "The process has nothing to mend: it waited in the line, or has mended already. POSIX says EINVAL.";

const BAD_SHAPE: &str =
    "The words are not those of a mailbox, or no judge can begin from such a start. Only programs get this refusal: a \
report says `mail broken`.";

const UNMENDED: &str =
    "The process came back after a crash inside, and has not mended what it found. First `consistent P` has to be \
answered.";

const BAD_INDEX: &str =
    "There is no word with this index. The board has four, with the indexes 0 to 3.";

const NOT_WAITING: &str =
    "Only a lock that waits can be withdrawn; of an algorithm, one before a line with `may withdraw`. At rest, in the \
doorway and inside there is nothing to give up.";

const BAD_WIDTH: &str =
    "The number of words is not allowed here. A message has 1 to 8, and all messages of a world have the same number.";

pub(crate) const OUT_OF_MEMORY: &str =
    "A request for memory was refused. This is the answer only if there is no other cause, and the call may be made \
again.";

/// The name of a refusal, and its sentences.
#[tactic(auto, unfolding(crate::proofs::ExplainCommon::digits))]
fn entry_of(refusal: Refusal) -> (&'static str, &'static str)
    ensures { result.0.now ≡ name_of (OfRefused refusal) }
{
    match refusal {
        Refusal::BadProcs => ("refused 1", BAD_PROCS),
        Refusal::BadLimit => ("refused 2", BAD_LIMIT),
        Refusal::NoSuchProcess => ("refused 3", NO_SUCH_PROCESS),
        Refusal::CallUnderWay => ("refused 4", CALL_UNDER_WAY),
        Refusal::NotOwner => ("refused 5", NOT_OWNER),
        Refusal::AlreadyIn => ("refused 6", ALREADY_IN),
        Refusal::NothingToDo => ("refused 7", NOTHING_TO_DO),
        Refusal::BadCap => ("refused 8", BAD_CAP),
        Refusal::BadImage { .. } => ("refused 9", BAD_IMAGE),
        Refusal::NotInconsistent => ("refused 10", NOT_INCONSISTENT),
        Refusal::BadShape => ("refused 11", BAD_SHAPE),
        Refusal::Unmended => ("refused 12", UNMENDED),
        Refusal::BadIndex => ("refused 13", BAD_INDEX),
        Refusal::NotWaiting => ("refused 14", NOT_WAITING),
        Refusal::BadWidth => ("refused 15", BAD_WIDTH),
        Refusal::OutOfMemory => ("out of memory", OUT_OF_MEMORY),
    }
}

/// The meaning of a refusal.
pub fn of_refusal(refusal: Refusal) -> Meaning
    ensures { result.name.now ≡ name_of (OfRefused refusal) }
{
    let (name, text) = entry_of(refusal);
    Meaning {
        name,
        text,
        page: "docs/dev/surface.md, Rules for all calls",
    }
}
