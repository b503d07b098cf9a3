//! The meanings of the kinds of steps.

ghost use Rattle.std.specs.Prelude.{◌≡◌};
ghost use Rattle.cli.specs.declared.explain.dictionary_entry.DictionaryEntry.TheVariants.{Step as OfStep};
ghost use Rattle.cli.specs.Names.{name_of};

use crate::explain::meaning::Meaning;
use rmecore::Kind;

const OPEN: &str = "Stores choosing := 1. The doorway begins, and with it comes the deed Begin.";

const PEEK: &str =
    "Loads the number of another process in the doorway. The greatest number that is read counts.";

const TAKE: &str =
    "Stores number := the greatest number read, plus one. The doorway is complete, and the process is in the line: the \
deed Ready.";

const SHUT: &str =
    "Stores choosing := 0, so that others need not wait for a number. If none was taken, since the limit is reached, \
it is the deed Quit.";

const LOOK: &str =
    "Loads choosing of another process, to pass it. If it is 1 the step is blocked, and the next one reads the same \
word.";

const WEIGH: &str =
    "Loads the number of another process, to pass it. If that process comes first the step is blocked, and the next \
one reads the same word.";

const MARK: &str =
    "Stores inside := 1, which is the deed Enter, or inside := 0, the end of an exit. The first comes when all others \
are passed, the second after a drop.";

const DROP: &str = "Stores number := 0. That is the deed Leave, or in a withdraw the deed Quit.";

const REREAD: &str =
    "Loads one of the process's own words at the start of a lock or a recover: choosing, number, inside. The restart \
table says what comes after the third.";

const GET: &str = "Loads a data word while inside. The task that is under way names the word.";

const PUT: &str =
    "Stores a data word while inside. The task that is under way names the word and its value.";

const GLANCE: &str =
    "Loads one word, also outside the section. It changes no word and no state of its process.";

/// The name of a kind of step, and its sentences.
fn entry_of(kind: Kind) -> (&'static str, &'static str)
    ensures { result.0.now ≡ name_of (OfStep kind) }
{
    match kind {
        Kind::Open => ("step open", OPEN),
        Kind::Peek => ("step peek", PEEK),
        Kind::Take => ("step take", TAKE),
        Kind::Shut => ("step shut", SHUT),
        Kind::Look => ("step look", LOOK),
        Kind::Weigh => ("step weigh", WEIGH),
        Kind::Mark => ("step mark", MARK),
        Kind::Drop => ("step drop", DROP),
        Kind::Reread => ("step reread", REREAD),
        Kind::Get => ("step get", GET),
        Kind::Put => ("step put", PUT),
        Kind::Glance => ("step glance", GLANCE),
    }
}

/// The meaning of a kind of step.
pub fn of_kind(kind: Kind) -> Meaning
    ensures { result.name.now ≡ name_of (OfStep kind) }
{
    let (name, text) = entry_of(kind);
    Meaning {
        name,
        text,
        page: "docs/theory/model.md, Step",
    }
}
