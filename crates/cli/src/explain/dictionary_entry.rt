//! The entries that can be explained, by name.

ghost use Rattle.std.specs.Prelude.{◌≡◌, ◌≢◌, ◌↔◌, All, IfSome, IsNone, true};
ghost use Rattle.cli.specs.Names.{name_of};

use crate::explain::algorithm_refused::AlgorithmRefused;
use crate::explain::meaning::meaning_of;
use crate::explain::rule::Rule;
use algorithms::ReadFault as AlgorithmLineFault;
use redomail::Reply;
use rmecore::{Fault, Found, Kind, Refusal};
use rmeworld::Answer;
use schedule::LineFault;
use std::fmt;

/// An entry that can be explained. A number or a process beside it isn't part of its name.
#[derive(Clone, Copy)]
pub enum DictionaryEntry {
    /// A fault of a line of a text.
    Fault(LineFault),
    /// A refusal of a call.
    Refused(Refusal),
    /// A refusal that runs of an algorithm's text have alone.
    AlgorithmRefused(AlgorithmRefused),
    /// A rule of an image.
    Rule(Rule),
    /// A fault for which a verdict is against a run.
    Against(Fault),
    /// An answer of a call.
    Answer(Answer),
    /// A kind of step.
    Step(Kind),
    /// A fault of an algorithm's text.
    AlgorithmFault(AlgorithmLineFault),
}

/// Its name.
impl fmt::Debug for DictionaryEntry {
    fn fmt<W: fmt::Write>(&self, f: &mut fmt::Formatter<W>) -> fmt::Result {
        f.write_str(meaning_of(*self).name)
    }
}

/// All entries that can be explained: one for each name.
pub const ENTRIES: [DictionaryEntry; 99] = [
    DictionaryEntry::Fault(LineFault::NoHeader),
    DictionaryEntry::Fault(LineFault::BadWord),
    DictionaryEntry::Fault(LineFault::BadNumber),
    DictionaryEntry::Fault(LineFault::TooBig),
    DictionaryEntry::Fault(LineFault::NoNewline),
    DictionaryEntry::Fault(LineFault::TrailingText),
    DictionaryEntry::Refused(Refusal::BadProcs),
    DictionaryEntry::Refused(Refusal::BadLimit),
    DictionaryEntry::Refused(Refusal::NoSuchProcess),
    DictionaryEntry::Refused(Refusal::CallUnderWay),
    DictionaryEntry::Refused(Refusal::NotOwner),
    DictionaryEntry::Refused(Refusal::AlreadyIn),
    DictionaryEntry::Refused(Refusal::NothingToDo),
    DictionaryEntry::Refused(Refusal::BadCap),
    DictionaryEntry::Refused(Refusal::BadImage { rule: 1 }),
    DictionaryEntry::Refused(Refusal::NotInconsistent),
    DictionaryEntry::Refused(Refusal::BadShape),
    DictionaryEntry::Refused(Refusal::Unmended),
    DictionaryEntry::Refused(Refusal::BadIndex),
    DictionaryEntry::Refused(Refusal::NotWaiting),
    DictionaryEntry::Refused(Refusal::BadWidth),
    DictionaryEntry::AlgorithmRefused(AlgorithmRefused::OutOfRange),
    DictionaryEntry::AlgorithmRefused(AlgorithmRefused::NoSuchCall),
    DictionaryEntry::AlgorithmRefused(AlgorithmRefused::Malformed),
    DictionaryEntry::Refused(Refusal::OutOfMemory),
    DictionaryEntry::Rule(Rule::Form),
    DictionaryEntry::Rule(Rule::Version),
    DictionaryEntry::Rule(Rule::Sizes),
    DictionaryEntry::Rule(Rule::Length),
    DictionaryEntry::Rule(Rule::Rows),
    DictionaryEntry::Rule(Rule::Inside),
    DictionaryEntry::Rule(Rule::Heads),
    DictionaryEntry::Rule(Rule::List),
    DictionaryEntry::Rule(Rule::Record),
    DictionaryEntry::Against(Fault::OutOfPlace),
    DictionaryEntry::Against(Fault::TwoInside),
    DictionaryEntry::Against(Fault::NotReentered),
    DictionaryEntry::Against(Fault::Overtaken { by: 0, of: 0 }),
    DictionaryEntry::Against(Fault::NotInside),
    DictionaryEntry::Against(Fault::MailOrder),
    DictionaryEntry::Against(Fault::AfterClose),
    DictionaryEntry::Against(Fault::LongExit),
    DictionaryEntry::Against(Fault::LongRecovery),
    DictionaryEntry::Against(Fault::LongDoorway),
    DictionaryEntry::Against(Fault::BrokenClaim),
    DictionaryEntry::Answer(Answer::Clean),
    DictionaryEntry::Answer(Answer::OwnerDied),
    DictionaryEntry::Answer(Answer::NumbersSpent),
    DictionaryEntry::Answer(Answer::NotRecoverable),
    DictionaryEntry::Answer(Answer::Unlocked),
    DictionaryEntry::Answer(Answer::Withdrawn),
    DictionaryEntry::Answer(Answer::Found(Found::Idle)),
    DictionaryEntry::Answer(Answer::Found(Found::Left)),
    DictionaryEntry::Answer(Answer::Found(Found::Doorway)),
    DictionaryEntry::Answer(Answer::Found(Found::Waiting)),
    DictionaryEntry::Answer(Answer::Found(Found::Inside)),
    DictionaryEntry::Answer(Answer::Mail(Reply::Stored)),
    DictionaryEntry::Answer(Answer::Mail(Reply::Already)),
    DictionaryEntry::Answer(Answer::Mail(Reply::OutOfOrder)),
    DictionaryEntry::Answer(Answer::Mail(Reply::Full)),
    DictionaryEntry::Answer(Answer::Mail(Reply::Closed)),
    DictionaryEntry::Answer(Answer::Mail(Reply::ClosedNow)),
    DictionaryEntry::Answer(Answer::Mail(Reply::AlreadyClosed)),
    DictionaryEntry::Answer(Answer::Mail(Reply::Mended(true))),
    DictionaryEntry::Answer(Answer::Mail(Reply::Mended(false))),
    DictionaryEntry::Answer(Answer::Mail(Reply::Word(0))),
    DictionaryEntry::Answer(Answer::Mail(Reply::Done)),
    DictionaryEntry::Answer(Answer::Mail(Reply::Ruined(true))),
    DictionaryEntry::Answer(Answer::Mail(Reply::Ruined(false))),
    DictionaryEntry::Step(Kind::Open),
    DictionaryEntry::Step(Kind::Peek),
    DictionaryEntry::Step(Kind::Take),
    DictionaryEntry::Step(Kind::Shut),
    DictionaryEntry::Step(Kind::Look),
    DictionaryEntry::Step(Kind::Weigh),
    DictionaryEntry::Step(Kind::Mark),
    DictionaryEntry::Step(Kind::Drop),
    DictionaryEntry::Step(Kind::Reread),
    DictionaryEntry::Step(Kind::Get),
    DictionaryEntry::Step(Kind::Put),
    DictionaryEntry::Step(Kind::Glance),
    DictionaryEntry::AlgorithmFault(AlgorithmLineFault::NoHeader),
    DictionaryEntry::AlgorithmFault(AlgorithmLineFault::BadCharacter),
    DictionaryEntry::AlgorithmFault(AlgorithmLineFault::NoNewline),
    DictionaryEntry::AlgorithmFault(AlgorithmLineFault::BadForm),
    DictionaryEntry::AlgorithmFault(AlgorithmLineFault::NameTaken),
    DictionaryEntry::AlgorithmFault(AlgorithmLineFault::UnknownName),
    DictionaryEntry::AlgorithmFault(AlgorithmLineFault::TwoAccesses),
    DictionaryEntry::AlgorithmFault(AlgorithmLineFault::NotAssignable),
    DictionaryEntry::AlgorithmFault(AlgorithmLineFault::BadBlock),
    DictionaryEntry::AlgorithmFault(AlgorithmLineFault::BadLabel),
    DictionaryEntry::AlgorithmFault(AlgorithmLineFault::Unset),
    DictionaryEntry::AlgorithmFault(AlgorithmLineFault::Endless),
    DictionaryEntry::AlgorithmFault(AlgorithmLineFault::NoStep),
    DictionaryEntry::AlgorithmFault(AlgorithmLineFault::FallsOff),
    DictionaryEntry::AlgorithmFault(AlgorithmLineFault::BadDeed),
    DictionaryEntry::AlgorithmFault(AlgorithmLineFault::TooBig),
    DictionaryEntry::AlgorithmFault(AlgorithmLineFault::BadCall),
    DictionaryEntry::AlgorithmFault(AlgorithmLineFault::NeverReached),
];

/// Whether the entry has this name.
fn has_name(dictionary_entry: DictionaryEntry, name: &str) -> bool
    ensures { result ≡ true ↔ name_of dictionary_entry ≡ name.now }
{
    meaning_of(dictionary_entry).name == name
}

/// The first of these entries with this name.
fn among(dictionary_entries: &[DictionaryEntry], name: &str) -> Option<DictionaryEntry>
    ensures some { IfSome result (λ dictionary_entry. name_of dictionary_entry ≡ name.now) }
    ensures none { IsNone result → All (λ dictionary_entry. name_of dictionary_entry ≢ name.now) dictionary_entries.now }
{
    for dictionary_entry in dictionary_entries {
        if has_name(*dictionary_entry, name) {
            return Some(*dictionary_entry);
        }
    }
    None
}

/// The entry with this name, if there is one.
pub fn dictionary_entry_named(name: &str) -> Option<DictionaryEntry>
    ensures some { IfSome result (λ dictionary_entry. name_of dictionary_entry ≡ name.now) }
    ensures none { IsNone result → (dictionary_entry : DictionaryEntry) → name_of dictionary_entry ≢ name.now }
{
    among(&ENTRIES, name)
}
