//! The meaning of an entry.

ghost use Rattle.std.specs.Prelude.{◌≡◌};
ghost use Rattle.cli.specs.Names.{name_of};

use crate::explain::algorithm_faults::{of_algorithm_fault, of_algorithm_refused};
use crate::explain::answers::of_answer;
use crate::explain::dictionary_entry::DictionaryEntry;
use crate::explain::refusals::of_refusal;
use crate::explain::steps::of_kind;
use crate::explain::texts::{of_judge_fault, of_line_fault, of_rule};

/// The meaning of an entry, for a reader who has met its name.
#[derive(Clone, Copy)]
pub struct Meaning {
    /// The entry's name.
    pub name: &'static str,
    /// Two sentences.
    pub text: &'static str,
    /// The page that defines it, and the part of that page.
    pub page: &'static str,
}

/// The meaning of an entry. Entries with the same name have the same meaning.
pub fn meaning_of(dictionary_entry: DictionaryEntry) -> Meaning
    ensures { result.name.now ≡ name_of dictionary_entry }
{
    match dictionary_entry {
        DictionaryEntry::Fault(fault) => of_line_fault(fault),
        DictionaryEntry::Refused(refusal) => of_refusal(refusal),
        DictionaryEntry::AlgorithmRefused(refused) => of_algorithm_refused(refused),
        DictionaryEntry::Rule(rule) => of_rule(rule),
        DictionaryEntry::Against(fault) => of_judge_fault(fault),
        DictionaryEntry::Answer(answer) => of_answer(answer),
        DictionaryEntry::Step(kind) => of_kind(kind),
        DictionaryEntry::AlgorithmFault(fault) => of_algorithm_fault(fault),
    }
}
