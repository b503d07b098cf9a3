//! The command line of `rmelab`: its commands, the words that spell them, and what the names and numbers of its output mean.
//!
//! Main items: `Command`, `read_words`, `meaning_of`.
#![tactic(auto)]

pub mod arguments;
pub mod explain;

pub use arguments::args::Command;
pub use arguments::words::{WordsFault, read_words};
pub use explain::algorithm_refused::AlgorithmRefused;
pub use explain::dictionary_entry::{DictionaryEntry, ENTRIES, dictionary_entry_named};
pub use explain::meaning::{Meaning, meaning_of};
pub use explain::meaning_writer::{tell_all_names, tell_dictionary_entry};
pub use explain::rule::Rule;
