//! Reads algorithms of mutual exclusion from texts, and writes them as texts. A text that breaks a rule of the format is refused,
//! with the line and the first rule that it breaks. What an algorithm is, and how it runs, is in `algorithms`.
//!
//! Main items: `read_algorithm`, `write_algorithm`, `laws`.
#![tactic(auto)]

mod accesses;
mod block_lines;
mod blocks;
mod calls;
mod checks;
mod claim_labels;
mod claims;
mod constants;
mod drafts;
mod extents;
mod fault_details;
mod filled;
mod first_values;
mod flow;
mod homes;
mod index_counts;
pub mod laws;
mod likeness;
mod lines;
mod loops;
mod marks;
mod name_places;
mod name_uses;
mod names;
mod operands;
mod parts;
mod promises;
mod rounds;
mod rows;
mod runs;
mod shared_words;
mod simple;
mod stack;
mod token_places;
mod tokens;
mod usage;
mod values;
mod whole;
mod writer;

pub use fault_details::{FaultDetail, fault_detail};
pub use whole::read_algorithm;
pub use writer::{WritingFault, write_algorithm};
