//! The judge: it decides which lists of deeds a recoverable first-come first-served lock with a mailbox can have made.
//! It refuses the first deed that is against a rule, and names the rule.
//!
//! Main items: `Judge`, `Start`, `laws`.
#![tactic(auto)]

pub mod ahead;
mod deeds;
mod faults;
pub mod judge;
pub mod laws;
pub mod mail_part;
pub mod messages;
pub mod phases;
mod place;
mod rows;
mod shape;
pub mod start;

pub use ahead::Ahead;
pub use judge::Judge;
pub use mail_part::MailPart;
pub use messages::Messages;
pub use phases::Phases;
pub use redomail::{Deed, Message};
pub use rmecore::{Fault, Outer, Phase, Refusal};
pub use start::Start;
