//! What the tests over members share, on the running lock and on its plain reference: one trait for the members of both,
//! rows of calls, plans and gates that report what they met, and the messages that are expected.

pub mod counted;
pub mod gated;
pub mod messages;
pub mod noting;
pub mod plain;
pub mod rows;
pub mod running;
pub mod tested;
pub mod text;
