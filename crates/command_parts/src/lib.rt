//! What the commands of the lock and those of algorithms share: how a command ends, the files that it names, the progress that it
//! shows, what it writes of what it has found, sessions over their input, and texts of states.
//!
//! Main items: `Ending`, `CommandFault`, `Folder`.
#![tactic(auto)]

pub mod algorithm_fault;
pub mod conversation;
pub mod costs;
pub mod ending;
pub mod fault;
pub mod findings;
pub mod folder;
pub mod line;
pub mod options;
pub mod progress;
pub mod report_object;
pub mod schedule_text;
pub mod states;

pub use ending::Ending;
pub use fault::CommandFault;
pub use folder::{FileFault, Folder, NoFolder};
pub use progress::meter::Meter;
pub use progress::screen::{NoScreen, Screen, Terminal};
pub use progress::work::Work;
