//! The laboratory: workers send numbered messages through one mailbox while their plans let them crash. Its sizes, gates and
//! faults are those of `table_runs::lab`.

mod all_sent;
mod crew;
mod lab_run;
mod shown_messages;

pub use lab_run::run_lab;
pub use table_runs::lab::{Gate, LabFault, LabResult, Spec, WorkerEnd};
