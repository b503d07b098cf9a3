//! The laboratory over the running lock. Its sizes, gates, faults and messages are those of the plain reference,
//! `table_runs::lab`.

mod lab_run;
mod worker;

pub use lab_run::run_lab;
pub use table_runs::lab::{Gate, LabFault, LabResult, Spec};
