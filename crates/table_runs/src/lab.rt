//! What a laboratory is made with and ends with, whichever lock it is over: its sizes, its gates, its faults, and what its workers
//! send.

pub mod gate;
pub mod lab_fault;
pub mod lab_result;
pub mod sent_messages;
pub mod spec;
pub mod worker_end;

pub use gate::Gate;
pub use lab_fault::LabFault;
pub use lab_result::LabResult;
pub use spec::Spec;
pub use worker_end::WorkerEnd;
