//! The texts of schedules and traces, read and written, and the devices that their bytes come from and go to.

pub mod device;
pub mod fault;
pub mod head;
pub mod laws;
pub mod schedule;
pub mod text_writer;
pub mod trace;
pub mod whole;
pub mod wrapped;
