//! What the tests of whole invocations share: the rows of a script are played on the program, over a folder in memory and
//! devices that may fail. Its whole output is compared, and each of its requests for memory is refused in turn. And progress
//! is kept.

pub mod alone;
pub mod devices;
pub mod fake;
pub mod invocation;
pub mod refused_memory;
pub mod row;
pub mod watching;
