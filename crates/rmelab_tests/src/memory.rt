//! Each request for memory of replays, traces, labs and whole invocations of the program is refused in turn. Each names public
//! functions of `schedule`, `robust` or `commands`.

mod invocations;
mod labs;
mod searches;
mod texts;
