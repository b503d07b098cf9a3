//! The numbers that stay the same for one process.

/// The greatest number of processes of one world.
pub const MOST_PROCS: usize = 64;

/// What a process knows beside its names: its own number, how many processes there are, and the limit.
#[derive(Clone, Copy, Debug)]
pub struct Constants {
    pub me: u64,
    pub procs: u64,
    pub limit: u64,
}
