//! The lock, and wrong variants of it.

/// The lock, or one of its wrong variants. Each wrong variant differs from `Right` in one thing.
#[derive(Clone, Copy, Debug, PartialEq, Eq)]
pub enum Variant {
    /// The lock itself.
    Right,
    /// A waiter does not look whether another process is choosing. It only weighs numbers.
    NoLook,
    /// A waiter also passes a process with the same number.
    NoTies,
    /// A lock that finds its number taken scans again and takes a new one. It keeps the old one only where the numbers
    /// are spent.
    Renumber,
    /// A lock or recover that finds the process inside drops the number and leaves.
    ExitOnCrash,
    /// A repair puts count to one more than the count that it reads, and not by the record's place.
    CountUp,
    /// A repair leaves out the put of the sender's last number.
    LastSkipped,
}
