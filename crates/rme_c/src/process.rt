//! The private memory of a process, as C keeps it.

/// The position of a process, encoded: the number of the place, and three numbers that it needs.
#[repr(C)]
#[derive(Clone, Copy)]
pub struct RmePosition {
    pub at: u64,
    pub first: u64,
    pub second: u64,
    pub third: u64,
}

/// The whole private memory of a process, with the sizes of its world. Numbers that no call can leave are those of a process
/// that has crashed.
#[repr(C)]
#[derive(Clone, Copy)]
pub struct RmeProcess {
    pub procs: u64,
    pub cap: u64,
    pub width: u64,
    /// The greatest number that the process can take.
    pub limit: u64,
    pub index: u64,
    pub position: RmePosition,
    /// 0: there is nothing to mend.
    pub unmended: u64,
    /// Not 0: a lock has found the lock ruined, and leaves.
    pub barred: u64,
    /// The own steps of the last call that was started.
    pub steps: u64,
    /// The words of the message that is stored or mended.
    pub value: [u64; 8],
}

/// A call, as C writes it: its code, the number of an append or the index of a board word, and the words of a value.
#[repr(C)]
#[derive(Clone, Copy)]
pub struct RmeCall {
    pub code: u64,
    pub number: u64,
    pub value: [u64; 8],
}

/// The next load (`store` 0) or store (1): the index of the word in the shared block, and the value that a store writes.
/// After an answer `value` is the board word that was read.
#[repr(C)]
#[derive(Clone, Copy)]
pub struct RmeAccess {
    pub store: u64,
    pub place: u64,
    pub value: u64,
}

/// The stores of an append, in order, and how it ended (`reports`, as `rme_feed` answers it). `count` 0: none are named.
#[repr(C)]
#[derive(Clone, Copy)]
pub struct RmeStores {
    pub reports: u64,
    pub count: u64,
    pub each: [RmeAccess; 24],
}
