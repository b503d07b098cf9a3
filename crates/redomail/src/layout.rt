//! The indexes of the data words.

ghost use Rattle.std.specs.Prelude.{◌≡◌, ◌+◌, ◌<◌, ◌≤◌, ◌^◌, ◌↔◌, IsTrue};
ghost use Rattle.redomail.specs.Layout.{IsLayout, saturate, place_at, size, last_at as last_index, board_at as board_index};

/// The sizes of a mailbox, which decide the index of each data word: 1 to 64 processes, a capacity of 1 to 65,536 places,
/// and 1 to 8 words for each value. A layout outside these limits has indexes too. They saturate at the greatest u64.
#[derive(Clone, Copy, PartialEq, Eq, Debug)]
pub struct Layout {
    pub procs: u64,
    pub cap: u64,
    pub width: u64,
}

/// Index of the word ruined: 1 if the lock is ruined.
pub const RUINED: u64 = 0;
/// Index of the word closed: 1 if the mailbox is closed.
pub const CLOSED: u64 = 1;
/// Index of the word count: the number of messages shown.
pub const COUNT: u64 = 2;
/// Index of the word armed: 1 while a committed record is being applied.
pub const ARMED: u64 = 3;
/// Index of the record's place. Its number and the words of its value come after it.
pub const RECORD: u64 = 4;

impl Layout {
    /// Whether the sizes are at most those of a mailbox, and the width is 1 to 8.
    pub(crate) fn is_lawful(&self) -> bool
        ensures { IsTrue result ↔ IsLayout self.now }
    {
        self.procs <= 64 && self.cap <= 65_536 && self.width >= 1 && self.width <= 8
    }

    /// The index of board word `i`, 0 to 3.
    pub fn board(&self, i: u64) -> u64
        requires narrow { self.now.width ≤ 8 }
        requires below { i < 4 }
        ensures { result ≡ board_index self.now i }
    {
        6 + self.width + i
    }

    /// The index of process `q`'s last number.
    pub fn last(&self, q: u64) -> u64
        requires narrow { self.now.width ≤ 8 }
        requires below { q < 2 ^ 63 }
        ensures { result ≡ last_index self.now q }
    {
        10 + self.width + q
    }

    /// The index of word `k` of the entry at place `a`: 0 is the sender, 1 its number, then the words of the value.
    #[tactic(auto, unfolding(crate::specs::Layout::place_at))]
    pub fn place(&self, a: u64, k: u64) -> u64
        requires narrow { self.now.width ≤ 8 }
        requires within { k < 10 }
        ensures { result ≡ saturate (place_at self.now a + k) }
    {
        a.saturating_mul(2 + self.width)
            .saturating_add(10 + self.width + k)
            .saturating_add(self.procs)
    }

    /// The number of data words.
    pub fn words(&self) -> u64
        requires narrow { self.now.width ≤ 8 }
        ensures { result ≡ saturate (size self.now) }
    {
        self.place(self.cap, 0)
    }
}
