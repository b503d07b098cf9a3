//! The state of a member between its calls.

/// The state of a member between its calls.
#[derive(Clone, Copy, Debug, PartialEq, Eq)]
pub enum MemberState {
    /// Out of the section, with its private memory.
    Out,
    /// Without its private memory, as after a crash, or with no use for it, as after `NotYet`. The next call that takes a
    /// step has its process crash first.
    Lost,
    /// In the section.
    Mended,
    /// In the section again after a crash there, and has not mended since.
    Unmended,
}

impl MemberState {
    ghost use Rattle.std.specs.Prelude.{◌≡◌};
    ghost use Rattle.one_lock.specs.Member.{is_in as is_in_section, is_lost as has_lost};

    /// Whether it is in the section.
    pub fn is_in(self) -> bool
        ensures { result ≡ is_in_section self }
    {
        matches!(self, MemberState::Mended | MemberState::Unmended)
    }

    /// Whether it has lost its private memory.
    pub fn is_lost(self) -> bool
        ensures { result ≡ has_lost self }
    {
        self == MemberState::Lost
    }
}
