//! The kinds of steps.

/// The kind of a step. Each step is one load or one store of one word.
#[derive(Clone, Copy, Debug, PartialEq, Eq)]
pub enum Kind {
    /// Stores 1 into choosing, which begins the doorway.
    Open,
    /// Reads another process's number, in the doorway.
    Peek,
    /// Stores the greatest number read plus one into number, which finishes the doorway.
    Take,
    /// Stores 0 into choosing.
    Shut,
    /// Reads another process's choosing, while waiting.
    Look,
    /// Reads another process's number, while waiting.
    Weigh,
    /// Stores 1 into inside on entry, 0 at the end of the exit.
    Mark,
    /// Stores 0 into number. It is the exit from the section, or gives up the place in line.
    Drop,
    /// Reads one of the process's own lock words, after a start.
    Reread,
    /// Reads a data word, inside the section.
    Get,
    /// Writes a data word, inside the section.
    Put,
    /// Reads one word, inside or outside the section.
    Glance,
}
