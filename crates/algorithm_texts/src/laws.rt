//! Laws of the format.

ghost use Rattle.algorithm_texts.specs.Blocks.{MakeBlocks};
ghost use Rattle.algorithm_texts.specs.Likeness.{SpellAlike};
ghost use Rattle.algorithm_texts.specs.Sayings.{AreReadAsSaid};
ghost use Rattle.algorithm_texts.specs.Operands.{SayOnePart};
ghost use Rattle.algorithm_texts.specs.Programs.{BeginAtZero, SpellOne};
ghost use Rattle.algorithm_texts.specs.TextFaults.{NamesFirstLine};
ghost use Rattle.algorithm_texts.specs.TokenPlaces.{AreAtTheirPlaces};
ghost use Rattle.algorithm_texts.specs.Tokens.{SaysOnce};

/// A line has one list of tokens and one answer, or one first fault.
pub fn a_line_says_one_thing()
    ensures { SaysOnce }
{}

/// Tokens say one value, one pair or one condition, or none of them.
pub fn tokens_say_one_part()
    ensures { SayOnePart }
{}

/// The lines of a call that is read are those of a tree of blocks, and are read as that tree says.
pub fn lines_make_blocks()
    ensures { MakeBlocks }
{}

/// Where a line is read, its values and conditions are those that the grammar says.
pub fn tokens_are_read_as_said()
    ensures { AreReadAsSaid }
{}

/// The algorithms that a text spells are all what one draft says.
pub fn a_text_spells_one_draft()
    ensures { SpellOne }
{}

/// A text that says no first value, names no constant and has no array of another size than `procs` spells an algorithm whose words
/// are all 0 at the beginning.
pub fn a_text_without_values_begins_at_zero()
    ensures { BeginAtZero }
{}

/// The fault of a text whose lines do not say tokens is at the first line with which they no longer do.
pub fn the_first_faulty_line_is_named()
    ensures { NamesFirstLine }
{}

/// The algorithms that a text spells are the same in all that a text says, the numbers of the lines among it.
pub fn a_text_spells_one_algorithm()
    ensures { SpellAlike }
{}

/// The tokens at the places of a line at which its slips are looked for are those that the line says, with the fault at which they end.
pub fn tokens_are_at_their_places()
    ensures { AreAtTheirPlaces }
{}
