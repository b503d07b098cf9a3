//! The faults of an algorithm's text, as they are printed.

ghost use Rattle.std.specs.Prelude.{◌≡◌, ◌≤◌, length, Some};
ghost use Rattle.cli.specs.Names.{number_of_algorithm_fault};
ghost use Rattle.command_parts.specs.AlgorithmFaults.{column_of_detail, number_of_text_fault, sentence_of, words_of_detail};

use algorithm_texts::FaultDetail;
use algorithms::ReadFault;

/// The number of a fault of an algorithm's text.
pub fn number_of_text_fault(fault: ReadFault) -> u64
    ensures { result ≡ number_of_text_fault fault }
{
    match fault {
        ReadFault::NoHeader => 1,
        ReadFault::BadCharacter => 2,
        ReadFault::NoNewline => 3,
        ReadFault::BadForm => 4,
        ReadFault::NameTaken => 5,
        ReadFault::UnknownName => 6,
        ReadFault::TwoAccesses => 7,
        ReadFault::NotAssignable => 8,
        ReadFault::BadBlock => 9,
        ReadFault::BadLabel => 10,
        ReadFault::Unset => 11,
        ReadFault::Endless => 12,
        ReadFault::NoStep => 13,
        ReadFault::FallsOff => 14,
        ReadFault::BadDeed => 15,
        ReadFault::TooBig => 16,
        ReadFault::BadCall => 17,
        ReadFault::NeverReached => 18,
        ReadFault::OutOfMemory => 0,
    }
}

/// The sentence of a fault of an algorithm's text.
pub fn sentence_of(fault: ReadFault) -> &'static str
    ensures reports { result.now ≡ sentence_of fault }
    ensures few { length result.now ≤ 54 }
{
    match fault {
        ReadFault::NoHeader => "the first two lines are no header and promises",
        ReadFault::BadCharacter => "a character that means nothing here",
        ReadFault::NoNewline => "the last line is not ended by a line feed",
        ReadFault::BadForm => "no line has this form",
        ReadFault::NameTaken => "the name is taken",
        ReadFault::UnknownName => "there is no such name",
        ReadFault::TwoAccesses => "a second access in one line",
        ReadFault::NotAssignable => "this can't be set",
        ReadFault::BadBlock => "an `end`, an `else` or a `call` in the wrong place",
        ReadFault::BadLabel => "there is no such label, or not from here",
        ReadFault::Unset => "a name may be read before it is set",
        ReadFault::Endless => "lines can go round without a step",
        ReadFault::NoStep => "this can come before the first step of the call",
        ReadFault::FallsOff => "the call can go past its last line",
        ReadFault::BadDeed => "a deed does not fit, or `enter` or `leave` is missing",
        ReadFault::TooBig => "a limit is passed",
        ReadFault::BadCall => "the calls do not fit together",
        ReadFault::NeverReached => "no run comes to this line",
        ReadFault::OutOfMemory => "out of memory",
    }
}

/// The column that a detail names.
pub(crate) fn column_of_detail(detail: FaultDetail) -> Option<u64>
    ensures { result ≡ column_of_detail detail }
{
    match detail {
        FaultDetail::Tab { column }
        | FaultDetail::CarriageReturn { column }
        | FaultDetail::Unprintable { column }
        | FaultDetail::NoToken { column }
        | FaultDetail::LeadingZero { column }
        | FaultDetail::LargeNumber { column }
        | FaultDetail::LongName { column }
        | FaultDetail::WrongIndexes { column, .. }
        | FaultDetail::ReservedWord { column }
        | FaultDetail::EqualSign { column }
        | FaultDetail::UnfitDeed { column }
        | FaultDetail::AtColumn { column } => Some(column),
        FaultDetail::LongLine => Some(1001),
        FaultDetail::NoThen
        | FaultDetail::NoEnd { .. }
        | FaultDetail::NoBlock
        | FaultDetail::NoIf => None,
    }
}

/// What a detail says, where no number belongs to it. Of a token alone it says nothing.
pub(crate) fn words_of_detail(detail: FaultDetail) -> &'static str
    ensures words { result.now ≡ words_of_detail detail }
    ensures few { length result.now ≤ 54 }
{
    match detail {
        FaultDetail::Tab { .. } => "a tab",
        FaultDetail::CarriageReturn { .. } => "a carriage return: a line ends with LF alone",
        FaultDetail::Unprintable { .. } => "a byte that is not printable ASCII",
        FaultDetail::NoToken { .. } => "a character of no word, number or sign",
        FaultDetail::LeadingZero { .. } => "a number with a leading zero",
        FaultDetail::LargeNumber { .. } => "a number above 18446744073709551615",
        FaultDetail::LongName { .. } => "a name of more than 32 characters",
        FaultDetail::LongLine => "a line of more than 1000 characters",
        FaultDetail::NoThen => "an `if` without `then`",
        FaultDetail::ReservedWord { .. } => "a word of the format as a name",
        FaultDetail::EqualSign { .. } => "a `=` where `:=` is meant",
        FaultDetail::UnfitDeed { .. } => "this deed does not fit here",
        FaultDetail::WrongIndexes { .. }
        | FaultDetail::NoEnd { .. }
        | FaultDetail::AtColumn { .. } => "",
        FaultDetail::NoBlock => "an `end` without a block",
        FaultDetail::NoIf => "an `else` without an `if`",
    }
}

/// The fault with this number, from 1 to 18.
pub fn fault_numbered(number: u64) -> ReadFault
    ensures { (1 ≤ number) × (number ≤ 18) → number_of_algorithm_fault result ≡ Some number }
{
    match number {
        1 => ReadFault::NoHeader,
        2 => ReadFault::BadCharacter,
        3 => ReadFault::NoNewline,
        4 => ReadFault::BadForm,
        5 => ReadFault::NameTaken,
        6 => ReadFault::UnknownName,
        7 => ReadFault::TwoAccesses,
        8 => ReadFault::NotAssignable,
        9 => ReadFault::BadBlock,
        10 => ReadFault::BadLabel,
        11 => ReadFault::Unset,
        12 => ReadFault::Endless,
        13 => ReadFault::NoStep,
        14 => ReadFault::FallsOff,
        15 => ReadFault::BadDeed,
        16 => ReadFault::TooBig,
        17 => ReadFault::BadCall,
        _ => ReadFault::NeverReached,
    }
}
