//! For the proof alone: a number of type u64 is below 2^64. A clause knows it of a parameter, and not of one in an enum.

ghost use Rattle.std.specs.Prelude.{◌<◌, ◌^◌};
ghost use Rattle.std.specs.List.{AllByRecursion};

/// For the proof alone: a number of 64 bits is below 2^64.
pub fn fits_word(number: u64)
    ensures { number < 2 ^ 64 }
{}

/// For the proof alone: so are all numbers of a slice.
pub fn fit_words(numbers: &[u64])
    ensures { AllByRecursion (λ n. n < 2 ^ 64) numbers.now }
{}
