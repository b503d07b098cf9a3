//! Reads the numbers of a text.

ghost use Rattle.std.specs.Prelude.{◌≡◌, ℕ, ◌^◌, ◌-◌, ◌<◌, ◌≤◌, ◌⊎◌, length, Some, IfSome, IfNone, IfOk, IfErr, IsErrOf, true, false};
ghost use Rattle.std.specs.List.{list_all};
ghost use Rattle.std.specs.Char.{is_ascii_digit};
ghost use Rattle.std.specs.Option.{option_copied};
ghost use Rattle.std.specs.Str.Parse.{digits_value, AllDigits};
ghost use Rattle.schedule.specs.Words.{number_in, ReadsItem};

use crate::lines::fault::LineFault;

/// The number of these digits. None where it takes more than 64 bits.
fn value_of(digits: &[u8]) -> Option<u64>
    requires { AllDigits 10 digits.now }
    ensures value { IfSome result (λ n. n ≡ digits_value 10 digits.now) }
    ensures none { IfNone result (2 ^ 64 ≤ digits_value 10 digits.now) }
{
    let mut value: u64 = 0;
    for digit in digits {
        value = value
            .checked_mul(10)?
            .checked_add(u64::from(*digit - b'0'))?;
    }
    Some(value)
}

/// Whether each byte is a digit.
fn all_digits(word: &[u8]) -> bool
    ensures { result ≡ list_all is_ascii_digit word.now }
{
    word.iter().all(|byte| byte.is_ascii_digit())
}

/// The most digits that always fit in 64 bits.
const SHORT: usize = 19;

/// The number of a word of at most 19 digits. None where a byte is no digit.
fn short_value(word: &[u8]) -> Option<u64>
    requires { length word.now ≤ 19 }
    ensures digits { IfSome result (λ n. (list_all is_ascii_digit word.now ≡ true) × (n ≡ digits_value 10 word.now)) }
    ensures other { IfNone result (list_all is_ascii_digit word.now ≡ false) }
{
    let mut value: u64 = 0;
    for byte in word {
        if !byte.is_ascii_digit() {
            return None;
        }
        value = value * 10 + u64::from(*byte - b'0');
    }
    Some(value)
}

/// The number of a word of any length. `BadNumber` where a byte is no digit, else `TooBig` above 64 bits.
// Apart: few numbers are long.
#[inline(never)]
fn long_value(word: &[u8]) -> Result<u64, LineFault>
    ensures number { IfOk result (λ n. (list_all is_ascii_digit word.now ≡ true) × (n ≡ digits_value 10 word.now)) }
    ensures big { IsErrOf result LineFault.TooBig → (list_all is_ascii_digit word.now ≡ true) × (2 ^ 64 ≤ digits_value 10 word.now) }
    ensures other { IsErrOf result LineFault.BadNumber → list_all is_ascii_digit word.now ≡ false }
    ensures only { IfErr result (λ fault. (fault ≡ LineFault.TooBig) ⊎ (fault ≡ LineFault.BadNumber)) }
{
    if !all_digits(word) {
        return Err(LineFault::BadNumber);
    }
    value_of(word).ok_or(LineFault::TooBig)
}

/// The number of a word that is digits without a leading zero.
#[tactic(auto, unfolding(crate::specs::Words::number_in))]
fn numeral(word: &[u8]) -> Result<u64, LineFault>
    ensures { ReadsItem (λ n. n) result (number_in 0 (2 ^ 64 - 1) (Some word.now)) }
{
    if word.is_empty() || (word.len() > 1 && word[0] == b'0') {
        return Err(LineFault::BadNumber);
    }
    if word.len() <= SHORT {
        return short_value(word).ok_or(LineFault::BadNumber);
    }
    long_value(word)
}

#[tactic(auto, unfolding(crate::specs::Words::number_in))]
/// The number that the word says. `BadNumber` where the word is missing, no number, or below `least`; `TooBig` above `most`.
pub fn number_from(least: u64, most: u64, word: Option<&[u8]>) -> Result<u64, LineFault>
    ensures number { ReadsItem (λ n. n) result (number_in least most (option_copied word.entry)) }
    ensures range { IfOk result (λ n. (least ≤ n) × (n ≤ most)) }
{
    let word = word.ok_or(LineFault::BadNumber)?;
    match numeral(word) {
        Ok(value) if value < least => Err(LineFault::BadNumber),
        Ok(value) if value <= most => Ok(value),
        Ok(_) => Err(LineFault::TooBig),
        Err(fault) => Err(fault),
    }
}

/// The number of 64 bits that the word says.
pub fn number(word: Option<&[u8]>) -> Result<u64, LineFault>
    ensures { ReadsItem (λ n. n) result (number_in 0 (2 ^ 64 - 1) (option_copied word.entry)) }
{
    number_from(0, u64::MAX, word)
}
