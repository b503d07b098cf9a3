//! The value of a message.

ghost use Rattle.std.specs.Prelude.{◌≡◌, ◌<◌, ◌↔◌, length, slice_index, take, IfOk, IfErr, IsOk};
ghost use Rattle.rmecore.specs.Body.{IsWide};

use crate::refusal::Refusal;
use std::marker::Model;

/// A message's value: one to eight words. In contracts it is the list of those words.
#[derive(Clone, Copy, PartialEq, Eq, Debug)]
pub struct Body {
    width: u64,
    words: [u64; 8],
}

impl Model for Body {
    ghost use Rattle.std.specs.Prelude.{ℕ, ◌-◌, List, ◌++◌, take, length};
    ghost use Rattle.rmecore.specs.Body.{IsBody, zeros};

    ghost Value = { List ℕ };

    ghost view = { λ b. take b.width b.words };

    ghost invariant = { λ b. IsBody b.width b.words };

    ghost inverse = { λ xs. record { width = length xs; words = xs ++ zeros (8 - length xs) } };
}

impl Body {
    /// Makes a body of these words. `BadWidth`: not 1 to 8 words.
    pub fn new(words: &[u64]) -> Result<Body, Refusal>
        ensures ok { IfOk result (λ body. body ≡ words.now) }
        ensures valid { IsOk result ↔ IsWide words.now }
        ensures refused { IfErr result (λ refusal. refusal ≡ Refusal.BadWidth) }
    {
        let width = words.len();
        if width == 0 || width > 8 {
            return Err(Refusal::BadWidth);
        }
        let mut all = [0; 8];
        all[..width].copy_from_slice(words);
        Ok(Body {
            width: width as u64,
            words: all,
        })
    }

    /// The number of words, 1 to 8.
    pub fn width(&self) -> u64
        ensures width { result ≡ length self.now }
        ensures wide { IsWide self.now }
    {
        self.width
    }

    /// The word at index `j`. `BadIndex`: `j` is not below the width.
    pub fn word(&self, j: u64) -> Result<u64, Refusal>
        ensures ok { IfOk result (λ word. word ≡ slice_index self.now j) }
        ensures valid { IsOk result ↔ (j < length self.now) }
        ensures refused { IfErr result (λ refusal. refusal ≡ Refusal.BadIndex) }
    {
        if j >= self.width {
            return Err(Refusal::BadIndex);
        }
        Ok(self.words[j as usize])
    }

    /// All its words, in an array of eight. What is after them is 0. For this workspace alone: a row of a record is read from it.
    // Inline: each store of an append.
    #[inline(always)]
    pub fn seam_words(&self) -> &[u64; 8]
        ensures words { take (length self.now) result.now ≡ self.now }
        ensures wide { IsWide self.now }
    {
        &self.words
    }

    /// All its words.
    pub fn as_slice(&self) -> &[u64]
        ensures words { result.now ≡ self.now }
        ensures wide { IsWide self.now }
    {
        &self.words[..self.width as usize]
    }
}
