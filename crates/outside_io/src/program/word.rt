//! Words of a command line, and the numbers that they stand for.

ghost use Rattle.std.specs.Prelude.{◌≡◌, ◌↔◌, ◌<◌, ◌≤◌, ℕ, Some, IfOk, IsTrue, All, length, slice_index};
ghost use Rattle.outside_io.specs.program.Word.{IsNumber, IsDigit, decimal_value};

use std::alloc::{AllocError, Global};
use std::marker::Model;

/// The greatest number of digits that a number has.
const MOST_DIGITS: usize = 10;

/// A word of a command line. Contracts see the list of its bytes.
#[derive(Drop)]
pub struct Word {
    text: Vec<u8>,
}

impl Model for Word {
    ghost use Rattle.std.specs.Prelude.{ℕ, List};

    ghost Value = { List ℕ };

    ghost view = { λ w. w.text.items };
}

impl Word {
    /// The word of this text. Want of memory is its only error.
    pub fn of(alloc: Global, text: &str) -> Result<Word, AllocError>
        ensures { IfOk result (λ word. word ≡ text.now) }
    {
        Ok(Word {
            text: Vec::from_slice(alloc, text.as_bytes())?,
        })
    }

    /// The word of these bytes, which need be no text. It takes no memory.
    pub fn new(bytes: Vec<u8>) -> Word
        ensures { result ≡ bytes.items }
    {
        Word { text: bytes }
    }

    /// The bytes of the word.
    pub fn as_slice(&self) -> &[u8]
        ensures { result.now ≡ self.now }
    {
        self.text.as_slice()
    }

    /// The number that the word stands for: `0`, or one to ten ASCII digits of which the first is
    /// not `0`. Any other word, also one with a sign, is none.
    pub fn number(&self) -> Option<u64>
        ensures { (n : ℕ) → (result ≡ Some n) ↔ IsNumber self.now n }
    {
        let word = self.as_slice();
        if word.is_empty() || word.len() > MOST_DIGITS || has_leading_zero(word) {
            return None;
        }
        decimal(word)
    }
}

/// Whether the word begins with a `0` that has something behind it.
fn has_leading_zero(word: &[u8]) -> bool
    ensures { IsTrue result ↔ ((1 < length word.now) × (slice_index word.now 0 ≡ 48)) }
{
    word.len() > 1 && word[0] == b'0'
}

/// The sum of decimal digits by their places, where all the bytes are digits.
fn decimal(digits: &[u8]) -> Option<u64>
    requires { length digits.now ≤ 10 }
    ensures { (n : ℕ) → (result ≡ Some n)
        ↔ (All IsDigit digits.now × (decimal_value digits.now ≡ n)) }
{
    let mut value = 0;
    for digit in digits {
        if !digit.is_ascii_digit() {
            return None;
        }
        value = 10 * value + u64::from(*digit - b'0');
    }
    Some(value)
}
