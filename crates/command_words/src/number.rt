//! Words that are one text, and words that are numbers.

ghost use Rattle.std.specs.Prelude.{◌≡◌, ◌↔◌, ◌≤◌, ℕ, Some, IsTrue};
ghost use Rattle.command_words.specs.Words.{IsWithin};

use outside_io::Word;

/// Whether the word is this text.
pub fn has_text(word: &Word, text: &[u8]) -> bool
    ensures { IsTrue result ↔ (word.now ≡ text.now) }
{
    word.as_slice() == text
}

/// The number that the word stands for, where it is within these limits.
pub fn number_within(word: &Word, least: u64, greatest: u64) -> Option<u64>
    ensures { (n : ℕ) → (result ≡ Some n) ↔ IsWithin word.now n least greatest }
{
    match word.number() {
        Some(n) if n >= least && n <= greatest => Some(n),
        _ => None,
    }
}

/// The number that the word stands for, where it is at most this one.
pub fn number_up_to(word: &Word, greatest: u32) -> Option<u32>
    ensures { (n : ℕ) → (result ≡ Some n) ↔ IsWithin word.now n 0 greatest }
{
    match number_within(word, 0, greatest.into()) {
        Some(n) => Some(n as u32),
        None => None,
    }
}

/// The error that a word stands for.
pub fn error_of(word: &Word) -> Option<u32>
    ensures { (error : ℕ) → (result ≡ Some error) ↔ IsWithin word.now error 0 4294967295 }
{
    number_up_to(word, u32::MAX)
}

/// How many workers there may be.
const MOST_WORKERS: u64 = 64;

/// The number of workers that a word stands for.
pub fn workers_of(word: &Word) -> Option<u32>
    ensures { (workers : ℕ) → (result ≡ Some workers) ↔ IsWithin word.now workers 1 64 }
{
    match number_within(word, 1, MOST_WORKERS) {
        Some(workers) => Some(workers as u32),
        None => None,
    }
}
