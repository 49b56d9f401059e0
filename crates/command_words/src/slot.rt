//! Words that are a slot.

ghost use Rattle.std.specs.Prelude.{◌≡◌, ◌↔◌, ℕ, Some};
ghost use Rattle.command_words.specs.Words.{AreSlotWords, IsWithin};

use crate::number::number_within;
use bundle_index::Slot;
use outside_io::Word;

/// The greatest row and column of a bundle.
const LAST: u64 = 127;

/// The row or the column that a word stands for.
fn row_or_col_of(word: &Word) -> Option<u8>
    ensures { (n : ℕ) → (result ≡ Some n) ↔ IsWithin word.now n 0 127 }
{
    match number_within(word, 0, LAST) {
        Some(n) => Some(n as u8),
        None => None,
    }
}

/// The slot that a row's and a column's words stand for.
pub fn slot_of(row: &Word, col: &Word) -> Option<Slot>
    ensures { (slot : ℕ) → (result ≡ Some slot) ↔ AreSlotWords row.now col.now slot }
{
    let row = row_or_col_of(row)?;
    let col = row_or_col_of(col)?;
    Slot::of(row, col)
}
