//! Writing code words, of symbols that come piece by piece and of all at once.

ghost use Rattle.std.specs.Prelude.{◌≡◌, ℕ, ◌+◌, ◌*◌, ◌/◌, ◌%◌, ◌^◌, ◌<◌, ◌≤◌, ◌++◌, List, []};
ghost use Rattle.std.specs.Prelude.{All, Bool, length, slice_index};
ghost use Rattle.huff_codes.specs.Codes.{AreLengths, canonical_codes};
ghost use Rattle.huff_codes.specs.Pieces.{AreBegun, HasRoom};
ghost use Rattle.huff_codes.specs.Words.{AreWords};
ghost use Rattle.huff_codes.specs.Written.{AreWritten, IsFilled, written_size};
ghost use Rattle.huff_codes.specs.inside.Filling.{IsLoose};

use crate::lengths::code_lengths::{Lengths, codes_of};
use crate::words::word_pairs::{CodeNumber, numbers_of, write_pairs};
use crate::words::writing::{Pending, clear, flush, lowest_bits};
use std::marker::Model;

/// Writes the codes of symbols that come piece by piece into 32-bit little-endian words, as
/// `write_symbols` writes them of all symbols together.
///
/// A contract sees the codes, how many bytes of whole words are written, and the bits that wait
/// for their word to be whole. The bytes that are written to are not part of it: each call is given
/// them anew.
#[derive(Drop)]
pub struct SymbolWriter {
    numbers: [CodeNumber; 256],
    pending: Pending,
}

impl Model for SymbolWriter {
    ghost use Rattle.huff_codes.specs.Pieces.{Writing};

    ghost Value = { Writing };

    ghost use Rattle.huff_codes.specs.inside.Begun.{AreNumbers, writing_of};

    ghost view = { λ w. writing_of w.numbers w.pending.held w.pending.count w.pending.at };

    ghost invariant = { λ w. AreNumbers w.numbers };
}

/// Writes the bits that are left, and zeros behind them.
fn end_words(pending: Pending, out: &mut [u8])
    requires words { length out.old % 4 ≡ 0 }
    requires room { 8 * pending.at + pending.count ≤ 8 * length out.old }
    ensures { (bits : List Bool) → IsLoose bits out.old pending.held pending.count pending.at
        → IsFilled (length out.old / 4) bits out.new }
{
    let held = lowest_bits(pending.held, pending.count);
    let masked = Pending {
        held,
        count: pending.count,
        at: pending.at,
    };
    let end = flush(masked, out);
    clear(&mut out[end..]);
}

impl SymbolWriter {
    /// Of no symbols yet, by the canonical codes of these lengths.
    pub fn new(lengths: &Lengths) -> SymbolWriter
        ensures codes { result.codes ≡ canonical_codes lengths.now }
        ensures lengths { AreLengths lengths.now }
        ensures begun { (bytes : List ℕ) → AreBegun result bytes [] }
    {
        SymbolWriter {
            numbers: numbers_of(&codes_of(lengths)),
            pending: Pending {
                held: 0,
                count: 0,
                at: 0,
            },
        }
    }

    /// Writes the codes of a piece more, as far as they make whole words. What lies behind these is
    /// open until the end.
    pub fn write(&mut self, symbols: &[u8], out: &mut [u8])
        requires room { HasRoom self.old out.old symbols.now }
        ensures codes { self.new.codes ≡ self.old.codes }
        ensures begun { (before : List ℕ) → AreBegun self.old out.old before
            → AreBegun self.new out.new (before ++ symbols.now) }
    {
        let pending = write_pairs(&self.numbers, self.pending, symbols, out);
        self.pending = pending;
    }

    /// Writes the bits that are left, and makes the rest of the words 0, among it one further word.
    pub fn end(self, out: &mut [u8])
        requires room { (symbols : List ℕ) × (AreBegun self out.old symbols
            × (length out.old ≡ written_size self.codes symbols)) }
        ensures { (symbols : List ℕ) → AreBegun self out.old symbols
            → AreWritten self.codes symbols out.new }
    {
        end_words(self.pending, out);
    }
}

/// Writes the canonical codes of the symbols, each of which has a length, into 32-bit little-endian
/// words, highest bit first. The bits that are left, and one further word, are 0.
pub fn write_symbols(symbols: &[u8], lengths: &Lengths, out: &mut [u8])
    requires count { length symbols.now ≤ 2 ^ 24 }
    requires coded { All (λ s. 0 < slice_index lengths.now s) symbols.now }
    requires room { length out.old ≡ written_size (canonical_codes lengths.now) symbols.now }
    ensures written { AreWritten (canonical_codes lengths.now) symbols.now out.new }
    ensures words { AreWords (canonical_codes lengths.now) (length symbols.now)
        out.new symbols.now }
{
    let mut writer = SymbolWriter::new(lengths);
    writer.write(symbols, out);
    writer.end(out);
}
