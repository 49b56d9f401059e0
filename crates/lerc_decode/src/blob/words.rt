//! Code words as a source of symbols.

ghost use Rattle.std.specs.Prelude.{◌≡◌, ◌≤◌, ℕ, [], IfErr, IfOk, List, length, take};
ghost use Rattle.huff_codes.specs.Words.{AreWords};
ghost use Rattle.lerc_decode.specs.inside.Words.{AreWordsLeft, frame_of, have_come, left_in};
ghost use Rattle.lerc_decode.specs.inside.Words.{stops_with};

use delta_mode::SymbolSource;
use huff_codes::{CodeFault, Codes, SymbolReader};

/// Reads the symbols of code words.
#[derive(Drop)]
pub(crate) struct Words<'a> {
    reader: SymbolReader<'a>,
    // How many symbols there are.
    total: usize,
}

impl<'a> SymbolSource for Words<'a> {
    ghost use Rattle.lerc_decode.specs.inside.Words.{AreWordsLeft, WordFrame, frame_of, have_come};
    ghost use Rattle.lerc_decode.specs.inside.Words.{left_in, stops_with};

    type Stop = CodeFault;

    ghost sound = { AreWordsLeft };

    ghost has_given = { have_come };

    ghost left = { left_in };

    ghost Kept = { WordFrame };

    ghost kept = { frame_of };

    ghost stops = { stops_with };

    fn next(&mut self, out: &mut [u8]) -> Result<(), CodeFault> {
        match self.reader.read(out) {
            Ok(()) => Ok(()),
            Err(fault) => Err(fault),
        }
    }
}

impl<'a> Words<'a> {
    /// The words of so many symbols, with which the bytes begin.
    pub(crate) fn of(bytes: &'a [u8], codes: &'a Codes, total: usize) -> Words<'a>
        requires few { total ≤ 16777216 }
        ensures sound { AreWordsLeft result }
        ensures frame { frame_of result
            ≡ record { codes = codes.now; bytes = bytes.now; total = total } }
        ensures left { left_in result ≡ total }
        ensures none { have_come result [] }
    {
        Words {
            reader: SymbolReader::new(bytes, codes, total),
            total,
        }
    }

    /// How many bytes the words take, behind all of their symbols.
    pub(crate) fn end(&self) -> Result<usize, CodeFault>
        requires sound { AreWordsLeft self.now }
        requires all { left_in self.now ≡ 0 }
        ensures ok { (symbols : List ℕ) → have_come self.now symbols → length symbols
            ≡ (frame_of self.now).total
            → IfOk result (λ used. (used ≤ length (frame_of self.now).bytes)
            × AreWords (frame_of self.now).codes (frame_of self.now).total
            (take used (frame_of self.now).bytes) symbols) }
        ensures fault { IfErr result (λ f. stops_with (frame_of self.now) f) }
    {
        self.reader.end()
    }
}
