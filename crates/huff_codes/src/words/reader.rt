//! Reading code words, in pieces and all at once.

ghost use Rattle.std.specs.Prelude.{◌≡◌, ℕ, ◌+◌, ◌-◌, ◌*◌, ◌/◌, ◌≤◌, ◌<◌, ◌^◌, List, []};
ghost use Rattle.std.specs.Prelude.{IfErr, IfOk, OnErr, OnOk, length, take, ◌++◌, ◌↔◌, MatchResult, Ok, Err};
ghost use Rattle.huff_codes.specs.declared.faults.CodeFault.{CodeFault};
ghost use Rattle.huff_codes.specs.Readers.{HaveRead, IsReader, bytes_of, codes_of, left_of};
ghost use Rattle.huff_codes.specs.Words.{AreWords, word_faults};

use crate::codes::Codes;
use crate::faults::{CodeFault, CodeReason};
use crate::words::lookup::Entry;
use crate::words::prefixes::Prefixes;
use crate::words::reading::{Place, end_of_words, read_few, read_one, table_for};

/// Reads the symbols of code words in pieces, each from where the one before it ended.
///
/// `IsReader` holds of it between calls, and `HaveRead` says which symbols have been read.
#[derive(Drop)]
pub struct SymbolReader<'a> {
    bytes: &'a [u8],
    codes: &'a Codes,
    entries: [Entry; 2048],
    prefixes: Prefixes,
    // Behind how many bits reading stands, and how many symbols may still be read.
    bit: usize,
    left: usize,
}

impl<'a> SymbolReader<'a> {
    /// A reader of so many symbols, from the codes in the bits of 32-bit little-endian words, each
    /// highest bit first. It looks nothing up in the bytes yet.
    pub fn new(bytes: &'a [u8], codes: &'a Codes, count: usize) -> SymbolReader<'a>
        requires count { count ≤ 2 ^ 24 }
        ensures sound { IsReader result }
        ensures codes { codes_of result ≡ codes.now }
        ensures bytes { bytes_of result ≡ bytes.now }
        ensures left { left_of result ≡ count }
        ensures none { HaveRead result [] }
    {
        SymbolReader {
            bytes,
            codes,
            entries: table_for(codes, count),
            prefixes: Prefixes::of(codes),
            bit: 0,
            left: count,
        }
    }

    /// Reads as many symbols as `out` has, which come next. A fault is the one of all words of as
    /// many symbols or more; the reader stays where it was, and `out` has any content.
    pub fn read(&mut self, out: &mut [u8]) -> Result<(), CodeFault>
        requires sound { IsReader self.old }
        requires left { length out.old ≤ left_of self.old }
        ensures sound { IsReader self.new }
        ensures codes { codes_of self.new ≡ codes_of self.old }
        ensures bytes { bytes_of self.new ≡ bytes_of self.old }
        ensures left { OnOk result (left_of self.new + length out.old ≡ left_of self.old) }
        ensures read { (symbols : List ℕ) → HaveRead self.old symbols
            → OnOk result (HaveRead self.new (symbols ++ out.new)) }
        ensures fault { (symbols : List ℕ) → HaveRead self.old symbols → (n : ℕ)
            → length symbols + length out.old ≤ n
            → IfErr result (λ f. word_faults (codes_of self.old) n
            (bytes_of self.old) f.at f.reason) }
        ensures err { OnErr result (self.new ≡ self.old) }
    {
        let mut place = Place {
            bit: self.bit,
            count: 0,
        };
        while place.count < out.len() {
            let next = read_few(self.bytes, &self.entries, place, out);
            place = if next.count > place.count {
                next
            } else {
                read_one(self.bytes, self.codes, &self.prefixes, next, out)?
            };
        }
        self.bit = place.bit;
        self.left -= out.len();
        Ok(())
    }

    /// How many bytes the words take of the symbols that have been read, one further word among
    /// them that is not looked at.
    pub fn end(&self) -> Result<usize, CodeFault>
        requires sound { IsReader self.now }
        ensures ok { (symbols : List ℕ) → HaveRead self.now symbols → IfOk result
            (λ used. (used ≤ length (bytes_of self.now))
            × AreWords (codes_of self.now) (length symbols)
            (take used (bytes_of self.now)) symbols) }
        ensures fault { (symbols : List ℕ) → HaveRead self.now symbols → IfErr result
            (λ f. word_faults (codes_of self.now) (length symbols)
            (bytes_of self.now) f.at f.reason) }
    {
        let used = (self.bit + 31) / 32 * 4 + 4;
        if used > self.bytes.len() {
            return Err(CodeFault {
                reason: CodeReason::Cut,
                at: end_of_words(self.bytes),
            });
        }
        Ok(used)
    }
}

/// Reads the symbols, with one clause for both answers.
fn read_all(bytes: &[u8], codes: &Codes, out: &mut [u8]) -> Result<usize, CodeFault>
    requires count { length out.old ≤ 2 ^ 24 }
    ensures { MatchResult result
        (λ used. (used ≤ length bytes.now)
        × AreWords codes.now (length out.new) (take used bytes.now) out.new)
        (λ f. word_faults codes.now (length out.new) bytes.now f.at f.reason) }
{
    let mut reader = SymbolReader::new(bytes, codes, out.len());
    reader.read(out)?;
    reader.end()
}

/// Reads as many symbols as `out` has, from the codes in the bits of 32-bit little-endian words,
/// each highest bit first. Answers how many bytes the words take, one further word among them that
/// is not looked at. After a fault `out` has any content.
pub fn read_symbols(bytes: &[u8], codes: &Codes, out: &mut [u8]) -> Result<usize, CodeFault>
    requires count { length out.old ≤ 2 ^ 24 }
    ensures ok { IfOk result
        (λ used. (used ≤ length bytes.now)
        × AreWords codes.now (length out.old) (take used bytes.now) out.new) }
    ensures complete { (front rest symbols : List ℕ) → bytes.now ≡ front ++ rest
        → AreWords codes.now (length out.old) front symbols →
        (result ≡ Ok (length front)) × (out.new ≡ symbols) }
    ensures fault { (f : CodeFault) → (result ≡ Err f)
        ↔ word_faults codes.now (length out.old) bytes.now f.at f.reason }
{
    // for the proof: `know` ensures what always holds of codes
    codes.know();
    read_all(bytes, codes, out)
}
