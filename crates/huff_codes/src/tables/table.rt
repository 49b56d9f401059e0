//! Reading code tables.

ghost use Rattle.std.specs.Prelude.{◌≡◌, ℕ, ◌+◌, ◌-◌, ◌*◌, ◌/◌, ◌≤◌, ◌<◌, ◌^◌, ◌↔◌, List, Bool};
ghost use Rattle.std.specs.Prelude.{length, drop, take, MatchResult, IfOk, Ok, Err, ◌++◌};
ghost use Rattle.std.specs.Prelude.{All, SomeIndex, slice_index, sum, pos, negsuc, ◌≤ℤ◌, ◌<ℤ◌};
ghost use Rattle.std.specs.Prelude.{MatchOption, ◌+ℤ◌};
ghost use Rattle.std.specs.Bool.{MatchBool};
ghost use Rattle.bit_stuff.specs.declared.heads.ListFault.{ListFault};
ghost use Rattle.huff_codes.specs.declared.faults.CodeFault.{CodeFault};
ghost use Rattle.huff_codes.specs.Codes.{AreCodes};
ghost use Rattle.huff_codes.specs.Table.{AreCodeWords, AreRangeCodes, HaveLengths, IsLengthList};
ghost use Rattle.huff_codes.specs.Table.{IsRange, IsTable, code_faults, int_at, length_faults};
ghost use Rattle.huff_codes.specs.Table.{range_code_faults, range_faults, table_faults, words_size};
ghost use Rattle.huff_codes.specs.inside.Cutting.{AreCut};
ghost use Rattle.huff_codes.specs.inside.Spans.{IsLaid};
ghost use Rattle.huff_codes.specs.inside.Stored.{code_bits};
ghost use Rattle.huff_codes.specs.Bits.{bits_of};

use crate::codes::{Code, Codes};
use crate::faults::{CodeFault, CodeReason};
use crate::words::reading::ahead;
use bit_stuff::ListFault;
use byteorder::{ByteOrder, LittleEndian};
use lut_stuff::read_list;

/// The symbols that have a length in a table: `count` of them, from `first` on, counted modulo 256.
#[derive(Clone, Copy)]
pub struct SymbolRange {
    /// The first symbol.
    pub first: usize,
    /// How many symbols there are.
    pub count: usize,
}

/// The fault of a table at a place.
fn bad_table(at: usize) -> CodeFault
    ensures { result ≡ record { reason = CodeReason.BadTable; at = at } }
{
    CodeFault {
        reason: CodeReason::BadTable,
        at,
    }
}

/// The number of four bytes at a place.
#[tactic(auto, unfolding(crate::specs::Table::int_at))]
fn int_of(bytes: &[u8], place: usize) -> i32
    requires { place + 4 ≤ length bytes.now }
    ensures { result ≡ int_at bytes.now place }
{
    LittleEndian::read_i32(&bytes[place..])
}

/// The number of four bytes at a place, or that it is cut.
fn number_at(bytes: &[u8], place: usize) -> Result<i64, CodeFault>
    requires { place ≤ length bytes.now }
    ensures { MatchResult result
        (λ x. (place + 4 ≤ length bytes.now) × ((x ≡ int_at bytes.now place)
        × ((negsuc 2147483647 ≤ℤ x) × (x <ℤ pos 2147483648))))
        (λ f. (length bytes.now < place + 4)
        × (f ≡ record { reason = CodeReason.Cut; at = place })) }
{
    if bytes.len() - place < 4 {
        return Err(CodeFault {
            reason: CodeReason::Cut,
            at: place,
        });
    }
    Ok(i64::from(int_of(bytes, place)))
}

/// The first symbol of a range.
fn first_of(number: i64) -> Option<usize>
    ensures { MatchOption result ((pos 0 ≤ℤ number) × (number <ℤ pos 256) → ⊥)
        (λ first. (number ≡ pos first) × (first < 256)) }
{
    if number < 0 || number > 255 {
        return None;
    }
    Some(number as usize)
}

/// How many symbols a range has, by its first and the number behind its last.
fn count_of(first: usize, end: i64) -> Option<usize>
    requires first { first < 256 }
    requires low { negsuc 2147483647 ≤ℤ end }
    requires high { end <ℤ pos 2147483648 }
    ensures { MatchOption result ((pos first <ℤ end) × (end ≤ℤ (pos first +ℤ pos 256)) → ⊥)
        (λ count. (end ≡ pos (first + count)) × ((0 < count) × (count ≤ 256))) }
{
    let count = end - first as i64;
    if count < 1 || count > 256 {
        return None;
    }
    Some(count as usize)
}

/// The range of the symbols, from the four numbers in front.
fn read_range(bytes: &[u8]) -> Result<SymbolRange, CodeFault>
    ensures { MatchResult result
        (λ range. (16 ≤ length bytes.now) × IsRange (take 16 bytes.now) range)
        (λ f. (f.at ≤ length bytes.now) × range_faults bytes.now f.at f.reason) }
{
    if number_at(bytes, 0)? < 2 {
        return Err(bad_table(0));
    }
    if number_at(bytes, 4)? != 256 {
        return Err(bad_table(4));
    }
    let Some(first) = first_of(number_at(bytes, 8)?) else {
        return Err(bad_table(8));
    };
    let Some(count) = count_of(first, number_at(bytes, 12)?) else {
        return Err(bad_table(12));
    };
    Ok(SymbolRange { first, count })
}

/// Whether no length is above 32.
fn are_low(lengths: &[u32]) -> bool
    ensures { MatchBool result (All (λ l. l ≤ 32) lengths.now)
        (SomeIndex lengths.now (λ k. 32 < slice_index lengths.now k)) }
{
    for length in lengths {
        if *length > 32 {
            return false;
        }
    }
    true
}

/// Whether a length is above 0.
fn has_code(lengths: &[u32]) -> bool
    ensures { MatchBool result (SomeIndex lengths.now (λ k. 0 < slice_index lengths.now k))
        (All (λ l. l ≡ 0) lengths.now) }
{
    for length in lengths {
        if *length > 0 {
            return true;
        }
    }
    false
}

/// Whether no length is above 32, and one is above 0.
fn can_be_lengths(lengths: &[u32]) -> bool
    ensures { MatchBool result (HaveLengths lengths.now) (¬ HaveLengths lengths.now) }
{
    are_low(lengths) && has_code(lengths)
}

/// Reads the list of the `count` lengths from the front of the bytes; how many bytes it takes.
fn read_lengths(bytes: &[u8], count: usize, lengths: &mut [u32]) -> Result<usize, CodeFault>
    requires few { count ≤ 256 }
    requires room { length lengths.old ≡ count }
    ensures { MatchResult result
        (λ used. (used ≤ length bytes.now)
        × IsLengthList count (take used bytes.now) lengths.new)
        (λ f. (f.at ≤ length bytes.now) × length_faults count bytes.now f.at f.reason) }
{
    match read_list(bytes, lengths) {
        Ok(used) => {
            if can_be_lengths(lengths) {
                Ok(used)
            } else {
                Err(bad_table(0))
            }
        }
        Err(fault) => Err(CodeFault {
            reason: CodeReason::List(fault.reason),
            at: fault.at,
        }),
    }
}

/// The code of so many first bits of a word.
fn code_of(word: u32, length: u32) -> Code
    requires { length ≤ 32 }
    ensures laid { IsLaid result }
    ensures bits { code_bits result ≡ take length (bits_of 32 word) }
{
    let free = 32 - length;
    Code {
        bits: (u64::from(word) >> free << free) as u32,
        length,
    }
}

/// How many bits codes of these lengths have together.
pub(crate) fn bit_count(lengths: &[u32]) -> usize
    requires few { length lengths.now ≤ 256 }
    requires low { All (λ l. l ≤ 32) lengths.now }
    ensures { result ≡ sum lengths.now }
{
    let mut bits = 0;
    for length in lengths {
        bits += *length as usize;
    }
    bits
}

/// The codes of these lengths in the words, one behind the other.
fn cut_codes(words: &[u8], first: usize, lengths: &[u32]) -> [Code; 256]
    requires first { first < 256 }
    requires few { length lengths.now ≤ 256 }
    requires low { All (λ l. l ≤ 32) lengths.now }
    requires size { length words.now ≡ words_size lengths.now }
    ensures { AreCut first lengths.now words.now (length lengths.now) (sum lengths.now) result }
{
    let mut codes = [Code { bits: 0, length: 0 }; 256];
    let mut bit = 0;
    for k in 0..lengths.len() {
        let length = lengths[k];
        codes[(first + k) % 256] = code_of(ahead(words, bit).word, length);
        bit += length as usize;
    }
    codes
}

/// Reads the codes of a range from the words in front; how many bytes these take.
fn read_codes(bytes: &[u8], first: usize, lengths: &[u32]) -> Result<(Codes, usize), CodeFault>
    requires first { first < 256 }
    requires few { length lengths.now ≤ 256 }
    requires lengths { HaveLengths lengths.now }
    ensures { MatchResult result
        (λ r. (r.1 ≤ length bytes.now) × AreCodeWords first lengths.now (take r.1 bytes.now) r.0)
        (λ f. (f.at ≤ length bytes.now) × code_faults first lengths.now bytes.now f.at f.reason) }
{
    let size = (bit_count(lengths) + 31) / 32 * 4;
    if size > bytes.len() {
        return Err(CodeFault {
            reason: CodeReason::Cut,
            at: 0,
        });
    }
    match Codes::prefix_free(cut_codes(&bytes[..size], first, lengths)) {
        Some(codes) => Ok((codes, size)),
        None => Err(bad_table(0)),
    }
}

/// Reads the lengths and the codes of a range; how many bytes they take.
fn read_range_codes(bytes: &[u8], range: SymbolRange) -> Result<(Codes, usize), CodeFault>
    requires first { range.first < 256 }
    requires count { range.count ≤ 256 }
    ensures { MatchResult result
        (λ r. (r.1 ≤ length bytes.now) × AreRangeCodes range (take r.1 bytes.now) r.0)
        (λ f. (f.at ≤ length bytes.now) × range_code_faults range bytes.now f.at f.reason) }
{
    let mut list = [0; 256];
    let lengths = &mut list[..range.count];
    let listed = match read_lengths(bytes, range.count, lengths) {
        Ok(listed) => listed,
        Err(fault) => return Err(fault),
    };
    match read_codes(&bytes[listed..], range.first, lengths) {
        Ok((codes, used)) => Ok((codes, listed + used)),
        Err(fault) => Err(fault.behind(listed)),
    }
}

/// Reads a table, with one clause for both answers.
fn read_parts(bytes: &[u8]) -> Result<(Codes, usize), CodeFault>
    ensures { MatchResult result
        (λ r. (r.1 ≤ length bytes.now) × IsTable (take r.1 bytes.now) r.0)
        (λ f. table_faults bytes.now f.at f.reason) }
{
    let range = match read_range(bytes) {
        Ok(range) => range,
        Err(fault) => return Err(fault),
    };
    match read_range_codes(&bytes[16..], range) {
        Ok((codes, used)) => Ok((codes, 16 + used)),
        Err(fault) => Err(fault.behind(16)),
    }
}

/// Reads a code table from the front of the bytes: the codes, and how many bytes it takes.
///
/// The faults come in this order, each with its place: for each of the four numbers at 0, 4, 8 and
/// 12 `Cut` where it is cut, and `BadTable` where it fails its test; the faults of the list behind
/// them; `BadTable` at the list's first byte where a length is above 32 or none is above 0; `Cut`
/// at the first byte of the codes' words where these are cut; and `BadTable` there where one code
/// is the front of another's.
pub fn read_table(bytes: &[u8]) -> Result<(Codes, usize), CodeFault>
    ensures ok { IfOk result
        (λ r. (r.1 ≤ length bytes.now) × IsTable (take r.1 bytes.now) r.0) }
    ensures complete { (front rest : List ℕ) (codes : List (List Bool))
        → bytes.now ≡ front ++ rest → IsTable front codes → result ≡ Ok (codes, length front) }
    ensures fault { (f : CodeFault)
        → (result ≡ Err f) ↔ table_faults bytes.now f.at f.reason }
{
    read_parts(bytes)
}
