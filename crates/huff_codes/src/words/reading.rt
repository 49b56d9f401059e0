//! Steps of reading code words: one symbol or a few.

ghost use Rattle.std.specs.Prelude.{◌≡◌, ℕ, ◌+◌, ◌-◌, ◌*◌, ◌/◌, ◌%◌, ◌≤◌, ◌<◌, ◌^◌, List};
ghost use Rattle.std.specs.Prelude.{Bool, All, length, drop, take, MatchResult, IfOk, ◌++◌};
ghost use Rattle.huff_codes.specs.Bits.{word_bits};
ghost use Rattle.huff_codes.specs.Prefixes.{ArePrefixes};
ghost use Rattle.huff_codes.specs.Words.{IsStuck, whole_end, word_faults};
ghost use Rattle.huff_codes.specs.inside.Lookup.{AreEntries, IsSeen, IsShort};
ghost use Rattle.huff_codes.specs.inside.Looking.{IsReading};
ghost use Rattle.huff_codes.specs.inside.Reading.{HaveReached, IsStop};
ghost use Rattle.huff_codes.specs.inside.Stored.{IsAhead};

use crate::codes::{Ahead, Codes};
use crate::faults::{CodeFault, CodeReason};
use crate::words::lookup::{Entry, entries_of, no_entries, single_symbols};
use crate::words::prefixes::{Prefixes, symbol_ahead};
use byteorder::{ByteOrder, LittleEndian};

/// 32 of the 64 bits of two words, from bit `skip` on.
#[inline(always)]
fn bits_across(first: u32, second: u32, skip: u32) -> u32
    requires { skip < 32 }
    ensures { result ≡ (first * 2 ^ 32 + second) / 2 ^ (32 - skip) % 2 ^ 32 }
{
    (((u64::from(first) * 4294967296 + u64::from(second)) >> (32 - skip)) % 4294967296) as u32
}

/// The next bits from place `bit` on, of those in whole words.
#[inline(always)]
pub(crate) fn ahead(bytes: &[u8], bit: usize) -> Ahead
    requires { bit ≤ 32 * (length bytes.now / 4) }
    ensures { IsAhead result (drop bit (word_bits bytes.now)) }
{
    let rest = &bytes[bit / 32 * 4..];
    let skip = (bit % 32) as u32;
    if rest.len() >= 8 {
        let first = LittleEndian::read_u32(rest);
        let second = LittleEndian::read_u32(&rest[4..]);
        Ahead {
            word: bits_across(first, second, skip),
            count: 32,
        }
    } else if rest.len() >= 4 {
        Ahead {
            word: bits_across(LittleEndian::read_u32(rest), 0, skip),
            count: 32 - skip,
        }
    } else {
        Ahead { word: 0, count: 0 }
    }
}

/// The place of the first byte that is in no whole word.
pub(crate) fn end_of_words(bytes: &[u8]) -> usize
    ensures { result ≡ whole_end bytes.now }
{
    bytes.len() / 4 * 4
}

/// The fault of bits that no code stands in front of.
fn stop_at(bytes: &[u8], codes: &Codes, bit: usize, next: Ahead) -> CodeFault
    requires few { next.count ≤ 32 }
    ensures { (left : List Bool) → IsAhead next left → IsStuck codes.now left
        → IsStop codes.now bytes.now bit left result }
{
    if codes.is_cut(next) {
        CodeFault {
            reason: CodeReason::Cut,
            at: end_of_words(bytes),
        }
    } else {
        CodeFault {
            reason: CodeReason::NoCode,
            at: bit / 32 * 4,
        }
    }
}

/// Where reading stands: behind so many bits, and so many symbols.
#[derive(Clone, Copy)]
pub(crate) struct Place {
    pub(crate) bit: usize,
    pub(crate) count: usize,
}

/// A place, and the bits that come next, which stand highest in 64.
#[derive(Clone, Copy)]
pub(crate) struct Cursor {
    pub(crate) window: u64,
    pub(crate) bit: usize,
    pub(crate) count: usize,
}

/// The next bits from place `bit` on, of two whole words: at least 33 of them.
#[inline(always)]
fn window(bytes: &[u8], bit: usize) -> u64
    requires { bit / 32 * 4 + 8 ≤ length bytes.now }
    ensures { IsSeen 33 result (drop bit (word_bits bytes.now)) }
{
    let rest = &bytes[bit / 32 * 4..];
    let first = u64::from(LittleEndian::read_u32(rest));
    let second = u64::from(LittleEndian::read_u32(&rest[4..]));
    (first * 4294967296 + second) << (bit % 32)
}

/// The next 64 bits from place `bit` on, of three whole words.
#[inline(always)]
fn wide_window(bytes: &[u8], bit: usize) -> u64
    requires { bit / 32 * 4 + 12 ≤ length bytes.now }
    ensures { IsSeen 64 result (drop bit (word_bits bytes.now)) }
{
    let rest = &bytes[bit / 32 * 4..];
    let first = u64::from(LittleEndian::read_u32(rest));
    let second = u64::from(LittleEndian::read_u32(&rest[4..]));
    let third = u64::from(LittleEndian::read_u32(&rest[8..]));
    let skip = bit % 32;
    let front = (first * 4294967296 + second) << skip;
    front + (third >> (32 - skip))
}

/// Reads the symbols that the next eleven bits have in front.
#[inline(always)]
fn step(entries: &[Entry; 2048], from: Cursor, out: &mut [u8]) -> Cursor
    requires short { All IsShort entries.now }
    requires table { length entries.now ≡ 2048 }
    requires room { from.count + 2 ≤ length out.old }
    requires low { from.bit ≤ 2 ^ 30 }
    ensures more { from.count ≤ result.count }
    ensures within { result.count ≤ from.count + 2 }
    ensures few { result.bit ≤ from.bit + 32 * (result.count - from.count) }
    ensures near { result.bit ≤ from.bit + 11 }
    ensures reached { (codes : List (List Bool)) (bytes before : List ℕ) (n : ℕ)
        → AreEntries codes entries.now → IsReading codes bytes before out.old (n + 11) from
        → IsReading codes bytes before out.new n result }
{
    let entry = entries[(from.window >> 53) as usize];
    out[from.count] = entry.first;
    out[from.count + 1] = entry.second;
    Cursor {
        window: from.window << entry.length,
        bit: from.bit + entry.length as usize,
        count: from.count + entry.count as usize,
    }
}

/// Reads symbols by the table, if they have room and two whole words are left: up to six, and up to
/// two where there is no room for six.
#[inline(always)]
fn read_six(bytes: &[u8], entries: &[Entry; 2048], from: Place, out: &mut [u8]) -> Place
    requires short { All IsShort entries.now }
    requires table { length entries.now ≡ 2048 }
    requires room { from.count ≤ length out.old }
    requires few { from.bit + 32 * (length out.old - from.count) ≤ 2 ^ 29 }
    requires within { from.bit ≤ 32 * (length bytes.now / 4) }
    ensures more { from.count ≤ result.count }
    ensures within { result.count ≤ length out.old }
    ensures few { result.bit ≤ from.bit + 32 * (result.count - from.count) }
    ensures bits { result.bit ≤ 32 * (length bytes.now / 4) }
    ensures reached { (codes : List (List Bool)) (before : List ℕ) → AreEntries codes entries.now
        → HaveReached codes bytes.now (before ++ take from.count out.old) from.bit
        → HaveReached codes bytes.now (before ++ take result.count out.new) result.bit }
{
    if from.bit / 32 * 4 + 8 > bytes.len() || from.count + 2 > out.len() {
        return from;
    }
    let start = Cursor {
        window: window(bytes, from.bit),
        bit: from.bit,
        count: from.count,
    };
    let one = step(entries, start, out);
    if from.count + 6 > out.len() {
        return Place {
            bit: one.bit,
            count: one.count,
        };
    }
    let two = step(entries, one, out);
    let three = step(entries, two, out);
    Place {
        bit: three.bit,
        count: three.count,
    }
}

/// Reads symbols by the table, up to ten, where these have room and three whole words are left.
#[inline(always)]
fn read_ten(bytes: &[u8], entries: &[Entry; 2048], from: Place, out: &mut [u8]) -> Place
    requires short { All IsShort entries.now }
    requires table { length entries.now ≡ 2048 }
    requires room { from.count + 10 ≤ length out.old }
    requires few { from.bit + 32 * (length out.old - from.count) ≤ 2 ^ 29 }
    requires long { from.bit / 32 * 4 + 12 ≤ length bytes.now }
    ensures more { from.count ≤ result.count }
    ensures within { result.count ≤ length out.old }
    ensures few { result.bit ≤ from.bit + 32 * (result.count - from.count) }
    ensures bits { result.bit ≤ 32 * (length bytes.now / 4) }
    ensures reached { (codes : List (List Bool)) (before : List ℕ) → AreEntries codes entries.now
        → HaveReached codes bytes.now (before ++ take from.count out.old) from.bit
        → HaveReached codes bytes.now (before ++ take result.count out.new) result.bit }
{
    let start = Cursor {
        window: wide_window(bytes, from.bit),
        bit: from.bit,
        count: from.count,
    };
    let one = step(entries, start, out);
    let two = step(entries, one, out);
    let three = step(entries, two, out);
    let four = step(entries, three, out);
    let five = step(entries, four, out);
    Place {
        bit: five.bit,
        count: five.count,
    }
}

/// Reads symbols by the table, if they have room and two whole words are left: up to ten, and fewer
/// where there is no room for so many, or no third word.
#[inline(always)]
pub(crate) fn read_few(bytes: &[u8], entries: &[Entry; 2048], from: Place, out: &mut [u8]) -> Place
    requires short { All IsShort entries.now }
    requires table { length entries.now ≡ 2048 }
    requires room { from.count ≤ length out.old }
    requires few { from.bit + 32 * (length out.old - from.count) ≤ 2 ^ 29 }
    requires within { from.bit ≤ 32 * (length bytes.now / 4) }
    ensures more { from.count ≤ result.count }
    ensures within { result.count ≤ length out.old }
    ensures few { result.bit ≤ from.bit + 32 * (result.count - from.count) }
    ensures bits { result.bit ≤ 32 * (length bytes.now / 4) }
    ensures reached { (codes : List (List Bool)) (before : List ℕ) → AreEntries codes entries.now
        → HaveReached codes bytes.now (before ++ take from.count out.old) from.bit
        → HaveReached codes bytes.now (before ++ take result.count out.new) result.bit }
{
    if from.bit / 32 * 4 + 12 <= bytes.len() && from.count + 10 <= out.len() {
        read_ten(bytes, entries, from, out)
    } else {
        read_six(bytes, entries, from, out)
    }
}

/// Reads one symbol.
pub(crate) fn read_one(
    bytes: &[u8],
    codes: &Codes,
    prefixes: &Prefixes,
    from: Place,
    out: &mut [u8],
) -> Result<Place, CodeFault>
    requires prefixes { ArePrefixes codes.now prefixes.now }
    requires room { from.count < length out.old }
    requires within { from.bit ≤ 32 * (length bytes.now / 4) }
    requires few { from.bit + 32 * (length out.old - from.count) ≤ 2 ^ 29 }
    ensures ok { IfOk result (λ place. (place.count ≡ from.count + 1)
        × ((place.bit ≤ from.bit + 32) × (place.bit ≤ 32 * (length bytes.now / 4)))) }
    ensures answer { (before : List ℕ)
        → HaveReached codes.now bytes.now (before ++ take from.count out.old) from.bit →
        MatchResult result
        (λ place. HaveReached codes.now bytes.now (before ++ take place.count out.new) place.bit)
        (λ f. (n : ℕ) → length before + length out.old ≤ n
        → word_faults codes.now n bytes.now f.at f.reason) }
{
    let next = ahead(bytes, from.bit);
    match symbol_ahead(codes, prefixes, next) {
        Some((found, length)) => {
            out[from.count] = found;
            Ok(Place {
                bit: from.bit + length as usize,
                count: from.count + 1,
            })
        }
        None => Err(stop_at(bytes, codes, from.bit, next)),
    }
}

/// The table to read so many symbols by: an empty one where making it would take longer, and one of
/// single symbols where making the pairs would.
pub(crate) fn table_for(codes: &Codes, count: usize) -> [Entry; 2048]
    ensures room { length result ≡ 2048 }
    ensures short { All IsShort result }
    ensures are { AreEntries codes.now result }
{
    if count < 256 {
        no_entries()
    } else if count < 5000 {
        single_symbols(codes)
    } else {
        entries_of(codes)
    }
}
