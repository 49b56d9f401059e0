//! Writing code words, one behind the other.

ghost use Rattle.std.specs.Prelude.{◌≡◌, ◌+◌, ◌-◌, ◌*◌, ◌/◌, ◌%◌, ◌^◌, ◌≤◌, ◌<◌, ◌++◌, List, [], Bool, ℕ};
ghost use Rattle.std.specs.Prelude.{length, take, All, replicate, slice_index, SomeIndex};
ghost use Rattle.std.specs.Bool.{MatchBool};
ghost use Rattle.byteorder.specs.Endian.{little_bytes};
ghost use Rattle.huff_codes.specs.Codes.{AreLengths, canonical_codes};
ghost use Rattle.huff_codes.specs.Words.{joined_codes};
ghost use Rattle.huff_codes.specs.Written.{IsFilled, written_size};
ghost use Rattle.huff_codes.specs.inside.Filling.{IsFlushed, IsPending};
ghost use Rattle.huff_codes.specs.inside.Spans.{IsLaid};
ghost use Rattle.huff_codes.specs.inside.Stored.{code_bits, codes_held};

use crate::codes::Code;
use crate::lengths::code_lengths::Lengths;
use byteorder::{ByteOrder, LittleEndian};

/// Bits that are not written yet, fewer than a word has, and where the next word is written.
#[derive(Clone, Copy)]
pub(crate) struct Pending {
    pub(crate) held: u64,
    pub(crate) count: u32,
    pub(crate) at: usize,
    ghost few: { count < 32 },
    ghost whole: { at % 4 ≡ 0 },
}

impl Pending {
    /// No bits, before the first word.
    fn none() -> Pending
        ensures { (out : List ℕ) → IsPending [] out result.held result.count result.at }
    {
        Pending {
            held: 0,
            count: 0,
            at: 0,
        }
    }
}

/// Writes a word at a place.
pub(crate) fn put_word(out: &mut [u8], at: usize, word: u32)
    requires { at + 4 ≤ length out.old }
    ensures front { take (at + 4) out.new ≡ take at out.old ++ little_bytes 4 word }
{
    LittleEndian::write_u32(&mut out[at..], word);
}

/// So many bits of a number, and behind them those of a code.
fn append_bits(held: u64, count: u32, code: Code) -> u64
    requires few { count < 32 }
    requires low { held < 2 ^ count }
    requires code { IsLaid code }
    ensures value { result ≡ held * 2 ^ code.length + code.bits / 2 ^ (32 - code.length) }
    ensures low { result < 2 ^ (count + code.length) }
{
    (held << code.length) + (u64::from(code.bits) >> (32 - code.length))
}

/// The lowest bits of a number.
pub(crate) fn lowest_bits(held: u64, count: u32) -> u64
    requires { count < 32 }
    ensures value { result ≡ held % 2 ^ count }
    ensures low { result < 2 ^ count }
{
    held % (1 << count)
}

/// The bits of a number above the lowest ones, which a word holds.
fn bits_above(held: u64, count: u32) -> u32
    requires few { count < 32 }
    requires low { held < 2 ^ (32 + count) }
    ensures { result ≡ held / 2 ^ count }
{
    (held >> count) as u32
}

/// Appends the bits of a code, and writes a word where there is a whole one.
fn push(pending: Pending, code: Code, out: &mut [u8]) -> Pending
    requires low { pending.held < 2 ^ pending.count }
    requires code { IsLaid code }
    requires room { 8 * pending.at + pending.count + code.length ≤ 8 * length out.old }
    ensures low { result.held < 2 ^ result.count }
    ensures bits { 8 * result.at + result.count ≡ 8 * pending.at + pending.count + code.length }
    ensures pending { (bits : List Bool)
        → IsPending bits out.old pending.held pending.count pending.at
        → IsPending (bits ++ code_bits code) out.new result.held result.count result.at }
{
    let count = pending.count + code.length;
    let held = append_bits(pending.held, pending.count, code);
    if count < 32 {
        return Pending {
            held,
            count,
            at: pending.at,
        };
    }
    let rest = count - 32;
    put_word(out, pending.at, bits_above(held, rest));
    Pending {
        held: lowest_bits(held, rest),
        count: rest,
        at: pending.at + 4,
    }
}

/// So many bits at the top of a word, and zeros below them.
fn bits_at_top(held: u64, count: u32) -> u32
    requires few { count < 32 }
    requires low { held < 2 ^ count }
    ensures { result ≡ held * 2 ^ (32 - count) }
{
    (held << (32 - count)) as u32
}

/// Writes the bits that are left, filled up with zeros; the place behind them.
pub(crate) fn flush(pending: Pending, out: &mut [u8]) -> usize
    requires low { pending.held < 2 ^ pending.count }
    requires words { length out.old % 4 ≡ 0 }
    requires room { 8 * pending.at + pending.count ≤ 8 * length out.old }
    ensures within { result ≤ length out.old }
    ensures flushed { (bits : List Bool)
        → IsPending bits out.old pending.held pending.count pending.at
        → IsFlushed bits out.new result }
{
    if pending.count == 0 {
        return pending.at;
    }
    put_word(out, pending.at, bits_at_top(pending.held, pending.count));
    pending.at + 4
}

/// Makes each byte 0.
pub(crate) fn clear(bytes: &mut [u8])
    ensures { bytes.new ≡ replicate (length bytes.old) 0 }
{
    bytes.fill(0);
}

/// Writes the codes of the symbols into words, and zeros behind them.
pub(crate) fn fill(codes: &[Code; 256], symbols: &[u8], out: &mut [u8])
    requires size { length codes.now ≡ 256 }
    requires laid { All IsLaid codes.now }
    requires words { length out.old % 4 ≡ 0 }
    requires room { length (joined_codes (codes_held codes.now) symbols.now) ≤ 8 * length out.old }
    ensures { IsFilled (length out.old / 4)
        (joined_codes (codes_held codes.now) symbols.now) out.new }
{
    let mut pending = Pending::none();
    for symbol in symbols {
        pending = push(pending, codes[usize::from(*symbol)], out);
    }
    let end = flush(pending, out);
    clear(&mut out[end..]);
}

/// How many bits the codes of the symbols take.
fn bits_of_all(lengths: &[u8; 256], symbols: &[u8]) -> usize
    requires lengths { AreLengths lengths.now }
    requires count { length symbols.now ≤ 2 ^ 24 }
    ensures bits { result ≡ length (joined_codes (canonical_codes lengths.now) symbols.now) }
    ensures few { result ≤ 2 ^ 29 }
{
    let mut bits = 0;
    for symbol in symbols {
        bits += usize::from(lengths[usize::from(*symbol)]);
    }
    bits
}

/// Whether each of the symbols has a length.
pub fn have_lengths(symbols: &[u8], lengths: &Lengths) -> bool
    ensures { MatchBool result (All (λ s. 0 < slice_index lengths.now s) symbols.now)
        (SomeIndex symbols.now (λ k. slice_index lengths.now (slice_index symbols.now k) ≡ 0)) }
{
    let all = lengths.all();
    for symbol in symbols {
        if all[usize::from(*symbol)] == 0 {
            return false;
        }
    }
    true
}

/// How many bytes `write_symbols` takes for the symbols: the least number of words that hold their
/// codes, and one further word.
pub fn symbols_len(symbols: &[u8], lengths: &Lengths) -> usize
    requires { length symbols.now ≤ 2 ^ 24 }
    ensures size { result ≡ written_size (canonical_codes lengths.now) symbols.now }
    ensures few { result ≤ 2 ^ 26 + 4 }
{
    (bits_of_all(lengths.all(), symbols) + 31) / 32 * 4 + 4
}
