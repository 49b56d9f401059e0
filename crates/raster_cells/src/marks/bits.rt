//! The bits of a mask: for each pixel one, row by row and the highest of each byte first.

ghost use Rattle.std.specs.Prelude.{◌≡◌, ◌≢◌, ℕ, ◌+◌, ◌*◌, ◌/◌, ◌^◌, ◌<◌, ◌≤◌, ◌&&◌, length, get_or, nat_lt, true, false};
ghost use Rattle.raster_cells.specs.Masks.{marks_in, mask_bit};
ghost use Rattle.raster_cells.specs.inside.Bits.{byte_bit};
ghost use Rattle.raster_cells.specs.Words.{word_bit};

use byteorder::{BigEndian, ByteOrder};

/// The pixels from number `start` on, up to number `end`.
#[derive(Clone, Copy)]
pub struct Run {
    /// The number of the first pixel.
    pub start: usize,
    /// The number of the first pixel behind them.
    pub end: usize,
}

/// The byte with its first bits alone.
fn front_bits(byte: u8, count: usize) -> u8
    requires above { 0 < count }
    requires below { count < 8 }
    ensures { (q : ℕ) → q < 8 → byte_bit result q ≡ (nat_lt q count && byte_bit byte q) }
{
    byte & (255u8 << (8 - count))
}

/// Whether bit number k is 1.
#[inline(always)]
pub(crate) fn bit_at(bytes: &[u8], k: usize) -> bool
    requires { k / 8 < length bytes.now }
    ensures { result ≡ mask_bit bytes.now k }
{
    (bytes[k / 8] >> (7 - k % 8)) % 2 == 1
}

/// Keeps the bits before number `count`, and clears those behind them, which are fewer than eight.
fn keep_front(bytes: &mut [u8], count: usize)
    requires few { count ≤ 16777216 }
    requires size { length bytes.old ≡ (count + 7) / 8 }
    ensures size { length bytes.new ≡ length bytes.old }
    ensures bits { (k : ℕ)
        → mask_bit bytes.new k ≡ (nat_lt k count && mask_bit bytes.old k) }
{
    if count % 8 > 0 {
        bytes[count / 8] = front_bits(bytes[count / 8], count % 8);
    }
}

/// Clears the bits from number `count` on, which are fewer than eight: those behind the last pixel
/// of a mask of so many.
pub fn clear_spare(bytes: &mut [u8], count: usize)
    requires few { count ≤ 16777216 }
    requires size { length bytes.old ≡ (count + 7) / 8 }
    ensures size { length bytes.new ≡ length bytes.old }
    ensures bits { (k : ℕ)
        → mask_bit bytes.new k ≡ (nat_lt k count && mask_bit bytes.old k) }
    ensures marks { marks_in count bytes.new ≡ marks_in count bytes.old }
    ensures spare { (k : ℕ) → count ≤ k → mask_bit bytes.new k ≡ false }
{
    keep_front(bytes, count);
}

/// How many of the bits of a number of so many are 0 before the first that is 1, counted from the
/// highest.
#[inline(always)]
fn zeros_in_front(word: u32, count: usize) -> usize
    requires some { 0 < count }
    requires few { count ≤ 32 }
    requires below { word < 2 ^ count }
    ensures within { result ≤ count }
    ensures zeros { (q : ℕ) → q < result → word_bit count word q ≡ false }
    ensures one { result < count → word_bit count word result ≡ true }
{
    (word.leading_zeros() as usize).saturating_sub(32 - count)
}

/// How many of the bits of a number of so many are `mark` before the first that is not, counted
/// from the highest.
#[inline(always)]
fn equal_in_front(word: u32, count: usize, mark: bool) -> usize
    requires some { 0 < count }
    requires few { count ≤ 32 }
    requires below { word < 2 ^ count }
    ensures within { result ≤ count }
    ensures equal { (q : ℕ) → q < result → word_bit count word q ≡ mark }
    ensures end { result < count → word_bit count word result ≢ mark }
{
    if mark {
        zeros_in_front(!word & (u32::MAX >> (32 - count)), count)
    } else {
        zeros_in_front(word, count)
    }
}

/// The first place behind a bit that is `mark`, at most 32 further, before which all are.
#[inline(always)]
fn past(bytes: &[u8], at: usize, limit: usize, mark: bool) -> usize
    requires order { at < limit }
    requires few { limit ≤ 16777216 }
    requires within { limit ≤ 8 * length bytes.now }
    requires here { mask_bit bytes.now at ≡ mark }
    ensures from { at < result }
    ensures within { result ≤ limit }
    ensures run { (k : ℕ) → at ≤ k → k < result → mask_bit bytes.now k ≡ mark }
{
    let count = (limit - at).min(32);
    at + equal_in_front(word_from(bytes, at, count), count, mark).max(1)
}

/// Where the run of bits that are `mark` from `at` on ends, which is looked for before `limit`.
fn run_end(bytes: &[u8], at: usize, limit: usize, mark: bool) -> usize
    requires order { at ≤ limit }
    requires few { limit ≤ 16777216 }
    requires within { limit ≤ 8 * length bytes.now }
    ensures from { at ≤ result }
    ensures within { result ≤ limit }
    ensures run { (k : ℕ) → at ≤ k → k < result → mask_bit bytes.now k ≡ mark }
    ensures end { result < limit → mask_bit bytes.now result ≡ mark → ⊥ }
{
    let mut end = at;
    while end < limit && bit_at(bytes, end) == mark {
        end = past(bytes, end, limit, mark);
    }
    end
}

/// The next run of bits that are 1 from `at` on, before `limit`. It is empty, and at `limit`, where
/// there is none.
pub(crate) fn run_after(bytes: &[u8], at: usize, limit: usize) -> Run
    requires order { at ≤ limit }
    requires few { limit ≤ 16777216 }
    requires within { limit ≤ 8 * length bytes.now }
    ensures first { at ≤ result.start }
    ensures second { result.start ≤ result.end }
    ensures within { result.end ≤ limit }
    ensures off { (k : ℕ) → at ≤ k → k < result.start → mask_bit bytes.now k ≡ false }
    ensures on { (k : ℕ) → result.start ≤ k → k < result.end → mask_bit bytes.now k ≡ true }
    ensures begins { result.start < limit → mask_bit bytes.now result.start ≡ true }
    ensures ends { result.end < limit → mask_bit bytes.now result.end ≡ false }
    ensures forth { at < limit → at < result.end }
{
    let start = run_end(bytes, at, limit, false);
    let end = run_end(bytes, start, limit, true);
    Run { start, end }
}

/// Lays the bits of a byte over eight places from `at` on, the highest first.
#[inline(always)]
fn lay_byte(byte: u8, at: usize, out: &mut [bool])
    requires { at + 8 ≤ length out.old }
    ensures size { length out.new ≡ length out.old }
    ensures before { (i : ℕ) → i < at → get_or out.new i false ≡ get_or out.old i false }
    ensures bits { (q : ℕ) → q < 8 → get_or out.new (at + q) false ≡ byte_bit byte q }
{
    for i in 0..8 {
        out[at + i] = (byte >> (7 - i)) % 2 == 1;
    }
}

/// Copies the bits from `from` on, eight at a time where a byte begins.
pub(crate) fn copy_bits(bytes: &[u8], from: usize, out: &mut [bool])
    requires few { from + length out.old ≤ 16777216 }
    requires within { from + length out.old ≤ 8 * length bytes.now }
    ensures { (i : ℕ) → i < length out.old
        → get_or out.new i false ≡ mask_bit bytes.now (from + i) }
{
    let mut i = 0;
    while i < out.len() {
        let k = from + i;
        if k % 8 == 0 && i + 8 <= out.len() {
            lay_byte(bytes[k / 8], i, out);
            i += 8;
        } else {
            out[i] = bit_at(bytes, k);
            i += 1;
        }
    }
}

/// So many bits from `from` on as one number, the first as its highest: each behind those before.
fn word_each(bytes: &[u8], from: usize, count: usize) -> u32
    requires few { count ≤ 32 }
    requires within { from + count ≤ 8 * length bytes.now }
    requires places { from + count ≤ 16777216 }
    ensures below { result < 2 ^ count }
    ensures bits { (q : ℕ) → q < count → word_bit count result q ≡ mask_bit bytes.now (from + q) }
{
    let mut word = 0;
    for i in 0..count {
        word = 2 * word + u32::from(bit_at(bytes, from + i));
    }
    word
}

/// The same of the eight bytes with which these begin.
#[inline(always)]
fn word_of_eight(bytes: &[u8], from: usize, count: usize) -> u32
    requires some { 0 < count }
    requires few { count ≤ 32 }
    requires eight { 8 ≤ length bytes.now }
    requires first { from < 8 }
    ensures below { result < 2 ^ count }
    ensures bits { (q : ℕ) → q < count → word_bit count result q ≡ mask_bit bytes.now (from + q) }
{
    let word = BigEndian::read_u64(bytes) >> (64 - from - count);
    (word & (4294967295u64 >> (32 - count))) as u32
}

/// So many bits from `from` on, at most 32, as one number, the first as its highest.
#[inline]
pub(crate) fn word_from(bytes: &[u8], from: usize, count: usize) -> u32
    requires some { 0 < count }
    requires few { count ≤ 32 }
    requires within { from + count ≤ 8 * length bytes.now }
    requires places { from + count ≤ 16777216 }
    ensures below { result < 2 ^ count }
    ensures bits { (q : ℕ) → q < count → word_bit count result q ≡ mask_bit bytes.now (from + q) }
{
    let first = from / 8;
    if first + 8 <= bytes.len() {
        word_of_eight(&bytes[first..], from % 8, count)
    } else {
        word_each(bytes, from, count)
    }
}
