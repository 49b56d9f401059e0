//! The mask of a raster, as bytes.

ghost use Rattle.std.specs.Prelude.{◌≡◌, ◌↔◌, ℕ, ◌+◌, ◌*◌, ◌/◌, ◌%◌, ◌<◌, ◌≤◌, Bool, List, IfOk, IsTrue, length, get_or, replicate, slice_set, take, drop, nat_eq, nat_lt, map, ◌++◌, ◌-◌, true, false, if◌then◌else◌, ◌&&◌};
ghost use Rattle.std.specs.List.{count_by, filter, range_with_len};
ghost use Rattle.raster_cells.specs.Masks.{mask_bit, marks_in};
ghost use Rattle.raster_cells.specs.inside.Bits.{byte_bit, bit_after};
ghost use Rattle.raster_cells.specs.Runs.{run_places};
ghost use Rattle.raster_cells.specs.Words.{AreMarks};
ghost use Rattle.raster_cells.specs.MarkRuns.{AreRuns};
ghost use Rattle.raster_cells.specs.MarkBytes.{mark_bytes};

use crate::marks::bits::{self, Run};
use crate::marks::counting::count_bits;
use crate::marks::lent_mask::LentMask;
use byteorder::{ByteOrder, LittleEndian};
use std::alloc::{AllocError, Global};
use std::marker::Model;

/// Which pixels are valid: a bit for each, row by row and the highest of each byte first, and how
/// many there are. The bits behind the last pixel are 0.
///
/// A contract sees the list of the marks.
#[derive(Drop)]
pub struct Mask {
    count: usize,
    valid: usize,
    bytes: Vec<u8>,
}

impl Model for Mask {
    ghost use Rattle.std.specs.Prelude.{Bool, List};

    ghost Value = { List Bool };

    ghost use Rattle.raster_cells.specs.inside.MaskView.{seen_mask, IsMask};

    ghost view = { seen_mask };

    ghost invariant = { IsMask };
}

/// The byte with a bit set or cleared, its bits counted from the highest.
fn with_bit(byte: u8, place: usize, mark: bool) -> u8
    requires { place < 8 }
    ensures { (q : ℕ) → q < 8
        → byte_bit result q ≡ (if nat_eq q place then mark else byte_bit byte q) }
{
    let bit = 1u8 << (7 - place);
    if mark { byte | bit } else { byte & !bit }
}

/// Sets bit number k.
fn put_bit(bytes: &mut Vec<u8>, k: usize, mark: bool)
    requires { k / 8 < length bytes.old.items }
    ensures size { length bytes.new.items ≡ length bytes.old.items }
    ensures bits { (j : ℕ) → mask_bit bytes.new.items j
        ≡ (if nat_eq j k then mark else mask_bit bytes.old.items j) }
{
    bytes[k / 8] = with_bit(bytes[k / 8], k % 8, mark);
}

/// Clears the bits from number `count` on, which are fewer than eight.
fn clear_spare(bytes: &mut Vec<u8>, count: usize)
    requires few { count ≤ 16777216 }
    requires size { length bytes.old.items ≡ (count + 7) / 8 }
    ensures size { length bytes.new.items ≡ length bytes.old.items }
    ensures bits { (k : ℕ)
        → mask_bit bytes.new.items k ≡ (nat_lt k count && mask_bit bytes.old.items k) }
{
    bits::clear_spare(&mut bytes[..], count);
}

/// Sets every bit.
fn fill_bits(bytes: &mut Vec<u8>)
    ensures { bytes.new.items ≡ replicate (length bytes.old.items) 255 }
{
    let all = &mut bytes[..];
    all.fill(255);
}

/// Sets the bits before number `count`, and clears the others.
fn set_front(bytes: &mut Vec<u8>, count: usize)
    requires few { count ≤ 16777216 }
    requires size { length bytes.old.items ≡ (count + 7) / 8 }
    ensures size { length bytes.new.items ≡ length bytes.old.items }
    ensures bits { (k : ℕ) → mask_bit bytes.new.items k ≡ nat_lt k count }
{
    fill_bits(bytes);
    clear_spare(bytes, count);
}

/// Lays bytes over as many.
fn lay(bytes: &mut Vec<u8>, mask: &[u8])
    requires { length mask.now ≡ length bytes.old.items }
    ensures { bytes.new.items ≡ mask.now }
{
    let all = &mut bytes[..];
    all.copy_from_slice(mask);
}

/// Whether as many bytes have the same bits.
fn have_same_bits(one: &[u8], other: &[u8]) -> bool
    requires { length one.now ≡ length other.now }
    ensures { IsTrue result ↔ ((k : ℕ) → mask_bit one.now k ≡ mask_bit other.now k) }
{
    *one == *other
}

/// Eight marks as a byte, the first as its highest bit: multiplied, each is moved to its place in
/// the highest byte of the word, and none meets another.
fn pack_marks(marks: &[u8]) -> u8
    requires eight { length marks.now ≡ 8 }
    requires lawful { (k : ℕ) → get_or marks.now k 0 ≤ 1 }
    ensures { (q : ℕ) → q < 8 → byte_bit result q ≡ nat_eq (get_or marks.now q 0) 1 }
{
    let word = LittleEndian::read_u64(marks);
    (word.wrapping_mul(0x8040201008040201) >> 56) as u8
}

/// Sets the bits of the bytes from number `first` on: to 1 where the mark is 1.
fn put_packed(bytes: &mut Vec<u8>, first: usize, marks: &[u8])
    requires few { 8 * first + length marks.now ≤ 16777216 }
    requires within { 8 * first + length marks.now ≤ 8 * length bytes.old.items }
    requires whole { length marks.now % 8 ≡ 0 }
    requires lawful { (k : ℕ) → get_or marks.now k 0 ≤ 1 }
    ensures size { length bytes.new.items ≡ length bytes.old.items }
    ensures bits { (k : ℕ)
        → mask_bit bytes.new.items k
        ≡ bit_after bytes.old.items marks.now (8 * first) (length marks.now) k }
{
    for i in 0..marks.len() / 8 {
        bytes[first + i] = pack_marks(&marks[8 * i..8 * i + 8]);
    }
}

/// Sets the bits from `from` on, one by one: to 1 where the mark is 1.
fn put_each(bytes: &mut Vec<u8>, from: usize, marks: &[u8])
    requires few { from + length marks.now ≤ 16777216 }
    requires within { from + length marks.now ≤ 8 * length bytes.old.items }
    ensures size { length bytes.new.items ≡ length bytes.old.items }
    ensures bits { (k : ℕ)
        → mask_bit bytes.new.items k
        ≡ bit_after bytes.old.items marks.now from (length marks.now) k }
{
    for (i, mark) in marks.iter().enumerate() {
        put_bit(bytes, from + i, *mark == 1);
    }
}

/// How many of `count` marks from `from` on are put eight at a time: where a byte begins with the
/// first of them, as many as fill bytes.
fn whole_marks(from: usize, count: usize) -> usize
    ensures within { result ≤ count }
    ensures whole { result % 8 ≡ 0 }
    ensures bytes { 0 < result → from % 8 ≡ 0 }
{
    if from % 8 == 0 { count / 8 * 8 } else { 0 }
}

/// Sets the bits from `from` on: to 1 where the mark is 1.
fn put_bits(bytes: &mut Vec<u8>, from: usize, marks: &[u8])
    requires few { from + length marks.now ≤ 16777216 }
    requires within { from + length marks.now ≤ 8 * length bytes.old.items }
    requires lawful { (k : ℕ) → get_or marks.now k 0 ≤ 1 }
    ensures size { length bytes.new.items ≡ length bytes.old.items }
    ensures bits { (k : ℕ)
        → mask_bit bytes.new.items k
        ≡ bit_after bytes.old.items marks.now from (length marks.now) k }
{
    let whole = whole_marks(from, marks.len());
    put_packed(bytes, from / 8, &marks[..whole]);
    put_each(bytes, from + whole, &marks[whole..]);
}

/// The bits of a byte as eight bytes, the highest first.
fn spread(byte: u8) -> [u8; 8]
    ensures { (q : ℕ) → q < 8 → get_or result q 0 ≡ (if byte_bit byte q then 1 else 0) }
{
    [
        byte >> 7,
        (byte >> 6) % 2,
        (byte >> 5) % 2,
        (byte >> 4) % 2,
        (byte >> 3) % 2,
        (byte >> 2) % 2,
        (byte >> 1) % 2,
        byte % 2,
    ]
}

/// Lays a byte for each bit over all of `out`, eight for each byte.
fn write_spread(bytes: &[u8], out: &mut [u8])
    requires few { length out.old ≤ 16777216 }
    requires size { length out.old ≡ 8 * length bytes.now }
    ensures { (k : ℕ) → k < length out.old
        → get_or out.new k 0 ≡ (if mask_bit bytes.now k then 1 else 0) }
{
    for (i, byte) in bytes.iter().enumerate() {
        out[8 * i..8 * i + 8].copy_from_slice(&spread(*byte));
    }
}

impl Mask {
    /// A mask of so many pixels, of which none is valid.
    pub fn new(alloc: Global, count: usize) -> Result<Mask, AllocError>
        requires { count ≤ 16777216 }
        ensures { IfOk result (λ m. m ≡ replicate count false) }
    {
        let bytes = vec![in alloc; 0u8; count.div_ceil(8)]?;
        Ok(Mask {
            count,
            valid: 0,
            bytes,
        })
    }

    /// The number of pixels.
    pub fn len(&self) -> usize
        ensures value { result ≡ length self.now }
        ensures few { result ≤ 16777216 }
    {
        self.count
    }

    /// How many pixels are valid.
    pub fn valid_count(&self) -> usize
        ensures { result ≡ count_by (λ m. m) self.now }
    {
        self.valid
    }

    /// The same mask, to be read.
    #[inline(always)]
    pub fn read(&self) -> LentMask
        ensures { result ≡ self.now }
    {
        LentMask::with_count(self.count, self.valid, &self.bytes)
    }

    /// Whether a pixel is valid.
    pub fn get(&self, k: usize) -> bool
        requires { k < length self.now }
        ensures { result ≡ get_or self.now k false }
    {
        (self.bytes[k / 8] >> (7 - k % 8)) % 2 == 1
    }

    /// Makes a pixel valid or invalid.
    pub fn set(&mut self, k: usize, mark: bool)
        requires { k < length self.old }
        ensures { self.new ≡ slice_set self.old k mark }
    {
        let was = self.get(k);
        put_bit(&mut self.bytes, k, mark);
        self.valid = self.valid + usize::from(mark) - usize::from(was);
    }

    /// Makes every pixel valid.
    pub fn fill(&mut self)
        ensures { self.new ≡ replicate (length self.old) true }
    {
        let count = self.count;
        set_front(&mut self.bytes, count);
        self.valid = count;
    }

    /// Makes the pixels valid whose bits are 1, and the others invalid. The bits behind the last
    /// pixel are not looked at.
    pub fn set_all(&mut self, mask: &[u8])
        requires { length mask.now ≡ (length self.old + 7) / 8 }
        ensures { self.new ≡ marks_in (length self.old) mask.now }
    {
        let count = self.count;
        lay(&mut self.bytes, mask);
        clear_spare(&mut self.bytes, count);
        self.valid = count_bits(&self.bytes, 0, count);
    }

    /// The bits, eight to a byte.
    pub fn bytes(&self) -> &[u8]
        ensures size { length result.now ≡ (length self.now + 7) / 8 }
        ensures bits { (k : ℕ) → mask_bit result.now k ≡ get_or self.now k false }
    {
        &self.bytes
    }

    /// Whether two masks are equal.
    pub fn is_same(&self, other: &Mask) -> bool
        ensures { IsTrue result ↔ (self.now ≡ other.now) }
    {
        self.count == other.count && have_same_bits(&self.bytes, &other.bytes)
    }

    /// A mask equal to this one.
    pub fn copy(&self, alloc: Global) -> Result<Mask, AllocError>
        ensures { IfOk result (λ m. m ≡ self.now) }
    {
        let mut bytes = Vec::with_capacity(alloc, self.bytes.len())?;
        bytes.extend_from_slice(&self.bytes)?;
        Ok(Mask {
            count: self.count,
            valid: self.valid,
            bytes,
        })
    }

    /// How many of `count` pixels from `from` on are valid.
    pub fn count_run(&self, from: usize, count: usize) -> usize
        requires { from + count ≤ length self.now }
        ensures { result ≡ length (run_places self.now from count) }
    {
        if self.valid == self.count {
            return count;
        }
        count_bits(&self.bytes, from, count)
    }

    /// Makes the pixels from `from` on valid where the mark is 1, and the others of them, where it
    /// is 0, invalid.
    pub fn set_run(&mut self, from: usize, marks: &[u8])
        requires within { from + length marks.now ≤ length self.old }
        requires lawful { (k : ℕ) → get_or marks.now k 0 ≤ 1 }
        ensures { self.new ≡ take from self.old ++ (map (λ b. nat_eq b 1) marks.now
            ++ drop (from + length marks.now) self.old) }
    {
        let before = count_bits(&self.bytes, from, marks.len());
        put_bits(&mut self.bytes, from, marks);
        let after = count_bits(&self.bytes, from, marks.len());
        self.valid = self.valid - before + after;
    }

    /// Lays a byte for each of `count` pixels from `from` on over the front: 1 for a valid one.
    pub fn write_run(&self, from: usize, count: usize, out: &mut [u8])
        requires within { from + count ≤ length self.now }
        requires room { count ≤ length out.old }
        ensures { out.new ≡ mark_bytes (take count (drop from self.now)) ++ drop count out.old }
    {
        // for the proof: `len` ensures that there are at most 2^24 pixels
        let _ = self.len();
        if self.valid == self.count {
            out[..count].fill(1);
            return;
        }
        let whole = whole_marks(from, count);
        let first = from / 8;
        write_spread(&self.bytes[first..first + whole / 8], &mut out[..whole]);
        self.write_each(from + whole, &mut out[whole..count]);
    }

    /// Lays a byte for each pixel from `from` on over all of `out`, one by one.
    fn write_each(&self, from: usize, out: &mut [u8])
        requires { from + length out.old ≤ length self.now }
        ensures { (k : ℕ) → k < length out.old
            → get_or out.new k 0 ≡ (if get_or self.now (from + k) false then 1 else 0) }
    {
        // for the proof: `len` ensures that there are at most 2^24 pixels
        let _ = self.len();
        for i in 0..out.len() {
            out[i] = u8::from(self.get(from + i));
        }
    }

    /// Copies the marks of the pixels from `from` on.
    pub fn copy_run(&self, from: usize, out: &mut [bool])
        requires { from + length out.old ≤ length self.now }
        ensures { (i : ℕ) → i < length out.old
            → get_or out.new i false ≡ get_or self.now (from + i) false }
    {
        // for the proof: `len` ensures that there are at most 2^24 pixels
        let _ = self.len();
        if self.valid == self.count {
            out.fill(true);
            return;
        }
        bits::copy_bits(&self.bytes, from, out);
    }

    /// The marks of `count` pixels from `from` on, at most 32, as the bits of one number, the first
    /// as the highest.
    #[inline]
    pub fn word(&self, from: usize, count: usize) -> u32
        requires some { 0 < count }
        requires few { count ≤ 32 }
        requires within { from + count ≤ length self.now }
        ensures { AreMarks self.now from count result }
    {
        bits::word_from(&self.bytes, from, count)
    }

    /// The next run of valid pixels from `at` on, before `limit`. It is empty, and at `limit`,
    /// where there is none.
    pub fn next_run(&self, at: usize, limit: usize) -> Run
        requires order { at ≤ limit }
        requires within { limit ≤ length self.now }
        ensures runs { AreRuns self.now at result.start result.end }
        ensures within { result.end ≤ limit }
        ensures begins { result.start < limit → get_or self.now result.start false ≡ true }
        ensures ends { result.end < limit → get_or self.now result.end false ≡ false }
        ensures forth { at < limit → at < result.end }
    {
        if self.valid == self.count {
            return Run {
                start: at,
                end: limit,
            };
        }
        bits::run_after(&self.bytes, at, limit)
    }
}
