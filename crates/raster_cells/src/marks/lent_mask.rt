//! The mask of a raster in bytes that someone else keeps: the raster, or a caller.

ghost use Rattle.std.specs.Prelude.{◌≡◌, ◌↔◌, ℕ, ◌+◌, ◌/◌, ◌<◌, ◌≤◌, IsTrue, length, get_or, replicate, true, false};
ghost use Rattle.std.specs.List.{count_by};
ghost use Rattle.raster_cells.specs.Masks.{marks_in, mask_bit};
ghost use Rattle.raster_cells.specs.LentMask.{AreBits};
ghost use Rattle.raster_cells.specs.Runs.{run_places};
ghost use Rattle.raster_cells.specs.Words.{AreMarks};
ghost use Rattle.raster_cells.specs.MarkRuns.{AreRuns};

use crate::marks::bits::{self, Run};
use crate::marks::counting::count_bits;
use crate::marks::mask_bits::set_bits;
use std::marker::Model;

/// Which pixels are valid: a bit for each, in bytes that someone else keeps, and how many there
/// are. The bits behind the last pixel are not looked at. Where every pixel is valid no bit is, and
/// there need be no bytes.
///
/// A contract sees the list of the marks.
#[derive(Drop)]
pub struct LentMask<'m> {
    count: usize,
    valid: usize,
    bytes: &'m [u8],
}

impl<'m> Model for LentMask<'m> {
    ghost use Rattle.std.specs.Prelude.{Bool, List};

    ghost Value = { List Bool };

    ghost use Rattle.raster_cells.specs.LentMask.{AreMarksWith, marks_with};

    ghost view = { λ m. marks_with m.count m.valid m.bytes.now };

    ghost invariant = { λ m. AreMarksWith m.count m.valid m.bytes.now };
}

impl<'m> LentMask<'m> {
    /// The mask of so many pixels that the bytes are.
    pub fn over(count: usize, bytes: &'m [u8]) -> LentMask<'m>
        requires few { count ≤ 16777216 }
        requires size { length bytes.now ≡ (count + 7) / 8 }
        ensures { result ≡ marks_in count bytes.now }
    {
        let valid = count_bits(bytes, 0, count);
        LentMask {
            count,
            valid,
            bytes,
        }
    }

    /// The same mask, where it is known how many pixels are valid.
    pub fn with_count(count: usize, valid: usize, bytes: &'m [u8]) -> LentMask<'m>
        requires { AreBits count valid bytes.now }
        ensures { result ≡ marks_in count bytes.now }
    {
        LentMask {
            count,
            valid,
            bytes,
        }
    }

    /// The mask of so many pixels of which every one is valid.
    pub fn whole(count: usize) -> LentMask<'m>
        requires { count ≤ 16777216 }
        ensures { result ≡ replicate count true }
    {
        LentMask {
            count,
            valid: count,
            bytes: &[],
        }
    }

    /// The number of pixels.
    pub fn len(&self) -> usize
        ensures value { result ≡ length self.now }
        ensures few { result ≤ 16777216 }
    {
        self.count
    }

    /// How many pixels are valid.
    pub fn valid_count(&self) -> usize
        ensures { result ≡ count_by (λ m. m) self.now }
    {
        self.valid
    }

    /// Whether every pixel is valid.
    pub fn is_whole(&self) -> bool
        ensures { IsTrue result
            ↔ ((k : ℕ) → k < length self.now → get_or self.now k false ≡ true) }
    {
        self.valid == self.count
    }

    /// Whether a pixel is valid.
    #[inline(always)]
    pub fn get(&self, k: usize) -> bool
        requires { k < length self.now }
        ensures { result ≡ get_or self.now k false }
    {
        self.valid == self.count || bits::bit_at(self.bytes, k)
    }

    /// The bytes as they lie, where not every pixel is valid. The bits behind the last pixel are
    /// any.
    pub fn bytes(&self) -> &'m [u8]
        requires { count_by (λ m. m) self.now < length self.now }
        ensures size { length result.now ≡ (length self.now + 7) / 8 }
        ensures bits { (k : ℕ) → k < length self.now
            → mask_bit result.now k ≡ get_or self.now k false }
    {
        self.bytes
    }

    /// Writes the bits over as many bytes. Those behind the last pixel are 0.
    pub fn write_bits(&self, out: &mut [u8])
        requires { length out.old ≡ (length self.now + 7) / 8 }
        ensures size { length out.new ≡ length out.old }
        ensures bits { (k : ℕ) → mask_bit out.new k ≡ get_or self.now k false }
    {
        if self.valid == self.count {
            set_bits(out, self.count);
            return;
        }
        out.copy_from_slice(self.bytes);
        bits::clear_spare(out, self.count);
    }

    /// How many of `count` pixels from `from` on are valid.
    pub fn count_run(&self, from: usize, count: usize) -> usize
        requires { from + count ≤ length self.now }
        ensures { result ≡ length (run_places self.now from count) }
    {
        if self.valid == self.count {
            return count;
        }
        count_bits(self.bytes, from, count)
    }

    /// Copies the marks of the pixels from `from` on.
    pub fn copy_run(&self, from: usize, out: &mut [bool])
        requires { from + length out.old ≤ length self.now }
        ensures { (i : ℕ) → i < length out.old
            → get_or out.new i false ≡ get_or self.now (from + i) false }
    {
        if self.valid == self.count {
            out.fill(true);
            return;
        }
        bits::copy_bits(self.bytes, from, out);
    }

    /// The marks of `count` pixels from `from` on, at most 32, as the bits of one number, the first
    /// as the highest.
    #[inline]
    pub fn word(&self, from: usize, count: usize) -> u32
        requires some { 0 < count }
        requires few { count ≤ 32 }
        requires within { from + count ≤ length self.now }
        ensures { AreMarks self.now from count result }
    {
        if self.valid == self.count {
            return u32::MAX >> (32 - count);
        }
        bits::word_from(self.bytes, from, count)
    }

    /// The next run of valid pixels from `at` on, before `limit`. It is empty, and at `limit`,
    /// where there is none.
    pub fn next_run(&self, at: usize, limit: usize) -> Run
        requires order { at ≤ limit }
        requires within { limit ≤ length self.now }
        ensures runs { AreRuns self.now at result.start result.end }
        ensures within { result.end ≤ limit }
        ensures begins { result.start < limit → get_or self.now result.start false ≡ true }
        ensures ends { result.end < limit → get_or self.now result.end false ≡ false }
        ensures forth { at < limit → at < result.end }
    {
        if self.valid == self.count {
            return Run {
                start: at,
                end: limit,
            };
        }
        bits::run_after(self.bytes, at, limit)
    }
}
