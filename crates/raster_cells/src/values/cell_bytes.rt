//! Values of one type in bytes that someone else keeps: of a raster, or of a caller.

ghost use Rattle.std.specs.Prelude.{◌≡◌, ◌+◌, ◌*◌, ◌<◌, ◌≤◌, ◌++◌, All, pos, length, get_or, take, drop, map};
ghost use Rattle.std.specs.List.{range_with_len};
ghost use Rattle.lane_kernels.specs.Kernels.{IsLeast, IsGreatest};
ghost use Rattle.raster_cells.specs.PixelType.{InRange, bytes_of};
ghost use Rattle.raster_cells.specs.Values.{values_bytes};
ghost use Rattle.raster_cells.specs.Distance.{distance_of};
ghost use Rattle.raster_cells.specs.CellList.{CellList, values_in};
ghost use Rattle.raster_cells.specs.LentBytes.{AreHeld};
ghost use Rattle.raster_cells.specs.Runs.{AreEnds};

use crate::by_kind;
use crate::kind::PixelType;
use crate::values::pixels_from::PixelsFrom;
use crate::values::value_bytes::{
    distance_at, eight_at, lay_eight, place, read_steps_as, value_at,
};
use crate::values::value_source::ValueSource;
use std::marker::Model;

/// Values of one type that are read from the bytes that stand for them, whoever keeps these.
#[derive(Drop)]
pub struct CellBytes<'v> {
    kind: PixelType,
    count: usize,
    bytes: &'v [u8],
}

impl<'v> Model for CellBytes<'v> {
    ghost use Rattle.raster_cells.specs.CellList.{CellList};

    ghost Value = { CellList };

    ghost use Rattle.raster_cells.specs.CellList.{values_in};
    ghost use Rattle.raster_cells.specs.LentBytes.{AreHeld};

    ghost view = { λ c. record { kind = c.kind; values = values_in c.kind c.count c.bytes.now } };

    ghost invariant = { λ c. AreHeld c.kind c.count c.bytes.now };
}

/// Lays the bytes that one type has for values of another over the front of `out`: for `some` of
/// the `count` values that the bytes stand for, from number `n` on. The bytes behind them stay.
#[inline(always)]
fn write_spelled(
    kind: PixelType,
    of: PixelType,
    count: usize,
    bytes: &[u8],
    n: usize,
    some: usize,
    out: &mut [u8],
)
    requires few { count ≤ 16777216 }
    requires size { length bytes.now ≡ count * bytes_of of }
    requires in_range { All (InRange kind) (values_in of count bytes.now) }
    requires within { n + some ≤ count }
    requires room { some * bytes_of kind ≤ length out.old }
    ensures { out.new ≡ values_bytes kind (take some (drop n (values_in of count bytes.now)))
        ++ drop (some * bytes_of kind) out.old }
{
    let size = kind.bytes();
    for i in 0..some {
        let value = value_at(of, count, bytes, n + i);
        kind.write_value(value, &mut out[i * size..]);
    }
}

impl<'v> ValueSource for CellBytes<'v> {
    ghost listed = { λ c. c.values };

    #[inline(always)]
    fn len(&self) -> usize {
        self.count
    }

    #[inline(always)]
    fn at_as(&self, kind: PixelType, i: usize) -> i64 {
        if i < self.count {
            value_at(self.kind, self.count, self.bytes, i)
        } else {
            0
        }
    }

    #[inline(always)]
    fn write_as(&self, kind: PixelType, n: usize, count: usize, out: &mut [u8]) {
        write_spelled(kind, self.kind, self.count, self.bytes, n, count, out);
    }
}

impl<'v> CellBytes<'v> {
    /// So many values, as their bytes.
    #[inline(always)]
    pub fn over(kind: PixelType, count: usize, bytes: &'v [u8]) -> CellBytes<'v>
        requires few { count ≤ 16777216 }
        requires size { length bytes.now ≡ count * bytes_of kind }
        ensures { result ≡ record { kind = kind; values = values_in kind count bytes.now } }
    {
        CellBytes { kind, count, bytes }
    }

    /// The type of the values.
    pub fn kind(&self) -> PixelType
        ensures { result ≡ self.now.kind }
    {
        self.kind
    }

    /// The bytes of all values.
    pub fn bytes(&self) -> &'v [u8]
        ensures { result.now ≡ values_bytes self.now.kind self.now.values }
    {
        self.bytes
    }

    /// The values at a depth of as many pixels.
    pub fn get_pixels(&self, pixels: PixelsFrom, out: &mut [i64])
        requires { (pixels.first + length out.old) * pixels.depth ≤ length self.now.values }
        ensures { out.new
            ≡ map (λ k. get_or self.now.values (k * pixels.depth + pixels.d) (pos 0))
            (range_with_len pixels.first (length out.old)) }
    {
        by_kind!(self.kind, kind => self.get_pixels_as(kind, pixels, out))
    }

    /// Does what `get_pixels` does, for a type that is known before. Without a second depth values
    /// stand side by side, which the compiler is to know.
    #[inline(always)]
    pub fn get_pixels_as(&self, kind: PixelType, pixels: PixelsFrom, out: &mut [i64])
        requires kind { kind ≡ self.now.kind }
        requires within { (pixels.first + length out.old) * pixels.depth ≤ length self.now.values }
        ensures { out.new
            ≡ map (λ k. get_or self.now.values (k * pixels.depth + pixels.d) (pos 0))
            (range_with_len pixels.first (length out.old)) }
    {
        if pixels.depth == 1 {
            read_steps_as(kind, self.count, self.bytes, pixels.of_depth(1), out);
        } else {
            read_steps_as(kind, self.count, self.bytes, pixels, out);
        }
    }

    /// The value at a place, for a type that is known before.
    #[inline(always)]
    pub fn value_as(&self, kind: PixelType, at: usize) -> i64
        requires kind { kind ≡ self.now.kind }
        requires within { at < length self.now.values }
        ensures value { result ≡ get_or self.now.values at (pos 0) }
        ensures in_range { InRange self.now.kind result }
    {
        value_at(kind, self.count, self.bytes, at)
    }

    /// How far the value at a place is above the type's least, for a type that is known before.
    #[inline(always)]
    pub fn distance_as(&self, kind: PixelType, at: usize) -> u32
        requires kind { kind ≡ self.now.kind }
        requires within { at < length self.now.values }
        ensures { result ≡ distance_of self.now.kind (get_or self.now.values at (pos 0)) }
    {
        distance_at(kind, self.bytes, at)
    }

    /// How far the values at a depth of as many pixels are above the type's least. Without a second
    /// depth values stand side by side, which the compiler is to know, as it is the type.
    #[inline(always)]
    pub fn get_distances_as(&self, kind: PixelType, pixels: PixelsFrom, out: &mut [u32])
        requires kind { kind ≡ self.now.kind }
        requires within { (pixels.first + length out.old) * pixels.depth ≤ length self.now.values }
        ensures { out.new ≡ map (λ k. distance_of self.now.kind
            (get_or self.now.values (k * pixels.depth + pixels.d) (pos 0)))
            (range_with_len pixels.first (length out.old)) }
    {
        if pixels.depth == 1 && out.len() == 8 {
            self.get_eight_as(kind, pixels.first, out);
        } else if pixels.depth == 1 {
            self.get_steps_as(kind, pixels.of_depth(1), out);
        } else {
            self.get_steps_as(kind, pixels, out);
        }
    }

    /// Does what `get_distances_as` does, for eight pixels of one value: all are read before any is
    /// written, so that the compiler may take them together.
    #[inline(always)]
    fn get_eight_as(&self, kind: PixelType, first: usize, out: &mut [u32])
        requires kind { kind ≡ self.now.kind }
        requires eight { length out.old ≡ 8 }
        requires within { first + 8 ≤ length self.now.values }
        ensures { out.new ≡ map (λ k. distance_of self.now.kind (get_or self.now.values k (pos 0)))
            (range_with_len first 8) }
    {
        let read = eight_at(kind, self.bytes, first);
        lay_eight(&read, out);
    }

    /// Does what `get_distances_as` does, one pixel after the other.
    #[inline(always)]
    fn get_steps_as(&self, kind: PixelType, pixels: PixelsFrom, out: &mut [u32])
        requires kind { kind ≡ self.now.kind }
        requires within { (pixels.first + length out.old) * pixels.depth ≤ length self.now.values }
        ensures { out.new ≡ map (λ k. distance_of self.now.kind
            (get_or self.now.values (k * pixels.depth + pixels.d) (pos 0)))
            (range_with_len pixels.first (length out.old)) }
    {
        let bytes = self.bytes;
        for i in 0..out.len() {
            out[i] = distance_at(kind, bytes, (pixels.first + i) * pixels.depth + pixels.d);
        }
    }

    /// The least and the greatest of the values at a depth of `count` pixels.
    pub fn extremes(&self, pixels: PixelsFrom, count: usize) -> (i64, i64)
        requires some { 0 < count }
        requires within { (pixels.first + count) * pixels.depth ≤ length self.now.values }
        ensures least { IsLeast
            (map (λ k. get_or self.now.values (k * pixels.depth + pixels.d) (pos 0))
            (range_with_len pixels.first count)) result.0 }
        ensures greatest { IsGreatest
            (map (λ k. get_or self.now.values (k * pixels.depth + pixels.d) (pos 0))
            (range_with_len pixels.first count)) result.1 }
    {
        let bottom = self.kind.least();
        let (near, far) = self.ends(pixels, count);
        (bottom + i64::from(near), bottom + i64::from(far))
    }

    /// How far the least and the greatest of these values are above the type's least.
    #[inline(never)]
    fn ends(&self, pixels: PixelsFrom, count: usize) -> (u32, u32)
        requires some { 0 < count }
        requires within { (pixels.first + count) * pixels.depth ≤ length self.now.values }
        ensures { AreEnds self.now.kind
            (map (λ k. get_or self.now.values (k * pixels.depth + pixels.d) (pos 0))
            (range_with_len pixels.first count)) result.0 result.1 }
    {
        by_kind!(self.kind, kind => self.ends_as(kind, pixels, count))
    }

    /// Does what `ends` does, for a type that is known before. Without a second depth values stand
    /// side by side, which the compiler is to know.
    #[inline(always)]
    fn ends_as(&self, kind: PixelType, pixels: PixelsFrom, count: usize) -> (u32, u32)
        requires kind { kind ≡ self.now.kind }
        requires some { 0 < count }
        requires within { (pixels.first + count) * pixels.depth ≤ length self.now.values }
        ensures { AreEnds self.now.kind
            (map (λ k. get_or self.now.values (k * pixels.depth + pixels.d) (pos 0))
            (range_with_len pixels.first count)) result.0 result.1 }
    {
        if pixels.depth == 1 {
            self.step_ends_as(kind, pixels.of_depth(1), count)
        } else {
            self.step_ends_as(kind, pixels, count)
        }
    }

    /// Does what `ends` does, for a type that is known before.
    #[inline(always)]
    fn step_ends_as(&self, kind: PixelType, pixels: PixelsFrom, count: usize) -> (u32, u32)
        requires kind { kind ≡ self.now.kind }
        requires some { 0 < count }
        requires within { (pixels.first + count) * pixels.depth ≤ length self.now.values }
        ensures { AreEnds self.now.kind
            (map (λ k. get_or self.now.values (k * pixels.depth + pixels.d) (pos 0))
            (range_with_len pixels.first count)) result.0 result.1 }
    {
        let bytes = self.bytes;
        let begin = distance_at(kind, bytes, pixels.first * pixels.depth + pixels.d);
        let mut near = begin;
        let mut far = begin;
        for i in 1..count {
            let here = distance_at(kind, bytes, (pixels.first + i) * pixels.depth + pixels.d);
            near = near.min(here);
            far = far.max(here);
        }
        (near, far)
    }

    /// The bytes of a run of values, one behind the other.
    pub fn bytes_of_run(&self, at: usize, count: usize) -> &'v [u8]
        requires { at + count ≤ length self.now.values }
        ensures { result.now ≡ values_bytes self.now.kind (take count (drop at self.now.values)) }
    {
        let from = place(self.kind, self.count, at);
        let end = place(self.kind, self.count, at + count);
        &self.bytes[from..end]
    }
}
