//! Values that are put into a raster, one behind the other, however they come.

ghost use Rattle.std.specs.Prelude.{◌≡◌, ◌+◌, ◌*◌, ◌/◌, ◌<◌, ◌≤◌, ◌++◌, ◌+ℤ◌, ◌-ℤ◌, ℤ, pos, min, List, All, length, get_or, map, take, drop, replicate};
ghost use Rattle.raster_cells.specs.PixelType.{InRange, bytes_of};
ghost use Rattle.raster_cells.specs.Values.{values_above, values_bytes};
ghost use Rattle.raster_cells.specs.inside.OfAType.{IsOfAType};
ghost use Rattle.lane_kernels.specs.Kernels.{IsStepSize, capped_sums};
ghost use Rattle.lane_kernels.specs.Within.{sums_within};

use crate::kind::PixelType;
use crate::values::value_bytes::write_values;
use lane_kernels::{gap_between, step_within, steps_within};

/// Values of a type, which is known before where they are read.
pub trait ValueSource {
    /// The values.
    ghost listed: { Self → List ℤ };

    /// How many there are.
    fn len(&self) -> usize
        ensures { result ≡ length (listed self.now) };

    /// The value number `i`, and 0 behind the last.
    fn at_as(&self, kind: PixelType, i: usize) -> i64
        requires in_range { All (InRange kind) (listed self.now) }
        ensures value { result ≡ get_or (listed self.now) i (pos 0) }
        ensures in_range { InRange kind result };

    /// Lays the bytes of `count` values from number `n` on over the front of `out`, one behind the
    /// other. The bytes behind them stay.
    fn write_as(&self, kind: PixelType, n: usize, count: usize, out: &mut [u8])
        requires in_range { All (InRange kind) (listed self.now) }
        requires within { n + count ≤ length (listed self.now) }
        requires room { count * bytes_of kind ≤ length out.old }
        ensures { out.new ≡ values_bytes kind (take count (drop n (listed self.now)))
            ++ drop (count * bytes_of kind) out.old };
}

/// Values that lie one behind the other.
#[derive(Drop)]
pub struct ValueList<'a> {
    pub values: &'a [i64],
}

impl<'a> ValueSource for ValueList<'a> {
    ghost use Rattle.raster_cells.specs.Listed.{list_of};

    ghost listed = { list_of };

    #[inline(always)]
    fn len(&self) -> usize {
        self.values.len()
    }

    #[inline(always)]
    fn at_as(&self, kind: PixelType, i: usize) -> i64 {
        if i < self.values.len() {
            self.values[i]
        } else {
            0
        }
    }

    #[inline(always)]
    fn write_as(&self, kind: PixelType, n: usize, count: usize, out: &mut [u8]) {
        write_values(kind, &self.values[n..n + count], out);
    }
}

/// Values that bytes tell, each by how far it is above a number that is below zero or is zero.
#[derive(Drop)]
pub struct ByteList<'a> {
    pub bytes: &'a [u8],
    /// How far that number is below zero.
    pub below: u8,
}

/// The value that a byte tells.
#[inline(always)]
fn value_above(below: u8, byte: u8) -> i64
    ensures { result ≡ pos byte -ℤ pos below }
{
    i64::from(byte) - i64::from(below)
}

/// Lays the bytes of the values that these bytes tell over the front of `out`, one behind the
/// other. The bytes behind them stay.
#[inline(always)]
fn write_above(kind: PixelType, below: u8, bytes: &[u8], out: &mut [u8])
    requires in_range { All (InRange kind) (values_above below bytes.now) }
    requires room { length bytes.now * bytes_of kind ≤ length out.old }
    ensures { out.new ≡ values_bytes kind (values_above below bytes.now)
        ++ drop (length bytes.now * bytes_of kind) out.old }
{
    let size = kind.bytes();
    for (i, byte) in bytes.iter().enumerate() {
        kind.write_value(value_above(below, *byte), &mut out[i * size..]);
    }
}

impl<'a> ValueSource for ByteList<'a> {
    ghost use Rattle.raster_cells.specs.Listed.{told_by};

    ghost listed = { told_by };

    #[inline(always)]
    fn len(&self) -> usize {
        self.bytes.len()
    }

    #[inline(always)]
    fn at_as(&self, kind: PixelType, i: usize) -> i64 {
        if i < self.bytes.len() {
            value_above(self.below, self.bytes[i])
        } else {
            0
        }
    }

    #[inline(always)]
    fn write_as(&self, kind: PixelType, n: usize, count: usize, out: &mut [u8]) {
        write_above(kind, self.below, &self.bytes[n..n + count], out);
    }
}

/// Lays the bytes of a value so many times over the front of `out`, one behind the other. The bytes
/// behind them stay.
#[inline(always)]
fn write_copies(kind: PixelType, value: i64, count: usize, out: &mut [u8])
    requires in_range { InRange kind value }
    requires room { count * bytes_of kind ≤ length out.old }
    ensures { out.new ≡ values_bytes kind (replicate count value)
        ++ drop (count * bytes_of kind) out.old }
{
    let size = kind.bytes();
    for i in 0..count {
        kind.write_value(value, &mut out[i * size..]);
    }
}

/// One value of a type, so many times.
#[derive(Drop)]
pub struct OneValue {
    pub value: i64,
    pub count: usize,
    ghost of_a_type: { IsOfAType value },
}

impl ValueSource for OneValue {
    ghost use Rattle.raster_cells.specs.Listed.{copies_of};

    ghost listed = { copies_of };

    #[inline(always)]
    fn len(&self) -> usize {
        self.count
    }

    #[inline(always)]
    fn at_as(&self, kind: PixelType, i: usize) -> i64 {
        if i < self.count { self.value } else { 0 }
    }

    #[inline(always)]
    fn write_as(&self, kind: PixelType, n: usize, count: usize, out: &mut [u8]) {
        if count > 0 {
            write_copies(kind, self.value, count, out);
        }
    }
}

/// Sums of an offset and numbers of steps, none above a top.
#[derive(Clone, Copy)]
pub struct Sums<'a> {
    numbers: &'a [u32],
    offset: i64,
    // A step, or the gap where that is less: one step leads as far.
    step: u32,
    // How many steps lead no further than the top.
    most: u32,
    // How far the top is above the offset.
    gap: u32,
    ghost some: { 0 < step },
    ghost most_is: { most ≡ gap / step },
    ghost of_a_type: { IsOfAType offset },
}

/// The sum of an offset and a number of steps, which leads no further than the gap.
#[inline(always)]
fn sum_of(q: u32, sums: &Sums) -> i64
    ensures { result ≡ sums.now.offset +ℤ pos (min (q * sums.now.step) sums.now.gap) }
{
    sums.offset + i64::from(steps_within(q, sums.most, sums.step, sums.gap))
}

/// Lays the bytes of sums of these numbers over the front of `out`, one behind the other. The bytes
/// behind them stay.
#[inline(always)]
fn write_sums(kind: PixelType, numbers: &[u32], sums: &Sums, out: &mut [u8])
    requires in_range { All (InRange kind)
        (sums_within numbers.now sums.now.offset sums.now.step sums.now.gap) }
    requires room { length numbers.now * bytes_of kind ≤ length out.old }
    ensures { out.new ≡ values_bytes kind
        (sums_within numbers.now sums.now.offset sums.now.step sums.now.gap)
        ++ drop (length numbers.now * bytes_of kind) out.old }
{
    // a copy, which no byte that is written can be a part of
    let sums = *sums;
    let size = kind.bytes();
    for (i, q) in numbers.iter().enumerate() {
        kind.write_value(sum_of(*q, &sums), &mut out[i * size..]);
    }
}

/// The sums of eight numbers. Nothing is multiplied where a step is 1, which the compiler is to
/// know.
#[inline(always)]
fn eight_sums(numbers: &[u32], sums: &Sums) -> [i64; 8]
    requires { length numbers.now ≡ 8 }
    ensures { result ≡ sums_within numbers.now sums.now.offset sums.now.step sums.now.gap }
{
    if sums.step == 1 {
        let by_one = Sums {
            numbers: sums.numbers,
            offset: sums.offset,
            step: 1,
            most: sums.gap,
            gap: sums.gap,
        };
        sums_together(numbers, &by_one)
    } else {
        sums_together(numbers, sums)
    }
}

/// Does what `eight_sums` does. All are read before any is written, so that the compiler may take
/// them together.
#[inline(always)]
fn sums_together(numbers: &[u32], sums: &Sums) -> [i64; 8]
    requires { length numbers.now ≡ 8 }
    ensures { result ≡ sums_within numbers.now sums.now.offset sums.now.step sums.now.gap }
{
    let mut values = [0; 8];
    for i in 0..8 {
        values[i] = sum_of(numbers[i], sums);
    }
    values
}

impl<'a> Sums<'a> {
    ghost use Rattle.raster_cells.specs.Listed.{sums_of};

    /// The sums `offset + q * step` of the numbers q, or the top where that is above it.
    pub fn of(kind: PixelType, numbers: &'a [u32], offset: i64, step: i64, top: i64) -> Sums<'a>
        requires offset { InRange kind offset }
        requires top { InRange kind top }
        requires step { IsStepSize step }
        ensures listed { sums_of result ≡ capped_sums (map pos numbers.now) offset step top }
        ensures in_range { All (InRange kind) (sums_of result) }
    {
        if offset >= top {
            return Sums {
                numbers,
                offset: top,
                step: 1,
                most: 0,
                gap: 0,
            };
        }
        let gap = gap_between(offset, top);
        let step = step_within(step, gap);
        Sums {
            numbers,
            offset,
            step,
            most: gap / step,
            gap,
        }
    }
}

impl<'a> ValueSource for Sums<'a> {
    ghost use Rattle.raster_cells.specs.Listed.{sums_of};

    ghost listed = { sums_of };

    #[inline(always)]
    fn len(&self) -> usize {
        self.numbers.len()
    }

    #[inline(always)]
    fn at_as(&self, kind: PixelType, i: usize) -> i64 {
        if i < self.numbers.len() {
            sum_of(self.numbers[i], self)
        } else {
            0
        }
    }

    #[inline(always)]
    fn write_as(&self, kind: PixelType, n: usize, count: usize, out: &mut [u8]) {
        let numbers = &self.numbers[n..n + count];
        if count == 8 {
            write_values(kind, &eight_sums(numbers, self), out);
        } else {
            write_sums(kind, numbers, self, out);
        }
    }
}
