//! The bytes of values by their places.

ghost use Rattle.std.specs.Prelude.{◌≡◌, ◌+◌, ◌*◌, ◌<◌, ◌≤◌, ◌++◌, pos, All, length, get_or, drop, map};
ghost use Rattle.raster_cells.specs.PixelType.{InRange, bytes_of, value_of};
ghost use Rattle.byteorder.specs.Endian.{little_number};
ghost use Rattle.raster_cells.specs.Values.{values_bytes};
ghost use Rattle.raster_cells.specs.CellList.{values_in};
ghost use Rattle.std.specs.List.{range_with_len};
ghost use Rattle.raster_cells.specs.Distance.{distance_of};

use crate::kind::PixelType;
use crate::values::pixels_from::PixelsFrom;

/// Where the bytes of the value at a place begin.
pub fn place(kind: PixelType, count: usize, at: usize) -> usize
    requires few { count ≤ 16777216 }
    requires within { at ≤ count }
    ensures value { result ≡ at * bytes_of kind }
    ensures within { result ≤ count * bytes_of kind }
    ensures below { at < count → result + bytes_of kind ≤ count * bytes_of kind }
{
    at * kind.bytes()
}

/// Lays the bytes of values of a type over the front of `out`, one behind the other. The bytes
/// behind them stay.
#[inline(always)]
pub fn write_values(kind: PixelType, values: &[i64], out: &mut [u8])
    requires room { length values.now * bytes_of kind ≤ length out.old }
    requires in_range { All (InRange kind) values.now }
    ensures { out.new ≡ values_bytes kind values.now
        ++ drop (length values.now * bytes_of kind) out.old }
{
    let size = kind.bytes();
    for (i, value) in values.iter().enumerate() {
        kind.write_value(*value, &mut out[i * size..]);
    }
}

/// The values at a depth of pixels, of `count` values that the bytes stand for, one pixel after the
/// other. The type is known before.
#[inline(always)]
pub(crate) fn read_steps_as(
    kind: PixelType,
    count: usize,
    bytes: &[u8],
    pixels: PixelsFrom,
    out: &mut [i64],
)
    requires few { count ≤ 16777216 }
    requires size { length bytes.now ≡ count * bytes_of kind }
    requires within { (pixels.first + length out.old) * pixels.depth ≤ count }
    ensures { out.new
        ≡ map (λ k. get_or (values_in kind count bytes.now) (k * pixels.depth + pixels.d) (pos 0))
        (range_with_len pixels.first (length out.old)) }
{
    for i in 0..out.len() {
        out[i] = value_at(
            kind,
            count,
            bytes,
            (pixels.first + i) * pixels.depth + pixels.d,
        );
    }
}

/// The value whose bytes stand at a place, of `count` values.
#[inline(always)]
pub fn value_at(kind: PixelType, count: usize, bytes: &[u8], at: usize) -> i64
    requires few { count ≤ 16777216 }
    requires size { length bytes.now ≡ count * bytes_of kind }
    requires within { at < count }
    ensures value { result ≡ get_or (values_in kind count bytes.now) at (pos 0) }
    ensures in_range { InRange kind result }
{
    let from = place(kind, count, at);
    kind.read_value(&bytes[from..])
}

/// How far the value whose bytes stand at a place is above the type's least.
#[inline(always)]
pub(crate) fn distance_at(kind: PixelType, bytes: &[u8], at: usize) -> u32
    requires few { at < 16777216 }
    requires within { at * bytes_of kind + bytes_of kind ≤ length bytes.now }
    ensures { result ≡ distance_of kind
        (value_of kind (little_number (bytes_of kind) (drop (at * bytes_of kind) bytes.now))) }
{
    let here = &bytes[at * kind.bytes()..];
    (kind.read_value(here) - kind.least()) as u32
}

/// The same of the eight values from a place on.
#[inline(always)]
pub(crate) fn eight_at(kind: PixelType, bytes: &[u8], at: usize) -> [u32; 8]
    requires few { at + 8 ≤ 16777216 }
    requires within { (at + 8) * bytes_of kind ≤ length bytes.now }
    ensures { result ≡ map (λ k. distance_of kind
        (value_of kind (little_number (bytes_of kind) (drop (k * bytes_of kind) bytes.now))))
        (range_with_len at 8) }
{
    let mut read = [0; 8];
    for i in 0..8 {
        read[i] = distance_at(kind, bytes, at + i);
    }
    read
}

/// Lays eight numbers over as many. It goes one by one, since the numbers are then kept where they
/// were made.
#[inline(always)]
pub(crate) fn lay_eight(numbers: &[u32; 8], out: &mut [u32])
    requires { length out.old ≡ 8 }
    ensures { out.new ≡ numbers.now }
{
    for i in 0..8 {
        out[i] = numbers[i];
    }
}
