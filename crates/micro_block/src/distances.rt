//! Distances from the least value of a type.

ghost use Rattle.std.specs.Prelude.{◌≡◌, ◌≤◌, length, map, unsigned_abs, All};
ghost use Rattle.raster_cells.specs.Distance.{distance_of, value_above};
ghost use Rattle.raster_cells.specs.PixelType.{InRange};
ghost use Rattle.micro_block.specs.inside.Products.{AreUpTo};
ghost use Rattle.micro_block.specs.inside.Stepping.{AreEndsOf};

use lane_kernels::minus;
use raster_cells::PixelType;

/// The value that is so far above the least of its type.
#[inline(always)]
pub(crate) fn value_of(kind: PixelType, distance: u32) -> i64
    ensures { result ≡ value_above kind distance }
{
    kind.least() + i64::from(distance)
}

/// Writes how far each value is above the least of its type.
pub(crate) fn distances_of(kind: PixelType, values: &[i64], out: &mut [u32])
    requires few { length values.now ≤ 256 }
    requires lengths { length out.old ≡ length values.now }
    requires in_range { All (InRange kind) values.now }
    ensures { out.new ≡ map (distance_of kind) values.now }
{
    let mut room = [0; 256];
    let above = &mut room[..values.len()];
    minus(values, kind.least(), above);
    narrow_each(above, out);
}

/// Writes numbers of 32 bits as such.
fn narrow_each(numbers: &[i64], out: &mut [u32])
    requires lengths { length out.old ≡ length numbers.now }
    requires fit { AreUpTo 4294967295 numbers.now }
    ensures { out.new ≡ map unsigned_abs numbers.now }
{
    for (i, number) in numbers.iter().enumerate() {
        out[i] = *number as u32;
    }
}

/// The least and the greatest distance; of none the greatest number and 0.
pub(crate) fn ends(distances: &[u32]) -> (u32, u32)
    ensures { AreEndsOf distances.now result.0 result.1 }
{
    let (mut least, mut greatest) = (u32::MAX, 0u32);
    for distance in distances {
        least = least.min(*distance);
        greatest = greatest.max(*distance);
    }
    (least, greatest)
}
