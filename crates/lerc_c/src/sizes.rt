//! How long a blob may be.

ghost use Rattle.std.specs.Prelude.{◌≡◌, ◌≤◌};
ghost use Rattle.raster_cells.specs.Shapes.{IsShape};
ghost use Rattle.lerc_encode.specs.Sizes.{greatest_size};

use raster_values::PixelType;

/// The size that no blob of a raster of this type and shape passes.
pub(crate) fn size_of(kind: PixelType, rows: u32, cols: u32, depth: u32) -> u64
    requires { IsShape rows cols depth }
    ensures size { result ≡ greatest_size kind rows cols depth }
    ensures few { result ≤ 134217728 }
{
    let pixels = u64::from(rows) * u64::from(cols);
    let depth = u64::from(depth);
    let width = kind.bytes() as u64;
    let mask = 3 * pixels.div_ceil(8) + 2;
    70 + mask + 2 * (depth * width) + (1 + pixels * depth * width)
}
