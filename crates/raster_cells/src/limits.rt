//! The limits of a raster's shape.

ghost use Rattle.std.specs.Prelude.{◌↔◌, IsTrue};
ghost use Rattle.raster_cells.specs.Shapes.{IsShape};

/// How many depths a raster may have.
pub const GREATEST_DEPTH: u32 = 65536;

/// How many bands a tile may have.
pub const GREATEST_BANDS: u32 = 16;

/// How many values a raster may have, and the bands of a tile together.
pub const GREATEST_VALUES: u64 = 16777216;

/// Whether there are rasters of the shape: no number is 0, there are at most 65,536 depths, and at
/// most 2^24 values.
pub fn is_shape(rows: u32, cols: u32, depth: u32) -> bool
    ensures { IsTrue result ↔ IsShape rows cols depth }
{
    if rows == 0 || cols == 0 || depth == 0 || depth > GREATEST_DEPTH {
        return false;
    }
    let pixels = u64::from(rows) * u64::from(cols);
    pixels <= GREATEST_VALUES && pixels * u64::from(depth) <= GREATEST_VALUES
}
