//! ASCII grids: a raster, and where it lies.

use outside_io::Bytes;
use raster_values::Raster;

/// Where a grid lies: the texts of its lower left corner, or of the centre of the cell there, and
/// of the side of a cell, as they stood; and the number of an invalid pixel.
#[derive(Drop)]
pub struct Georef {
    pub x: Bytes,
    /// Whether `x` is that of the cell's centre.
    pub x_centre: bool,
    pub y: Bytes,
    /// Whether `y` is that of the cell's centre.
    pub y_centre: bool,
    pub cell: Bytes,
    pub nodata: i64,
}

/// A raster of depth 1, and where it lies.
#[derive(Drop)]
pub struct AsciiGrid {
    pub geo: Georef,
    pub raster: Raster,
}
