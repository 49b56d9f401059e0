//! The arrays that a call is given.

ghost use Rattle.std.specs.Prelude.{length};
ghost use Rattle.raster_cells.specs.Shapes.{IsShape};
ghost use Rattle.lerc_c.specs.Arrays.{GivesSizes};
ghost use Rattle.lerc_c.specs.BandArrays.{AreAllowed};

use raster_values::PixelType;

/// An array of values and one of a mask, and the type and the shape that they are said to have.
#[derive(Clone, Copy)]
pub(crate) struct RasterArrays<'a> {
    pub(crate) kind: PixelType,
    pub(crate) rows: u32,
    pub(crate) cols: u32,
    pub(crate) depth: u32,
    pub(crate) values: &'a [u8],
    pub(crate) mask: &'a [u8],
}

/// Arrays that give a raster: there are rasters of the shape, and the lengths are those of one.
#[derive(Clone, Copy)]
pub(crate) struct FitArrays<'a> {
    pub(crate) arrays: RasterArrays<'a>,
    ghost shape: { IsShape arrays.rows arrays.cols arrays.depth },
    ghost sizes: { GivesSizes arrays.kind arrays.rows arrays.cols arrays.depth
        (length arrays.values.now) (length arrays.mask.now) },
}

/// An array of values and one of masks, and the type, the shape and the count of the bands that
/// they are said to have.
#[derive(Clone, Copy)]
pub(crate) struct BandArrays<'a> {
    pub(crate) kind: PixelType,
    pub(crate) rows: u32,
    pub(crate) cols: u32,
    pub(crate) depth: u32,
    pub(crate) count: u32,
    pub(crate) values: &'a [u8],
    pub(crate) masks: &'a [u8],
}

/// Arrays that may give bands: there are so many bands of the shape.
#[derive(Clone, Copy)]
pub(crate) struct FitBandArrays<'a> {
    pub(crate) arrays: BandArrays<'a>,
    ghost shape: { IsShape arrays.rows arrays.cols arrays.depth },
    ghost allowed: { AreAllowed arrays.rows arrays.cols arrays.depth arrays.count },
}
