//! A raster that is said in a word.

ghost use Rattle.std.specs.Prelude.{IfSome};
ghost use Rattle.std.proofs.Props.{props};
ghost use Rattle.raster_cells.specs.PixelType.{InRange};
ghost use Rattle.raster_cells.specs.Shapes.{IsShape};

use raster_values::PixelType;

/// A raster whose pixels are all alike: each has one value at each depth, or none is valid. There
/// are rasters of its shape, and the value is one of its type.
#[derive(Clone, Copy, Debug)]
pub struct AlikeRaster {
    pub kind: PixelType,
    pub rows: u32,
    pub cols: u32,
    pub depth: u32,
    /// The value; none where no pixel is valid.
    pub value: Option<i64>,
    ghost shape: { IsShape rows cols depth },
    ghost in_range: { IfSome value (InRange kind) } by { Prim.hlevel props },
}
