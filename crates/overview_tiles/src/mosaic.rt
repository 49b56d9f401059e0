//! The mosaic of four neighbouring tiles.

ghost use Rattle.std.specs.Prelude.{◌≡◌, ◌↔◌, ℕ, pos, true, false, ◌*◌, ◌/◌, ◌%◌, ◌<◌, ◌≤◌, IfOk, IsTrue, Some, get_or, length, replicate, slice_get, slice_set};
ghost use Rattle.raster_cells.specs.Shapes.{IsShape};
ghost use Rattle.raster_values.specs.Raster.{Pixels};
ghost use Rattle.raster_values.specs.Bands.{AreBands};
ghost use Rattle.overview_tiles.specs.Sums.{AreSums, HasShape, IsLikeMosaic, IsTileOf, no_sums};
ghost use Rattle.overview_tiles.specs.Tiles.{AreHalf, Tiles, no_tiles, with_tile};
ghost use Rattle.overview_tiles.specs.inside.Lays.{CanLay, LaysAll};
ghost use Rattle.overview_tiles.specs.inside.Means.{HasMeans, HaveMeans};
ghost use Rattle.overview_tiles.specs.inside.Numbers.{kinds_of, sums_of, zero_numbers};

use super::layer::{Frame, Layer};
use raster_values::{Bands, PixelType, Raster};
use std::alloc::{AllocError, Global};
use std::marker::Model;

/// The mosaic of four neighbouring tiles, the quarters, of one number of bands, one type and one
/// shape: quarter 0 is the upper left one, 1 the upper right, 2 the lower left and 3 the lower
/// right. Of the pixels of each two rows and two columns it keeps how many are valid and the sums
/// of their values, at most nine bytes for a value of the half, and five where values have at most
/// 16 bits.
#[derive(Drop)]
pub struct Mosaic {
    kind: PixelType,
    rows: u32,
    cols: u32,
    depth: u32,
    laid: [bool; 4],
    bands: Vec<Layer>,
}

impl Model for Mosaic {
    ghost use Rattle.overview_tiles.specs.Sums.{Kept};

    ghost Value = { Kept };

    ghost use Rattle.overview_tiles.specs.inside.View.{IsMosaic, seen};

    ghost view = { seen };

    ghost invariant = { IsMosaic };
}

/// The numbers of so many bands of a type, into which nothing was laid.
fn new_layers(
    alloc: Global,
    kind: PixelType,
    count: usize,
    places: usize,
    depth: usize,
) -> Result<Vec<Layer>, AllocError>
    requires { places * depth ≤ 16777216 }
    ensures { IfOk result
        (λ layers. layers.items ≡ replicate count (zero_numbers kind places depth)) }
{
    let mut layers = Vec::with_capacity(alloc, count)?;
    for _ in 0..count {
        layers.push(Layer::new(alloc, kind, places, depth)?)?;
    }
    Ok(layers)
}

/// Where a quarter of a shape lies.
fn frame_of(rows: u32, cols: u32, depth: u32, quarter: u8) -> Frame
    requires { quarter < 4 }
    ensures cols { result.cols ≡ cols }
    ensures depth { result.depth ≡ depth }
    ensures top { result.top ≡ quarter / 2 * rows }
    ensures left { result.left ≡ quarter % 2 * cols }
{
    let (top, left) = match quarter {
        0 => (0, 0),
        1 => (0, cols),
        2 => (rows, 0),
        _ => (rows, cols),
    };
    Frame {
        cols: cols as usize,
        depth: depth as usize,
        top: top as usize,
        left: left as usize,
    }
}

/// Lays the bands of a tile.
fn lay_bands(layers: &mut [Layer], tile: &Bands, frame: Frame)
    requires count { length tile.now ≡ length layers.old }
    requires kinds { (b : ℕ) (r : Pixels) → slice_get tile.now b ≡ Some r
        → slice_get (kinds_of layers.old) b ≡ Some r.kind }
    requires each { (b : ℕ) (r : Pixels) → slice_get tile.now b ≡ Some r
        → CanLay frame r (get_or (sums_of layers.old) b no_sums) }
    ensures kinds { kinds_of layers.new ≡ kinds_of layers.old }
    ensures each { (b : ℕ) (r : Pixels) → slice_get tile.now b ≡ Some r
        → LaysAll frame r (get_or (sums_of layers.old) b no_sums)
        (get_or (sums_of layers.new) b no_sums) }
{
    for b in 0..layers.len() {
        let layer = &mut layers[b];
        layer.lay(tile.at(b), frame);
    }
}

/// The means of each band's numbers.
fn half_bands(
    alloc: Global,
    kind: PixelType,
    rows: u32,
    cols: u32,
    depth: u32,
    layers: &[Layer],
) -> Result<Bands, AllocError>
    requires shape { IsShape rows cols depth }
    requires some { 0 < length layers.now }
    requires few { length layers.now ≤ 16 }
    requires size { length layers.now * (rows * cols * depth) ≤ 16777216 }
    requires kinds { kinds_of layers.now ≡ replicate (length layers.now) kind }
    requires means { (b : ℕ) → b < length layers.now → HaveMeans kind (rows * cols) depth
        (get_or (sums_of layers.now) b no_sums).counts
        (get_or (sums_of layers.now) b no_sums).sums }
    ensures { IfOk result (λ half. AreBands half × ((length half ≡ length layers.now)
        × ((b : ℕ) (r : Pixels) → slice_get half b ≡ Some r
        → HasMeans kind rows cols depth (get_or (sums_of layers.now) b no_sums) r))) }
{
    let first = layers[0].half(alloc, rows, cols, depth)?;
    let mut half = Bands::of(alloc, first)?;
    for b in 1..layers.len() {
        let band = layers[b].half(alloc, rows, cols, depth)?;
        half.push(band)?;
    }
    Ok(half)
}

impl Mosaic {
    /// A mosaic of tiles of this tile's number of bands, type and shape, into which none was laid.
    pub fn new(alloc: Global, like: &Bands) -> Result<Mosaic, AllocError>
        ensures takes { IfOk result (λ m. IsTileOf m like.now) }
        ensures sums { IfOk result (λ m. AreSums m no_tiles) }
    {
        let count = like.len();
        let first = like.at(0);
        let rows = first.rows();
        let cols = first.cols();
        let depth = first.depth();
        let places = rows as usize * cols as usize;
        let kind = first.kind();
        let bands = new_layers(alloc, kind, count, places, depth as usize)?;
        Ok(Mosaic {
            kind,
            rows,
            cols,
            depth,
            laid: [false; 4],
            bands,
        })
    }

    /// Whether a tile was laid into the quarter.
    pub fn has(&self, quarter: u8) -> bool
        requires { quarter < 4 }
        ensures { result ≡ get_or self.now.laid quarter true }
    {
        self.laid[quarter as usize]
    }

    /// Whether the raster has the mosaic's type and its shape.
    fn has_shape(&self, band: &Raster) -> bool
        ensures { IsTrue result ↔ HasShape self.now band.now }
    {
        band.kind() == self.kind
            && band.rows() == self.rows
            && band.cols() == self.cols
            && band.depth() == self.depth
    }

    /// Whether the tile has the mosaic's number of bands, its type and its shape.
    pub fn takes(&self, tile: &Bands) -> bool
        ensures { IsTrue result ↔ IsTileOf self.now tile.now }
    {
        tile.len() == self.bands.len() && self.has_shape(tile.at(0))
    }

    /// Lays a tile into a quarter that has none. It takes no memory.
    pub fn lay(&mut self, quarter: u8, tile: &Bands)
        requires quarter { quarter < 4 }
        requires free { get_or self.old.laid quarter true ≡ false }
        requires takes { IsTileOf self.old tile.now }
        ensures sums { (tiles : Tiles) → AreSums self.old tiles
            → AreSums self.new (with_tile quarter tile.now tiles) }
        ensures laid { self.new.laid ≡ slice_set self.old.laid quarter true }
        ensures like { IsLikeMosaic self.old self.new }
    {
        // What holds of each tile is known once it was asked for its length.
        let _count = tile.len();
        let frame = frame_of(self.rows, self.cols, self.depth, quarter);
        self.laid[quarter as usize] = true;
        lay_bands(self.bands.as_mut_slice(), tile, frame);
    }

    /// Half of the tiles that were laid.
    pub fn half(self, alloc: Global) -> Result<Bands, AllocError>
        ensures takes { IfOk result (λ half. IsTileOf self half) }
        ensures half { IfOk result
            (λ half. (tiles : Tiles) → AreSums self tiles → AreHalf tiles half) }
    {
        half_bands(
            alloc,
            self.kind,
            self.rows,
            self.cols,
            self.depth,
            self.bands.as_slice(),
        )
    }
}
