//! Tiles of numbers that each follow from the one before.

ghost use Rattle.std.specs.Prelude.{◌≡◌, ◌+◌, ◌*◌, ◌<◌, ◌≤◌, ℕ, None, IfOk, IfSome, OnOk, get_or, length, slice_set};
ghost use Rattle.raster_cells.specs.PixelType.{InRange};
ghost use Rattle.raster_cells.specs.declared.kind.PixelType.{PixelType};
ghost use Rattle.sample_tiles.specs.Drawn.{drawn, drawn_pixel, follower, sample_tile};
ghost use Rattle.sample_tiles.specs.inside.Drawing.{IsDrawn, IsOpenFrom, pixel_of, tile_of};

use raster_values::{PixelType, Raster, ShapeFault};
use std::alloc::{AllocError, Global};

/// How many rows a tile has, and how many columns.
const SIDE: u32 = 64;

/// The number that follows.
fn next(x: u32) -> u32
    ensures { result ≡ follower x }
{
    ((1664525 * u64::from(x) + 1013904223) % 4294967296) as u32
}

/// The value of the pixel for which this number is drawn, if it is valid.
fn value(row: u32, col: u32, x: u32) -> Option<i64>
    requires { (row < 64) × (col < 64) }
    ensures value { pixel_of result ≡ drawn_pixel row col x }
    ensures fits { IfSome result (InRange PixelType.I16) }
{
    if x >> 28 == 0 {
        return None;
    }
    Some(i64::from(4 * row + 2 * col + (x >> 16) % 16))
}

/// Gives a pixel that is invalid this value, if there is one.
fn give(tile: &mut Raster, k: u32, value: Option<i64>)
    requires shape { tile.old ≡ tile_of tile.old.pixels }
    requires places { length tile.old.pixels ≡ 4096 }
    requires within { k < 4096 }
    requires invalid { get_or tile.old.pixels k None ≡ None }
    requires fits { IfSome value (InRange PixelType.I16) }
    ensures { tile.new ≡ tile_of (slice_set tile.old.pixels k (pixel_of value)) }
{
    if let Some(v) = value {
        tile.mark(k / SIDE, k % SIDE, true);
        tile.set(k / SIDE, k % SIDE, 0, v);
    }
}

/// Draws the next number, and pixel number k by it.
fn draw_pixel(tile: &mut Raster, k: u32, x: &mut u32)
    requires within { k < 4096 }
    requires open { IsOpenFrom k tile.old }
    ensures open { IsOpenFrom (k + 1) tile.new }
    ensures tile { (start t : ℕ) → IsDrawn start t k tile.old
        → x.old ≡ drawn start (4096 * t + k) → IsDrawn start t (k + 1) tile.new }
    ensures number { (start t : ℕ) → x.old ≡ drawn start (4096 * t + k)
        → x.new ≡ drawn start (4096 * t + k + 1) }
{
    *x = next(*x);
    give(tile, k, value(k / SIDE, k % SIDE, *x));
}

/// A tile of which no pixel is valid.
fn empty_tile(alloc: Global) -> Result<Raster, AllocError>
    ensures { IfOk result (IsOpenFrom 0) }
{
    match Raster::new(alloc, PixelType::I16, SIDE, SIDE, 1) {
        Ok(tile) => Ok(tile),
        Err(ShapeFault::OutOfMemory) => Err(AllocError),
        Err(_) => unreachable!(),
    }
}

/// Draws the tile behind the last number that was drawn.
pub fn draw(alloc: Global, x: &mut u32) -> Result<Raster, AllocError>
    ensures tile { (start t : ℕ) → x.old ≡ drawn start (4096 * t)
        → IfOk result (λ tile. tile ≡ sample_tile start t) }
    ensures number { (start t : ℕ) → x.old ≡ drawn start (4096 * t)
        → OnOk result (x.new ≡ drawn start (4096 * (t + 1))) }
{
    let mut tile = empty_tile(alloc)?;
    for k in 0..SIDE * SIDE {
        draw_pixel(&mut tile, k, x);
    }
    Ok(tile)
}
