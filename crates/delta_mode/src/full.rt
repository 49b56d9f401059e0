//! The symbols of pixels one behind the other of a raster of bytes of which every pixel is valid:
//! of its bytes as they lie.

ghost use Rattle.std.specs.Prelude.{◌≡◌, ℕ, ◌+◌, ◌-◌, ◌*◌, ◌%◌, ◌^◌, ◌<◌, ◌≤◌, ◌++◌, length};
ghost use Rattle.std.specs.Prelude.{get_or};
ghost use Rattle.raster_values.specs.Raster.{valid_count};
ghost use Rattle.delta_mode.specs.Symbols.{bias};
ghost use Rattle.delta_mode.specs.EncodeStates.{deltas_before};
ghost use Rattle.delta_mode.specs.inside.Bytewise.{wrapped};
ghost use Rattle.delta_mode.specs.inside.Strided.{HaveCells, cell, cell_above, cell_before};

use super::byte_plane::BytePlane;
use raster_access::View;
use raster_values::{PixelType, cells_are_values};

/// What is added to a byte of the type.
pub(super) fn bias_of(kind: PixelType) -> u8
    ensures { result ≡ bias kind }
{
    match kind {
        PixelType::I8 | PixelType::I16 | PixelType::I32 => 128,
        PixelType::U8 | PixelType::U16 | PixelType::U32 => 0,
    }
}

/// The byte of a pixel at a depth.
#[inline(always)]
fn cell_of(cells: &[u8], depth: usize, d: usize, k: usize) -> u8
    requires { k * depth + d < length cells.now }
    ensures { result ≡ cell depth d cells.now k }
{
    cells[k * depth + d]
}

/// The symbol of each pixel from number `place` on, but the first ones, by the byte of the pixel
/// before it. Each symbol is made of two bytes that are read for it, so that many are made at once
/// of bytes that lie one behind the other.
#[inline(always)]
fn read_differences(
    bias: u8,
    depth: usize,
    d: usize,
    cells: &[u8],
    place: usize,
    from: usize,
    out: &mut [u8],
)
    requires some { 0 < place + from }
    requires cells { HaveCells depth d cells.now place (length out.old) }
    ensures symbols { (i : ℕ) → from ≤ i → i < length out.old → get_or out.new i 0
        ≡ wrapped bias (cell depth d cells.now (place + i))
        (cell depth d cells.now (place + i - 1)) }
{
    for i in from..out.len() {
        let before = cell_of(cells, depth, d, place + i - 1);
        out[i] = cell_of(cells, depth, d, place + i)
            .wrapping_sub(before)
            .wrapping_add(bias);
    }
}

/// Does what `read_differences` does, but that each byte is read once and carried on to the next
/// pixel, which takes less where they lie apart.
#[inline(always)]
fn carried_differences(
    bias: u8,
    depth: usize,
    d: usize,
    cells: &[u8],
    place: usize,
    from: usize,
    out: &mut [u8],
)
    requires some { 0 < place + from }
    requires cells { HaveCells depth d cells.now place (length out.old) }
    ensures symbols { (i : ℕ) → from ≤ i → i < length out.old → get_or out.new i 0
        ≡ wrapped bias (cell depth d cells.now (place + i))
        (cell depth d cells.now (place + i - 1)) }
{
    if from >= out.len() {
        return;
    }
    let mut before = cell_of(cells, depth, d, place + from - 1);
    for i in from..out.len() {
        let byte = cell_of(cells, depth, d, place + i);
        out[i] = byte.wrapping_sub(before).wrapping_add(bias);
        before = byte;
    }
}

/// The symbol of each pixel from number `place` on, but the first ones, by the byte of the pixel
/// before it.
fn differences(
    bias: u8,
    depth: usize,
    d: usize,
    cells: &[u8],
    place: usize,
    from: usize,
    out: &mut [u8],
)
    requires some { 0 < place + from }
    requires cells { HaveCells depth d cells.now place (length out.old) }
    ensures symbols { (i : ℕ) → from ≤ i → i < length out.old → get_or out.new i 0
        ≡ wrapped bias (cell depth d cells.now (place + i))
        (cell depth d cells.now (place + i - 1)) }
{
    if depth == 1 {
        read_differences(bias, 1, d, cells, place, from, out);
    } else {
        carried_differences(bias, depth, d, cells, place, from, out);
    }
}

/// The symbol of a pixel in the first column, by the byte of the pixel above it.
#[inline(always)]
fn first_of_row(bias: u8, cols: usize, depth: usize, d: usize, cells: &[u8], k: usize) -> u8
    requires depth { d < depth }
    requires size { (k + 1) * depth ≤ length cells.now }
    requires few { k < 2 ^ 24 }
    ensures { result ≡ wrapped bias (cell depth d cells.now k)
        (cell_above cols (cell depth d cells.now) k) }
{
    let above = if k < cols {
        0
    } else {
        cell_of(cells, depth, d, k - cols)
    };
    cell_of(cells, depth, d, k)
        .wrapping_sub(above)
        .wrapping_add(bias)
}

/// The symbol of the first pixel of each row, among the pixels from number `place` on.
#[inline(always)]
fn first_column(
    bias: u8,
    cols: usize,
    depth: usize,
    d: usize,
    cells: &[u8],
    place: usize,
    out: &mut [u8],
)
    requires cols { 0 < cols }
    requires narrow { cols ≤ 2 ^ 24 }
    requires cells { HaveCells depth d cells.now place (length out.old) }
    ensures symbols { (i : ℕ) → i < length out.old → (place + i) % cols ≡ 0 → get_or out.new i 0
        ≡ wrapped bias (cell depth d cells.now (place + i))
        (cell_above cols (cell depth d cells.now) (place + i)) }
    ensures others { (i : ℕ) → 0 < (place + i) % cols → get_or out.new i 0 ≡ get_or out.old i 0 }
{
    let mut at = (cols - place % cols) % cols;
    while at < out.len() {
        out[at] = first_of_row(bias, cols, depth, d, cells, place + at);
        at += cols;
    }
}

/// How many of the pixels from number `place` on have none before them.
#[inline(always)]
fn first_behind(place: usize) -> usize
    ensures some { 0 < place + result }
    ensures least { (i : ℕ) → 0 < place + i → result ≤ i }
{
    if place == 0 { 1 } else { 0 }
}

/// The symbol of each pixel's byte at a depth, from number `place` on: by that of the pixel before
/// it, in the first column by that of the pixel above it, and of the first by none.
fn byte_piece(
    bias: u8,
    cols: usize,
    depth: usize,
    d: usize,
    cells: &[u8],
    place: usize,
    out: &mut [u8],
)
    requires cols { 0 < cols }
    requires narrow { cols ≤ 2 ^ 24 }
    requires cells { HaveCells depth d cells.now place (length out.old) }
    ensures symbols { (i : ℕ) → i < length out.old → get_or out.new i 0
        ≡ wrapped bias (cell depth d cells.now (place + i))
        (cell_before cols (cell depth d cells.now) (place + i)) }
{
    differences(bias, depth, d, cells, place, first_behind(place), out);
    first_column(bias, cols, depth, d, cells, place, out);
}

/// Writes the symbols of as many pixels as `out` has room for, from number `place` on.
pub(super) fn write_full<V: View>(plane: &BytePlane<V>, place: usize, out: &mut [u8])
    requires full { valid_count (V.pixels plane.now.raster.now)
        ≡ (V.pixels plane.now.raster.now).rows * (V.pixels plane.now.raster.now).cols }
    requires within { place + length out.old
        ≤ (V.pixels plane.now.raster.now).rows * (V.pixels plane.now.raster.now).cols }
    ensures symbols { deltas_before (V.pixels plane.now.raster.now) plane.now.d (place
        + length out.old)
        ≡ deltas_before (V.pixels plane.now.raster.now) plane.now.d place ++ out.new }
{
    cells_are_values();
    let cells = plane.raster.cells();
    let depth = plane.raster.depth() as usize;
    let cols = plane.raster.cols() as usize;
    byte_piece(
        bias_of(plane.raster.kind()),
        cols,
        depth,
        plane.d as usize,
        cells,
        place,
        out,
    );
}
