//! The symbols of pixels one behind the other of a raster of which some pixels are not valid, in
//! pieces of a row.

ghost use Rattle.std.specs.Prelude.{◌≡◌, ℕ, ◌+◌, ◌-◌, ◌*◌, ◌%◌, ◌<◌, ◌≤◌, ◌++◌, ◌&&◌, nat_lt};
ghost use Rattle.std.specs.Prelude.{length, get_or, take};
ghost use Rattle.raster_values.specs.Flat.{value_in};
ghost use Rattle.delta_mode.specs.Deltas.{is_valid, last_value};
ghost use Rattle.delta_mode.specs.EncodeStates.{deltas_before};
ghost use Rattle.delta_mode.specs.inside.Pieces.{rank, IsAt, IsFilled};
ghost use Rattle.delta_mode.specs.inside.Starts.{mark_of, HasLast};

use super::byte_plane::BytePlane;
use super::full::bias_of;
use super::starts::{differences, starts, write_starts};
use super::walk::Walk;
use raster_access::View;

/// How many pixels of a row are looked at together, at most: their marks are the bits of a number.
pub(super) const PIECE: usize = 32;

/// Puts the last value before a piece, and behind it those of the piece's valid pixels, in front of
/// `distances`, each by how far it is above the type's least. How many pixels are valid.
fn gather<V: View>(
    plane: &BytePlane<V>,
    place: usize,
    count: usize,
    last: i64,
    distances: &mut [u32],
) -> usize
    requires within { place + count
        ≤ (V.pixels plane.now.raster.now).rows * (V.pixels plane.now.raster.now).cols }
    requires last { last
        ≡ last_value (is_valid (V.pixels plane.now.raster.now))
        (value_in (V.pixels plane.now.raster.now) plane.now.d) place }
    requires room { count < length distances.old }
    ensures count { result ≡ rank (mark_of (V.pixels plane.now.raster.now) place) count }
    ensures few { result ≤ count }
    ensures last { HasLast (V.pixels plane.now.raster.now) plane.now.d place count distances.new }
    ensures bytes { (j : ℕ) → j ≤ result → get_or distances.new j 0 < 256 }
{
    distances[0] = (last - plane.raster.kind().least()) as u32;
    plane
        .raster
        .gather_from(place, count, plane.d, &mut distances[1..])
}

/// Whether the pixel to the left is valid, by whether the one before is: in the first column there
/// is none.
fn left_in(col: usize, before: bool) -> bool
    ensures { result ≡ (nat_lt 0 col && before) }
{
    col > 0 && before
}

/// Writes the symbols of the pixels of a piece of a row, from number `place` on, which is in column
/// `col`, in front of `out`.
fn write_piece<V: View>(
    plane: &BytePlane<V>,
    place: usize,
    col: usize,
    count: usize,
    walk: Walk,
    distances: &mut [u32],
    out: &mut [u8],
) -> Walk
    requires some { 0 < count }
    requires few { count ≤ 32 }
    requires col { col ≡ place % (V.pixels plane.now.raster.now).cols }
    requires across { col + count ≤ (V.pixels plane.now.raster.now).cols }
    requires within { place + count
        ≤ (V.pixels plane.now.raster.now).rows * (V.pixels plane.now.raster.now).cols }
    requires distances { count < length distances.old }
    requires at { IsAt (is_valid (V.pixels plane.now.raster.now))
        (value_in (V.pixels plane.now.raster.now) plane.now.d) place
        walk.left walk.last walk.count }
    requires room { count ≤ length out.old }
    ensures at { IsAt (is_valid (V.pixels plane.now.raster.now))
        (value_in (V.pixels plane.now.raster.now) plane.now.d)
        (place + count) result.left result.last result.count }
    ensures some { walk.count ≤ result.count }
    ensures few { result.count ≤ walk.count + count }
    ensures symbols { deltas_before (V.pixels plane.now.raster.now) plane.now.d (place + count)
        ≡ deltas_before (V.pixels plane.now.raster.now) plane.now.d place
        ++ take (result.count - walk.count) out.new }
{
    let kind = plane.raster.kind();
    let bias = u32::from(bias_of(kind));
    let valid = gather(plane, place, count, walk.last, distances);
    differences(bias, distances, valid, out);
    let marks = plane.raster.mark_word(place, count);
    let starts = starts(marks, count, left_in(col, walk.left));
    write_starts(plane, place, count, marks, starts, distances, out);
    Walk {
        left: marks % 2 == 1,
        last: kind.least() + i64::from(distances[valid]),
        count: walk.count + valid,
    }
}

/// Does what `write_marked` does, with this buffer.
fn write_pieces<V: View>(
    plane: &BytePlane<V>,
    place: usize,
    walk: Walk,
    least: usize,
    distances: &mut [u32],
    out: &mut [u8],
) -> (Walk, usize)
    requires within { place < (V.pixels plane.now.raster.now).rows *
        (V.pixels plane.now.raster.now).cols }
    requires at { IsAt (is_valid (V.pixels plane.now.raster.now))
        (value_in (V.pixels plane.now.raster.now) plane.now.d) place
        walk.left walk.last walk.count }
    requires distances { length distances.old ≡ 33 }
    requires some { 0 < least }
    requires room { least ≤ length out.old }
    ensures more { 0 < result.1 }
    ensures within { place + result.1
        ≤ (V.pixels plane.now.raster.now).rows * (V.pixels plane.now.raster.now).cols }
    ensures at { IsAt (is_valid (V.pixels plane.now.raster.now))
        (value_in (V.pixels plane.now.raster.now) plane.now.d)
        (place + result.1) result.0.left result.0.last result.0.count }
    ensures some { walk.count ≤ result.0.count }
    ensures few { result.0.count ≤ walk.count + length out.old }
    ensures symbols { deltas_before (V.pixels plane.now.raster.now) plane.now.d (place + result.1)
        ≡ deltas_before (V.pixels plane.now.raster.now) plane.now.d place
        ++ take (result.0.count - walk.count) out.new }
    ensures full { IsFilled ((V.pixels plane.now.raster.now).rows *
        (V.pixels plane.now.raster.now).cols)
        (place + result.1) least (result.0.count - walk.count) (length out.old) }
{
    let cols = plane.raster.cols() as usize;
    let pixels = plane.raster.rows() as usize * cols;
    let mut behind = walk;
    let mut at = place;
    let mut filled = 0;
    while at < pixels && filled + least <= out.len() {
        let col = at % cols;
        let count = PIECE.min(out.len() - filled).min(cols - col);
        behind = write_piece(plane, at, col, count, behind, distances, &mut out[filled..]);
        at += count;
        filled = behind.count - walk.count;
    }
    (behind, at - place)
}

/// Writes the symbols of pixels from number `place` on in front of `out`, as long as there is room
/// for `least` ones more. What is kept behind them, and how many pixels they are.
pub(super) fn write_marked<V: View>(
    plane: &BytePlane<V>,
    place: usize,
    walk: Walk,
    least: usize,
    out: &mut [u8],
) -> (Walk, usize)
    requires within { place < (V.pixels plane.now.raster.now).rows *
        (V.pixels plane.now.raster.now).cols }
    requires at { IsAt (is_valid (V.pixels plane.now.raster.now))
        (value_in (V.pixels plane.now.raster.now) plane.now.d) place
        walk.left walk.last walk.count }
    requires some { 0 < least }
    requires room { least ≤ length out.old }
    ensures more { 0 < result.1 }
    ensures within { place + result.1
        ≤ (V.pixels plane.now.raster.now).rows * (V.pixels plane.now.raster.now).cols }
    ensures at { IsAt (is_valid (V.pixels plane.now.raster.now))
        (value_in (V.pixels plane.now.raster.now) plane.now.d)
        (place + result.1) result.0.left result.0.last result.0.count }
    ensures some { walk.count ≤ result.0.count }
    ensures few { result.0.count ≤ walk.count + length out.old }
    ensures symbols { deltas_before (V.pixels plane.now.raster.now) plane.now.d (place + result.1)
        ≡ deltas_before (V.pixels plane.now.raster.now) plane.now.d place
        ++ take (result.0.count - walk.count) out.new }
    ensures full { IsFilled ((V.pixels plane.now.raster.now).rows *
        (V.pixels plane.now.raster.now).cols)
        (place + result.1) least (result.0.count - walk.count) (length out.old) }
{
    let mut distances = [0; PIECE + 1];
    write_pieces(plane, place, walk, least, &mut distances, out)
}
