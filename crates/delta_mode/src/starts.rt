//! The symbols of a piece of a row: of the valid pixels in order, each less the one before it, and
//! then anew of those that have no valid one to the left.

ghost use Rattle.std.specs.Prelude.{◌≡◌, ◌≢◌, ℕ, ◌+◌, ◌-◌, ◌*◌, ◌^◌, ◌<◌, ◌≤◌, true, false, length};
ghost use Rattle.std.specs.Prelude.{get_or};
ghost use Rattle.raster_cells.specs.Distance.{distance_of};
ghost use Rattle.raster_values.specs.Flat.{marks_of, value_in};
ghost use Rattle.raster_cells.specs.Words.{word_bit, AreMarks};
ghost use Rattle.delta_mode.specs.Deltas.{delta, has_left, is_valid, last_value, predictor};
ghost use Rattle.delta_mode.specs.inside.Pieces.{rank, left_of};
ghost use Rattle.delta_mode.specs.inside.Starts.{between, mark_of, AreStarts, HasLast, HasSymbols};

use super::byte_plane::BytePlane;
use super::full::bias_of;
use raster_access::View;

/// The symbol of a value less another one, by how far each is above the type's least.
#[inline(always)]
fn symbol_between(bias: u32, here: u32, before: u32) -> u8
    requires bias { bias < 256 }
    requires here { here < 256 }
    requires before { before < 256 }
    ensures { result ≡ between bias here before }
{
    ((here + (256 + bias) - before) % 256) as u8
}

/// Writes the symbols of the values behind the first one, each less the one before it.
pub(super) fn differences(bias: u32, distances: &[u32], count: usize, out: &mut [u8])
    requires bias { bias < 256 }
    requires count { count < length distances.now }
    requires bytes { (j : ℕ) → j ≤ count → get_or distances.now j 0 < 256 }
    requires room { count ≤ length out.old }
    ensures symbols { (j : ℕ) → j < count → get_or out.new j 0
        ≡ between bias (get_or distances.now (j + 1) 0) (get_or distances.now j 0) }
{
    for j in 0..count {
        out[j] = symbol_between(bias, distances[j + 1], distances[j]);
    }
}

/// The bits of the valid pixels that have no valid one to the left. `left` says whether the pixel
/// before the first one is valid.
pub(super) fn starts(marks: u32, count: usize, left: bool) -> u32
    requires some { 0 < count }
    requires few { count ≤ 32 }
    requires marks { marks < 2 ^ count }
    ensures below { result < 2 ^ count }
    ensures on { (q : ℕ) → q < count → word_bit count result q ≡ true
        → (word_bit count marks q ≡ true) × (left_of left (word_bit count marks) q ≡ false) }
    ensures off { (q : ℕ) → q < count → word_bit count marks q ≡ true
        → word_bit count result q ≡ false → left_of left (word_bit count marks) q ≡ true }
{
    let starts = marks & !(marks >> 1);
    if left {
        starts & !(1 << (count - 1))
    } else {
        starts
    }
}

/// The predictor of a pixel that has no valid one to the left, by how far it is above the type's
/// least: the value above where that is valid, else the last one before.
fn predictor_above<V: View>(plane: &BytePlane<V>, place: usize, last: u32) -> u32
    requires within { place < (V.pixels plane.now.raster.now).rows *
        (V.pixels plane.now.raster.now).cols }
    requires left { has_left (V.pixels plane.now.raster.now).cols
        (is_valid (V.pixels plane.now.raster.now)) place
        ≡ false }
    requires last { last ≡ distance_of (V.pixels plane.now.raster.now).kind
        (last_value (is_valid (V.pixels plane.now.raster.now))
        (value_in (V.pixels plane.now.raster.now) plane.now.d) place) }
    ensures { result ≡ distance_of (V.pixels plane.now.raster.now).kind
        (predictor (V.pixels plane.now.raster.now).cols (is_valid (V.pixels plane.now.raster.now))
        (value_in (V.pixels plane.now.raster.now) plane.now.d) place) }
{
    let cols = plane.raster.cols() as usize;
    let mut above = [last; 1];
    if place >= cols {
        // where the pixel above is not valid, the last value stays
        plane
            .raster
            .gather_from(place - cols, 1, plane.d, &mut above);
    }
    above[0]
}

/// Writes the symbol of the pixel of a bit anew.
fn write_start<V: View>(
    plane: &BytePlane<V>,
    place: usize,
    count: usize,
    marks: u32,
    bit: u32,
    distances: &[u32],
    out: &mut [u8],
)
    requires within { place + count
        ≤ (V.pixels plane.now.raster.now).rows * (V.pixels plane.now.raster.now).cols }
    requires few { count ≤ 32 }
    requires marks { AreMarks (marks_of (V.pixels plane.now.raster.now)) place count marks }
    requires bit { bit < count }
    requires valid { mark_of (V.pixels plane.now.raster.now) place (count - 1 - bit) ≡ true }
    requires left { has_left (V.pixels plane.now.raster.now).cols
        (is_valid (V.pixels plane.now.raster.now))
        (place + (count - 1 - bit)) ≡ false }
    requires last { HasLast (V.pixels plane.now.raster.now) plane.now.d place count distances.now }
    requires long { rank (mark_of (V.pixels plane.now.raster.now) place) count
        < length distances.now }
    requires room { rank (mark_of (V.pixels plane.now.raster.now) place) count ≤ length out.old }
    ensures here { get_or out.new (rank (mark_of (V.pixels plane.now.raster.now) place)
        (count - 1 - bit)) 0
        ≡ delta (V.pixels plane.now.raster.now).kind (V.pixels plane.now.raster.now).cols
        (is_valid (V.pixels plane.now.raster.now)) (value_in (V.pixels plane.now.raster.now)
        plane.now.d)
        (place + (count - 1 - bit)) }
    ensures others { (j : ℕ)
        → j ≢ rank (mark_of (V.pixels plane.now.raster.now) place) (count - 1 - bit)
        → get_or out.new j 0 ≡ get_or out.old j 0 }
{
    let bias = u32::from(bias_of(plane.raster.kind()));
    let before = (marks >> bit).count_ones() as usize - 1;
    let at = place + (count - 1 - bit as usize);
    let predictor = predictor_above(plane, at, distances[before]);
    out[before] = symbol_between(bias, distances[before + 1], predictor);
}

/// Writes the symbols of the pixels of some bits anew.
pub(super) fn write_starts<V: View>(
    plane: &BytePlane<V>,
    place: usize,
    count: usize,
    marks: u32,
    starts: u32,
    distances: &[u32],
    out: &mut [u8],
)
    requires within { place + count
        ≤ (V.pixels plane.now.raster.now).rows * (V.pixels plane.now.raster.now).cols }
    requires few { count ≤ 32 }
    requires marks { AreMarks (marks_of (V.pixels plane.now.raster.now)) place count marks }
    requires starts { AreStarts (V.pixels plane.now.raster.now) place count starts }
    requires last { HasLast (V.pixels plane.now.raster.now) plane.now.d place count distances.now }
    requires long { rank (mark_of (V.pixels plane.now.raster.now) place) count
        < length distances.now }
    requires room { rank (mark_of (V.pixels plane.now.raster.now) place) count ≤ length out.old }
    requires symbols { HasSymbols (V.pixels plane.now.raster.now) plane.now.d place count starts
        out.old }
    ensures symbols { HasSymbols (V.pixels plane.now.raster.now) plane.now.d place count 0 out.new }
{
    let mut rest = starts;
    while rest > 0 {
        let bit = rest.trailing_zeros();
        write_start(plane, place, count, marks, bit, distances, out);
        rest &= !(1 << bit);
    }
}
