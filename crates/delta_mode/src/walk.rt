//! The way along the pixels of a depth, in pieces of a row.

ghost use Rattle.std.specs.Prelude.{◌≡◌, ℕ, pos, ◌+◌, ◌-◌, ◌*◌, ◌%◌, ◌<◌, ◌≤◌, length, true, false};
ghost use Rattle.std.specs.Prelude.{◌&&◌, nat_eq, nat_lt};
ghost use Rattle.raster_cells.specs.PixelType.{InRange};
ghost use Rattle.raster_values.specs.Flat.{value_in};
ghost use Rattle.delta_mode.specs.Deltas.{has_upper, is_valid};
ghost use Rattle.delta_mode.specs.inside.Pieces.{mark_at, predicted_by, value_of_place};

use raster_access::Target;

/// What is kept from pixel to pixel of a depth.
#[derive(Clone, Copy)]
pub(super) struct Walk {
    /// Whether the pixel before is valid.
    pub(super) left: bool,
    /// The value of the last valid pixel, 0 at first.
    pub(super) last: i64,
    /// How many pixels were valid.
    pub(super) count: usize,
}

/// How far a depth is walked.
#[derive(Clone, Copy)]
pub(super) struct DepthWalk {
    /// The depth.
    pub(super) d: u32,
    /// The number of the next pixel.
    pub(super) place: usize,
    /// What is kept in front of it.
    pub(super) walk: Walk,
}

/// The predictor of a pixel: the value to the left where that is valid, which is then the last one,
/// else the one above where that is valid, else the last one.
pub(super) fn predict(left: bool, up: bool, above: i64, last: i64) -> i64
    ensures { result ≡ predicted_by left up above last }
{
    if !left && up { above } else { last }
}

/// What is kept in front of the first pixel.
pub(super) fn start() -> Walk
    ensures left { result.left ≡ false }
    ensures last { result.last ≡ pos 0 }
    ensures count { result.count ≡ 0 }
{
    Walk {
        left: false,
        last: 0,
        count: 0,
    }
}

/// What is kept in front of a piece of a row: in the first column there is no pixel to the left.
pub(super) fn enter(walk: Walk, place: usize, cols: usize) -> Walk
    requires { 0 < cols }
    ensures left { result.left ≡ (nat_lt 0 (place % cols) && walk.left) }
    ensures last { result.last ≡ walk.last }
    ensures count { result.count ≡ walk.count }
{
    let left = place % cols > 0 && walk.left;
    Walk { left, ..walk }
}

/// What is kept in front of pixel number `start`, where from number `place` on no pixel before it
/// is valid.
pub(super) fn pass_to(walk: Walk, place: usize, start: usize) -> Walk
    ensures left { result.left ≡ (nat_eq start place && walk.left) }
    ensures last { result.last ≡ walk.last }
    ensures count { result.count ≡ walk.count }
{
    let left = start == place && walk.left;
    Walk { left, ..walk }
}

/// Reads the marks and the values above a piece of a row; above the first row nothing is valid.
pub(super) fn read_above<T: Target>(
    raster: &T,
    d: u32,
    place: usize,
    up: &mut [bool],
    above: &mut [i64],
)
    requires depth { d < (T.pixels raster.now).depth }
    requires across { place % (T.pixels raster.now).cols + length up.old
        ≤ (T.pixels raster.now).cols }
    requires within { place + length up.old
        ≤ (T.pixels raster.now).rows * (T.pixels raster.now).cols }
    requires room { length above.old ≡ length up.old }
    ensures up { (i : ℕ) → i < length up.old → mark_at up.new i
        ≡ has_upper (T.pixels raster.now).cols (is_valid (T.pixels raster.now)) (place + i) }
    ensures above { (i : ℕ) → i < length up.old → mark_at up.new i ≡ true
        → value_of_place above.new i
        ≡ value_in (T.pixels raster.now) d (place + i - (T.pixels raster.now).cols) }
    ensures in_range { (i : ℕ) → InRange (T.pixels raster.now).kind (value_of_place above.new i) }
{
    let cols = raster.cols() as usize;
    if place < cols {
        up.fill(false);
        above.fill(0);
    } else {
        raster.marks_from(place - cols, up);
        raster.values_from(place - cols, d, above);
    }
}
