//! The symbols of the differences of all depths, piece by piece.

ghost use Rattle.std.specs.Prelude.{◌≡◌, ◌+◌, ◌-◌, ◌*◌, ◌^◌, ◌<◌, ◌≤◌, ◌++◌, length, take};
ghost use Rattle.raster_values.specs.Raster.{Pixels, IsRaster, valid_count};
ghost use Rattle.delta_mode.specs.Symbols.{IsByteType};
ghost use Rattle.delta_mode.specs.EncodeStates.{IsBeforeEnd, IsOn, LeadsOn, deltas_of_all, left_over};
ghost use Rattle.delta_mode.specs.inside.Steps.{IsDeeper, IsFurther};

use super::byte_plane::BytePlane;
use super::depth::is_full;
use super::full::write_full;
use super::marked_piece::{PIECE, write_marked};
use super::walk::{Walk, start};
use raster_access::View;

/// How far the symbols of the differences have been given, one depth behind the other.
#[derive(Clone, Copy)]
pub struct EncodeState {
    /// The depth of the next symbol; as many as the raster has, where none is left.
    pub d: u32,
    // The number of the next pixel, and what is kept in front of it.
    pub(super) place: usize,
    pub(super) walk: Walk,
    /// How many symbols have been given.
    pub given: usize,
}

/// In front of all symbols.
pub fn first_state() -> EncodeState
    ensures state { (r : Pixels) → IsRaster r → IsOn r result }
    ensures none { result.given ≡ 0 }
{
    EncodeState {
        d: 0,
        place: 0,
        walk: start(),
        given: 0,
    }
}

/// So many pixels on, of as many as a depth has, and as many symbols.
fn advance(state: EncodeState, pixels: usize, count: usize, given: usize, walk: Walk) -> EncodeState
    requires within { state.place + count ≤ pixels }
    requires depth { state.d < 65536 }
    requires few { state.given + given ≤ 2 ^ 24 }
    ensures given { result.given ≡ state.given + given }
    ensures further { state.place + count < pixels → IsFurther state result count walk }
    ensures deeper { state.place + count ≡ pixels → IsDeeper state result }
{
    let given = state.given + given;
    if state.place + count < pixels {
        return EncodeState {
            d: state.d,
            place: state.place + count,
            walk,
            given,
        };
    }
    EncodeState {
        d: state.d + 1,
        place: 0,
        walk: start(),
        given,
    }
}

/// Gives symbols of a raster of which every pixel is valid.
fn next_full<V: View>(raster: &V, state: EncodeState, out: &mut [u8]) -> EncodeState
    requires before { IsBeforeEnd (V.pixels raster.now) state }
    requires full { valid_count (V.pixels raster.now)
        ≡ (V.pixels raster.now).rows * (V.pixels raster.now).cols }
    requires room { 0 < length out.old }
    ensures { LeadsOn (V.pixels raster.now) state result out.old out.new }
{
    let pixels = raster.rows() as usize * raster.cols() as usize;
    let count = out.len().min(pixels - state.place);
    let plane = BytePlane { raster, d: state.d };
    write_full(&plane, state.place, &mut out[..count]);
    advance(state, pixels, count, count, state.walk)
}

/// Gives symbols of a raster of which some pixel is not valid.
fn next_marked<V: View>(raster: &V, state: EncodeState, out: &mut [u8]) -> EncodeState
    requires before { IsBeforeEnd (V.pixels raster.now) state }
    requires some { valid_count (V.pixels raster.now)
        ≡ (V.pixels raster.now).rows * (V.pixels raster.now).cols → ⊥ }
    requires room { 0 < length out.old }
    ensures { LeadsOn (V.pixels raster.now) state result out.old out.new }
{
    let pixels = raster.rows() as usize * raster.cols() as usize;
    let least = PIECE.min(out.len());
    let plane = BytePlane { raster, d: state.d };
    let (walk, count) = write_marked(&plane, state.place, state.walk, least, out);
    advance(state, pixels, count, walk.count - state.walk.count, walk)
}

/// Puts the next symbols of the differences of a raster of bytes in front of `out`: row by row, one
/// depth behind the other, as many as the state has behind this than before. Where pixels are not
/// valid these may be none.
pub fn next_deltas<V: View>(raster: &V, state: EncodeState, out: &mut [u8]) -> EncodeState
    requires kind { IsByteType (V.pixels raster.now).kind }
    requires state { IsOn (V.pixels raster.now) state }
    requires more { state.d < (V.pixels raster.now).depth }
    requires room { 0 < length out.old }
    ensures state { IsOn (V.pixels raster.now) result }
    ensures some { state.given ≤ result.given }
    ensures few { result.given ≤ state.given + length out.old }
    ensures symbols { take result.given (deltas_of_all (V.pixels raster.now))
        ≡ take state.given (deltas_of_all (V.pixels raster.now))
        ++ take (result.given - state.given) out.new }
    ensures later { left_over (V.pixels raster.now) result < left_over (V.pixels raster.now) state }
{
    if is_full(raster) {
        next_full(raster, state, out)
    } else {
        next_marked(raster, state, out)
    }
}
