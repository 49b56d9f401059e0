//! Pieces of a row of which every pixel is valid, and their values from symbols: each but the first
//! has the one before it as its predictor, so that no mark is looked at.

ghost use Rattle.std.specs.Prelude.{◌≡◌, ℕ, pos, ◌+◌, ◌*◌, ◌%◌, ◌<◌, ◌≤◌, ◌++◌, ◌+ℤ◌, ◌-ℤ◌, ◌≤ℤ◌};
ghost use Rattle.std.specs.Prelude.{All, true, List, length, get_or};
ghost use Rattle.raster_cells.specs.PixelType.{InRange};
ghost use Rattle.raster_cells.specs.Values.{values_above};
ghost use Rattle.raster_values.specs.Flat.{value_in};
ghost use Rattle.delta_mode.specs.Frames.{KeepsMask};
ghost use Rattle.delta_mode.specs.Symbols.{IsByteType, bias, symbol_of};
ghost use Rattle.delta_mode.specs.Deltas.{has_left, is_valid, last_value, predictor};
ghost use Rattle.delta_mode.specs.inside.Pieces.{rank, IsAt, AreCoded, value_of_place};
ghost use Rattle.delta_mode.specs.inside.Runs.{AreSteps, value_before};

use super::full::bias_of;
use super::walk::{Walk, predict, read_above};
use lane_kernels::running_sums;
use raster_access::Target;
use raster_values::PixelType;

/// How far a value is above the type's least, by what is added to it.
fn byte_above_least(added: u8, value: i64) -> u8
    requires low { pos 0 ≤ℤ (value +ℤ pos added) }
    requires high { (value +ℤ pos added) ≤ℤ pos 255 }
    ensures { pos result ≡ value +ℤ pos added }
{
    (value + i64::from(added)) as u8
}

/// The value that is so far above the type's least.
#[inline(always)]
pub(super) fn value_above_least(added: u8, byte: u8) -> i64
    ensures value { result ≡ pos byte -ℤ pos added }
    ensures byte { byte < 256 }
{
    i64::from(byte) - i64::from(added)
}

/// How far the value is above the type's least that has this symbol behind the one before.
#[inline(always)]
fn next_byte(added: u8, before: u8, symbol: u8) -> u8
    ensures { result ≡ (before + (symbol + added) % 256) % 256 }
{
    before.wrapping_add(symbol.wrapping_add(added))
}

/// Symbols are bytes.
#[inline(always)]
fn are_bytes(symbols: &[u8])
    ensures { (i : ℕ) → get_or symbols.now i 0 < 256 }
{}

/// Puts in place of each symbol how far its value is above the type's least, from how far that of
/// the one before it is, or from this of the first.
fn sum_bytes(added: u8, first: u8, symbols: &mut [u8])
    ensures { AreSteps added first symbols.old symbols.new }
{
    if added == 0 {
        running_sums(first, symbols);
        return;
    }
    let mut byte = first;
    for i in 0..symbols.len() {
        byte = next_byte(added, byte, symbols[i]);
        symbols[i] = byte;
    }
}

/// Puts in place of each symbol how far its value is above the type's least, each value from the
/// one before it, the first from its predictor.
fn find_bytes(kind: PixelType, predictor: i64, symbols: &mut [u8])
    requires kind { IsByteType kind }
    requires predictor { InRange kind predictor }
    ensures in_range { All (InRange kind) (values_above (bias kind) symbols.new) }
    ensures symbols { (i : ℕ) → i < length symbols.old → symbol_of kind
        (value_of_place (values_above (bias kind) symbols.new) i
        -ℤ value_before predictor (value_of_place (values_above (bias kind) symbols.new)) i)
        ≡ get_or symbols.old i 0 }
{
    // for the proof: symbols are bytes
    are_bytes(symbols);
    let added = bias_of(kind);
    let first = byte_above_least(added, predictor);
    sum_bytes(added, first, symbols);
}

/// The predictor of pixel number `place`, by what is kept in front of it.
fn predictor_at<T: Target>(raster: &T, d: u32, place: usize, walk: Walk) -> i64
    requires kind { IsByteType (T.pixels raster.now).kind }
    requires depth { d < (T.pixels raster.now).depth }
    requires across { place % (T.pixels raster.now).cols + 1 ≤ (T.pixels raster.now).cols }
    requires last_in_range { InRange (T.pixels raster.now).kind walk.last }
    requires within { place < (T.pixels raster.now).rows * (T.pixels raster.now).cols }
    requires last { walk.last
        ≡ last_value (is_valid (T.pixels raster.now)) (value_in (T.pixels raster.now) d) place }
    requires left { walk.left
        ≡ has_left (T.pixels raster.now).cols (is_valid (T.pixels raster.now)) place }
    ensures { result ≡ predictor (T.pixels raster.now).cols (is_valid (T.pixels raster.now))
        (value_in (T.pixels raster.now) d) place }
{
    if walk.left {
        return walk.last;
    }
    let mut up = [false; 1];
    let mut above = [0; 1];
    read_above(raster, d, place, &mut up, &mut above);
    predict(false, up[0], above[0], walk.last)
}

/// Gives the pixels of a piece of a row, from number `place` on, which are all valid, the values
/// that the symbols of the piece say. In place of each symbol stands then how far its value is
/// above the type's least.
pub(super) fn give_run<T: Target>(
    symbols: &mut [u8],
    raster: &mut T,
    d: u32,
    place: usize,
    walk: Walk,
) -> Walk
    requires kind { IsByteType (T.pixels raster.old).kind }
    requires depth { d < (T.pixels raster.old).depth }
    requires some { 0 < length symbols.old }
    requires across { place % (T.pixels raster.old).cols + length symbols.old
        ≤ (T.pixels raster.old).cols }
    requires within { place + length symbols.old
        ≤ (T.pixels raster.old).rows * (T.pixels raster.old).cols }
    requires valid { (i : ℕ) → i < length symbols.old → is_valid (T.pixels raster.old) (place + i)
        ≡ true }
    requires last { walk.last
        ≡ last_value (is_valid (T.pixels raster.old)) (value_in (T.pixels raster.old) d) place }
    requires left { walk.left
        ≡ has_left (T.pixels raster.old).cols (is_valid (T.pixels raster.old)) place }
    requires count { walk.count ≡ rank (is_valid (T.pixels raster.old)) place }
    ensures at { IsAt (is_valid (T.pixels raster.old)) (value_in (T.pixels raster.new) d) (place
        + length symbols.old)
        result.left result.last result.count }
    ensures coded { (before : List ℕ) → length before ≡ walk.count
        → AreCoded (T.pixels raster.old).kind (T.pixels raster.old).cols
        (is_valid (T.pixels raster.old))
        (value_in (T.pixels raster.new) d) place (place + length symbols.old) (before
        ++ symbols.old) }
    ensures rest { (k e : ℕ) → k < (T.pixels raster.old).rows * (T.pixels raster.old).cols
        → e < (T.pixels raster.old).depth
        → (place ≤ k → k < place + length symbols.old → e ≡ d → ⊥)
        → value_in (T.pixels raster.new) e k ≡ value_in (T.pixels raster.old) e k }
    ensures frame { KeepsMask (T.pixels raster.old) (T.pixels raster.new)
        (T.kept raster.old) (T.kept raster.new) }
{
    let kind = raster.kind();
    let predictor = predictor_at(raster, d, place, walk);
    find_bytes(kind, predictor, symbols);
    let below = bias_of(kind);
    raster.put_run(place, d, below, symbols);
    Walk {
        left: true,
        last: value_above_least(below, symbols[symbols.len() - 1]),
        count: walk.count + symbols.len(),
    }
}
