//! The plain symbols, piece by piece.

ghost use Rattle.std.specs.Prelude.{◌≡◌, ℕ, ◌+◌, ◌-◌, ◌*◌, ◌^◌, ◌<◌, ◌≤◌, ◌++◌, length, get_or};
ghost use Rattle.std.specs.Prelude.{take};
ghost use Rattle.raster_values.specs.Raster.{Pixels, valid_count};
ghost use Rattle.delta_mode.specs.Symbols.{IsByteType};
ghost use Rattle.delta_mode.specs.Deltas.{is_valid, plain};
ghost use Rattle.delta_mode.specs.PlainStates.{IsOnPlain, plain_before};
ghost use Rattle.delta_mode.specs.inside.Pieces.{rank};

use raster_access::View;

/// How many pixels are looked at together, at most.
const PIECE: usize = 1024;

/// How far the plain symbols have been given.
#[derive(Clone, Copy)]
pub struct PlainState {
    /// The number of the next pixel; as many as the raster has, where none is left.
    pub place: usize,
    /// How many symbols have been given.
    pub given: usize,
}

/// In front of all symbols.
pub fn first_plain() -> PlainState
    ensures state { (r : Pixels) → IsOnPlain r result }
    ensures none { result.given ≡ 0 }
{
    PlainState { place: 0, given: 0 }
}

/// Puts the symbols of a depth to their places: the first one to number `d`, and each other one as
/// many places behind that before it as a pixel has values.
#[inline(always)]
fn spread(symbols: &[u32], depth: usize, d: usize, out: &mut [u8])
    requires bytes { (i : ℕ) → get_or symbols.now i 0 < 256 }
    requires depth { d < depth }
    requires room { length symbols.now * depth ≤ length out.old }
    ensures symbols { (i : ℕ) → i < length symbols.now → get_or out.new (i * depth + d) 0
        ≡ get_or symbols.now i 0 }
    ensures others { (q e : ℕ) → e < depth → (e ≡ d → ⊥)
        → get_or out.new (q * depth + e) 0 ≡ get_or out.old (q * depth + e) 0 }
{
    for i in 0..symbols.len() {
        out[i * depth + d] = symbols[i] as u8;
    }
}

/// Does what `spread` does, where the compiler may know the depth.
fn scatter(symbols: &[u32], depth: usize, d: usize, out: &mut [u8])
    requires bytes { (i : ℕ) → get_or symbols.now i 0 < 256 }
    requires depth { d < depth }
    requires room { length symbols.now * depth ≤ length out.old }
    ensures symbols { (i : ℕ) → i < length symbols.now → get_or out.new (i * depth + d) 0
        ≡ get_or symbols.now i 0 }
    ensures others { (q e : ℕ) → e < depth → (e ≡ d → ⊥)
        → get_or out.new (q * depth + e) 0 ≡ get_or out.old (q * depth + e) 0 }
{
    // symbols that lie one behind the other are made many at once
    if depth == 1 {
        spread(symbols, 1, d, out);
    } else {
        spread(symbols, depth, d, out);
    }
}

/// Writes the symbols of the valid ones among `count` pixels from number `place` on in front of
/// `out`, and answers how many pixels are valid. The symbol of a value is how far it is above the
/// type's least.
fn write_plain<V: View>(
    raster: &V,
    place: usize,
    count: usize,
    gathered: &mut [u32],
    out: &mut [u8],
) -> usize
    requires kind { IsByteType (V.pixels raster.now).kind }
    requires within { place + count ≤ (V.pixels raster.now).rows * (V.pixels raster.now).cols }
    requires gathered { count ≤ length gathered.old }
    requires room { count * (V.pixels raster.now).depth ≤ length out.old }
    ensures count { rank (is_valid (V.pixels raster.now)) (place + count)
        ≡ rank (is_valid (V.pixels raster.now)) place + result }
    ensures few { result ≤ count }
    ensures symbols { plain_before (V.pixels raster.now) (place + count)
        ≡ plain_before (V.pixels raster.now) place
        ++ take (result * (V.pixels raster.now).depth) out.new }
{
    let depth = raster.depth();
    let mut valid = 0;
    for d in 0..depth {
        valid = raster.gather_from(place, count, d, gathered);
        scatter(&gathered[..valid], depth as usize, d as usize, out);
    }
    valid
}

/// Does what `next_plain` does, with this buffer.
fn write_next<V: View>(
    raster: &V,
    state: PlainState,
    gathered: &mut [u32],
    out: &mut [u8],
) -> PlainState
    requires kind { IsByteType (V.pixels raster.now).kind }
    requires state { IsOnPlain (V.pixels raster.now) state }
    requires more { state.place < (V.pixels raster.now).rows * (V.pixels raster.now).cols }
    requires gathered { length gathered.old ≡ 1024 }
    requires room { (V.pixels raster.now).depth ≤ length out.old }
    ensures state { IsOnPlain (V.pixels raster.now) result }
    ensures some { state.given ≤ result.given }
    ensures few { result.given ≤ state.given + length out.old }
    ensures symbols { take result.given (plain (V.pixels raster.now))
        ≡ take state.given (plain (V.pixels raster.now))
        ++ take (result.given - state.given) out.new }
    ensures later { state.place < result.place }
{
    let pixels = raster.rows() as usize * raster.cols() as usize;
    let depth = raster.depth() as usize;
    let count = PIECE.min(out.len() / depth).min(pixels - state.place);
    let valid = write_plain(raster, state.place, count, gathered, out);
    PlainState {
        place: state.place + count,
        given: state.given + valid * depth,
    }
}

/// Puts the next plain symbols of a raster of bytes in front of `out`, which has room for a
/// pixel's: pixel by pixel and depth innermost, as many as the state has behind this than before.
/// Where pixels are not valid these may be none.
pub fn next_plain<V: View>(raster: &V, state: PlainState, out: &mut [u8]) -> PlainState
    requires kind { IsByteType (V.pixels raster.now).kind }
    requires state { IsOnPlain (V.pixels raster.now) state }
    requires more { state.place < (V.pixels raster.now).rows * (V.pixels raster.now).cols }
    requires room { (V.pixels raster.now).depth ≤ length out.old }
    ensures state { IsOnPlain (V.pixels raster.now) result }
    ensures some { state.given ≤ result.given }
    ensures few { result.given ≤ state.given + length out.old }
    ensures symbols { take result.given (plain (V.pixels raster.now))
        ≡ take state.given (plain (V.pixels raster.now))
        ++ take (result.given - state.given) out.new }
    ensures later { state.place < result.place }
{
    let mut gathered = [0; PIECE];
    write_next(raster, state, &mut gathered, out)
}
