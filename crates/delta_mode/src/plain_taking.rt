//! Plain mode: the values of all depths from their symbols.

ghost use Rattle.std.specs.Prelude.{◌≡◌, ℕ, ◌+◌, ◌*◌, ◌<◌, ◌≤◌, ◌++◌, true, List, length, get_or};
ghost use Rattle.std.specs.Prelude.{IfErr, OnOk};
ghost use Rattle.raster_cells.specs.PixelType.{InRange};
ghost use Rattle.raster_values.specs.Raster.{valid_count};
ghost use Rattle.raster_values.specs.Flat.{value_in};
ghost use Rattle.delta_mode.specs.Frames.{KeepsMask, LeavesSource};
ghost use Rattle.delta_mode.specs.Symbols.{IsByteType, symbol_of};
ghost use Rattle.delta_mode.specs.Deltas.{TakesPlain, is_valid};
ghost use Rattle.delta_mode.specs.inside.Pieces.{rank, mark_at, value_of_place};
ghost use Rattle.delta_mode.specs.inside.Plain.{ArePlaced};

use super::full::bias_of;
use super::run::value_above_least;
use super::source::{ListSymbols, SymbolSource};
use raster_access::Target;
use raster_values::PixelType;

/// How many pixels are looked at together, at most.
const PIECE: usize = 256;

/// How many symbols are read together, at most: a pixel has no more.
const ROOM: usize = 65536;

/// How many of the marks are set.
fn count_set(marks: &[bool]) -> usize
    ensures { result ≡ rank (mark_at marks.now) (length marks.now) }
{
    let mut count = 0;
    for i in 0..marks.len() {
        count += usize::from(marks[i]);
    }
    count
}

/// Finds the values at a depth of the valid pixels of a piece, of which each has `depth` symbols.
/// The others get 0.
fn spread(kind: PixelType, depth: usize, d: usize, marks: &[bool], symbols: &[u8], out: &mut [i64])
    requires kind { IsByteType kind }
    requires depth { d < depth }
    requires low { depth ≤ 65536 }
    requires room { length out.old ≡ length marks.now }
    requires symbols { rank (mark_at marks.now) (length marks.now) * depth ≤ length symbols.now }
    requires few { length symbols.now ≤ 65536 }
    ensures in_range { (i : ℕ) → InRange kind (value_of_place out.new i) }
    ensures symbols { (i : ℕ) → i < length marks.now → mark_at marks.now i ≡ true
        → symbol_of kind (value_of_place out.new i)
        ≡ get_or symbols.now (rank (mark_at marks.now) i * depth + d) 0 }
{
    let added = bias_of(kind);
    let mut at = d;
    for i in 0..marks.len() {
        if marks[i] {
            out[i] = value_above_least(added, symbols[at]);
            at += depth;
        } else {
            out[i] = 0;
        }
    }
}

/// Gives the pixels from number `place` on, which are all valid and have one value each, the values
/// that the symbols say.
fn give_bytes<T: Target>(symbols: &[u8], raster: &mut T, place: usize)
    requires kind { IsByteType (T.pixels raster.old).kind }
    requires depth { (T.pixels raster.old).depth ≡ 1 }
    requires within { place + length symbols.now
        ≤ (T.pixels raster.old).rows * (T.pixels raster.old).cols }
    requires valid { (i : ℕ) → i < length symbols.now
        → is_valid (T.pixels raster.old) (place + i) ≡ true }
    ensures symbols { (i : ℕ) → i < length symbols.now
        → symbol_of (T.pixels raster.old).kind (value_in (T.pixels raster.new) 0 (place + i))
        ≡ get_or symbols.now i 0 }
    ensures rest { (k e : ℕ) → k < (T.pixels raster.old).rows * (T.pixels raster.old).cols
        → e < (T.pixels raster.old).depth
        → (place ≤ k → k < place + length symbols.now → ⊥)
        → value_in (T.pixels raster.new) e k ≡ value_in (T.pixels raster.old) e k }
    ensures frame { KeepsMask (T.pixels raster.old) (T.pixels raster.new)
        (T.kept raster.old) (T.kept raster.new) }
{
    let kind = raster.kind();
    let below = bias_of(kind);
    raster.put_run(place, 0, below, symbols);
}

/// Gives the valid pixels from number `place` on the values that the symbols of the piece say.
fn give_plain<T: Target>(
    symbols: &[u8],
    raster: &mut T,
    place: usize,
    marks: &[bool],
    values: &mut [i64],
)
    requires kind { IsByteType (T.pixels raster.old).kind }
    requires within { place + length marks.now
        ≤ (T.pixels raster.old).rows * (T.pixels raster.old).cols }
    requires marks { (i : ℕ) → i < length marks.now
        → mark_at marks.now i ≡ is_valid (T.pixels raster.old) (place + i) }
    requires values { length values.old ≡ length marks.now }
    requires count { length symbols.now
        ≡ rank (mark_at marks.now) (length marks.now) * (T.pixels raster.old).depth }
    requires few { length symbols.now ≤ 65536 }
    ensures placed { (i e : ℕ) → i < length marks.now → e < (T.pixels raster.old).depth
        → mark_at marks.now i ≡ true
        → symbol_of (T.pixels raster.old).kind (value_in (T.pixels raster.new) e (place + i))
        ≡ get_or symbols.now (rank (mark_at marks.now) i * (T.pixels raster.old).depth + e) 0 }
    ensures rest { (k e : ℕ) → k < (T.pixels raster.old).rows * (T.pixels raster.old).cols
        → e < (T.pixels raster.old).depth
        → (place ≤ k → k < place + length marks.now → ⊥)
        → value_in (T.pixels raster.new) e k ≡ value_in (T.pixels raster.old) e k }
    ensures frame { KeepsMask (T.pixels raster.old) (T.pixels raster.new)
        (T.kept raster.old) (T.kept raster.new) }
{
    let kind = raster.kind();
    let depth = raster.depth();
    if depth == 1 && symbols.len() == marks.len() {
        give_bytes(symbols, raster, place);
        return;
    }
    for d in 0..depth {
        spread(kind, depth as usize, d as usize, marks, symbols, values);
        raster.put_from(place, d, values);
    }
}

/// Gives the valid pixels from number `place` on the values that the next symbols say, which
/// `symbols` has room for.
fn take_plain<S: SymbolSource, T: Target>(
    source: &mut S,
    raster: &mut T,
    place: usize,
    marks: &mut [bool],
    values: &mut [i64],
    symbols: &mut [u8],
) -> Result<(), S::Stop>
    requires kind { IsByteType (T.pixels raster.old).kind }
    requires within { place + length marks.old
        ≤ (T.pixels raster.old).rows * (T.pixels raster.old).cols }
    requires values { length values.old ≡ length marks.old }
    requires room { length marks.old * (T.pixels raster.old).depth ≤ length symbols.old }
    requires few { length symbols.old ≤ 65536 }
    requires ready { S.sound source.old }
    requires left { rank (is_valid (T.pixels raster.old)) (place + length marks.old) *
        (T.pixels raster.old).depth
        ≤ rank (is_valid (T.pixels raster.old)) place * (T.pixels raster.old).depth
        + S.left source.old }
    ensures left { OnOk result (rank (is_valid (T.pixels raster.old)) (place + length marks.old) *
        (T.pixels raster.old).depth + S.left source.new
        ≡ rank (is_valid (T.pixels raster.old)) place * (T.pixels raster.old).depth
        + S.left source.old) }
    ensures placed { (before front : List ℕ) → S.has_given source.old (before ++ front)
        → length front ≡ rank (is_valid (T.pixels raster.old)) place * (T.pixels raster.old).depth
        → OnOk result ((piece : List ℕ) × (S.has_given source.new (before ++ (front ++ piece))
        × ((length (front ++ piece)
        ≡ rank (is_valid (T.pixels raster.old)) (place + length marks.old) *
        (T.pixels raster.old).depth)
        × ArePlaced (T.pixels raster.old).kind (T.pixels raster.old).depth
        (is_valid (T.pixels raster.old))
        (value_in (T.pixels raster.new)) place (place + length marks.old) (front ++ piece)))) }
    ensures rest { (k e : ℕ) → k < (T.pixels raster.old).rows * (T.pixels raster.old).cols
        → e < (T.pixels raster.old).depth
        → (place ≤ k → k < place + length marks.old → ⊥)
        → value_in (T.pixels raster.new) e k ≡ value_in (T.pixels raster.old) e k }
    ensures source { LeavesSource (S.sound source.new) (S.kept source.old) (S.kept source.new)
        S.stops result }
    ensures frame { KeepsMask (T.pixels raster.old) (T.pixels raster.new)
        (T.kept raster.old) (T.kept raster.new) }
{
    raster.marks_from(place, marks);
    let piece = &mut symbols[..count_set(marks) * raster.depth() as usize];
    source.next(piece)?;
    give_plain(piece, raster, place, marks, values);
    Ok(())
}

/// Gives the valid pixels of a raster of bytes the values that the symbols of a source say, in
/// plain mode: pixel by pixel and depth innermost, taken in pieces. All else stays. Where the
/// source stops, the values are any.
pub fn unplain_from<S: SymbolSource, T: Target>(
    source: &mut S,
    raster: &mut T,
) -> Result<(), S::Stop>
    requires kind { IsByteType (T.pixels raster.old).kind }
    requires count { valid_count (T.pixels raster.old) * (T.pixels raster.old).depth
        ≤ S.left source.old }
    requires ready { S.sound source.old }
    ensures taken { (before : List ℕ) → S.has_given source.old before
        → OnOk result ((symbols : List ℕ)
        × (S.has_given source.new (before ++ symbols)
        × ((length symbols ≡ valid_count (T.pixels raster.old) * (T.pixels raster.old).depth)
        × TakesPlain (T.pixels raster.old) (T.pixels raster.new) symbols))) }
    ensures left { OnOk result (S.left source.new
        + valid_count (T.pixels raster.old) * (T.pixels raster.old).depth
        ≡ S.left source.old) }
    ensures stop { IfErr result (λ f. S.stops (S.kept source.old) f) }
    ensures ready { S.sound source.new }
    ensures sources { S.kept source.new ≡ S.kept source.old }
    ensures frame { KeepsMask (T.pixels raster.old) (T.pixels raster.new)
        (T.kept raster.old) (T.kept raster.new) }
{
    let pixels = raster.rows() as usize * raster.cols() as usize;
    let most = PIECE.min(ROOM / raster.depth() as usize);
    let mut marks = [false; PIECE];
    let mut values = [0; PIECE];
    let mut symbols = [0; ROOM];
    let mut place = 0;
    while place < pixels {
        let count = most.min(pixels - place);
        take_plain(
            source,
            raster,
            place,
            &mut marks[..count],
            &mut values[..count],
            &mut symbols,
        )?;
        place += count;
    }
    Ok(())
}

/// Gives the valid pixels of a raster of bytes the values that the symbols say, in plain mode. All
/// else stays.
pub fn unplain<T: Target>(symbols: &[u8], raster: &mut T)
    requires kind { IsByteType (T.pixels raster.old).kind }
    requires count { length symbols.now
        ≡ valid_count (T.pixels raster.old) * (T.pixels raster.old).depth }
    ensures taken { TakesPlain (T.pixels raster.old) (T.pixels raster.new) symbols.now }
    ensures frame { KeepsMask (T.pixels raster.old) (T.pixels raster.new)
        (T.kept raster.old) (T.kept raster.new) }
{
    let mut source = ListSymbols::of(symbols);
    match unplain_from(&mut source, raster) {
        Ok(()) => {}
        Err(_) => {}
    }
}
