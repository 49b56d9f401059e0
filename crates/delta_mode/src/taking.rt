//! Delta mode: the values of a depth from its symbols, one run of valid pixels behind the other.

ghost use Rattle.std.specs.Prelude.{◌≡◌, ℕ, ◌+◌, ◌-◌, ◌*◌, ◌%◌, ◌<◌, ◌≤◌, ◌++◌, true, List, length};
ghost use Rattle.std.specs.Prelude.{IfErr, IfOk, OnOk};
ghost use Rattle.raster_values.specs.Raster.{valid_count, IsRaster};
ghost use Rattle.raster_values.specs.Flat.{marks_of, value_in};
ghost use Rattle.raster_cells.specs.MarkRuns.{AreRuns};
ghost use Rattle.delta_mode.specs.Frames.{KeepsMask, LeavesSource};
ghost use Rattle.delta_mode.specs.Symbols.{IsByteType};
ghost use Rattle.delta_mode.specs.Deltas.{TakesDeltas, is_valid};
ghost use Rattle.delta_mode.specs.inside.Pieces.{rank, IsAt, AreCoded};

use super::run::give_run;
use super::source::{ListSymbols, SymbolSource};
use super::walk::{DepthWalk, Walk, enter, pass_to, start};
use raster_access::Target;
use raster_values::Run;

/// How many pixels of a row are taken together, at most.
const PIECE: usize = 1024;

/// Gives the pixels of a piece of a row, from where the depth is walked to, which are all valid,
/// the values that the next symbols say, which `symbols` has room for.
fn take_run<S: SymbolSource, T: Target>(
    source: &mut S,
    raster: &mut T,
    here: DepthWalk,
    symbols: &mut [u8],
) -> Result<Walk, S::Stop>
    requires kind { IsByteType (T.pixels raster.old).kind }
    requires depth { here.d < (T.pixels raster.old).depth }
    requires some { 0 < length symbols.old }
    requires across { here.place % (T.pixels raster.old).cols + length symbols.old
        ≤ (T.pixels raster.old).cols }
    requires within { here.place + length symbols.old
        ≤ (T.pixels raster.old).rows * (T.pixels raster.old).cols }
    requires valid { (i : ℕ) → i < length symbols.old
        → is_valid (T.pixels raster.old) (here.place + i) ≡ true }
    requires at { IsAt (is_valid (T.pixels raster.old)) (value_in (T.pixels raster.old) here.d)
        here.place here.walk.left here.walk.last here.walk.count }
    requires ready { S.sound source.old }
    requires left { rank (is_valid (T.pixels raster.old)) (here.place + length symbols.old)
        ≤ here.walk.count + S.left source.old }
    ensures at { IfOk result (λ walk. IsAt (is_valid (T.pixels raster.old))
        (value_in (T.pixels raster.new) here.d)
        (here.place + length symbols.old) walk.left walk.last walk.count) }
    ensures left { IfOk result (λ w. w.count + S.left source.new
        ≡ here.walk.count + S.left source.old) }
    ensures coded { (before front : List ℕ) → S.has_given source.old (before ++ front)
        → length front ≡ here.walk.count
        → OnOk result ((piece : List ℕ) × (S.has_given source.new (before ++ (front ++ piece))
        × ((length (front ++ piece)
        ≡ rank (is_valid (T.pixels raster.old)) (here.place + length symbols.old))
        × AreCoded (T.pixels raster.old).kind (T.pixels raster.old).cols
        (is_valid (T.pixels raster.old))
        (value_in (T.pixels raster.new) here.d) here.place (here.place + length symbols.old)
        (front ++ piece)))) }
    ensures rest { (k e : ℕ) → k < (T.pixels raster.old).rows * (T.pixels raster.old).cols
        → e < (T.pixels raster.old).depth
        → (here.place ≤ k → k < here.place + length symbols.old → e ≡ here.d → ⊥)
        → value_in (T.pixels raster.new) e k ≡ value_in (T.pixels raster.old) e k }
    ensures source { LeavesSource (S.sound source.new) (S.kept source.old) (S.kept source.new)
        S.stops result }
    ensures frame { KeepsMask (T.pixels raster.old) (T.pixels raster.new)
        (T.kept raster.old) (T.kept raster.new) }
{
    let before = enter(here.walk, here.place, raster.cols() as usize);
    source.next(symbols)?;
    Ok(give_run(symbols, raster, here.d, here.place, before))
}

/// Gives the pixels of the next run in a row, from where the depth is walked to, the values that
/// the next symbols say, which `symbols` has room for. What is kept behind the run.
fn take_next<S: SymbolSource, T: Target>(
    source: &mut S,
    raster: &mut T,
    here: DepthWalk,
    run: Run,
    symbols: &mut [u8],
) -> Result<Walk, S::Stop>
    requires kind { IsByteType (T.pixels raster.old).kind }
    requires depth { here.d < (T.pixels raster.old).depth }
    requires runs { AreRuns (marks_of (T.pixels raster.old)) here.place run.start run.end }
    requires across { here.place % (T.pixels raster.old).cols + (run.end - here.place)
        ≤ (T.pixels raster.old).cols }
    requires within { run.end ≤ (T.pixels raster.old).rows * (T.pixels raster.old).cols }
    requires symbols { run.end ≤ run.start + length symbols.old }
    requires at { IsAt (is_valid (T.pixels raster.old)) (value_in (T.pixels raster.old) here.d)
        here.place here.walk.left here.walk.last here.walk.count }
    requires ready { S.sound source.old }
    requires left { rank (is_valid (T.pixels raster.old)) run.end
        ≤ here.walk.count + S.left source.old }
    requires sound { IsRaster (T.pixels raster.old) }
    ensures at { IfOk result (λ walk. IsAt (is_valid (T.pixels raster.old))
        (value_in (T.pixels raster.new) here.d)
        run.end walk.left walk.last walk.count) }
    ensures left { IfOk result (λ w. w.count + S.left source.new
        ≡ here.walk.count + S.left source.old) }
    ensures coded { (before front : List ℕ) → S.has_given source.old (before ++ front)
        → length front ≡ here.walk.count
        → OnOk result ((piece : List ℕ) × (S.has_given source.new (before ++ (front ++ piece))
        × ((length (front ++ piece) ≡ rank (is_valid (T.pixels raster.old)) run.end)
        × AreCoded (T.pixels raster.old).kind (T.pixels raster.old).cols
        (is_valid (T.pixels raster.old))
        (value_in (T.pixels raster.new) here.d) here.place run.end (front ++ piece)))) }
    ensures rest { (k e : ℕ) → k < (T.pixels raster.old).rows * (T.pixels raster.old).cols
        → e < (T.pixels raster.old).depth
        → (here.place ≤ k → k < run.end → e ≡ here.d → ⊥)
        → value_in (T.pixels raster.new) e k ≡ value_in (T.pixels raster.old) e k }
    ensures source { LeavesSource (S.sound source.new) (S.kept source.old) (S.kept source.new)
        S.stops result }
    ensures frame { KeepsMask (T.pixels raster.old) (T.pixels raster.new)
        (T.kept raster.old) (T.kept raster.new) }
{
    let before = pass_to(here.walk, here.place, run.start);
    if run.start == run.end {
        return Ok(before);
    }
    let count = run.end - run.start;
    let symbols = &mut symbols[..count];
    let first = DepthWalk {
        d: here.d,
        place: run.start,
        walk: before,
    };
    take_run(source, raster, first, symbols)
}

/// Gives the valid pixels of a raster of bytes the values at a depth that the symbols of a source
/// say, which are taken in runs of a row. All else stays. Where the source stops, the values at
/// this depth are any.
pub fn undelta_from<S: SymbolSource, T: Target>(
    source: &mut S,
    raster: &mut T,
    d: u32,
) -> Result<(), S::Stop>
    requires kind { IsByteType (T.pixels raster.old).kind }
    requires depth { d < (T.pixels raster.old).depth }
    requires count { valid_count (T.pixels raster.old) ≤ S.left source.old }
    requires ready { S.sound source.old }
    ensures taken { (before : List ℕ) → S.has_given source.old before
        → OnOk result ((symbols : List ℕ)
        × (S.has_given source.new (before ++ symbols)
        × ((length symbols ≡ valid_count (T.pixels raster.old))
        × TakesDeltas (T.pixels raster.old) (T.pixels raster.new) d symbols))) }
    ensures left { OnOk result (S.left source.new + valid_count (T.pixels raster.old)
        ≡ S.left source.old) }
    ensures stop { IfErr result (λ f. S.stops (S.kept source.old) f) }
    ensures ready { S.sound source.new }
    ensures sources { S.kept source.new ≡ S.kept source.old }
    ensures frame { KeepsMask (T.pixels raster.old) (T.pixels raster.new)
        (T.kept raster.old) (T.kept raster.new) }
{
    let cols = raster.cols() as usize;
    let pixels = raster.rows() as usize * cols;
    let mut symbols = [0; PIECE];
    let mut walk = start();
    let mut place = 0;
    while place < pixels {
        let most = PIECE.min(cols - place % cols);
        let run = raster.next_run(place, place + most);
        let here = DepthWalk { d, place, walk };
        walk = take_next(source, raster, here, run, &mut symbols)?;
        place = run.end;
    }
    Ok(())
}

/// Gives the valid pixels of a raster of bytes the values at a depth that the symbols say. All else
/// stays.
pub fn undelta<T: Target>(symbols: &[u8], raster: &mut T, d: u32)
    requires kind { IsByteType (T.pixels raster.old).kind }
    requires depth { d < (T.pixels raster.old).depth }
    requires count { length symbols.now ≡ valid_count (T.pixels raster.old) }
    ensures taken { TakesDeltas (T.pixels raster.old) (T.pixels raster.new) d symbols.now }
    ensures frame { KeepsMask (T.pixels raster.old) (T.pixels raster.new)
        (T.kept raster.old) (T.kept raster.new) }
{
    let mut source = ListSymbols::of(symbols);
    match undelta_from(&mut source, raster, d) {
        Ok(()) => {}
        Err(_) => {}
    }
}
