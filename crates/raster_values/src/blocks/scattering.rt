//! Values put into the marked pixels of a window.

ghost use Rattle.std.specs.Prelude.{◌≡◌, ℕ, ◌+◌, ◌*◌, ◌<◌, ◌≤◌, true, false, length, get_or, All};
ghost use Rattle.raster_cells.specs.PixelType.{InRange};
ghost use Rattle.raster_cells.specs.Words.{AreMarks};
ghost use Rattle.raster_values.specs.inside.Runs.{ScattersRun};
ghost use Rattle.raster_cells.specs.Runs.{run_places};
ghost use Rattle.raster_cells.specs.CellList.{AreOf, KeepsForm};
ghost use Rattle.raster_values.specs.inside.Windows.{IsWithin, ScattersRows, window_places};

use crate::blocks::window::{Channel, Window};
use raster_cells::{
    CellStore, MarkSource, PixelType, PixelsFrom, ValueSource, by_kind, put_marked_as,
    put_pixels_as,
};

/// Gives the marked ones among `count` pixels from `from` on, whose marks are the bits of the word,
/// the values that are given from number `at` on, and answers where these end. Each pixel is
/// written, one that is not marked with what stands there, so that only places depend on marks, and
/// no jump does.
#[inline(always)]
fn scatter_mixed<M: MarkSource, V: CellStore, G: ValueSource>(
    channel: &Channel<M>,
    word: u32,
    from: usize,
    count: usize,
    given: &G,
    at: usize,
    values: &mut V,
) -> usize
    requires values { AreOf channel.now.kind channel.now.depth
        (length (M.marks channel.now.marks.now)) (V.cells values.old) }
    requires within { from + count ≤ length (M.marks channel.now.marks.now) }
    requires in_range { All (InRange channel.now.kind) (G.listed given.now) }
    requires room { at + length (run_places (M.marks channel.now.marks.now) from count)
        ≤ length (G.listed given.now) }
    requires short { count ≤ 32 }
    requires word { AreMarks (M.marks channel.now.marks.now) from count word }
    ensures scattered { ScattersRun channel.now.depth channel.now.d (M.marks channel.now.marks.now)
        (G.listed given.now)
        (V.cells values.old).values (V.cells values.new).values from count at result }
    ensures form { KeepsForm (V.cells values.old) (V.cells values.new) }
    ensures kept { V.kept values.new ≡ V.kept values.old }
{
    // for the proof: `len` ensures that there are no more values than a `usize` counts
    let _ = given.len();
    let mut n = at;
    for i in 0..count {
        let mark = (word >> (count - 1 - i)) % 2;
        let value = given.at_as(channel.kind, n);
        let place = (from + i) * channel.depth + channel.d;
        put_marked_as(values, channel.kind, place, mark, value);
        n += mark as usize;
    }
    n
}

/// Does what `scatter_mixed` does, for at most 32 pixels of any marks.
#[inline(always)]
fn scatter_word<M: MarkSource, V: CellStore, G: ValueSource>(
    channel: &Channel<M>,
    from: usize,
    count: usize,
    given: &G,
    at: usize,
    values: &mut V,
) -> usize
    requires some { 0 < count }
    requires short { count ≤ 32 }
    requires values { AreOf channel.now.kind channel.now.depth
        (length (M.marks channel.now.marks.now)) (V.cells values.old) }
    requires within { from + count ≤ length (M.marks channel.now.marks.now) }
    requires in_range { All (InRange channel.now.kind) (G.listed given.now) }
    requires room { at + length (run_places (M.marks channel.now.marks.now) from count)
        ≤ length (G.listed given.now) }
    ensures scattered { ScattersRun channel.now.depth channel.now.d (M.marks channel.now.marks.now)
        (G.listed given.now)
        (V.cells values.old).values (V.cells values.new).values from count at result }
    ensures form { KeepsForm (V.cells values.old) (V.cells values.new) }
    ensures kept { V.kept values.new ≡ V.kept values.old }
{
    // for the proof: `len` ensures that there are no more values than a `usize` counts
    let _ = given.len();
    let word = channel.marks.word(from, count);
    if word == 0 {
        return at;
    }
    if word == u32::MAX >> (32 - count) {
        let (kind, depth, d) = (channel.kind, channel.depth, channel.d);
        let pixels = PixelsFrom {
            first: from,
            depth,
            d,
        };
        put_pixels_as(values, kind, pixels, given, at, count);
        return at + count;
    }
    scatter_mixed(channel, word, from, count, given, at, values)
}

/// Gives the marked pixels among `count` from `from` on, which are all of these where `all` says
/// so, the values that are given from number `at` on, and answers where these end.
#[inline(always)]
fn scatter_run<M: MarkSource, V: CellStore, G: ValueSource>(
    channel: &Channel<M>,
    from: usize,
    count: usize,
    all: bool,
    given: &G,
    at: usize,
    values: &mut V,
) -> usize
    requires values { AreOf channel.now.kind channel.now.depth
        (length (M.marks channel.now.marks.now)) (V.cells values.old) }
    requires within { from + count ≤ length (M.marks channel.now.marks.now) }
    requires in_range { All (InRange channel.now.kind) (G.listed given.now) }
    requires room { at + length (run_places (M.marks channel.now.marks.now) from count)
        ≤ length (G.listed given.now) }
    requires all { all ≡ true → (k : ℕ) → from ≤ k → k < from + count
        → get_or (M.marks channel.now.marks.now) k false ≡ true }
    ensures scattered { ScattersRun channel.now.depth channel.now.d (M.marks channel.now.marks.now)
        (G.listed given.now)
        (V.cells values.old).values (V.cells values.new).values from count at result }
    ensures form { KeepsForm (V.cells values.old) (V.cells values.new) }
    ensures kept { V.kept values.new ≡ V.kept values.old }
{
    // for the proof: `len` ensures that there are no more values than a `usize` counts
    let _ = given.len();
    if all {
        let (kind, depth, d) = (channel.kind, channel.depth, channel.d);
        let pixels = PixelsFrom {
            first: from,
            depth,
            d,
        };
        put_pixels_as(values, kind, pixels, given, at, count);
        return at + count;
    }
    let end = from + count;
    let mut n = at;
    let mut k = from;
    while k < end {
        let more = (end - k).min(32);
        n = scatter_word(channel, k, more, given, n, values);
        k += more;
    }
    n
}

/// Gives a window's marked pixels the values that are given. The type is known before.
#[inline(always)]
fn scatter_rows_as<M: MarkSource, V: CellStore, G: ValueSource>(
    channel: &Channel<M>,
    window: Window,
    given: &G,
    values: &mut V,
)
    requires values { AreOf channel.now.kind channel.now.depth
        (length (M.marks channel.now.marks.now)) (V.cells values.old) }
    requires within { IsWithin window (length (M.marks channel.now.marks.now)) }
    requires in_range { All (InRange channel.now.kind) (G.listed given.now) }
    requires count { length (G.listed given.now)
        ≡ length (window_places window (M.marks channel.now.marks.now)) }
    ensures scattered { ScattersRows channel.now.depth channel.now.d
        (M.marks channel.now.marks.now) window (G.listed given.now)
        (V.cells values.old) (V.cells values.new) }
    ensures kept { V.kept values.new ≡ V.kept values.old }
{
    let all = given.len() == window.high * window.wide;
    let mut n = 0;
    for i in window.row..window.row + window.high {
        let from = i * window.cols + window.col;
        n = scatter_run(channel, from, window.wide, all, given, n, values);
    }
}

/// Does what `scatter_rows` does, row by row, where each row has eight pixels: the loop for each type
/// is made for that width.
#[inline(never)]
fn scatter_eights<M: MarkSource, V: CellStore, G: ValueSource>(
    channel: &Channel<M>,
    window: Window,
    given: &G,
    values: &mut V,
)
    requires values { AreOf channel.now.kind channel.now.depth
        (length (M.marks channel.now.marks.now)) (V.cells values.old) }
    requires within { IsWithin window (length (M.marks channel.now.marks.now)) }
    requires in_range { All (InRange channel.now.kind) (G.listed given.now) }
    requires count { length (G.listed given.now)
        ≡ length (window_places window (M.marks channel.now.marks.now)) }
    requires eight { window.wide ≡ 8 }
    ensures scattered { ScattersRows channel.now.depth channel.now.d
        (M.marks channel.now.marks.now) window (G.listed given.now)
        (V.cells values.old) (V.cells values.new) }
    ensures kept { V.kept values.new ≡ V.kept values.old }
{
    let (marks, depth, d) = (channel.marks, channel.depth, channel.d);
    by_kind!(channel.kind, kind => {
        scatter_rows_as(&Channel { marks, kind, depth, d }, window.of_width(8), given, values)
    })
}

/// Does what `scatter_rows` does, row by row, for rows of any width.
#[inline(never)]
fn scatter_wide<M: MarkSource, V: CellStore, G: ValueSource>(
    channel: &Channel<M>,
    window: Window,
    given: &G,
    values: &mut V,
)
    requires values { AreOf channel.now.kind channel.now.depth
        (length (M.marks channel.now.marks.now)) (V.cells values.old) }
    requires within { IsWithin window (length (M.marks channel.now.marks.now)) }
    requires in_range { All (InRange channel.now.kind) (G.listed given.now) }
    requires count { length (G.listed given.now)
        ≡ length (window_places window (M.marks channel.now.marks.now)) }
    ensures scattered { ScattersRows channel.now.depth channel.now.d
        (M.marks channel.now.marks.now) window (G.listed given.now)
        (V.cells values.old) (V.cells values.new) }
    ensures kept { V.kept values.new ≡ V.kept values.old }
{
    let (marks, depth, d) = (channel.marks, channel.depth, channel.d);
    by_kind!(channel.kind, kind => {
        scatter_rows_as(&Channel { marks, kind, depth, d }, window, given, values)
    })
}

/// Does what `scatter_rows` does, row by row. The width is looked at before the type is, so that each
/// of both loops is made for each type.
fn scatter_each_row<M: MarkSource, V: CellStore, G: ValueSource>(
    channel: &Channel<M>,
    window: Window,
    given: &G,
    values: &mut V,
)
    requires values { AreOf channel.now.kind channel.now.depth
        (length (M.marks channel.now.marks.now)) (V.cells values.old) }
    requires within { IsWithin window (length (M.marks channel.now.marks.now)) }
    requires in_range { All (InRange channel.now.kind) (G.listed given.now) }
    requires count { length (G.listed given.now)
        ≡ length (window_places window (M.marks channel.now.marks.now)) }
    ensures scattered { ScattersRows channel.now.depth channel.now.d
        (M.marks channel.now.marks.now) window (G.listed given.now)
        (V.cells values.old) (V.cells values.new) }
    ensures kept { V.kept values.new ≡ V.kept values.old }
{
    if window.wide == 8 {
        scatter_eights(channel, window, given, values)
    } else {
        scatter_wide(channel, window, given, values)
    }
}

/// Gives a window's marked pixels the values that are given. Whole rows lie one behind another:
/// they are one row.
pub(crate) fn scatter_rows<M: MarkSource, V: CellStore, G: ValueSource>(
    channel: &Channel<M>,
    window: Window,
    given: &G,
    values: &mut V,
)
    requires values { AreOf channel.now.kind channel.now.depth
        (length (M.marks channel.now.marks.now)) (V.cells values.old) }
    requires within { IsWithin window (length (M.marks channel.now.marks.now)) }
    requires in_range { All (InRange channel.now.kind) (G.listed given.now) }
    requires count { length (G.listed given.now)
        ≡ length (window_places window (M.marks channel.now.marks.now)) }
    ensures scattered { ScattersRows channel.now.depth channel.now.d
        (M.marks channel.now.marks.now) window (G.listed given.now)
        (V.cells values.old) (V.cells values.new) }
    ensures kept { V.kept values.new ≡ V.kept values.old }
{
    if window.wide == window.cols && window.high > 0 {
        scatter_each_row(channel, window.one_row(), given, values);
    } else {
        scatter_each_row(channel, window, given, values);
    }
}
