//! Values of the marked pixels of a window, or of a run of pixels, read.

ghost use Rattle.std.specs.Prelude.{◌≡◌, ℕ, ◌+◌, ◌*◌, ◌<◌, ◌≤◌, Bool, List, length, take, drop, ◌++◌};
ghost use Rattle.raster_cells.specs.Words.{AreMarks};
ghost use Rattle.raster_cells.specs.Runs.{run_places};
ghost use Rattle.raster_values.specs.inside.Runs.{Gathers};
ghost use Rattle.raster_values.specs.inside.Planes.{plane_distances, whole_distances, window_distances};
ghost use Rattle.raster_values.specs.inside.Windows.{HasRoom};

use crate::blocks::window::{Plane, Window};
use raster_cells::{PixelType, PixelsFrom, by_kind};

/// How many marks a number of so many bits has.
#[inline(always)]
fn marks_of_word(word: u32, count: usize) -> usize
    requires some { 0 < count }
    requires few { count ≤ 32 }
    ensures { (marks : List Bool) → (from : ℕ) → AreMarks marks from count word
        → result ≡ length (run_places marks from count) }
{
    if word == 0 {
        return 0;
    }
    if word == u32::MAX >> (32 - count) {
        return count;
    }
    word.count_ones() as usize
}

/// Puts the distances of the marked pixels among `count` from `from` on behind the first `at` of
/// `out`, and answers where they end; the number that stands there may be another then. Each pixel
/// is put where the next marked one belongs, so that only places depend on marks, and no jump does.
#[inline(always)]
fn gather_mixed(plane: &Plane, from: usize, count: usize, out: &mut [u32], at: usize) -> usize
    requires some { 0 < count }
    requires word { count ≤ 32 }
    requires within { from + count ≤ length plane.now.marks.now }
    requires room { at + count ≤ length out.old }
    ensures end { result ≡ at + length (run_places plane.now.marks.now from count) }
    ensures front { take result out.new ≡ take at out.old ++ plane_distances plane.now from count }
    ensures rest { drop (result + 1) out.new ≡ drop (result + 1) out.old }
{
    let bits = plane.marks.word(from, count);
    let mut n = at;
    for i in 0..count {
        out[n] = plane
            .samples
            .distance_as(plane.kind, (from + i) * plane.depth + plane.d);
        n += ((bits >> (count - 1 - i)) % 2) as usize;
    }
    n
}

/// Puts the distances of the marked pixels among `count` from `from` on, at most 32, behind the
/// first `at` of `out`, and answers where they end. The type is known before.
#[inline(always)]
fn gather_word(plane: &Plane, from: usize, count: usize, out: &mut [u32], at: usize) -> usize
    requires some { 0 < count }
    requires word { count ≤ 32 }
    requires within { from + count ≤ length plane.now.marks.now }
    requires room { at + count ≤ length out.old }
    ensures { Gathers (plane_distances plane.now from count) out.old out.new at result }
{
    let end = at + marks_of_word(plane.marks.word(from, count), count);
    if end == at {
        return at;
    }
    if end == at + count {
        let (kind, depth, d) = (plane.kind, plane.depth, plane.d);
        let pixels = PixelsFrom {
            first: from,
            depth,
            d,
        };
        plane
            .samples
            .get_distances_as(kind, pixels, &mut out[at..end]);
        return end;
    }
    let kept = out[end];
    gather_mixed(plane, from, count, out, at);
    out[end] = kept;
    end
}

/// Does what `gather_word` does, for any number of pixels.
#[inline(always)]
fn gather_run(plane: &Plane, from: usize, count: usize, out: &mut [u32], at: usize) -> usize
    requires within { from + count ≤ length plane.now.marks.now }
    requires room { at + count ≤ length out.old }
    ensures { Gathers (plane_distances plane.now from count) out.old out.new at result }
{
    let mut n = at;
    let mut k = 0;
    while k < count {
        let more = (count - k).min(32);
        n = gather_word(plane, from + k, more, out, n);
        k += more;
    }
    n
}

/// Puts the distances of a window's marked pixels in front of `out`, and answers how many these
/// are. Whole rows lie one behind the other: they are one.
pub(crate) fn gather_rows(plane: &Plane, window: Window, out: &mut [u32]) -> usize
    requires fits { HasRoom window (length plane.now.marks.now) (length out.old) }
    ensures gathered { Gathers (window_distances plane.now window) out.old out.new 0 result }
    ensures within { result ≤ window.high * window.wide }
{
    // for the proof: `len` ensures that there are at most 2^24 pixels
    let _ = plane.marks.len();
    if window.wide == window.cols {
        return gather_lines(plane, window.one_row(), out);
    }
    gather_lines(plane, window, out)
}

/// Puts the distances of the marked ones among `count` pixels from `place` on in front of `out`,
/// and answers how many these are.
pub(crate) fn gather_pixels(plane: &Plane, place: usize, count: usize, out: &mut [u32]) -> usize
    requires within { place + count ≤ length plane.now.marks.now }
    requires room { count ≤ length out.old }
    ensures gathered { Gathers (plane_distances plane.now place count) out.old out.new 0 result }
    ensures within { result ≤ count }
{
    // for the proof: `len` ensures that there are at most 2^24 pixels
    let _ = plane.marks.len();
    let row = Window {
        cols: place + count,
        row: 0,
        col: place,
        high: 1,
        wide: count,
    };
    gather_lines(plane, row, out)
}

/// Does what `gather_rows` does, row by row.
fn gather_lines(plane: &Plane, window: Window, out: &mut [u32]) -> usize
    requires fits { HasRoom window (length plane.now.marks.now) (length out.old) }
    ensures gathered { Gathers (window_distances plane.now window) out.old out.new 0 result }
    ensures within { result ≤ window.high * window.wide }
{
    let (marks, samples, depth, d) = (plane.marks, plane.samples, plane.depth, plane.d);
    if marks.is_whole() {
        return gather_whole(plane, window, out);
    }
    by_kind!(samples.kind(), kind => {
        gather_rows_as(&Plane { marks, samples, kind, depth, d }, window, out)
    })
}

/// Does what `gather_lines` does, where every pixel is marked: no marks are looked at.
#[inline(never)]
fn gather_whole(plane: &Plane, window: Window, out: &mut [u32]) -> usize
    requires fits { HasRoom window (length plane.now.marks.now) (length out.old) }
    ensures gathered { Gathers (whole_distances plane.now window) out.old out.new 0 result }
    ensures all { result ≡ window.high * window.wide }
{
    let (marks, samples, depth, d) = (plane.marks, plane.samples, plane.depth, plane.d);
    by_kind!(samples.kind(), kind => {
        gather_whole_as(&Plane { marks, samples, kind, depth, d }, window, out)
    })
}

/// Does what `gather_whole` does, for a type that is known before, and for rows of eight pixels as
/// such.
#[inline(always)]
fn gather_whole_as(plane: &Plane, window: Window, out: &mut [u32]) -> usize
    requires fits { HasRoom window (length plane.now.marks.now) (length out.old) }
    ensures gathered { Gathers (whole_distances plane.now window) out.old out.new 0 result }
    ensures all { result ≡ window.high * window.wide }
{
    if window.wide == 8 {
        gather_whole_rows(plane, window.of_width(8), out)
    } else {
        gather_whole_rows(plane, window, out)
    }
}

/// Does what `gather_whole` does, for a type that is known before.
#[inline(always)]
fn gather_whole_rows(plane: &Plane, window: Window, out: &mut [u32]) -> usize
    requires fits { HasRoom window (length plane.now.marks.now) (length out.old) }
    ensures gathered { Gathers (whole_distances plane.now window) out.old out.new 0 result }
    ensures all { result ≡ window.high * window.wide }
{
    let (samples, kind, depth, d) = (plane.samples, plane.kind, plane.depth, plane.d);
    let mut n = 0;
    for i in 0..window.high {
        let next = n + window.wide;
        let first = (window.row + i) * window.cols + window.col;
        samples.get_distances_as(kind, PixelsFrom { first, depth, d }, &mut out[n..next]);
        n = next;
    }
    n
}

/// Does what `gather_lines` does, for a type that is known before, and for rows of eight pixels as
/// such.
#[inline(always)]
fn gather_rows_as(plane: &Plane, window: Window, out: &mut [u32]) -> usize
    requires fits { HasRoom window (length plane.now.marks.now) (length out.old) }
    ensures gathered { Gathers (window_distances plane.now window) out.old out.new 0 result }
    ensures within { result ≤ window.high * window.wide }
{
    if window.wide == 8 {
        gather_marked_rows(plane, window.of_width(8), out)
    } else {
        gather_marked_rows(plane, window, out)
    }
}

/// Does what `gather_lines` does, for a type that is known before.
#[inline(always)]
fn gather_marked_rows(plane: &Plane, window: Window, out: &mut [u32]) -> usize
    requires fits { HasRoom window (length plane.now.marks.now) (length out.old) }
    ensures gathered { Gathers (window_distances plane.now window) out.old out.new 0 result }
    ensures within { result ≤ window.high * window.wide }
{
    let mut n = 0;
    for i in window.row..window.row + window.high {
        let from = i * window.cols + window.col;
        n = gather_run(plane, from, window.wide, out, n);
    }
    n
}
