//! The least and the greatest of the marked pixels' values.

ghost use Rattle.std.specs.Prelude.{◌≡◌, ℤ, ◌+◌, ◌<◌, ◌≤◌, ◌++◌, All, List, Some, length, map};
ghost use Rattle.lane_kernels.specs.Kernels.{IsLeast, IsGreatest};
ghost use Rattle.raster_cells.specs.PixelType.{InRange};
ghost use Rattle.raster_cells.specs.Distance.{value_above};
ghost use Rattle.raster_values.specs.inside.Runs.{IsRange};
ghost use Rattle.raster_values.specs.inside.Planes.{plane_values};

use crate::blocks::gathering::gather_pixels;
use crate::blocks::window::Plane;
use raster_cells::{PixelType, PixelsFrom};

/// How many pixels are looked at together, at most, where not all are marked.
const PIECE: usize = 256;

/// What is found with a least and a greatest value more.
fn wider(found: Option<(i64, i64)>, more: (i64, i64)) -> (i64, i64)
    ensures { (xs ys : List ℤ) → IsRange found xs → IsLeast ys more.0 → IsGreatest ys more.1
        → IsRange (Some result) (xs ++ ys) }
{
    match found {
        Some((least, greatest)) => (least.min(more.0), greatest.max(more.1)),
        None => more,
    }
}

/// The least and the greatest of the marked pixels' values, run by run.
fn range_by_runs(plane: &Plane) -> Option<(i64, i64)>
    ensures { IsRange result (plane_values plane.now 0 (length plane.now.marks.now)) }
{
    let marks = plane.marks;
    let mut found = None;
    let mut k = 0;
    while k < marks.len() {
        let run = marks.next_run(k, marks.len());
        if run.start < run.end {
            let count = run.end - run.start;
            let pixels = PixelsFrom {
                first: run.start,
                depth: plane.depth,
                d: plane.d,
            };
            let more = plane.samples.extremes(pixels, count);
            found = Some(wider(found, more));
        }
        k = run.end;
    }
    found
}

/// What is found with what is found behind it.
fn joined(found: Option<(i64, i64)>, more: Option<(i64, i64)>) -> Option<(i64, i64)>
    ensures { (xs ys : List ℤ) → IsRange found xs → IsRange more ys → IsRange result (xs ++ ys) }
{
    match more {
        Some(pair) => Some(wider(found, pair)),
        None => found,
    }
}

/// The least and the greatest of the values that are so far above the type's least.
#[inline(always)]
fn ends_above(kind: PixelType, distances: &[u32]) -> (i64, i64)
    requires { 0 < length distances.now }
    ensures least { IsLeast (map (value_above kind) distances.now) result.0 }
    ensures greatest { IsGreatest (map (value_above kind) distances.now) result.1 }
{
    let mut near = distances[0];
    let mut far = near;
    for i in 1..distances.len() {
        near = near.min(distances[i]);
        far = far.max(distances[i]);
    }
    let bottom = kind.least();
    (bottom + i64::from(near), bottom + i64::from(far))
}

/// The least and the greatest of the values of the marked ones among as many pixels from `from` on
/// as `out` has room for. What they are above the type's least is gathered there first, so that no
/// jump depends on marks.
fn range_in(plane: &Plane, from: usize, out: &mut [u32]) -> Option<(i64, i64)>
    requires within { from + length out.old ≤ length plane.now.marks.now }
    requires in_range { All (InRange plane.now.samples.now.kind) plane.now.samples.now.values }
    ensures { IsRange result (plane_values plane.now from (length out.old)) }
{
    let count = out.len();
    let n = gather_pixels(plane, from, count, out);
    if n == 0 {
        return None;
    }
    Some(ends_above(plane.kind, &out[..n]))
}

/// The least and the greatest of the marked pixels' values, piece by piece.
fn range_by_pieces(plane: &Plane) -> Option<(i64, i64)>
    requires { All (InRange plane.now.samples.now.kind) plane.now.samples.now.values }
    ensures { IsRange result (plane_values plane.now 0 (length plane.now.marks.now)) }
{
    let count = plane.marks.len();
    let mut distances = [0; PIECE];
    let mut found = None;
    let mut k = 0;
    while k < count {
        let more = PIECE.min(count - k);
        let here = range_in(plane, k, &mut distances[..more]);
        found = joined(found, here);
        k += more;
    }
    found
}

/// The least and the greatest of the marked pixels' values.
pub(crate) fn range_of(plane: &Plane) -> Option<(i64, i64)>
    requires { All (InRange plane.now.samples.now.kind) plane.now.samples.now.values }
    ensures { IsRange result (plane_values plane.now 0 (length plane.now.marks.now)) }
{
    if plane.marks.is_whole() {
        range_by_runs(plane)
    } else {
        range_by_pieces(plane)
    }
}
