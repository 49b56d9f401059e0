//! The values of pixels by their numbers.

ghost use Rattle.std.specs.Prelude.{◌≡◌, ◌+◌, ◌<◌, ◌≤◌, pos, length, replicate};
ghost use Rattle.raster_values.specs.inside.Planes.{GetsMarked};
ghost use Rattle.raster_cells.specs.Words.{AreMarks};

use crate::blocks::window::Plane;
use raster_cells::{PixelType, PixelsFrom, by_kind, one_of};

/// Sets all values to 0.
fn clear(out: &mut [i64])
    ensures { out.new ≡ replicate (length out.old) (pos 0) }
{
    out.fill(0);
}

/// Does what `get_marked` does, for at most 32 pixels whose marks are the bits of the word. Each
/// pixel's value is read, and 0 taken in its place where it is not marked, so that no jump depends
/// on marks.
#[inline(always)]
fn get_mixed(plane: &Plane, word: u32, place: usize, out: &mut [i64])
    requires within { place + length out.old ≤ length plane.now.marks.now }
    requires short { length out.old ≤ 32 }
    requires word { AreMarks plane.now.marks.now place (length out.old) word }
    ensures { GetsMarked plane.now place out.old out.new }
{
    let count = out.len();
    for i in 0..count {
        let mark = (word >> (count - 1 - i)) % 2;
        let at = (place + i) * plane.depth + plane.d;
        let value = plane.samples.value_as(plane.kind, at);
        out[i] = one_of(mark, value, 0);
    }
}

/// Does what `get_marked` does, for at most 32 pixels.
#[inline(always)]
fn get_word(plane: &Plane, place: usize, out: &mut [i64])
    requires within { place + length out.old ≤ length plane.now.marks.now }
    requires some { 0 < length out.old }
    requires short { length out.old ≤ 32 }
    ensures { GetsMarked plane.now place out.old out.new }
{
    let count = out.len();
    let word = plane.marks.word(place, count);
    if word == 0 {
        clear(out);
        return;
    }
    if word == u32::MAX >> (32 - count) {
        let (kind, depth, d) = (plane.kind, plane.depth, plane.d);
        let pixels = PixelsFrom {
            first: place,
            depth,
            d,
        };
        plane.samples.get_pixels_as(kind, pixels, out);
        return;
    }
    get_mixed(plane, word, place, out);
}

/// Does what `get_marked` does, for a type that is known before.
#[inline(always)]
fn get_marked_as(plane: &Plane, place: usize, out: &mut [i64])
    requires { place + length out.old ≤ length plane.now.marks.now }
    ensures { GetsMarked plane.now place out.old out.new }
{
    let mut k = 0;
    while k < out.len() {
        let more = (out.len() - k).min(32);
        get_word(plane, place + k, &mut out[k..k + more]);
        k += more;
    }
}

/// The values of the pixels from `place` on, 0 of those that are not marked, in words of at most 32
/// marks.
pub(crate) fn get_marked(plane: &Plane, place: usize, out: &mut [i64])
    requires { place + length out.old ≤ length plane.now.marks.now }
    ensures { GetsMarked plane.now place out.old out.new }
{
    let (marks, samples, depth, d) = (plane.marks, plane.samples, plane.depth, plane.d);
    by_kind!(samples.kind(), kind => {
        get_marked_as(&Plane { marks, samples, kind, depth, d }, place, out)
    })
}
