//! The values of a raster in order: one behind the other.

ghost use Rattle.std.specs.Prelude.{◌≡◌, ℕ, ◌+◌, ◌-◌, ◌*◌, ◌<◌, ◌≤◌, true, false, get_or, length, All};
ghost use Rattle.raster_cells.specs.PixelType.{InRange, bytes_of};
ghost use Rattle.raster_values.specs.Raster.{values_of};
ghost use Rattle.raster_values.specs.View.{pixels_of};
ghost use Rattle.raster_cells.specs.Values.{values_bytes};
ghost use Rattle.raster_cells.specs.Words.{AreMarks};
ghost use Rattle.raster_values.specs.Ordered.{ChangesMarked, FillsMarked, PutsMarked, PutsMarkedBytes};
ghost use Rattle.raster_cells.specs.CellList.{AreOf, KeepsForm};

use crate::blocks::window::Channel;
use raster_cells::{
    CellBytes, CellStore, Cells, LentMask, MarkSource, Mask, PixelType, PixelsFrom, ValueList,
    ValueSource, by_kind, fill_pixels, put_marked_as, put_pixels_as,
};

/// Gives each marked pixel the list of values that is given, one for each depth.
pub(crate) fn fill_marked<M: MarkSource, V: CellStore, G: ValueSource>(
    marks: &M,
    pixel: &G,
    values: &mut V,
)
    requires size { length (V.cells values.old).values
        ≡ length (M.marks marks.now) * length (G.listed pixel.now) }
    requires few { length (V.cells values.old).values ≤ 16777216 }
    requires depth { 0 < length (G.listed pixel.now) }
    requires in_range { All (InRange (V.cells values.old).kind) (G.listed pixel.now) }
    ensures form { KeepsForm (V.cells values.old) (V.cells values.new) }
    ensures filled { FillsMarked (length (M.marks marks.now)) (M.marks marks.now)
        (G.listed pixel.now)
        (V.cells values.old).values (V.cells values.new).values }
    ensures kept { V.kept values.new ≡ V.kept values.old }
{
    let mut at = 0;
    while at < marks.len() {
        let run = marks.next_run(at, marks.len());
        fill_pixels(values, run.start, run.end - run.start, pixel);
        at = run.end;
    }
}

/// Gives the marked pixels the values that the bytes stand for, run by run.
pub(crate) fn scatter_bytes<M: MarkSource, V: CellStore>(
    marks: &M,
    depth: usize,
    bytes: &[u8],
    values: &mut V,
)
    requires size { length (V.cells values.old).values ≡ length (M.marks marks.now) * depth }
    requires few { length (V.cells values.old).values ≤ 16777216 }
    requires count { length bytes.now ≡ length (values_of
        (pixels_of depth (M.marks marks.now) (V.cells values.old).values)) * bytes_of
        (V.cells values.old).kind }
    ensures kind { (V.cells values.new).kind ≡ (V.cells values.old).kind }
    ensures changed { ChangesMarked (V.cells values.old).kind depth (M.marks marks.now)
        (V.cells values.old).values (V.cells values.new).values }
    ensures scattered { values_bytes (V.cells values.old).kind
        (values_of (pixels_of depth (M.marks marks.now) (V.cells values.new).values)) ≡ bytes.now }
    ensures kept { V.kept values.new ≡ V.kept values.old }
{
    let size = values.kind().bytes();
    let mut at = 0;
    let mut from = 0;
    while at < marks.len() {
        let run = marks.next_run(at, marks.len());
        let count = (run.end - run.start) * depth;
        let next = from + count * size;
        values.put_bytes(run.start * depth, count, &bytes[from..next]);
        from = next;
        at = run.end;
    }
}

/// Does what `put_values` does, for at most 32 pixels whose marks are the bits of the word. Each
/// pixel is written, one that is not marked with what stands there, so that no jump depends on
/// marks.
#[inline(always)]
fn put_mixed<M: MarkSource, V: CellStore>(
    channel: &Channel<M>,
    word: u32,
    place: usize,
    input: &[i64],
    values: &mut V,
)
    requires values { AreOf channel.now.kind channel.now.depth
        (length (M.marks channel.now.marks.now)) (V.cells values.old) }
    requires within { place + length input.now ≤ length (M.marks channel.now.marks.now) }
    requires in_range { All (InRange channel.now.kind) input.now }
    requires short { length input.now ≤ 32 }
    requires word { AreMarks (M.marks channel.now.marks.now) place (length input.now) word }
    ensures put { PutsMarked channel.now.depth channel.now.d (M.marks channel.now.marks.now) place
        (length input.now)
        input.now (V.cells values.old).values (V.cells values.new).values }
    ensures form { KeepsForm (V.cells values.old) (V.cells values.new) }
    ensures kept { V.kept values.new ≡ V.kept values.old }
{
    let count = input.len();
    for i in 0..count {
        let mark = (word >> (count - 1 - i)) % 2;
        let at = (place + i) * channel.depth + channel.d;
        put_marked_as(values, channel.kind, at, mark, input[i]);
    }
}

/// Does what `put_values` does, for at most 32 pixels.
#[inline(always)]
fn put_word<M: MarkSource, V: CellStore>(
    channel: &Channel<M>,
    place: usize,
    input: &[i64],
    values: &mut V,
)
    requires values { AreOf channel.now.kind channel.now.depth
        (length (M.marks channel.now.marks.now)) (V.cells values.old) }
    requires within { place + length input.now ≤ length (M.marks channel.now.marks.now) }
    requires in_range { All (InRange channel.now.kind) input.now }
    requires some { 0 < length input.now }
    requires short { length input.now ≤ 32 }
    ensures put { PutsMarked channel.now.depth channel.now.d (M.marks channel.now.marks.now) place
        (length input.now)
        input.now (V.cells values.old).values (V.cells values.new).values }
    ensures form { KeepsForm (V.cells values.old) (V.cells values.new) }
    ensures kept { V.kept values.new ≡ V.kept values.old }
{
    let count = input.len();
    let word = channel.marks.word(place, count);
    if word == 0 {
        return;
    }
    if word == u32::MAX >> (32 - count) {
        let (kind, depth, d) = (channel.kind, channel.depth, channel.d);
        let pixels = PixelsFrom {
            first: place,
            depth,
            d,
        };
        put_pixels_as(values, kind, pixels, &ValueList { values: input }, 0, count);
        return;
    }
    put_mixed(channel, word, place, input, values);
}

/// Does what `put_values` does, for a type that is known before.
#[inline(always)]
fn put_values_as<M: MarkSource, V: CellStore>(
    channel: &Channel<M>,
    place: usize,
    input: &[i64],
    values: &mut V,
)
    requires values { AreOf channel.now.kind channel.now.depth
        (length (M.marks channel.now.marks.now)) (V.cells values.old) }
    requires within { place + length input.now ≤ length (M.marks channel.now.marks.now) }
    requires in_range { All (InRange channel.now.kind) input.now }
    ensures put { PutsMarked channel.now.depth channel.now.d (M.marks channel.now.marks.now) place
        (length input.now)
        input.now (V.cells values.old).values (V.cells values.new).values }
    ensures form { KeepsForm (V.cells values.old) (V.cells values.new) }
    ensures kept { V.kept values.new ≡ V.kept values.old }
{
    let mut k = 0;
    while k < input.len() {
        let more = (input.len() - k).min(32);
        put_word(channel, place + k, &input[k..k + more], values);
        k += more;
    }
}

/// Gives the marked ones among the pixels from `place` on these values, in words of at most 32
/// marks.
pub(crate) fn put_values<M: MarkSource, V: CellStore>(
    channel: &Channel<M>,
    place: usize,
    input: &[i64],
    values: &mut V,
)
    requires values { AreOf channel.now.kind channel.now.depth
        (length (M.marks channel.now.marks.now)) (V.cells values.old) }
    requires within { place + length input.now ≤ length (M.marks channel.now.marks.now) }
    requires in_range { All (InRange channel.now.kind) input.now }
    ensures put { PutsMarked channel.now.depth channel.now.d (M.marks channel.now.marks.now) place
        (length input.now)
        input.now (V.cells values.old).values (V.cells values.new).values }
    ensures form { KeepsForm (V.cells values.old) (V.cells values.new) }
    ensures kept { V.kept values.new ≡ V.kept values.old }
{
    let (marks, depth, d) = (channel.marks, channel.depth, channel.d);
    by_kind!(channel.kind, kind => {
        put_values_as(&Channel { marks, kind, depth, d }, place, input, values)
    })
}

/// Does what `put_run` does, for a type that is known before.
#[inline(always)]
fn put_run_as<M: MarkSource, V: CellStore, G: ValueSource>(
    channel: &Channel<M>,
    place: usize,
    given: &G,
    values: &mut V,
)
    requires values { AreOf channel.now.kind channel.now.depth
        (length (M.marks channel.now.marks.now)) (V.cells values.old) }
    requires within { place + length (G.listed given.now) ≤ length (M.marks channel.now.marks.now) }
    requires in_range { All (InRange channel.now.kind) (G.listed given.now) }
    requires marked { (k : ℕ) → place ≤ k → k < place + length (G.listed given.now)
        → get_or (M.marks channel.now.marks.now) k false ≡ true }
    ensures put { PutsMarked channel.now.depth channel.now.d (M.marks channel.now.marks.now) place
        (length (G.listed given.now)) (G.listed given.now)
        (V.cells values.old).values (V.cells values.new).values }
    ensures form { KeepsForm (V.cells values.old) (V.cells values.new) }
    ensures kept { V.kept values.new ≡ V.kept values.old }
{
    let (kind, depth, d) = (channel.kind, channel.depth, channel.d);
    let pixels = PixelsFrom {
        first: place,
        depth,
        d,
    };
    put_pixels_as(values, kind, pixels, given, 0, given.len());
}

/// Gives the pixels from `place` on, which are all marked, the values that are given.
pub(crate) fn put_run<M: MarkSource, V: CellStore, G: ValueSource>(
    channel: &Channel<M>,
    place: usize,
    given: &G,
    values: &mut V,
)
    requires values { AreOf channel.now.kind channel.now.depth
        (length (M.marks channel.now.marks.now)) (V.cells values.old) }
    requires within { place + length (G.listed given.now) ≤ length (M.marks channel.now.marks.now) }
    requires in_range { All (InRange channel.now.kind) (G.listed given.now) }
    requires marked { (k : ℕ) → place ≤ k → k < place + length (G.listed given.now)
        → get_or (M.marks channel.now.marks.now) k false ≡ true }
    ensures put { PutsMarked channel.now.depth channel.now.d (M.marks channel.now.marks.now) place
        (length (G.listed given.now)) (G.listed given.now)
        (V.cells values.old).values (V.cells values.new).values }
    ensures form { KeepsForm (V.cells values.old) (V.cells values.new) }
    ensures kept { V.kept values.new ≡ V.kept values.old }
{
    let (marks, depth, d) = (channel.marks, channel.depth, channel.d);
    by_kind!(channel.kind, kind => {
        put_run_as(&Channel { marks, kind, depth, d }, place, given, values)
    })
}

/// The bytes of the marked pixels' values, run by run.
pub(crate) fn write_valid(marks: &LentMask, depth: usize, values: &CellBytes, out: &mut [u8])
    requires size { length values.now.values ≡ length marks.now * depth }
    requires few { length values.now.values ≤ 16777216 }
    requires room { length out.old ≡ length (values_of
        (pixels_of depth marks.now values.now.values)) * bytes_of values.now.kind }
    ensures { out.new ≡ values_bytes values.now.kind
        (values_of (pixels_of depth marks.now values.now.values)) }
{
    let size = values.kind().bytes();
    let mut at = 0;
    let mut from = 0;
    while at < marks.len() {
        let run = marks.next_run(at, marks.len());
        let count = (run.end - run.start) * depth;
        let next = from + count * size;
        out[from..next].copy_from_slice(values.bytes_of_run(run.start * depth, count));
        from = next;
        at = run.end;
    }
}

/// Gives the marked pixels the values that the bytes of all pixels' values stand for.
pub(crate) fn put_cells(marks: &Mask, depth: usize, bytes: &[u8], values: &mut Cells)
    requires size { length values.old.values ≡ length marks.now * depth }
    requires few { length values.old.values ≤ 16777216 }
    requires bytes { length bytes.now ≡ length values.old.values * bytes_of values.old.kind }
    ensures form { KeepsForm values.old values.new }
    ensures put { PutsMarkedBytes values.old.kind depth (length marks.now) marks.now bytes.now
        values.old.values values.new.values }
{
    let size = values.kind().bytes();
    let mut at = 0;
    while at < marks.len() {
        let run = marks.next_run(at, marks.len());
        let from = run.start * depth;
        let end = run.end * depth;
        values.put_bytes(from, end - from, &bytes[from * size..end * size]);
        at = run.end;
    }
}
