//! Values in a caller's array, while a call changes them.

ghost use Rattle.std.specs.Prelude.{◌≡◌, ◌≢◌, ℕ, ◌+◌, ◌*◌, ◌<◌, ◌≤◌, All, false, get_or, length, pos, replicate, true};
ghost use Rattle.std.specs.List.{count_by};
ghost use Rattle.raster_cells.specs.PixelType.{InRange, bytes_of};
ghost use Rattle.raster_cells.specs.Values.{values_bytes};
ghost use Rattle.raster_cells.specs.CellList.{AreOf, KeepsForm, cells_in, values_in};
ghost use Rattle.raster_cells.specs.LentBytes.{AreValueBytes};
ghost use Rattle.raster_values.specs.Raster.{values_of};
ghost use Rattle.raster_values.specs.Ordered.{ChangesMarked, FillsMarked, PutsMarked};
ghost use Rattle.raster_values.specs.View.{pixels_of};
ghost use Rattle.raster_values.specs.inside.Windows.{IsWithin, ScattersRows, window_places};

use crate::blocks::window::{Channel, Window};
use crate::blocks::{order, scattering};
use raster_cells::{CellStore, LentMask, PixelType, ValueSource, byte_runs, place, value_at};

/// So many values of a type in a caller's array. Any of them may be changed.
#[derive(Drop)]
struct LentCells<'v> {
    kind: PixelType,
    count: usize,
    values: &'v mut [u8],
    ghost cells: { AreValueBytes kind count values.now },
}

impl<'v> CellStore for LentCells<'v> {
    ghost use Rattle.raster_values.specs.inside.LentCells.{CellFrame, cell_frame, cells_there};

    ghost cells = { cells_there };

    ghost Kept = { CellFrame };

    ghost kept = { cell_frame };

    fn kind(&self) -> PixelType {
        self.kind
    }

    #[inline(always)]
    fn get_as(&self, kind: PixelType, at: usize) -> i64 {
        value_at(kind, self.count, &*self.values, at)
    }

    #[inline(always)]
    fn put_as<G: ValueSource>(
        &mut self,
        kind: PixelType,
        at: usize,
        given: &G,
        n: usize,
        count: usize,
    ) {
        let from = place(kind, self.count, at);
        given.write_as(kind, n, count, &mut self.values[from..]);
    }

    fn repeat_run(&mut self, at: usize, to: usize, count: usize) {
        let from = place(self.kind, self.count, at);
        let end = place(self.kind, self.count, at + count);
        let dest = place(self.kind, self.count, to);
        byte_runs::repeat(self.values, from, end, dest);
    }

    fn put_bytes(&mut self, at: usize, count: usize, bytes: &[u8]) {
        let from = place(self.kind, self.count, at);
        byte_runs::lay(self.values, from, bytes);
    }
}

/// Sets all values to 0, but where every pixel is marked. One pass over them costs less than one
/// over the runs of the mask, and the marked ones are filled in later.
pub fn clear_masked(marks: &LentMask, kind: PixelType, depth: usize, values: &mut [u8])
    requires few { length marks.now * depth ≤ 16777216 }
    requires size { length values.old ≡ length marks.now * depth * bytes_of kind }
    ensures cells { AreValueBytes kind (length marks.now * depth) values.new }
    ensures whole { count_by (λ m. m) marks.now ≡ length marks.now → values.new ≡ values.old }
    ensures zeros { count_by (λ m. m) marks.now ≢ length marks.now
        → values_in kind (length marks.now * depth) values.new
        ≡ replicate (length marks.now * depth) (pos 0) }
{
    if marks.valid_count() == marks.len() {
        return;
    }
    values.fill(0);
}

/// Does what `scatter_rows` does, to values in an array.
pub fn scatter_over<G: ValueSource>(
    channel: &Channel<LentMask>,
    window: Window,
    count: usize,
    given: &G,
    values: &mut [u8],
)
    requires cells { AreValueBytes channel.now.kind count values.old }
    requires values { AreOf channel.now.kind channel.now.depth (length channel.now.marks.now)
        (cells_in channel.now.kind count values.old) }
    requires within { IsWithin window (length channel.now.marks.now) }
    requires in_range { All (InRange channel.now.kind) (G.listed given.now) }
    requires count { length (G.listed given.now)
        ≡ length (window_places window channel.now.marks.now) }
    ensures cells { AreValueBytes channel.now.kind count values.new }
    ensures scattered { ScattersRows channel.now.depth channel.now.d channel.now.marks.now window
        (G.listed given.now)
        (cells_in channel.now.kind count values.old) (cells_in channel.now.kind count values.new) }
{
    let kind = channel.kind;
    let mut cells = LentCells {
        kind,
        count,
        values,
    };
    scattering::scatter_rows(channel, window, given, &mut cells);
}

/// Does what `put_run` does, to values in an array.
pub fn put_run_over<G: ValueSource>(
    channel: &Channel<LentMask>,
    place: usize,
    count: usize,
    given: &G,
    values: &mut [u8],
)
    requires cells { AreValueBytes channel.now.kind count values.old }
    requires values { AreOf channel.now.kind channel.now.depth (length channel.now.marks.now)
        (cells_in channel.now.kind count values.old) }
    requires within { place + length (G.listed given.now) ≤ length channel.now.marks.now }
    requires in_range { All (InRange channel.now.kind) (G.listed given.now) }
    requires marked { (k : ℕ) → place ≤ k → k < place + length (G.listed given.now)
        → get_or channel.now.marks.now k false ≡ true }
    ensures cells { AreValueBytes channel.now.kind count values.new }
    ensures put { PutsMarked channel.now.depth channel.now.d channel.now.marks.now place
        (length (G.listed given.now)) (G.listed given.now)
        (values_in channel.now.kind count values.old)
        (values_in channel.now.kind count values.new) }
    ensures form { KeepsForm (cells_in channel.now.kind count values.old)
        (cells_in channel.now.kind count values.new) }
{
    let kind = channel.kind;
    let mut cells = LentCells {
        kind,
        count,
        values,
    };
    order::put_run(channel, place, given, &mut cells);
}

/// Does what `put_values` does, to values in an array.
pub fn put_over(
    channel: &Channel<LentMask>,
    place: usize,
    count: usize,
    input: &[i64],
    values: &mut [u8],
)
    requires cells { AreValueBytes channel.now.kind count values.old }
    requires values { AreOf channel.now.kind channel.now.depth (length channel.now.marks.now)
        (cells_in channel.now.kind count values.old) }
    requires within { place + length input.now ≤ length channel.now.marks.now }
    requires in_range { All (InRange channel.now.kind) input.now }
    ensures cells { AreValueBytes channel.now.kind count values.new }
    ensures put { PutsMarked channel.now.depth channel.now.d channel.now.marks.now place
        (length input.now) input.now
        (values_in channel.now.kind count values.old)
        (values_in channel.now.kind count values.new) }
    ensures form { KeepsForm (cells_in channel.now.kind count values.old)
        (cells_in channel.now.kind count values.new) }
{
    let kind = channel.kind;
    let mut cells = LentCells {
        kind,
        count,
        values,
    };
    order::put_values(channel, place, input, &mut cells);
}

/// Does what `fill_marked` does, to values in an array.
pub fn fill_over<G: ValueSource>(
    marks: &LentMask,
    kind: PixelType,
    count: usize,
    pixel: &G,
    values: &mut [u8],
)
    requires cells { AreValueBytes kind count values.old }
    requires size { length (values_in kind count values.old)
        ≡ length marks.now * length (G.listed pixel.now) }
    requires few { length (values_in kind count values.old) ≤ 16777216 }
    requires depth { 0 < length (G.listed pixel.now) }
    requires in_range { All (InRange kind) (G.listed pixel.now) }
    ensures cells { AreValueBytes kind count values.new }
    ensures form { KeepsForm (cells_in kind count values.old) (cells_in kind count values.new) }
    ensures filled { FillsMarked (length marks.now) marks.now (G.listed pixel.now)
        (values_in kind count values.old) (values_in kind count values.new) }
{
    let mut cells = LentCells {
        kind,
        count,
        values,
    };
    order::fill_marked(marks, pixel, &mut cells);
}

/// Does what `scatter_bytes` of `order` does, to values in an array.
pub fn scatter_bytes_over(
    marks: &LentMask,
    kind: PixelType,
    depth: usize,
    count: usize,
    bytes: &[u8],
    values: &mut [u8],
)
    requires cells { AreValueBytes kind count values.old }
    requires size { length (values_in kind count values.old) ≡ length marks.now * depth }
    requires few { length (values_in kind count values.old) ≤ 16777216 }
    requires count { length bytes.now ≡ length (values_of
        (pixels_of depth marks.now (values_in kind count values.old))) * bytes_of kind }
    ensures cells { AreValueBytes kind count values.new }
    ensures changed { ChangesMarked kind depth marks.now (values_in kind count values.old)
        (values_in kind count values.new) }
    ensures scattered { values_bytes kind
        (values_of (pixels_of depth marks.now (values_in kind count values.new))) ≡ bytes.now }
{
    let mut cells = LentCells {
        kind,
        count,
        values,
    };
    order::scatter_bytes(marks, depth, bytes, &mut cells);
}
