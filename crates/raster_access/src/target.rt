//! What fills a raster sees of it.

ghost use Rattle.std.specs.Prelude.{◌≡◌, ◌+◌, ◌*◌, ◌<◌, ◌≤◌, ℕ, pos, false, None, false, is_some, get_or, length, map, replicate, true, All};
ghost use Rattle.lane_kernels.specs.Kernels.{IsStepSize, capped_sums};
ghost use Rattle.raster_cells.specs.PixelType.{InRange, bytes_of};
ghost use Rattle.raster_cells.specs.Values.{values_above};
ghost use Rattle.raster_values.specs.Raster.{Pixels, IsRaster, InShape, valid_count};
ghost use Rattle.raster_values.specs.Block.{block_count, ScattersBlock};
ghost use Rattle.raster_values.specs.Order.{FillsBytes, FillsValid, ScattersBytes};
ghost use Rattle.raster_values.specs.Flat.{PutsFrom, marks_of, value_in};
ghost use Rattle.raster_cells.specs.MarkRuns.{AreRuns};

use raster_cells::ValueSource;
use raster_values::{PixelType, Run};

/// A raster whose type, shape and mask stand, and whose valid pixels are given their values,
/// however it is kept.
pub trait Target {
    /// The raster.
    ghost pixels: { Self → Pixels };

    /// The type of what no call changes.
    ghost Kept: { Type 0 };

    /// What no call changes, as which array it is that the values are put into.
    ghost kept: { Self → Kept };

    /// The type of the values.
    fn kind(&self) -> PixelType
        ensures value { result ≡ (pixels self.now).kind }
        ensures sound { IsRaster (pixels self.now) };

    /// The number of rows, at least 1.
    fn rows(&self) -> u32
        ensures value { result ≡ (pixels self.now).rows }
        ensures sound { IsRaster (pixels self.now) };

    /// The number of columns, at least 1.
    fn cols(&self) -> u32
        ensures value { result ≡ (pixels self.now).cols }
        ensures sound { IsRaster (pixels self.now) };

    /// The number of values of a valid pixel, from 1 to 65,536.
    fn depth(&self) -> u32
        ensures value { result ≡ (pixels self.now).depth }
        ensures sound { IsRaster (pixels self.now) };

    /// How many pixels of a block are valid: of the `side` rows and columns from (row, col) on, cut
    /// off at the raster's lower and right edges.
    fn block_valid_count(&self, row: u32, col: u32, side: u32) -> usize
        requires place { InShape (pixels self.now) row col }
        ensures value { result ≡ block_count (pixels self.now) row col side }
        ensures within { result ≤ side * side };

    /// The marks of the pixels from number `place` on: the pixels are numbered row by row, from 0.
    fn marks_from(&self, place: usize, out: &mut [bool])
        requires place { place + length out.old ≤ (pixels self.now).rows * (pixels self.now).cols }
        ensures room { length out.new ≡ length out.old }
        ensures marks { (i : ℕ) → i < length out.old → get_or out.new i false
            ≡ is_some (get_or (pixels self.now).pixels (place + i) None) };

    /// The next run of valid pixels from number `place` on, before number `limit`, whole. It is
    /// empty, and at `limit`, where there is none.
    fn next_run(&self, place: usize, limit: usize) -> Run
        requires order { place ≤ limit }
        requires within { limit ≤ (pixels self.now).rows * (pixels self.now).cols }
        ensures runs { AreRuns (marks_of (pixels self.now)) place result.start result.end }
        ensures within { result.end ≤ limit }
        ensures begins { result.start < limit
            → get_or (marks_of (pixels self.now)) result.start false ≡ true }
        ensures ends { result.end < limit
            → get_or (marks_of (pixels self.now)) result.end false ≡ false }
        ensures forth { place < limit → place < result.end };

    /// The values at a depth of the pixels from number `place` on, 0 of invalid ones.
    fn values_from(&self, place: usize, d: u32, out: &mut [i64])
        requires place { place + length out.old ≤ (pixels self.now).rows * (pixels self.now).cols }
        requires depth { d < (pixels self.now).depth }
        ensures room { length out.new ≡ length out.old }
        ensures values { (i : ℕ) → i < length out.old → get_or out.new i (pos 0)
            ≡ value_in (pixels self.now) d (place + i) };

    /// Gives the valid pixels of a block the values that are given, at a depth, row by row. All
    /// else stays.
    fn scatter_given<G: ValueSource>(&mut self, row: u32, col: u32, side: u32, d: u32, given: &G)
        requires place { InShape (pixels self.old) row col }
        requires depth { d < (pixels self.old).depth }
        requires count { length (G.listed given.now) ≡ block_count (pixels self.old) row col side }
        requires in_range { All (InRange (pixels self.old).kind) (G.listed given.now) }
        ensures scattered { ScattersBlock (pixels self.old) (pixels self.new) row col side d
            (G.listed given.now) }
        ensures sound { IsRaster (pixels self.new) }
        ensures kept { kept self.new ≡ kept self.old };

    /// Gives the valid ones among the pixels from number `place` on these values at a depth, and
    /// changes nothing else. The values at the places of invalid pixels are not looked at.
    fn put_from(&mut self, place: usize, d: u32, values: &[i64])
        requires place { place + length values.now
            ≤ (pixels self.old).rows * (pixels self.old).cols }
        requires depth { d < (pixels self.old).depth }
        requires in_range { All (InRange (pixels self.old).kind) values.now }
        ensures put { PutsFrom (pixels self.old) (pixels self.new) place d values.now }
        ensures sound { IsRaster (pixels self.new) }
        ensures kept { kept self.new ≡ kept self.old };

    /// Gives the pixels from number `place` on, which are all valid, the values at a depth that the
    /// bytes tell, each by how far it is above the number that is `below` under zero. All else
    /// stays.
    fn put_run(&mut self, place: usize, d: u32, below: u8, bytes: &[u8])
        requires place { place + length bytes.now
            ≤ (pixels self.old).rows * (pixels self.old).cols }
        requires depth { d < (pixels self.old).depth }
        requires in_range { All (InRange (pixels self.old).kind) (values_above below bytes.now) }
        requires marked { (k : ℕ) → place ≤ k → k < place + length bytes.now
            → get_or (marks_of (pixels self.old)) k false ≡ true }
        ensures put { PutsFrom (pixels self.old) (pixels self.new) place d
            (values_above below bytes.now) }
        ensures sound { IsRaster (pixels self.new) }
        ensures kept { kept self.new ≡ kept self.old };

    /// Gives each valid pixel this one value at each depth. All else stays.
    fn fill_value(&mut self, value: i64)
        requires in_range { InRange (pixels self.old).kind value }
        ensures filled { FillsValid (pixels self.old) (pixels self.new)
            (replicate (pixels self.old).depth value) }
        ensures sound { IsRaster (pixels self.new) }
        ensures kept { kept self.new ≡ kept self.old };

    /// Gives each valid pixel the list of values that the bytes stand for, one for each depth. All
    /// else stays.
    fn fill_bytes(&mut self, bytes: &[u8])
        requires size { length bytes.now
            ≡ (pixels self.old).depth * bytes_of (pixels self.old).kind }
        ensures filled { FillsBytes (pixels self.old) (pixels self.new) bytes.now }
        ensures sound { IsRaster (pixels self.new) }
        ensures kept { kept self.new ≡ kept self.old };

    /// Gives the valid pixels the values that the bytes stand for, pixel by pixel and depth
    /// innermost. All else stays.
    fn scatter(&mut self, bytes: &[u8])
        requires size { length bytes.now ≡ valid_count (pixels self.old)
            * (pixels self.old).depth * bytes_of (pixels self.old).kind }
        ensures scattered { ScattersBytes (pixels self.old) (pixels self.new) bytes.now }
        ensures sound { IsRaster (pixels self.new) }
        ensures kept { kept self.new ≡ kept self.old };
}
