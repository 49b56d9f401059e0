//! A raster in a caller's arrays.

ghost use Rattle.std.specs.Prelude.{◌≡◌, ◌≢◌, ◌+◌, ◌*◌, ◌/◌, ◌<◌, ◌≤◌, ℕ, All, None, drop, false, get_or, is_some, length, map, pos, replicate, true};
ghost use Rattle.lane_kernels.specs.Kernels.{IsStepSize, capped_sums};
ghost use Rattle.raster_cells.specs.PixelType.{InRange, Spells, bytes_of};
ghost use Rattle.raster_cells.specs.Shapes.{IsShape};
ghost use Rattle.raster_cells.specs.Values.{values_above};
ghost use Rattle.raster_cells.specs.Masks.{marks_in};
ghost use Rattle.raster_cells.specs.MarkRuns.{AreRuns};
ghost use Rattle.raster_cells.specs.LentBytes.{AreValueBytes};
ghost use Rattle.raster_cells.specs.LentMask.{AreBits};
ghost use Rattle.raster_values.specs.Raster.{InShape, IsRaster, valid_count};
ghost use Rattle.raster_values.specs.Block.{ScattersBlock, block_count};
ghost use Rattle.raster_values.specs.Order.{FillsBytes, FillsValid, ScattersBytes};
ghost use Rattle.raster_values.specs.Flat.{PutsFrom, marks_of, value_in};
ghost use Rattle.raster_values.specs.inside.Parts.{AreParts};

use crate::blocks::counting;
use crate::blocks::window::{Channel, Window};
use crate::rasters::lent_cells::{
    clear_masked, fill_over, put_over, put_run_over, scatter_bytes_over, scatter_over,
};
use raster_cells::{
    ByteList, CellBytes, LentMask, OneValue, PixelType, PixelsFrom, Run, ValueSource,
};

/// A raster in a caller's arrays: its mask, a bit for each pixel, row by row and the highest of
/// each byte first, stands, and its values are filled in. They lie as those of `Raster::cells` do:
/// row by row, the depths innermost, in the bytes of the type, little-endian.
///
/// `lent_pixels` is the raster.
#[derive(Drop)]
pub struct RasterMut<'v, 'm> {
    kind: PixelType,
    rows: u32,
    cols: u32,
    depth: u32,
    // How many values there are, of valid pixels and of invalid ones.
    count: usize,
    // How many pixels are valid.
    valid: usize,
    mask: &'m [u8],
    values: &'v mut [u8],
    ghost inside: { AreParts kind rows cols depth count mask.now values.now },
    ghost bits: { AreBits (rows * cols) valid mask.now },
    ghost cells: { AreValueBytes kind count values.now },
}

impl<'v, 'm> RasterMut<'v, 'm> {
    ghost use Rattle.raster_values.specs.RasterMut.{StaysLent, array_of, lent_pixels};

    /// The raster of a type and a shape whose valid pixels are those whose bits of the mask are 1.
    /// Where all are, they have the values that the bytes stand for; else all values are set to 0.
    pub fn over(
        kind: PixelType,
        rows: u32,
        cols: u32,
        depth: u32,
        mask: &'m [u8],
        values: &'v mut [u8],
    ) -> RasterMut<'v, 'm>
        requires shape { IsShape rows cols depth }
        requires mask { length mask.now ≡ (rows * cols + 7) / 8 }
        requires size { length values.old ≡ rows * cols * depth * bytes_of kind }
        ensures kind { (lent_pixels result).kind ≡ kind }
        ensures rows { (lent_pixels result).rows ≡ rows }
        ensures cols { (lent_pixels result).cols ≡ cols }
        ensures depth { (lent_pixels result).depth ≡ depth }
        ensures marks { marks_of (lent_pixels result) ≡ marks_in (rows * cols) mask.now }
        ensures values { (k d : ℕ) → valid_count (lent_pixels result) ≡ rows * cols
            → k < rows * cols → d < depth
            → Spells kind (drop ((k * depth + d) * bytes_of kind) values.old)
            (value_in (lent_pixels result) d k) }
        ensures zeros { (k d : ℕ) → valid_count (lent_pixels result) ≢ rows * cols
            → k < rows * cols → d < depth → value_in (lent_pixels result) d k ≡ pos 0 }
        ensures array { array_of result ≡ values.entry.ghost_name }
    {
        let places = rows as usize * cols as usize;
        let marks = LentMask::over(places, mask);
        let valid = marks.valid_count();
        clear_masked(&marks, kind, depth as usize, values);
        RasterMut {
            kind,
            rows,
            cols,
            depth,
            count: places * depth as usize,
            valid,
            mask,
            values,
        }
    }

    /// The marks.
    fn marks(&self) -> LentMask<'m>
        ensures { result ≡ marks_in (self.now.rows * self.now.cols) self.now.mask.now }
    {
        LentMask::with_count(
            self.rows as usize * self.cols as usize,
            self.valid,
            self.mask,
        )
    }

    /// The type of the values.
    pub fn kind(&self) -> PixelType
        ensures value { result ≡ (lent_pixels self.now).kind }
        ensures sound { IsRaster (lent_pixels self.now) }
    {
        self.kind
    }

    /// The number of rows, at least 1.
    pub fn rows(&self) -> u32
        ensures value { result ≡ (lent_pixels self.now).rows }
        ensures sound { IsRaster (lent_pixels self.now) }
    {
        self.rows
    }

    /// The number of columns, at least 1.
    pub fn cols(&self) -> u32
        ensures value { result ≡ (lent_pixels self.now).cols }
        ensures sound { IsRaster (lent_pixels self.now) }
    {
        self.cols
    }

    /// The number of values of a valid pixel, from 1 to 65,536.
    pub fn depth(&self) -> u32
        ensures value { result ≡ (lent_pixels self.now).depth }
        ensures sound { IsRaster (lent_pixels self.now) }
    {
        self.depth
    }

    /// How many pixels are valid.
    pub fn valid_count(&self) -> u32
        ensures value { result ≡ valid_count (lent_pixels self.now) }
        ensures within { result ≤ (lent_pixels self.now).rows * (lent_pixels self.now).cols }
    {
        self.valid as u32
    }

    /// How many pixels of a block are valid: of the `side` rows and columns from (row, col) on, cut
    /// off at the raster's lower and right edges.
    pub fn block_valid_count(&self, row: u32, col: u32, side: u32) -> usize
        requires place { InShape (lent_pixels self.now) row col }
        ensures value { result ≡ block_count (lent_pixels self.now) row col side }
        ensures within { result ≤ side * side }
    {
        let window = Window::block(self.rows, self.cols, row, col, side);
        counting::count_rows(&self.marks(), window)
    }

    /// The marks of the pixels from number `place` on: the pixels are numbered row by row, from 0.
    pub fn marks_from(&self, place: usize, out: &mut [bool])
        requires place { place + length out.old
            ≤ (lent_pixels self.now).rows * (lent_pixels self.now).cols }
        ensures room { length out.new ≡ length out.old }
        ensures marks { (i : ℕ) → i < length out.old → get_or out.new i false
            ≡ is_some (get_or (lent_pixels self.now).pixels (place + i) None) }
    {
        self.marks().copy_run(place, out);
    }

    /// The next run of valid pixels from number `place` on, before number `limit`, whole. It is
    /// empty, and at `limit`, where there is none.
    pub fn next_run(&self, place: usize, limit: usize) -> Run
        requires order { place ≤ limit }
        requires within { limit ≤ (lent_pixels self.now).rows * (lent_pixels self.now).cols }
        ensures runs { AreRuns (marks_of (lent_pixels self.now)) place result.start result.end }
        ensures within { result.end ≤ limit }
        ensures begins { result.start < limit
            → get_or (marks_of (lent_pixels self.now)) result.start false ≡ true }
        ensures ends { result.end < limit
            → get_or (marks_of (lent_pixels self.now)) result.end false ≡ false }
        ensures forth { place < limit → place < result.end }
    {
        self.marks().next_run(place, limit)
    }

    /// The values at a depth of the pixels from number `place` on, 0 of invalid ones.
    pub fn values_from(&self, place: usize, d: u32, out: &mut [i64])
        requires place { place + length out.old
            ≤ (lent_pixels self.now).rows * (lent_pixels self.now).cols }
        requires depth { d < (lent_pixels self.now).depth }
        ensures room { length out.new ≡ length out.old }
        ensures values { (i : ℕ) → i < length out.old → get_or out.new i (pos 0)
            ≡ value_in (lent_pixels self.now) d (place + i) }
    {
        let values = CellBytes::over(self.kind, self.count, &*self.values);
        let pixels = PixelsFrom {
            first: place,
            depth: self.depth as usize,
            d: d as usize,
        };
        values.get_pixels(pixels, out);
    }

    /// Gives the valid pixels of a block the values that are given, at a depth, row by row. All
    /// else stays.
    pub fn scatter_given<G: ValueSource>(
        &mut self,
        row: u32,
        col: u32,
        side: u32,
        d: u32,
        given: &G,
    )
        requires place { InShape (lent_pixels self.old) row col }
        requires depth { d < (lent_pixels self.old).depth }
        requires count { length (G.listed given.now)
            ≡ block_count (lent_pixels self.old) row col side }
        requires in_range { All (InRange (lent_pixels self.old).kind) (G.listed given.now) }
        ensures scattered { ScattersBlock (lent_pixels self.old) (lent_pixels self.new)
            row col side d (G.listed given.now) }
        ensures stays { StaysLent self.old self.new }
    {
        let window = Window::block(self.rows, self.cols, row, col, side);
        let marks = self.marks();
        let channel = Channel {
            marks: &marks,
            kind: self.kind,
            depth: self.depth as usize,
            d: d as usize,
        };
        scatter_over(&channel, window, self.count, given, self.values);
    }

    /// Gives the valid ones among the pixels from number `place` on these values at a depth, and
    /// changes nothing else. The values at the places of invalid pixels are not looked at.
    pub fn put_from(&mut self, place: usize, d: u32, values: &[i64])
        requires place { place + length values.now
            ≤ (lent_pixels self.old).rows * (lent_pixels self.old).cols }
        requires depth { d < (lent_pixels self.old).depth }
        requires in_range { All (InRange (lent_pixels self.old).kind) values.now }
        ensures put { PutsFrom (lent_pixels self.old) (lent_pixels self.new) place d values.now }
        ensures stays { StaysLent self.old self.new }
    {
        let marks = self.marks();
        let channel = Channel {
            marks: &marks,
            kind: self.kind,
            depth: self.depth as usize,
            d: d as usize,
        };
        put_over(&channel, place, self.count, values, self.values);
    }

    /// Gives the pixels from number `place` on, which are all valid, the values at a depth that the
    /// bytes tell, each by how far it is above the number that is `below` under zero. All else
    /// stays.
    pub fn put_run(&mut self, place: usize, d: u32, below: u8, bytes: &[u8])
        requires place { place + length bytes.now
            ≤ (lent_pixels self.old).rows * (lent_pixels self.old).cols }
        requires depth { d < (lent_pixels self.old).depth }
        requires in_range { All (InRange (lent_pixels self.old).kind)
            (values_above below bytes.now) }
        requires marked { (k : ℕ) → place ≤ k → k < place + length bytes.now
            → get_or (marks_of (lent_pixels self.old)) k false ≡ true }
        ensures put { PutsFrom (lent_pixels self.old) (lent_pixels self.new) place d
            (values_above below bytes.now) }
        ensures stays { StaysLent self.old self.new }
    {
        let marks = self.marks();
        let channel = Channel {
            marks: &marks,
            kind: self.kind,
            depth: self.depth as usize,
            d: d as usize,
        };
        let given = ByteList { bytes, below };
        put_run_over(&channel, place, self.count, &given, self.values);
    }

    /// Gives each valid pixel this one value at each depth. All else stays.
    pub fn fill_value(&mut self, value: i64)
        requires in_range { InRange (lent_pixels self.old).kind value }
        ensures filled { FillsValid (lent_pixels self.old) (lent_pixels self.new)
            (replicate (lent_pixels self.old).depth value) }
        ensures stays { StaysLent self.old self.new }
    {
        let depth = self.depth;
        self.fill_given(&OneValue {
            value,
            count: depth as usize,
        });
    }

    /// Gives each valid pixel the list of values that the bytes stand for, one for each depth. All
    /// else stays.
    pub fn fill_bytes(&mut self, bytes: &[u8])
        requires size { length bytes.now
            ≡ (lent_pixels self.old).depth * bytes_of (lent_pixels self.old).kind }
        ensures filled { FillsBytes (lent_pixels self.old) (lent_pixels self.new) bytes.now }
        ensures stays { StaysLent self.old self.new }
    {
        let depth = self.depth;
        let list = CellBytes::over(self.kind, depth as usize, bytes);
        self.fill_given(&list);
    }

    /// Gives each valid pixel the list of values that is given, one for each depth.
    fn fill_given<G: ValueSource>(&mut self, given: &G)
        requires count { length (G.listed given.now) ≡ (lent_pixels self.old).depth }
        requires in_range { All (InRange (lent_pixels self.old).kind) (G.listed given.now) }
        ensures filled { FillsValid (lent_pixels self.old) (lent_pixels self.new)
            (G.listed given.now) }
        ensures stays { StaysLent self.old self.new }
    {
        let marks = self.marks();
        fill_over(&marks, self.kind, self.count, given, self.values);
    }

    /// Gives the valid pixels the values that the bytes stand for, pixel by pixel and depth
    /// innermost. All else stays.
    pub fn scatter(&mut self, bytes: &[u8])
        requires size { length bytes.now ≡ valid_count (lent_pixels self.old)
            * (lent_pixels self.old).depth * bytes_of (lent_pixels self.old).kind }
        ensures scattered { ScattersBytes (lent_pixels self.old) (lent_pixels self.new) bytes.now }
        ensures stays { StaysLent self.old self.new }
    {
        let marks = self.marks();
        let depth = self.depth as usize;
        scatter_bytes_over(&marks, self.kind, depth, self.count, bytes, self.values);
    }
}
