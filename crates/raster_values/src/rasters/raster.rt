ghost use Rattle.std.specs.Prelude.{◌≡◌, ◌+◌, ◌-◌, ◌*◌, ◌<◌, ◌≤◌, ◌↔◌, IfOk, IsErrOf, true, length, replicate, ◌++◌, drop, All, pos, false, get_or, ◌/◌, ℕ, ℤ, [], None, IsNone, map, is_some, IsTrue};
ghost use Rattle.raster_cells.specs.PixelType.{InRange, bytes_of};
ghost use Rattle.raster_values.specs.Raster.{IsRaster, blank, filled, values_of, valid_count, valid_at, value_at, marked, written, InShape, IsValidAt};
ghost use Rattle.raster_cells.specs.Shapes.{HasZero, IsTooLarge, IsShape};
ghost use Rattle.raster_values.specs.Places.{ChangesMark, ChangesValue};
ghost use Rattle.raster_cells.specs.Values.{values_above, values_bytes};
ghost use Rattle.raster_values.specs.Order.{FillsBytes, FillsValid, IsMaskOf, MarksBits, ScattersBytes};
ghost use Rattle.raster_cells.specs.Masks.{mask_bit};
ghost use Rattle.raster_values.specs.Flat.{PutsFrom, PutsAll, all_values, depth_values, marks_of, valid_from, value_in, values_among};
ghost use Rattle.raster_cells.specs.Words as words;
ghost use Rattle.raster_cells.specs.MarkRuns.{AreRuns};
ghost use Rattle.raster_cells.specs.Distance.{distance_of};
ghost use Rattle.lane_kernels.specs.Kernels.{IsLeast, IsGreatest};
ghost use Rattle.lane_kernels.specs.Kernels.{IsStepSize, capped_sums};
ghost use Rattle.raster_values.specs.Block.{block_count, block_values, ScattersBlock};

use crate::blocks::window::{Channel, Plane, Window};
use crate::blocks::{counting, gathering, order, ranging, scattering};
use raster_cells::{
    ByteList, CellBytes, Cells, Mask, OneValue, PixelType, PixelsFrom, Run, ValueSource, is_shape,
};
use std::alloc::{AllocError, Global};
use std::marker::Model;
use thiserror::Error;

/// Why there is no raster of a shape.
#[derive(Debug, Drop, Error)]
pub enum ShapeFault {
    /// The number of rows, columns or depths is 0.
    #[error("bad size")]
    BadSize,
    /// There are more than 65,536 depths, or more than 2^24 values.
    #[error("too large")]
    TooLarge,
    /// There is no memory for the pixels.
    #[error("out of memory")]
    OutOfMemory,
}

impl From<AllocError> for ShapeFault {
    ghost use Rattle.raster_values.specs.declared.rasters.raster.ShapeFault.TheVariants.{OutOfMemory};

    ghost from_gives = { λ _ e. e ≡ OutOfMemory };

    fn from(_: AllocError) -> ShapeFault {
        ShapeFault::OutOfMemory
    }
}

/// A raster: a pixel type, a number of rows, columns and depths, and a set of valid pixels, each of
/// which has one value of the type at each depth.
///
/// There are at least one row, column and depth, at most 65,536 depths, and at most 2^24 values.
/// A contract sees a raster as its `Pixels`.
#[derive(Drop)]
pub struct Raster {
    rows: u32,
    cols: u32,
    depth: u32,
    // Both row by row, the values with the depths innermost. An invalid pixel's values are 0.
    marks: Mask,
    values: Cells,
}

impl Model for Raster {
    ghost use Rattle.raster_values.specs.Raster.{Pixels};

    ghost Value = { Pixels };

    ghost use Rattle.raster_values.specs.View.{seen, IsInside};

    ghost view = { seen };

    ghost invariant = { IsInside };
}

/// Where the value of a pixel at a depth stands.
fn offset(rows: u32, cols: u32, depth: u32, row: u32, col: u32, d: u32) -> usize
    requires row { row < rows }
    requires col { col < cols }
    requires d { d < depth }
    requires size { rows * cols * depth ≤ 16777216 }
    ensures value { result ≡ (row * cols + col) * depth + d }
    ensures below { result + (depth - d) ≤ rows * cols * depth }
{
    (row as usize * cols as usize + col as usize) * depth as usize + d as usize
}

/// How many pixels a raster of a shape has.
fn places_of(rows: u32, cols: u32, depth: u32) -> Result<usize, ShapeFault>
    ensures ok { IfOk result (λ places. (places ≡ rows * cols) × IsShape rows cols depth) }
    ensures bad_size { IsErrOf result ShapeFault.BadSize ↔ HasZero rows cols depth }
    ensures too_large { IsErrOf result ShapeFault.TooLarge
        ↔ (¬ HasZero rows cols depth × IsTooLarge rows cols depth) }
{
    if rows == 0 || cols == 0 || depth == 0 {
        return Err(ShapeFault::BadSize);
    }
    if !is_shape(rows, cols, depth) {
        return Err(ShapeFault::TooLarge);
    }
    Ok(rows as usize * cols as usize)
}

impl Raster {
    ghost use Rattle.raster_values.specs.View.{AreVectors, raster_of};

    /// A raster of which no pixel is valid.
    ///
    /// Each value that a raster may hold takes the bytes of its type, and eight pixels one more.
    /// After a fault no memory is kept.
    pub fn new(
        alloc: Global,
        kind: PixelType,
        rows: u32,
        cols: u32,
        depth: u32,
    ) -> Result<Raster, ShapeFault>
        ensures ok { IfOk result (λ r. r ≡ blank kind rows cols depth) }
        ensures bad_size { IsErrOf result ShapeFault.BadSize ↔ HasZero rows cols depth }
        ensures too_large { IsErrOf result ShapeFault.TooLarge
            ↔ (¬ HasZero rows cols depth × IsTooLarge rows cols depth) }
    {
        let places = places_of(rows, cols, depth)?;
        let marks = Mask::new(alloc, places)?;
        let values = Cells::new(alloc, kind, places * depth as usize)?;
        Ok(Raster {
            rows,
            cols,
            depth,
            marks,
            values,
        })
    }

    /// A raster of which every pixel is valid, with the values that the bytes stand for: they are
    /// laid out as those of `cells`, and copied once.
    ///
    /// It takes the memory that `new` takes. After a fault no memory is kept.
    pub fn from_cells(
        alloc: Global,
        kind: PixelType,
        rows: u32,
        cols: u32,
        depth: u32,
        bytes: &[u8],
    ) -> Result<Raster, ShapeFault>
        requires { length bytes.now ≡ rows * cols * depth * bytes_of kind }
        ensures ok { IfOk result (λ r. IsRaster r
            × PutsAll (filled (blank kind rows cols depth) (pos 0)) r bytes.now) }
        ensures bad_size { IsErrOf result ShapeFault.BadSize ↔ HasZero rows cols depth }
        ensures too_large { IsErrOf result ShapeFault.TooLarge
            ↔ (¬ HasZero rows cols depth × IsTooLarge rows cols depth) }
    {
        let places = places_of(rows, cols, depth)?;
        let mut marks = Mask::new(alloc, places)?;
        marks.fill();
        let values = Cells::of_bytes(alloc, kind, places * depth as usize, bytes)?;
        Ok(Raster {
            rows,
            cols,
            depth,
            marks,
            values,
        })
    }

    /// The type of the values.
    pub fn kind(&self) -> PixelType
        ensures value { result ≡ self.now.kind }
        ensures sound { IsRaster self.now }
    {
        self.values.kind()
    }

    /// The number of rows, at least 1.
    pub fn rows(&self) -> u32
        ensures value { result ≡ self.now.rows }
        ensures sound { IsRaster self.now }
    {
        self.rows
    }

    /// The number of columns, at least 1.
    pub fn cols(&self) -> u32
        ensures value { result ≡ self.now.cols }
        ensures sound { IsRaster self.now }
    {
        self.cols
    }

    /// The number of values of a valid pixel, from 1 to 65,536.
    pub fn depth(&self) -> u32
        ensures value { result ≡ self.now.depth }
        ensures sound { IsRaster self.now }
    {
        self.depth
    }

    /// How many pixels are valid.
    pub fn valid_count(&self) -> u32
        ensures value { result ≡ valid_count self.now }
        ensures within { result ≤ self.now.rows * self.now.cols }
    {
        self.marks.valid_count() as u32
    }

    /// Whether the pixel is valid.
    pub fn is_valid(&self, row: u32, col: u32) -> bool
        requires { InShape self.now row col }
        ensures { result ≡ valid_at self.now row col }
    {
        self.marks
            .get(row as usize * self.cols as usize + col as usize)
    }

    /// The value of the pixel at a depth, and 0 of an invalid pixel.
    pub fn get(&self, row: u32, col: u32, d: u32) -> i64
        requires place { InShape self.now row col }
        requires depth { d < self.now.depth }
        ensures { result ≡ value_at self.now row col d }
    {
        self.values
            .get(offset(self.rows, self.cols, self.depth, row, col, d))
    }

    /// Makes the pixel valid or invalid. A valid pixel that is made valid keeps its values, and an
    /// invalid one gets the value 0 at each depth. All else stays.
    pub fn mark(&mut self, row: u32, col: u32, valid: bool)
        requires { InShape self.old row col }
        ensures after { self.new ≡ marked self.old row col valid }
        ensures changes { ChangesMark self.old self.new row col valid }
    {
        let place = row as usize * self.cols as usize + col as usize;
        let depth = self.depth;
        let at = offset(self.rows, self.cols, depth, row, col, 0);
        self.marks.set(place, valid);
        if !valid {
            self.values.clear(at, depth as usize);
        }
    }

    /// Gives the pixel, which is valid, a value of the raster's type at a depth. All else stays.
    pub fn set(&mut self, row: u32, col: u32, d: u32, value: i64)
        requires place { InShape self.old row col }
        requires depth { d < self.old.depth }
        requires valid { IsValidAt self.old row col }
        requires in_range { InRange self.old.kind value }
        ensures after { self.new ≡ written self.old row col d value }
        ensures changes { ChangesValue self.old self.new row col d value }
    {
        let at = offset(self.rows, self.cols, self.depth, row, col, d);
        self.values.set(at, value);
    }

    /// Makes every pixel valid, with one value of the raster's type at each depth.
    pub fn fill(&mut self, value: i64)
        requires { InRange self.old.kind value }
        ensures { self.new ≡ filled self.old value }
    {
        self.marks.fill();
        self.values.fill(value);
    }

    /// Makes every pixel of a raster of which none is valid valid, with the value 0 at each depth.
    /// The values are 0 already, and are not touched.
    pub fn mark_all(&mut self)
        requires { valid_count self.old ≡ 0 }
        ensures { self.new ≡ filled self.old (pos 0) }
    {
        self.marks.fill();
    }

    /// Makes the pixels of a raster of which none is valid valid where their bit of the mask is 1,
    /// with the value 0 at each depth. The bits go row by row, the highest of each byte first;
    /// those behind the last pixel are not looked at.
    pub fn mark_from_bits(&mut self, mask: &[u8])
        requires none { valid_count self.old ≡ 0 }
        requires size { length mask.now ≡ (self.old.rows * self.old.cols + 7) / 8 }
        ensures marked { MarksBits self.old self.new mask.now }
        ensures sound { IsRaster self.new }
    {
        self.marks.set_all(mask);
    }

    /// How many pixels of a block are valid: of the `side` rows and columns from (row, col) on, cut
    /// off at the raster's lower and right edges.
    pub fn block_valid_count(&self, row: u32, col: u32, side: u32) -> usize
        requires { InShape self.now row col }
        ensures value { result ≡ block_count self.now row col side }
        ensures within { result ≤ side * side }
    {
        let window = Window::block(self.rows, self.cols, row, col, side);
        counting::count_rows(&self.marks, window)
    }

    /// Puts the values at a depth of a block's valid pixels in front of `out`, row by row and each
    /// by how far it is above the type's least, and answers how many these are. The rest of `out`
    /// stays.
    pub fn gather_distances(&self, row: u32, col: u32, side: u32, d: u32, out: &mut [u32]) -> usize
        requires place { InShape self.now row col }
        requires depth { d < self.now.depth }
        requires room { side * side ≤ length out.old }
        ensures count { result ≡ block_count self.now row col side }
        ensures within { result ≤ side * side }
        ensures distances { out.new
            ≡ map (distance_of self.now.kind) (block_values self.now row col side d)
            ++ drop (block_count self.now row col side) out.old }
    {
        let window = Window::block(self.rows, self.cols, row, col, side);
        let marks = self.marks.read();
        let samples = self.values.read();
        let plane = Plane {
            marks: &marks,
            samples: &samples,
            kind: self.values.kind(),
            depth: self.depth as usize,
            d: d as usize,
        };
        gathering::gather_rows(&plane, window, out)
    }

    /// The least and the greatest value of the valid pixels at a depth, in this order; None exactly
    /// where no pixel is valid.
    pub fn range(&self, d: u32) -> Option<(i64, i64)>
        requires { d < self.now.depth }
        ensures found { (least greatest : ℤ) → (result ≡ Some (least, greatest))
            ↔ (IsLeast (depth_values self.now d) least
            × IsGreatest (depth_values self.now d) greatest) }
        ensures empty { IsNone result ↔ (depth_values self.now d ≡ []) }
        ensures none { IsNone result ↔ (valid_count self.now ≡ 0) }
    {
        let marks = self.marks.read();
        let samples = self.values.read();
        let plane = Plane {
            marks: &marks,
            samples: &samples,
            kind: self.values.kind(),
            depth: self.depth as usize,
            d: d as usize,
        };
        ranging::range_of(&plane)
    }

    /// Gives the valid pixels of a block the values that are given, at a depth, row by row. All
    /// else stays.
    pub fn scatter_given<G: ValueSource>(
        &mut self,
        row: u32,
        col: u32,
        side: u32,
        d: u32,
        given: &G,
    )
        requires place { InShape self.old row col }
        requires depth { d < self.old.depth }
        requires count { length (G.listed given.now) ≡ block_count self.old row col side }
        requires in_range { All (InRange self.old.kind) (G.listed given.now) }
        ensures scattered { ScattersBlock self.old self.new row col side d (G.listed given.now) }
        ensures sound { IsRaster self.new }
    {
        let window = Window::block(self.rows, self.cols, row, col, side);
        let channel = Channel {
            marks: &self.marks,
            kind: self.values.kind(),
            depth: self.depth as usize,
            d: d as usize,
        };
        scattering::scatter_rows(&channel, window, given, &mut self.values);
    }

    /// The marks of the pixels from number `place` on: the pixels are numbered row by row, from 0.
    pub fn marks_from(&self, place: usize, out: &mut [bool])
        requires { place + length out.old ≤ self.now.rows * self.now.cols }
        ensures room { length out.new ≡ length out.old }
        ensures marks { (i : ℕ) → i < length out.old → get_or out.new i false
            ≡ is_some (get_or self.now.pixels (place + i) None) }
    {
        self.marks.copy_run(place, out);
    }

    /// The next run of valid pixels from number `place` on, before number `limit`, whole. It is
    /// empty, and at `limit`, where there is none.
    pub fn next_run(&self, place: usize, limit: usize) -> Run
        requires order { place ≤ limit }
        requires within { limit ≤ self.now.rows * self.now.cols }
        ensures runs { AreRuns (marks_of self.now) place result.start result.end }
        ensures within { result.end ≤ limit }
        ensures begins { result.start < limit
            → get_or (marks_of self.now) result.start false ≡ true }
        ensures ends { result.end < limit → get_or (marks_of self.now) result.end false ≡ false }
        ensures forth { place < limit → place < result.end }
    {
        self.marks.next_run(place, limit)
    }

    /// The values at a depth of the pixels from number `place` on, 0 of invalid ones.
    pub fn values_from(&self, place: usize, d: u32, out: &mut [i64])
        requires place { place + length out.old ≤ self.now.rows * self.now.cols }
        requires depth { d < self.now.depth }
        ensures room { length out.new ≡ length out.old }
        ensures values { (i : ℕ) → i < length out.old → get_or out.new i (pos 0)
            ≡ value_in self.now d (place + i) }
    {
        let values = self.values.read();
        let pixels = PixelsFrom {
            first: place,
            depth: self.depth as usize,
            d: d as usize,
        };
        values.get_pixels(pixels, out);
    }

    /// Puts the values at a depth of the valid ones among `count` pixels from number `place` on in
    /// front of `out`, in order and each by how far it is above the type's least, and answers how
    /// many these are. The rest of `out` stays.
    pub fn gather_from(&self, place: usize, count: usize, d: u32, out: &mut [u32]) -> usize
        requires place { place + count ≤ self.now.rows * self.now.cols }
        requires depth { d < self.now.depth }
        requires room { count ≤ length out.old }
        ensures count { result ≡ length (valid_from self.now place count) }
        ensures within { result ≤ count }
        ensures distances { out.new
            ≡ map (distance_of self.now.kind) (values_among self.now d place count)
            ++ drop result out.old }
    {
        let marks = self.marks.read();
        let samples = self.values.read();
        let plane = Plane {
            marks: &marks,
            samples: &samples,
            kind: self.values.kind(),
            depth: self.depth as usize,
            d: d as usize,
        };
        gathering::gather_pixels(&plane, place, count, out)
    }

    /// The marks of `count` pixels from number `place` on, at most 32, as the bits of one number,
    /// the first as the highest.
    pub fn mark_word(&self, place: usize, count: usize) -> u32
        requires some { 0 < count }
        requires few { count ≤ 32 }
        requires place { place + count ≤ self.now.rows * self.now.cols }
        ensures marks { words.AreMarks (marks_of self.now) place count result }
    {
        self.marks.word(place, count)
    }

    /// Gives the valid ones among the pixels from number `place` on these values at a depth, and
    /// changes nothing else. The values at the places of invalid pixels are not looked at.
    pub fn put_from(&mut self, place: usize, d: u32, values: &[i64])
        requires place { place + length values.now ≤ self.old.rows * self.old.cols }
        requires depth { d < self.old.depth }
        requires in_range { All (InRange self.old.kind) values.now }
        ensures put { PutsFrom self.old self.new place d values.now }
        ensures sound { IsRaster self.new }
    {
        let channel = Channel {
            marks: &self.marks,
            kind: self.values.kind(),
            depth: self.depth as usize,
            d: d as usize,
        };
        order::put_values(&channel, place, values, &mut self.values);
    }

    /// Gives the pixels from number `place` on, which are all valid, the values at a depth that the
    /// bytes tell, each by how far it is above the number that is `below` under zero. All else
    /// stays.
    pub fn put_run(&mut self, place: usize, d: u32, below: u8, bytes: &[u8])
        requires place { place + length bytes.now ≤ self.old.rows * self.old.cols }
        requires depth { d < self.old.depth }
        requires in_range { All (InRange self.old.kind) (values_above below bytes.now) }
        requires marked { (k : ℕ) → place ≤ k → k < place + length bytes.now
            → get_or (marks_of self.old) k false ≡ true }
        ensures put { PutsFrom self.old self.new place d (values_above below bytes.now) }
        ensures sound { IsRaster self.new }
    {
        let channel = Channel {
            marks: &self.marks,
            kind: self.values.kind(),
            depth: self.depth as usize,
            d: d as usize,
        };
        let given = ByteList { bytes, below };
        order::put_run(&channel, place, &given, &mut self.values);
    }

    /// Gives each valid pixel this one value at each depth. All else stays.
    pub fn fill_value(&mut self, value: i64)
        requires { InRange self.old.kind value }
        ensures filled { FillsValid self.old self.new (replicate self.old.depth value) }
        ensures sound { IsRaster self.new }
    {
        let depth = self.depth;
        self.fill_given(&OneValue {
            value,
            count: depth as usize,
        });
    }

    /// Gives each valid pixel the list of values that the bytes stand for, one for each depth. All
    /// else stays.
    pub fn fill_bytes(&mut self, bytes: &[u8])
        requires { length bytes.now ≡ self.old.depth * bytes_of self.old.kind }
        ensures filled { FillsBytes self.old self.new bytes.now }
        ensures sound { IsRaster self.new }
    {
        let depth = self.depth;
        let list = CellBytes::over(self.values.kind(), depth as usize, bytes);
        self.fill_given(&list);
    }

    /// Gives each valid pixel the list of values that is given, one for each depth.
    fn fill_given<G: ValueSource>(&mut self, given: &G)
        requires count { length (G.listed given.now) ≡ self.old.depth }
        requires in_range { All (InRange self.old.kind) (G.listed given.now) }
        ensures filled { FillsValid self.old self.new (G.listed given.now) }
        ensures sound { IsRaster self.new }
    {
        order::fill_marked(&self.marks, given, &mut self.values);
    }

    /// Gives the valid pixels the values that the bytes stand for, pixel by pixel and depth
    /// innermost. All else stays.
    pub fn scatter(&mut self, bytes: &[u8])
        requires { length bytes.now
            ≡ valid_count self.old * self.old.depth * bytes_of self.old.kind }
        ensures scattered { ScattersBytes self.old self.new bytes.now }
        ensures sound { IsRaster self.new }
    {
        let depth = self.depth;
        order::scatter_bytes(&self.marks, depth as usize, bytes, &mut self.values);
    }

    /// Writes the bytes of the valid pixels' values, pixel by pixel and depth innermost.
    pub fn value_bytes(&self, out: &mut [u8])
        requires { length out.old
            ≡ valid_count self.now * self.now.depth * bytes_of self.now.kind }
        ensures { out.new ≡ values_bytes self.now.kind (values_of self.now.pixels) }
    {
        let marks = self.marks.read();
        let values = self.values.read();
        order::write_valid(&marks, self.depth as usize, &values, out);
    }

    /// Writes the raster's mask: a bit for each pixel, row by row and the highest of each byte
    /// first, 1 for a valid one. The bits behind the last pixel are 0.
    pub fn mask_bytes(&self, out: &mut [u8])
        requires { length out.old ≡ (self.now.rows * self.now.cols + 7) / 8 }
        ensures { IsMaskOf self.now out.new }
    {
        out.copy_from_slice(self.marks.bytes());
    }

    /// The bytes of the mask where they lie, of a raster of which not every pixel is valid: a bit
    /// for each pixel, row by row and the highest of each byte first, 1 for a valid one. The bits
    /// behind the last pixel, which are fewer than eight, are any.
    pub fn mask_slice(&self) -> &[u8]
        requires { valid_count self.now < self.now.rows * self.now.cols }
        ensures size { length result.now ≡ (self.now.rows * self.now.cols + 7) / 8 }
        ensures bits { (k : ℕ) → k < self.now.rows * self.now.cols
            → mask_bit result.now k ≡ is_some (get_or self.now.pixels k None) }
    {
        self.marks.bytes()
    }

    /// Whether the same pixels are valid as in another raster, by their numbers.
    pub fn has_mask_of(&self, other: &Raster) -> bool
        ensures { IsTrue result ↔ (marks_of self.now ≡ marks_of other.now) }
    {
        self.marks.is_same(&other.marks)
    }

    /// The bytes of the values of all pixels, row by row and depth innermost, as they lie in
    /// memory: those of an invalid pixel are 0.
    pub fn cells(&self) -> &[u8]
        ensures bytes { result.now ≡ values_bytes self.now.kind (all_values self.now) }
        ensures size { length result.now
            ≡ self.now.rows * self.now.cols * self.now.depth * bytes_of self.now.kind }
    {
        self.values.bytes()
    }

    /// Gives the valid pixels the values that these bytes stand for, which are laid out as those of
    /// `cells`. What stands at the places of invalid pixels is not looked at. All else stays.
    pub fn put_cells(&mut self, bytes: &[u8])
        requires { length bytes.now
            ≡ self.old.rows * self.old.cols * self.old.depth * bytes_of self.old.kind }
        ensures put { PutsAll self.old self.new bytes.now }
        ensures sound { IsRaster self.new }
    {
        let depth = self.depth;
        order::put_cells(&self.marks, depth as usize, bytes, &mut self.values);
    }

    /// A raster equal to this one.
    pub fn copy(&self, alloc: Global) -> Result<Raster, AllocError>
        ensures { IfOk result (λ r. r ≡ self.now) }
    {
        Ok(Raster {
            rows: self.rows,
            cols: self.cols,
            depth: self.depth,
            marks: self.marks.copy(alloc)?,
            values: self.values.copy(alloc)?,
        })
    }

    /// The raster of these marks and values, which has so many rows, columns and depths.
    pub fn of_parts(rows: u32, cols: u32, depth: u32, marks: Mask, values: Cells) -> Raster
        requires { AreVectors rows cols depth marks values }
        ensures value { result ≡ raster_of rows cols depth marks values }
        ensures sound { IsRaster result }
    {
        Raster {
            rows,
            cols,
            depth,
            marks,
            values,
        }
    }

    /// Its marks.
    pub fn mask(&self) -> &Mask
        ensures { result.now ≡ marks_of self.now }
    {
        &self.marks
    }

    /// Its values, of valid pixels and of invalid ones.
    pub fn samples(&self) -> &Cells
        ensures value { self.now
            ≡ raster_of self.now.rows self.now.cols self.now.depth (marks_of self.now) result.now }
        ensures vectors { AreVectors self.now.rows self.now.cols self.now.depth
            (marks_of self.now) result.now }
    {
        &self.values
    }
}
