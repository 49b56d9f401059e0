//! A raster that is read where it lies in a caller's arrays.

ghost use Rattle.std.specs.Prelude.{◌≡◌, ◌↔◌, ◌+◌, ◌*◌, ◌/◌, ◌<◌, ◌≤◌, ◌++◌, ℕ, ℤ, [], None, Some, IsNone, drop, false, get_or, is_some, length, map, pos, replicate, true};
ghost use Rattle.lane_kernels.specs.Kernels.{IsLeast, IsGreatest};
ghost use Rattle.raster_cells.specs.PixelType.{Spells, bytes_of};
ghost use Rattle.raster_values.specs.Raster.{InShape, IsRaster, valid_count, values_of};
ghost use Rattle.raster_cells.specs.Shapes.{IsShape};
ghost use Rattle.raster_values.specs.Block.{block_count, block_values};
ghost use Rattle.raster_values.specs.Order.{IsMaskOf};
ghost use Rattle.raster_cells.specs.Masks.{marks_in, mask_bit};
ghost use Rattle.raster_values.specs.Flat.{all_values, depth_values, marks_of, valid_from, value_in, values_among};
ghost use Rattle.raster_cells.specs.Words.{AreMarks};
ghost use Rattle.raster_cells.specs.Values.{values_bytes};
ghost use Rattle.raster_cells.specs.Distance.{distance_of};

use crate::blocks::window::{Plane, Window};
use crate::blocks::{gathering, numbered, order, ranging};
use raster_cells::{CellBytes, LentMask, PixelType};
use std::marker::Model;

/// A raster in a caller's arrays, which are read and not changed: its values lie as those of
/// `Raster::cells` do, row by row, the depths innermost, in the bytes of the type, little-endian.
/// At the places of invalid pixels any bytes may stand. A contract sees it as its `Pixels`.
#[derive(Drop)]
pub struct RasterRef<'v, 'm> {
    rows: u32,
    cols: u32,
    depth: u32,
    marks: LentMask<'m>,
    values: CellBytes<'v>,
}

impl<'v, 'm> Model for RasterRef<'v, 'm> {
    ghost use Rattle.raster_values.specs.Raster.{Pixels};

    ghost Value = { Pixels };

    ghost use Rattle.raster_values.specs.inside.RasterRefView.{seen_there, AreSeen};

    ghost view = { seen_there };

    ghost invariant = { AreSeen };
}

impl<'v, 'm> RasterRef<'v, 'm> {
    /// The raster of a type and a shape whose valid pixels are those whose bits of the mask are 1,
    /// with the values that the bytes stand for. The bits go row by row, the highest of each byte
    /// first; those behind the last pixel are not looked at.
    pub fn over(
        kind: PixelType,
        rows: u32,
        cols: u32,
        depth: u32,
        mask: &'m [u8],
        values: &'v [u8],
    ) -> RasterRef<'v, 'm>
        requires shape { IsShape rows cols depth }
        requires mask { length mask.now ≡ (rows * cols + 7) / 8 }
        requires size { length values.now ≡ rows * cols * depth * bytes_of kind }
        ensures sound { IsRaster result }
        ensures kind { result.kind ≡ kind }
        ensures rows { result.rows ≡ rows }
        ensures cols { result.cols ≡ cols }
        ensures depth { result.depth ≡ depth }
        ensures marks { marks_of result ≡ marks_in (rows * cols) mask.now }
        ensures values { (k d : ℕ) → k < rows * cols → d < depth → mask_bit mask.now k ≡ true
            → Spells kind (drop ((k * depth + d) * bytes_of kind) values.now)
            (value_in result d k) }
    {
        let places = rows as usize * cols as usize;
        RasterRef {
            rows,
            cols,
            depth,
            marks: LentMask::over(places, mask),
            values: CellBytes::over(kind, places * depth as usize, values),
        }
    }

    /// The raster of a type and a shape of which every pixel is valid, with the values that the
    /// bytes stand for.
    pub fn whole(
        kind: PixelType,
        rows: u32,
        cols: u32,
        depth: u32,
        values: &'v [u8],
    ) -> RasterRef<'v, 'm>
        requires shape { IsShape rows cols depth }
        requires size { length values.now ≡ rows * cols * depth * bytes_of kind }
        ensures sound { IsRaster result }
        ensures kind { result.kind ≡ kind }
        ensures rows { result.rows ≡ rows }
        ensures cols { result.cols ≡ cols }
        ensures depth { result.depth ≡ depth }
        ensures marks { marks_of result ≡ replicate (rows * cols) true }
        ensures values { (k d : ℕ) → k < rows * cols → d < depth
            → Spells kind (drop ((k * depth + d) * bytes_of kind) values.now)
            (value_in result d k) }
    {
        let places = rows as usize * cols as usize;
        RasterRef {
            rows,
            cols,
            depth,
            marks: LentMask::whole(places),
            values: CellBytes::over(kind, places * depth as usize, values),
        }
    }

    /// The type of the values.
    pub fn kind(&self) -> PixelType
        ensures value { result ≡ self.now.kind }
        ensures sound { IsRaster self.now }
    {
        self.values.kind()
    }

    /// The number of rows, at least 1.
    pub fn rows(&self) -> u32
        ensures value { result ≡ self.now.rows }
        ensures sound { IsRaster self.now }
    {
        self.rows
    }

    /// The number of columns, at least 1.
    pub fn cols(&self) -> u32
        ensures value { result ≡ self.now.cols }
        ensures sound { IsRaster self.now }
    {
        self.cols
    }

    /// The number of values of a valid pixel, from 1 to 65,536.
    pub fn depth(&self) -> u32
        ensures value { result ≡ self.now.depth }
        ensures sound { IsRaster self.now }
    {
        self.depth
    }

    /// How many pixels are valid.
    pub fn valid_count(&self) -> u32
        ensures value { result ≡ valid_count self.now }
        ensures within { result ≤ self.now.rows * self.now.cols }
    {
        self.marks.valid_count() as u32
    }

    /// Puts the values at a depth of a block's valid pixels in front of `out`, row by row and each
    /// by how far it is above the type's least, and answers how many these are. The rest of `out`
    /// stays.
    pub fn gather_distances(&self, row: u32, col: u32, side: u32, d: u32, out: &mut [u32]) -> usize
        requires place { InShape self.now row col }
        requires depth { d < self.now.depth }
        requires room { side * side ≤ length out.old }
        ensures count { result ≡ block_count self.now row col side }
        ensures within { result ≤ side * side }
        ensures distances { out.new
            ≡ map (distance_of self.now.kind) (block_values self.now row col side d)
            ++ drop (block_count self.now row col side) out.old }
    {
        let window = Window::block(self.rows, self.cols, row, col, side);
        let plane = Plane {
            marks: &self.marks,
            samples: &self.values,
            kind: self.values.kind(),
            depth: self.depth as usize,
            d: d as usize,
        };
        gathering::gather_rows(&plane, window, out)
    }

    /// The least and the greatest value of the valid pixels at a depth, in this order; None exactly
    /// where no pixel is valid.
    pub fn range(&self, d: u32) -> Option<(i64, i64)>
        requires { d < self.now.depth }
        ensures found { (least greatest : ℤ) → (result ≡ Some (least, greatest))
            ↔ (IsLeast (depth_values self.now d) least
            × IsGreatest (depth_values self.now d) greatest) }
        ensures empty { IsNone result ↔ (depth_values self.now d ≡ []) }
        ensures none { IsNone result ↔ (valid_count self.now ≡ 0) }
    {
        let plane = Plane {
            marks: &self.marks,
            samples: &self.values,
            kind: self.values.kind(),
            depth: self.depth as usize,
            d: d as usize,
        };
        ranging::range_of(&plane)
    }

    /// The marks of the pixels from number `place` on: the pixels are numbered row by row, from 0.
    pub fn marks_from(&self, place: usize, out: &mut [bool])
        requires { place + length out.old ≤ self.now.rows * self.now.cols }
        ensures room { length out.new ≡ length out.old }
        ensures marks { (i : ℕ) → i < length out.old → get_or out.new i false
            ≡ is_some (get_or self.now.pixels (place + i) None) }
    {
        self.marks.copy_run(place, out);
    }

    /// The values at a depth of the pixels from number `place` on, 0 of invalid ones.
    pub fn values_from(&self, place: usize, d: u32, out: &mut [i64])
        requires place { place + length out.old ≤ self.now.rows * self.now.cols }
        requires depth { d < self.now.depth }
        ensures room { length out.new ≡ length out.old }
        ensures values { (i : ℕ) → i < length out.old → get_or out.new i (pos 0)
            ≡ value_in self.now d (place + i) }
    {
        let plane = Plane {
            marks: &self.marks,
            samples: &self.values,
            kind: self.values.kind(),
            depth: self.depth as usize,
            d: d as usize,
        };
        numbered::get_marked(&plane, place, out);
    }

    /// Puts the values at a depth of the valid ones among `count` pixels from number `place` on in
    /// front of `out`, in order and each by how far it is above the type's least, and answers how
    /// many these are. The rest of `out` stays.
    pub fn gather_from(&self, place: usize, count: usize, d: u32, out: &mut [u32]) -> usize
        requires place { place + count ≤ self.now.rows * self.now.cols }
        requires depth { d < self.now.depth }
        requires room { count ≤ length out.old }
        ensures count { result ≡ length (valid_from self.now place count) }
        ensures within { result ≤ count }
        ensures distances { out.new
            ≡ map (distance_of self.now.kind) (values_among self.now d place count)
            ++ drop result out.old }
    {
        let plane = Plane {
            marks: &self.marks,
            samples: &self.values,
            kind: self.values.kind(),
            depth: self.depth as usize,
            d: d as usize,
        };
        gathering::gather_pixels(&plane, place, count, out)
    }

    /// The marks of `count` pixels from number `place` on, at most 32, as the bits of one number,
    /// the first as the highest.
    pub fn mark_word(&self, place: usize, count: usize) -> u32
        requires some { 0 < count }
        requires few { count ≤ 32 }
        requires place { place + count ≤ self.now.rows * self.now.cols }
        ensures marks { AreMarks (marks_of self.now) place count result }
    {
        self.marks.word(place, count)
    }

    /// Writes the bytes of the valid pixels' values, pixel by pixel and depth innermost.
    pub fn value_bytes(&self, out: &mut [u8])
        requires { length out.old
            ≡ valid_count self.now * self.now.depth * bytes_of self.now.kind }
        ensures { out.new ≡ values_bytes self.now.kind (values_of self.now.pixels) }
    {
        order::write_valid(&self.marks, self.depth as usize, &self.values, out);
    }

    /// Writes the raster's mask: a bit for each pixel, row by row and the highest of each byte
    /// first, 1 for a valid one. The bits behind the last pixel are 0.
    pub fn mask_bytes(&self, out: &mut [u8])
        requires { length out.old ≡ (self.now.rows * self.now.cols + 7) / 8 }
        ensures { IsMaskOf self.now out.new }
    {
        self.marks.write_bits(out);
    }

    /// The bytes of the mask where they lie, of a raster of which not every pixel is valid: a bit
    /// for each pixel, row by row and the highest of each byte first, 1 for a valid one. The bits
    /// behind the last pixel, which are fewer than eight, are any: a caller may have set them.
    pub fn mask_slice(&self) -> &[u8]
        requires { valid_count self.now < self.now.rows * self.now.cols }
        ensures size { length result.now ≡ (self.now.rows * self.now.cols + 7) / 8 }
        ensures bits { (k : ℕ) → k < self.now.rows * self.now.cols
            → mask_bit result.now k ≡ is_some (get_or self.now.pixels k None) }
    {
        self.marks.bytes()
    }

    /// The bytes of the values of all pixels, row by row and depth innermost, as they lie in the
    /// caller's array, of a raster of which every pixel is valid.
    pub fn cells(&self) -> &[u8]
        requires { valid_count self.now ≡ self.now.rows * self.now.cols }
        ensures bytes { result.now ≡ values_bytes self.now.kind (all_values self.now) }
        ensures size { length result.now
            ≡ self.now.rows * self.now.cols * self.now.depth * bytes_of self.now.kind }
    {
        self.values.bytes()
    }
}
