//! What reads a raster sees of it.

ghost use Rattle.std.specs.Prelude.{◌≡◌, ◌+◌, ◌*◌, ◌/◌, ◌<◌, ◌≤◌, ◌↔◌, ◌++◌, ℕ, ℤ, pos, false, [], None, Some, IsNone, is_some, get_or, length, drop, map};
ghost use Rattle.raster_cells.specs.PixelType.{bytes_of};
ghost use Rattle.raster_values.specs.Raster.{Pixels, IsRaster, InShape, valid_count, values_of};
ghost use Rattle.raster_values.specs.Block.{block_count, block_values};
ghost use Rattle.raster_values.specs.Order.{IsMaskOf};
ghost use Rattle.raster_cells.specs.Masks.{mask_bit};
ghost use Rattle.raster_values.specs.Flat.{all_values, depth_values, marks_of, valid_from, value_in, values_among};
ghost use Rattle.raster_cells.specs.Words.{AreMarks};
ghost use Rattle.raster_cells.specs.Values.{values_bytes};
ghost use Rattle.raster_cells.specs.Distance.{distance_of};
ghost use Rattle.lane_kernels.specs.Kernels.{IsLeast, IsGreatest};

use raster_values::PixelType;

/// A raster that is read, however it is kept.
pub trait View {
    /// The raster.
    ghost pixels: { Self → Pixels };

    /// The type of the values.
    fn kind(&self) -> PixelType
        ensures value { result ≡ (pixels self.now).kind }
        ensures sound { IsRaster (pixels self.now) };

    /// The number of rows, at least 1.
    fn rows(&self) -> u32
        ensures value { result ≡ (pixels self.now).rows }
        ensures sound { IsRaster (pixels self.now) };

    /// The number of columns, at least 1.
    fn cols(&self) -> u32
        ensures value { result ≡ (pixels self.now).cols }
        ensures sound { IsRaster (pixels self.now) };

    /// The number of values of a valid pixel, from 1 to 65,536.
    fn depth(&self) -> u32
        ensures value { result ≡ (pixels self.now).depth }
        ensures sound { IsRaster (pixels self.now) };

    /// How many pixels are valid.
    fn valid_count(&self) -> u32
        ensures value { result ≡ valid_count (pixels self.now) }
        ensures within { result ≤ (pixels self.now).rows * (pixels self.now).cols };

    /// Puts the values at a depth of a block's valid pixels in front of `out`, row by row and each
    /// by how far it is above the type's least, and answers how many these are. The rest of `out`
    /// stays.
    fn gather_distances(&self, row: u32, col: u32, side: u32, d: u32, out: &mut [u32]) -> usize
        requires place { InShape (pixels self.now) row col }
        requires depth { d < (pixels self.now).depth }
        requires room { side * side ≤ length out.old }
        ensures count { result ≡ block_count (pixels self.now) row col side }
        ensures within { result ≤ side * side }
        ensures distances { out.new
            ≡ map (distance_of (pixels self.now).kind)
            (block_values (pixels self.now) row col side d)
            ++ drop (block_count (pixels self.now) row col side) out.old };

    /// The least and the greatest value of the valid pixels at a depth, in this order; None exactly
    /// where no pixel is valid.
    fn range(&self, d: u32) -> Option<(i64, i64)>
        requires { d < (pixels self.now).depth }
        ensures found { (least greatest : ℤ) → (result ≡ Some (least, greatest))
            ↔ (IsLeast (depth_values (pixels self.now) d) least
            × IsGreatest (depth_values (pixels self.now) d) greatest) }
        ensures empty { IsNone result ↔ (depth_values (pixels self.now) d ≡ []) }
        ensures none { IsNone result ↔ (valid_count (pixels self.now) ≡ 0) };

    /// The marks of the pixels from number `place` on: the pixels are numbered row by row, from 0.
    fn marks_from(&self, place: usize, out: &mut [bool])
        requires { place + length out.old ≤ (pixels self.now).rows * (pixels self.now).cols }
        ensures room { length out.new ≡ length out.old }
        ensures marks { (i : ℕ) → i < length out.old → get_or out.new i false
            ≡ is_some (get_or (pixels self.now).pixels (place + i) None) };

    /// The values at a depth of the pixels from number `place` on, 0 of invalid ones.
    fn values_from(&self, place: usize, d: u32, out: &mut [i64])
        requires place { place + length out.old ≤ (pixels self.now).rows * (pixels self.now).cols }
        requires depth { d < (pixels self.now).depth }
        ensures room { length out.new ≡ length out.old }
        ensures values { (i : ℕ) → i < length out.old → get_or out.new i (pos 0)
            ≡ value_in (pixels self.now) d (place + i) };

    /// Puts the values at a depth of the valid ones among `count` pixels from number `place` on in
    /// front of `out`, in order and each by how far it is above the type's least, and answers how
    /// many these are. The rest of `out` stays.
    fn gather_from(&self, place: usize, count: usize, d: u32, out: &mut [u32]) -> usize
        requires place { place + count ≤ (pixels self.now).rows * (pixels self.now).cols }
        requires depth { d < (pixels self.now).depth }
        requires room { count ≤ length out.old }
        ensures count { result ≡ length (valid_from (pixels self.now) place count) }
        ensures within { result ≤ count }
        ensures distances { out.new
            ≡ map (distance_of (pixels self.now).kind)
            (values_among (pixels self.now) d place count)
            ++ drop result out.old };

    /// The marks of `count` pixels from number `place` on, at most 32, as the bits of one number,
    /// the first as the highest.
    fn mark_word(&self, place: usize, count: usize) -> u32
        requires some { 0 < count }
        requires few { count ≤ 32 }
        requires place { place + count ≤ (pixels self.now).rows * (pixels self.now).cols }
        ensures marks { AreMarks (marks_of (pixels self.now)) place count result };

    /// Writes the bytes of the valid pixels' values, pixel by pixel and depth innermost.
    fn value_bytes(&self, out: &mut [u8])
        requires { length out.old ≡ valid_count (pixels self.now)
            * (pixels self.now).depth * bytes_of (pixels self.now).kind }
        ensures { out.new
            ≡ values_bytes (pixels self.now).kind (values_of (pixels self.now).pixels) };

    /// Writes the raster's mask: a bit for each pixel, row by row and the highest of each byte
    /// first, 1 for a valid one. The bits behind the last pixel are 0.
    fn mask_bytes(&self, out: &mut [u8])
        requires { length out.old ≡ ((pixels self.now).rows * (pixels self.now).cols + 7) / 8 }
        ensures { IsMaskOf (pixels self.now) out.new };

    /// The bytes of the mask where they lie, of a raster of which not every pixel is valid: a bit
    /// for each pixel, row by row and the highest of each byte first, 1 for a valid one. The bits
    /// behind the last pixel, which are fewer than eight, are any.
    fn mask_slice(&self) -> &[u8]
        requires { valid_count (pixels self.now)
            < (pixels self.now).rows * (pixels self.now).cols }
        ensures size { length result.now
            ≡ ((pixels self.now).rows * (pixels self.now).cols + 7) / 8 }
        ensures bits { (k : ℕ) → k < (pixels self.now).rows * (pixels self.now).cols
            → mask_bit result.now k ≡ is_some (get_or (pixels self.now).pixels k None) };

    /// The bytes of the values of all pixels, row by row and depth innermost, as they lie in
    /// memory, of a raster of which every pixel is valid.
    fn cells(&self) -> &[u8]
        requires { valid_count (pixels self.now)
            ≡ (pixels self.now).rows * (pixels self.now).cols }
        ensures bytes { result.now
            ≡ values_bytes (pixels self.now).kind (all_values (pixels self.now)) }
        ensures size { length result.now ≡ (pixels self.now).rows * (pixels self.now).cols
            * (pixels self.now).depth * bytes_of (pixels self.now).kind };
}
