//! A raster that is read where it lies in a caller's arrays.

ghost use Rattle.std.specs.Prelude.{◌≡◌};
ghost use Rattle.raster_values.specs.Raster.{Pixels};

use crate::view::View;
use raster_values::{PixelType, RasterRef};

impl<'v, 'm> View for RasterRef<'v, 'm> {
    ghost pixels = { λ r. r };

    fn kind(&self) -> PixelType {
        RasterRef::kind(self)
    }

    fn rows(&self) -> u32 {
        RasterRef::rows(self)
    }

    fn cols(&self) -> u32 {
        RasterRef::cols(self)
    }

    fn depth(&self) -> u32 {
        RasterRef::depth(self)
    }

    fn valid_count(&self) -> u32 {
        RasterRef::valid_count(self)
    }

    fn gather_distances(&self, row: u32, col: u32, side: u32, d: u32, out: &mut [u32]) -> usize {
        RasterRef::gather_distances(self, row, col, side, d, out)
    }

    fn range(&self, d: u32) -> Option<(i64, i64)> {
        RasterRef::range(self, d)
    }

    fn marks_from(&self, place: usize, out: &mut [bool]) {
        RasterRef::marks_from(self, place, out);
    }

    fn values_from(&self, place: usize, d: u32, out: &mut [i64]) {
        RasterRef::values_from(self, place, d, out);
    }

    fn gather_from(&self, place: usize, count: usize, d: u32, out: &mut [u32]) -> usize {
        RasterRef::gather_from(self, place, count, d, out)
    }

    fn mark_word(&self, place: usize, count: usize) -> u32 {
        RasterRef::mark_word(self, place, count)
    }

    fn value_bytes(&self, out: &mut [u8]) {
        RasterRef::value_bytes(self, out);
    }

    fn mask_bytes(&self, out: &mut [u8]) {
        RasterRef::mask_bytes(self, out);
    }

    fn mask_slice(&self) -> &[u8] {
        RasterRef::mask_slice(self)
    }

    fn cells(&self) -> &[u8] {
        RasterRef::cells(self)
    }
}
