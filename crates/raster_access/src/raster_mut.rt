//! A raster of `raster_values` whose mask and values lie in a caller's arrays.

use crate::target::Target;
use raster_cells::ValueSource;
use raster_values::{PixelType, RasterMut, Run};

impl<'v, 'm> Target for RasterMut<'v, 'm> {
    ghost use Rattle.raster_values.specs.RasterMut.{Frame, frame_of, lent_pixels};

    ghost pixels = { lent_pixels };

    ghost Kept = { Frame };

    ghost kept = { frame_of };

    fn kind(&self) -> PixelType {
        RasterMut::kind(self)
    }

    fn rows(&self) -> u32 {
        RasterMut::rows(self)
    }

    fn cols(&self) -> u32 {
        RasterMut::cols(self)
    }

    fn depth(&self) -> u32 {
        RasterMut::depth(self)
    }

    fn block_valid_count(&self, row: u32, col: u32, side: u32) -> usize {
        RasterMut::block_valid_count(self, row, col, side)
    }

    fn marks_from(&self, place: usize, out: &mut [bool]) {
        RasterMut::marks_from(self, place, out);
    }

    fn next_run(&self, place: usize, limit: usize) -> Run {
        RasterMut::next_run(self, place, limit)
    }

    fn values_from(&self, place: usize, d: u32, out: &mut [i64]) {
        RasterMut::values_from(self, place, d, out);
    }

    fn scatter_given<G: ValueSource>(&mut self, row: u32, col: u32, side: u32, d: u32, given: &G) {
        RasterMut::scatter_given(self, row, col, side, d, given);
    }

    fn put_from(&mut self, place: usize, d: u32, values: &[i64]) {
        RasterMut::put_from(self, place, d, values);
    }

    fn put_run(&mut self, place: usize, d: u32, below: u8, bytes: &[u8]) {
        RasterMut::put_run(self, place, d, below, bytes);
    }

    fn fill_value(&mut self, value: i64) {
        RasterMut::fill_value(self, value);
    }

    fn fill_bytes(&mut self, bytes: &[u8]) {
        RasterMut::fill_bytes(self, bytes);
    }

    fn scatter(&mut self, bytes: &[u8]) {
        RasterMut::scatter(self, bytes);
    }
}
