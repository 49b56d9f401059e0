//! A raster of `raster_values`, which keeps its values itself.

ghost use Rattle.std.specs.Prelude.{◌≡◌};
ghost use Rattle.raster_values.specs.Raster.{Pixels};

use crate::target::Target;
use crate::view::View;
use raster_cells::ValueSource;
use raster_values::{PixelType, Raster, Run};

impl Target for Raster {
    ghost pixels = { λ r. r };

    ghost Kept = { Unit {0} };

    ghost kept = { λ r. tt };

    fn kind(&self) -> PixelType {
        Raster::kind(self)
    }

    fn rows(&self) -> u32 {
        Raster::rows(self)
    }

    fn cols(&self) -> u32 {
        Raster::cols(self)
    }

    fn depth(&self) -> u32 {
        Raster::depth(self)
    }

    fn block_valid_count(&self, row: u32, col: u32, side: u32) -> usize {
        Raster::block_valid_count(self, row, col, side)
    }

    fn marks_from(&self, place: usize, out: &mut [bool]) {
        Raster::marks_from(self, place, out);
    }

    fn next_run(&self, place: usize, limit: usize) -> Run {
        Raster::next_run(self, place, limit)
    }

    fn values_from(&self, place: usize, d: u32, out: &mut [i64]) {
        Raster::values_from(self, place, d, out);
    }

    fn scatter_given<G: ValueSource>(&mut self, row: u32, col: u32, side: u32, d: u32, given: &G) {
        Raster::scatter_given(self, row, col, side, d, given);
    }

    fn put_from(&mut self, place: usize, d: u32, values: &[i64]) {
        Raster::put_from(self, place, d, values);
    }

    fn put_run(&mut self, place: usize, d: u32, below: u8, bytes: &[u8]) {
        Raster::put_run(self, place, d, below, bytes);
    }

    fn fill_value(&mut self, value: i64) {
        Raster::fill_value(self, value);
    }

    fn fill_bytes(&mut self, bytes: &[u8]) {
        Raster::fill_bytes(self, bytes);
    }

    fn scatter(&mut self, bytes: &[u8]) {
        Raster::scatter(self, bytes);
    }
}

impl View for Raster {
    ghost pixels = { λ r. r };

    fn kind(&self) -> PixelType {
        Raster::kind(self)
    }

    fn rows(&self) -> u32 {
        Raster::rows(self)
    }

    fn cols(&self) -> u32 {
        Raster::cols(self)
    }

    fn depth(&self) -> u32 {
        Raster::depth(self)
    }

    fn valid_count(&self) -> u32 {
        Raster::valid_count(self)
    }

    fn gather_distances(&self, row: u32, col: u32, side: u32, d: u32, out: &mut [u32]) -> usize {
        Raster::gather_distances(self, row, col, side, d, out)
    }

    fn range(&self, d: u32) -> Option<(i64, i64)> {
        Raster::range(self, d)
    }

    fn marks_from(&self, place: usize, out: &mut [bool]) {
        Raster::marks_from(self, place, out);
    }

    fn values_from(&self, place: usize, d: u32, out: &mut [i64]) {
        Raster::values_from(self, place, d, out);
    }

    fn gather_from(&self, place: usize, count: usize, d: u32, out: &mut [u32]) -> usize {
        Raster::gather_from(self, place, count, d, out)
    }

    fn mark_word(&self, place: usize, count: usize) -> u32 {
        Raster::mark_word(self, place, count)
    }

    fn value_bytes(&self, out: &mut [u8]) {
        Raster::value_bytes(self, out);
    }

    fn mask_bytes(&self, out: &mut [u8]) {
        Raster::mask_bytes(self, out);
    }

    fn mask_slice(&self) -> &[u8] {
        Raster::mask_slice(self)
    }

    fn cells(&self) -> &[u8] {
        Raster::cells(self)
    }
}
