//! Rasters: of their own pixels, in a caller's arrays, and the bands of a tile. This crate stands
//! on raster_cells, lane_kernels and thiserror.
//!
//! The contract that the layers above use: a raster is a pixel type, a shape, a set of valid places
//! and their values. `mark` and `set` change one place and nothing else, and `fill` changes all of
//! them.
#![tactic(auto)]

mod blocks;
mod laws;
mod rasters;

pub use laws::{
    all_blocks_give, block_has_count, blocks_determine, blocks_partition, by_place,
    cells_are_values, determined, given_blocks_are_there, in_order_is_a_raster, marks_one_place,
    numbers_are_places, order_is_one, scattering_is_one, scattering_leaves_others,
    values_may_change, writes_one_value,
};
pub use raster_cells::{
    GREATEST_BANDS, GREATEST_DEPTH, GREATEST_VALUES, PixelType, Run, clear_bits, clear_spare,
    count_marked, is_shape, set_bits,
};
pub use rasters::bands::Bands;
pub use rasters::raster::{Raster, ShapeFault};
pub use rasters::raster_mut::RasterMut;
pub use rasters::raster_ref::RasterRef;
