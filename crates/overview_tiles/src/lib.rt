//! The next coarser level of tiles: four neighbouring tiles become one of the same size, each pixel
//! of which has the mean of four. This crate stands on raster_values.
//!
//! The contract that the layer above uses: a `Mosaic` into which tiles were laid answers by `half`
//! the tile of which each band is half of theirs (`AreHalf`).
#![tactic(auto)]

mod halving;
mod laws;
mod layer;
mod mosaic;
mod sum;
mod values;

pub use laws::half_is_one;
pub use mosaic::Mosaic;
