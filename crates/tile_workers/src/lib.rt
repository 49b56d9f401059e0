//! Tiles encoded by several workers at once. It stands on `lerc_encode`, `lerc_header`,
//! `raster_values` and `outside_io`.
//!
//! The contract that the layer above uses: `encode_tiles` gives the blobs of each tile's bands, in
//! the tiles' order, whatever the number of workers and whatever the gate does.
#![tactic(auto)]

mod blobs;
mod coding;
mod gate;
mod machine;
mod workers;

pub use blobs::Blobs;
pub use coding::Coding;
pub use gate::{Gate, Open};
pub use machine::Machine;
pub use workers::{NoBlobs, bands_need_v4, encode_tiles};
