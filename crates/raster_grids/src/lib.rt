//! Grid files, of one raster and of bands, written and read. This crate stands on raster_values,
//! raster_cells, outside_io, first_fault and byteorder.
//!
//! The contract that the layers above use: `grid_write` gives the one grid of a raster, and
//! `grid_read` takes a grid and answers its raster, or tells the first fault and its place.
#![tactic(auto)]

mod ahead;
mod bands_grid;
mod grid;
mod laws;
mod reading;
mod taken_cells;
mod waiting;

pub use bands_grid::{bands_read, bands_size, grid_size};
pub use grid::{bands_write, grid_write};
pub use laws::{bands_grids_are_parts, grid_determines, grids_are_parts};
pub use reading::{GridFault, GridReason, GridStop, grid_read};

/// How many bytes are taken from a source, or given to a sink, at once.
const PIECE: usize = 65536;
