//! A raster as what fills it and what reads it see it, however it is kept. It stands on
//! `raster_values`, `raster_cells` and `lane_kernels`.
//!
//! The contract that the layers above use: the clauses of `Raster` on the calls that fill a raster
//! whose mask stands, over the raster that a target keeps, and on the calls that encoding makes,
//! over the raster that a view shows.
#![tactic(auto)]

mod raster;
mod raster_mut;
mod raster_ref;
mod target;
mod view;

pub use target::Target;
pub use view::View;
