//! Rasters: one that keeps its pixels, those in a caller's arrays, and the bands of a tile.

pub(crate) mod bands;
pub(crate) mod lent_cells;
pub(crate) mod raster;
pub(crate) mod raster_mut;
pub(crate) mod raster_ref;
