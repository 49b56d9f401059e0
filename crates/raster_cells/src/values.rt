//! Values of one type as their bytes, of a raster and of a caller, and what is put into them.

pub mod byte_runs;
pub(crate) mod cell_bytes;
pub(crate) mod cell_store;
pub(crate) mod cells;
pub(crate) mod pixels_from;
pub(crate) mod value_bytes;
pub(crate) mod value_source;
