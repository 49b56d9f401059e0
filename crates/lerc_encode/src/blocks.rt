//! The blocks of a raster: how it is cut into them, how many bytes they take on either side and
//! which have a table, and their bytes.

pub(crate) mod block_view;
pub(crate) mod chosen_blocks;
pub(crate) mod flags;
pub(crate) mod sides;
