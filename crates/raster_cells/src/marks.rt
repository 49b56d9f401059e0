//! Marks of pixels: bits in bytes, masks of a raster and of a caller.

pub(crate) mod bits;
pub(crate) mod counting;
pub(crate) mod lent_mask;
pub(crate) mod mark_source;
pub(crate) mod mask;
pub(crate) mod mask_bits;
