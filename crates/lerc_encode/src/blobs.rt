//! Whole blobs: the mask of a raster, its blob, the blobs of bands, and the blob of a raster whose
//! pixels are all alike.

pub(crate) mod alike;
pub(crate) mod alike_raster;
pub(crate) mod bands;
pub(crate) mod blob;
pub(crate) mod masks;
