//! The encoder: the blob that is chosen for a raster, and the blobs that are chosen for bands. It
//! stands on `lerc_grammar` and the crates that write a blob's parts, and reads rasters however
//! they are kept (`raster_access`).
//!
//! The contract that the layers above use: the blob is the chosen one, and it is a blob of exactly
//! one raster, which is near the given one.
#![tactic(auto)]

mod blobs;
mod blocks;
mod code_words;
mod image;
mod laws;

pub use blobs::alike::encode_alike_over;
pub use blobs::alike_raster::AlikeRaster;
pub use blobs::bands::encode_bands;
pub use blobs::blob::{EncodeFault, LayFault, encode_view, encode_view_over};
pub use laws::{
    bands_decode, blobs_are_small, choices_decode, codings_are_written, masks_are_taken,
};
