//! A decoder that takes a blob in pieces of any size, one that takes the blobs of a tile, and two
//! of a blob that lies whole in memory: one makes its raster, one fills a caller's arrays. It stands on `lerc_grammar` and the crates that
//! read a blob's parts, and fills rasters however they are kept (`raster_access`).
//!
//! The contract that the layers above use: the answer is the verdict on the bytes taken, however
//! they came.
#![tactic(auto)]

mod at_once;
mod blob;
mod over;
mod over_bands;
mod over_next;
mod streams;

pub use at_once::decode;
pub use over::{OverFault, decode_over};
pub use over_bands::{BandsOverFault, decode_bands_over};
pub use streams::bands::{BandsDecoder, BandsFed, BandsState, BandsStop, decode_bands};
pub use streams::bands_source::{BandsFromFault, decode_bands_from, keep_bands_from};
pub use streams::decoder::{DecodeFault, Decoder, Fed, FedState};
pub use streams::from_source::{Decoded, FromFault, decode_from, decode_sized, feed_from};
pub use streams::kept::KeptBlobs;
