//! Whole blobs, and tiles of one to 16 of them: which bytes are one of which raster, and else what
//! is wrong with them first. It stands on `lerc_header`, `raster_values`, `mask_runs`,
//! `micro_block`, `bit_stuff`, `huff_codes`, `delta_mode` and `first_fault`, and takes no memory.
//!
//! The contract that the layers above use: bytes have one verdict, a raster (or a list of bands) or
//! one first fault, and the parts of a blob are told exactly.
#![tactic(auto)]

mod bands;
mod laws;
mod outlining;
mod parts;

pub use bands::{BandReason, BandsFault};
pub use laws::{
    bands_faults_stay, faults_are_within, near_is_a_distance, nearest_is_same, no_two_rasters,
    one_bands_verdict, one_first_fault, one_verdict, one_whole_verdict, some_bands_verdict,
    some_verdict, some_whole_verdict, verdicts_stay,
};
pub use outlining::outline;
pub use parts::{ImageForm, MaskForm, Outline, image_part, mask_part, place_behind};
