//! One grid that is all of an input becomes the blobs that are chosen for its bands, or it is
//! refused at its first fault. It stands on `raster_values`, which reads grids, and on
//! `lerc_encode`, which chooses blobs.
//!
//! The contract that the layer above uses is that of `encode_grid`: what is given are the chosen
//! blobs of the bands of the one grid that the input is, and a fault is the input's first.
#![tactic(auto)]

mod encode;
mod stop;

pub use encode::encode_grid;
pub use stop::{InputFault, InputReason, InputStop};
