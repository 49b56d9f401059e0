//! The tiles of a sample: drawn one after the other, encoded by several workers, decoded, and
//! summed up. It stands on `tile_workers` and `lerc_decode` and the crates below them.
//!
//! The contract that the layer above uses: `sample` answers the sums of the first tiles, as the
//! definitions say them of the tiles, the blobs that are chosen for them and what these decode to.
#![tactic(auto)]

mod adding;
mod batches;
mod draw;
mod laws;

pub use adding::Sums;
pub use batches::{MOST_TILES, sample};
pub use laws::samples_are_one;
