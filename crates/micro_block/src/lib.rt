//! Micro blocks: the values of one depth of a few rows and columns, raw, as numbers of steps from
//! an offset, or all alike.
//!
//! The crate stands on `raster_cells`, `bit_stuff`, `lut_stuff`, `lane_kernels`, `first_fault` and
//! byteorder, and takes no memory. The layer above uses one contract: bytes are a block of these
//! values, both ways.
#![tactic(auto)]

mod choosing;
mod context;
mod distances;
mod few;
mod first;
mod laws;
mod quantising;
mod reading;
mod remainders;
mod shorter;
mod sizes;
mod spreading;
mod stepping;
mod writing;

pub use choosing::{BlockSize, block_len, block_size};
pub use context::{BlockCtx, BlockFault, BlockReason, SteppedBlock};
pub use few::{named_size, size_and_names, write_ranked};
pub use first::first_least;
pub use laws::{
    block_values_are_in_range, blocks_stand_or_have_one_fault, first_least_is_first,
    written_blocks_stand,
};
pub use quantising::quantise;
pub use reading::{read_block, read_steps, read_values};
pub use writing::{write_block, write_distances};
