//! Streams of tiles: one tile behind the other up to the input's end, each `T`, its row, its
//! column and the grid of its bands. It stands on `raster_values`, `bundle_index`, `outside_io` and
//! `first_fault`.
//!
//! The contract that the layer above uses: `next_tile` takes exactly the next tile, or says what
//! is wrong first in the bytes that are left, and where.
#![tactic(auto)]

mod laws;
mod tile;

pub use laws::{streams_have_one_list_of_tiles, tiles_are_parts};
pub use tile::{Tile, TileFault, TileReason, TileStop, next_tile};
