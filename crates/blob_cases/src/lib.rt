//! Calls of the blob libraries for rows of tables: headers, blobs that are encoded and decoded in
//! pieces, of sources and in a caller's arrays, tiles of bands, and grids. A raster is given as
//! arrays and told as such; bands are given and told as their grid.
//!
//! `BlobCalls` is what the program that runs tables takes.
#![tactic(auto)]

mod alike;
mod answers;
mod arrays;
mod calls;
mod encoding;
mod feeds;
mod fixtures;
mod grids;
mod headers;
mod over;
mod reading;
mod tiles;

pub use calls::BlobCalls;
