//! A bundle's tiles as a stream of bytes, out and in: each with its slot, its size and its bytes as
//! they are, unread. It stands on `bundle_lines`, which puts tiles, on `opened_bundle` and
//! `bundle_store`, and on `outside_io`.
//!
//! The contracts that the layer above uses: `export_slots` gives the stream of the tiles of some
//! slots, each of which was read whole before a byte of it is given; `import_all` reads a stream in
//! groups of up to 64 tiles, and puts each group, as `put` does, before it reads the next one.
#![tactic(auto)]

mod giving;
mod laws;
mod raw_tile;
mod slots;
mod taking;

pub use giving::export_slots;
pub use laws::{exports_import_whole, raw_streams_have_one_list_of_tiles, raw_tiles_are_parts};
pub use raw_tile::{RawFault, RawHead, RawReason, RawStop, next_raw};
pub use slots::filled_slots;
pub use taking::{GROUP, ImportStop, import_all};
