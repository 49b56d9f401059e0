//! Bundles of tiles over a volume: sessions that open, read, put, build and check, and the
//! recovery of what a crash leaves. It stands on `outside_io`, `bundle_index`, `side_journal` and
//! `byteorder`.
//!
//! The contract that the layer above uses: at each moment of a put, a build and a recovery each
//! image that a crash may leave stands for the map of tiles before the call or after it.
#![tactic(auto)]

mod ahead;
mod build;
mod check;
mod fault;
mod front;
mod laws;
mod put;
mod reading;
mod recovery;
mod room;
mod session;
mod spelling;
mod table;
mod tile_rec;
mod updates;

pub use ahead::Ahead;
pub use build::size::{BuiltSize, built_size};
pub use check::CheckReport;
pub use fault::StoreFault;
pub use laws::{
    bundles_without_bad_entries_are_readable, closed_journals_stay, empty_files_have_no_tiles,
    groups_are_puts, images_of_the_first_form_stand_for_the_same, images_stand_for_one_map,
    layouts_hold_their_map, lists_of_tiles_join, puts_replace_one_tile, quiet_starts_have_one_map,
    readable_bundles_have_their_tiles, recoveries_have_one_answer, recoveries_leave_one_bundle,
    the_bundle_of_no_tiles_is_fresh,
};
pub use recovery::{Recovery, recover};
pub use room::{GREATEST_LENGTH, count_fitting};
pub use session::Session;
pub use tile_rec::TileRec;
pub use updates::GREATEST_TILE;
