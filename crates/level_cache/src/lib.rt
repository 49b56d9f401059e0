//! One level of many bundles: tiles by row and column below 2^31, 128 by 128 of them a bundle, and
//! the bundles on a shelf, from which one at a time is taken. It stands on `bundle_store`,
//! `bundle_index`, `side_journal`, `opened_bundle` and `outside_io`.
//!
//! The contract that the layer above uses is that of `level_put` and `level_get`: at each moment
//! each image that a crash may leave of the place's volume stands for tiles that one stood for at
//! the start, or for those with the tile; no other volume of the shelf changes; and each refusal is
//! the first that holds.
#![tactic(auto)]

mod folder;
mod laws;
mod level;
mod memory;
mod name;
mod place;
mod shelf;

pub use folder::FileShelf;
pub use laws::{
    calls_survive_crashes, gets_are_steps, gets_change_nothing, maps_are_once, puts_are_steps,
    puts_change_one_place, two_bases_have_two_names,
};
pub use level::{LevelFault, level_get, level_put};
pub use memory::MemShelf;
pub use name::{Name, bundle_name};
pub use place::{Base, Place};
pub use shelf::Shelf;
