//! Volumes in memory that rows of tables make, read and crash, by their names. It stands on
//! `case_rows` and `outside_io`.
//!
//! What the layer above uses: `volume` lends the volume of a name, and `take` and `keep` take one
//! out and put it back, so that several are at hand at once.
#![tactic(auto)]

mod files;
mod volumes;
mod words;

pub use files::{Failing, copy, image, part, volume, whole};
pub use volumes::Volumes;
