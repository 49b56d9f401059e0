//! Words of a command line as what programs of this repository take from them: numbers within
//! limits, versions, errors, numbers of workers, slots, and names of pixel types. It stands on
//! `outside_io`, `lerc_header`, `raster_values` and `bundle_index`.
//!
//! The contract that the layer above uses: a call answers what the word stands for, and None
//! exactly where it stands for no such thing.
#![tactic(auto)]

mod kind;
mod number;
mod slot;
mod version;

pub use kind::{kind_named, type_word};
pub use number::{error_of, has_text, number_up_to, number_within, workers_of};
pub use slot::slot_of;
pub use version::version_of;
