//! A volume in memory of which a failing call has acted: a write has landed in part, a cut or a
//! sync was done; and a shelf of such volumes. It stands on `outside_io` and `level_cache`; crates
//! of tests alone stand on it.
//!
//! The contract that the layer above uses: it meets `Volume`, so whatever is proved of volumes
//! holds of it, and it tells its files; the shelf meets `Shelf`.
#![tactic(auto)]

mod landed;
mod rough;
mod shelf;

pub use landed::{Landed, landed_bytes};
pub use rough::{Rough, RoughVolume};
pub use shelf::RoughShelf;
