//! What the next coarser level of a bundle asks for: the bundle's tiles are read coarse tile by
//! coarse tile, four to each, and the halves encoded batch by batch; or its first refusal. It
//! stands on `overview_tiles`, `tile_updates`, `tile_workers`, `lerc_decode` and `bundle_store`.
//!
//! The contract that the layer above uses: `read_overview` gives exactly the updates of the
//! overview, or says which tile is refused first and why.
#![tactic(auto)]

mod asked;
mod halves;
mod laws;
mod places;
mod quarters;
mod reading;
mod stop;
mod updates;

pub use asked::Asked;
pub use laws::overviews_have_one_answer;
pub use stop::OverviewStop;
pub use updates::read_overview;
