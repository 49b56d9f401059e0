//! What is told of a bundle: the lines of puts, of a build, a listing, a check and a recovery. It
//! stands on `outside_io`, `bundle_index` and `bundle_store`.
//!
//! The contract that the layer above uses: through `put_all`, at each moment each image that a
//! crash may leave stands for the tiles after as many updates as have a mark by then, or also after
//! the next group of up to 64, whole, and the lines given are those of the updates with a mark.
#![tactic(auto)]

mod builds;
mod checking;
mod laws;
mod lines;
mod listing;
mod puts;
mod stop;

pub use builds::build_all;
pub use checking::check_all;
pub use laws::{bundles_survive_cuts, runs_from_rest_keep_one_map, runs_keep_their_first_updates};
pub use lines::{give_built, give_recovery, give_report};
pub use listing::list_all;
pub use puts::put_all;
pub use stop::{BuildStop, LineStop, PutStop};
