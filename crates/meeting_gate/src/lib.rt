//! Gates for tests: one that shows that tiles are encoded at once, and one that counts which tiles
//! are. No library of the codec or of the tile store stands on them.
#![tactic(auto)]

mod counting;
mod meeting;

pub use counting::Counting;
pub use meeting::Meeting;
