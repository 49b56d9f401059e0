//! The updates that a whole input of tiles asks for, read and encoded batch by batch, or the
//! input's first refusal. It stands on `tile_stream`, `tile_workers`, `lerc_encode` and
//! `bundle_store`.
//!
//! The contract that the layer above uses: `read_updates` gives exactly the updates of the tiles,
//! or says which tile is refused first, why and where.
#![tactic(auto)]

mod batch;
mod encoding;
mod laws;
mod list;
mod stop;
mod updates;

pub use batch::Batch;
pub use encoding::encode_batch;
pub use laws::{inputs_have_one_answer, inputs_have_one_list_of_updates};
pub use list::UpdateList;
pub use stop::{BatchStop, StreamStop};
pub use updates::read_updates;
