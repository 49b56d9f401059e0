//! What the store of tiles stands on as rows of tables: slots and entries, the journal, streams of
//! tiles and the updates that they give. It stands on these libraries, `volume_rows` and
//! `case_rows`.
//!
//! What the layer above uses: `StoreCalls` over the volumes of rows, and `update_call` by the
//! threads of a runtime.
#![tactic(auto)]

mod calls;
mod index_rows;
mod journal_rows;
mod stream_rows;
mod update_rows;

pub use calls::StoreCalls;
pub use update_rows::update_call;
