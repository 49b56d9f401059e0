//! Works that are cut off at each of their calls, and what crashes leave of them, as rows of
//! tables: sessions of the store, their lines, packing, levels, and runs of `lerc_cli`,
//! `overview_cli` and `tiles_cli`. It stands on the libraries of these, on `volume_rows` and on
//! `case_rows`; no library stands on it but the program that runs its tables.
//!
//! What the layer above uses: `cut_call` calls what a row names and tells what came out.
#![tactic(auto)]

mod calls;
mod cut;
mod runs;
mod store;
mod words;

pub use calls::cut_call;
