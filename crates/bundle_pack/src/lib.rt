//! Packing: the tiles of one to eight bundles, written into one fresh bundle without slack. Where
//! several have a slot, the last source counts. And the program of it, over words, an output, the
//! sources and the target. It stands on `bundle_store`, `side_journal`, `bundle_index`,
//! `opened_bundle`, `program_ends` and `outside_io`.
//!
//! The contracts that the layer above uses: `pack` leaves a target that holds the layout of the
//! merged tiles, or says what refuses first; each source stands for what it stood for, at each
//! moment. `run_pack`, whose contract is the program's, and `serve`, which asks the command line.
#![tactic(auto)]

mod aheads;
mod chosen;
mod collecting;
mod dispatch;
mod fault;
mod laws;
mod packing;
mod process;
mod refusal;
mod sources;
mod target;
mod words;

pub use dispatch::run_pack;
pub use fault::PackFault;
pub use laws::packings_have_one_answer;
pub use packing::{PackReport, pack};
pub use process::serve;
pub use refusal::Refusal;
pub use words::USAGE;
