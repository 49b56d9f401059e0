//! The program that gives and takes a bundle's tiles as a stream, as a library: over the words of
//! the command line, a source, an output and the bundle. It stands on `bundle_tiles`, which gives
//! and takes them, on `opened_bundle`, `command_words` and `program_ends`. `serve` reads the words
//! and calls `run_tiles`.
//!
//! The contract that the layer above uses is that of `run_tiles`: over any words, any bytes and any
//! volume, and objects that fail at any call, an export gives the stream of the tiles of the
//! bundle, or of those that are listed; at each moment of an import the bundle stands for the tiles
//! of its start with the first few groups of the stream put whole.
#![tactic(auto)]

mod dispatch;
mod laws;
mod perform;
mod process;
mod refusal;
mod slot_list;
mod words;

pub use dispatch::run_tiles;
pub use laws::survives_cuts;
pub use process::serve;
pub use refusal::Refusal;
pub use slot_list::{ListFault, ListReason, ListStop, read_slots};
pub use words::{Command, USAGE};
