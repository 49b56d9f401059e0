//! The program that makes the next coarser level of a bundle, as a library: over the words of the
//! command line, an output, the bundle that is read and the one that is put into. It stands on
//! `overview_updates`, which makes the updates, on `bundle_lines`, which puts them, on
//! `opened_bundle`, `reason_names`, `program_ends` and `command_words`. `serve` reads the words and
//! calls `run_overview`.
//!
//! The contract that the layer above uses is that of `run_overview`: over any words and any two
//! volumes, and objects that fail at any call, what was put is the overview, or the line tells its
//! first refusal; the bundle that is read stands for the same tiles at each moment, and the other
//! one for those of its start with the first few updates done.
#![tactic(auto)]

mod dispatch;
mod process;
mod refusal;
mod words;

pub use dispatch::run_overview;
pub use process::serve;
pub use refusal::Refusal;
pub use words::{Command, USAGE};
