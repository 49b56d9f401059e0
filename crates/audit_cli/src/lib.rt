//! The program that audits a bundle, as a library: over the words of the command line, an output
//! and the bundle. It stands on `tile_audit`, which audits, on `side_journal` and `bundle_store`,
//! which say whether there is a bundle to be audited, and on `opened_bundle`, `program_ends` and
//! `command_words`. `serve` reads the words and calls `run_audit`.
//!
//! The contract that the layer above uses is that of `run_audit`: over any words and any volume,
//! and objects that fail at any call, nothing is ever written; the lines, the totals and the status
//! are those of an audit of the bundle, or the line tells the first refusal.
#![tactic(auto)]

mod command;
mod dispatch;
mod opening;
mod process;
mod refusal;
mod words;

pub use command::Command;
pub use dispatch::run_audit;
pub use process::serve;
pub use refusal::Refusal;
pub use words::USAGE;
