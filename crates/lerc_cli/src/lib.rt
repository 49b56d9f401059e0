//! The program as a library: the words of the command line and the bytes of a source become the
//! bytes of an output and a status. It stands on `program_ends`, `command_words` and
//! `opened_bundle`, on `lerc_decode`, `grid_blobs`, `tile_workers`, `tile_updates`, `sample_tiles`,
//! `bundle_lines`, `reason_names` and the layers below them. `serve` reads the words and calls
//! `run`.
//!
//! The contract that the layer above uses is that of `run`: over any words, any input, however it
//! is cut into pieces, and objects that fail at any call, a grid is encoded exactly where the input
//! is one, a blob is decoded, or told of, exactly where the input is one, a bundle is built of
//! tiles, and tiles are put into it and got from it, so that at each moment a crash leaves a whole
//! one, tiles that are drawn are summed up as they decode, and nothing else is given.
#![tactic(auto)]

mod commands;
mod dispatch;
mod inputs;
mod laws;
mod process;
mod refusal;
mod telling;
mod words;

pub use dispatch::run;
pub use laws::{one_answer, one_command, runs_from_rest_keep_their_tiles, survives_cuts};
pub use process::serve;
pub use refusal::{Fault, Reason, Refusal, StreamRefusal};
pub use words::{Command, USAGE};
