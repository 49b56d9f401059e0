//! The program for one level of many bundles as a library: the words of the command line, the bytes
//! of a source and a shelf of bundles become the bytes of an output, a status and one change of the
//! shelf. It stands on `level_cache`, which puts and gets one tile, on `grid_blobs`, which makes
//! the blobs of a grid, and on `reason_names`, `program_ends` and `command_words`. `serve` reads
//! the words and calls `run_level`.
//!
//! The contract that the layer above uses is that of `run_level`: over any words, any input and any
//! shelf, and objects that fail at any call, `put` puts the chosen blobs of the input's grid at
//! their place, `get` gives the tile of a place, and `name` the name of its bundle; no volume
//! changes but that of the place, and each refusal is told with its cause.
#![tactic(auto)]

mod dispatch;
mod folder;
mod perform;
mod process;
mod refusal;
mod words;

pub use dispatch::run_level;
pub use folder::folder_at;
pub use process::serve;
pub use refusal::Refusal;
pub use words::{Command, USAGE};
