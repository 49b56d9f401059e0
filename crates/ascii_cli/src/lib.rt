//! The program for ASCII grids as a library: the words of the command line and the bytes of a
//! source become the bytes of an output and a status. It stands on `ascii_grid`, which reads and
//! writes both forms of a grid, on `reason_names`, `command_words` and `program_ends`. `serve`
//! reads the words and calls `run_ascii`.
//!
//! The contract that the layer above uses is that of `run_ascii`: over any words, any input,
//! however it is cut into pieces, and objects that fail at any call, `split` gives the `LGA1` of a
//! text exactly where the input is one, `join` gives the one text of an `LGA1` exactly where the
//! input is one, and each refusal tells the input's first fault.
#![tactic(auto)]

mod dispatch;
mod perform;
mod process;
mod refusal;
mod words;

pub use dispatch::run_ascii;
pub use process::serve;
pub use refusal::Refusal;
pub use words::{Command, USAGE};
