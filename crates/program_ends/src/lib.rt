//! How a program ends, whatever it does: a stop over reasons of the program's own, the status of
//! each and the one line that tells of it, the words of its command line, and what a run leaves of
//! each object that it is lent. It stands on `outside_io`.
//!
//! The contract that the layer above uses: `ended_status` answers the status of an end, and gives
//! the line of a stop to the error output, and nothing where all went well.
#![tactic(auto)]

mod arguments;
mod ended;
mod files;
mod paths;
mod stop;

pub use arguments::{Arguments, ProcessArguments, word_at, words_from};
pub use ended::{end_without_memory, ended_status, exit_code, tell};
pub use files::tell_files;
pub use paths::{Paths, TwoPaths, paths_at, two_paths_at};
pub use stop::{Refusal, Stop};
