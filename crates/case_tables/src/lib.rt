//! All that rows of tables call, and how a table is run: row by row, up to the first that comes out
//! otherwise than it has to. It stands on `case_rows`, which reads a row, and on the crates that
//! have the calls.
//!
//! What the programs above use is `run_file`.
#![tactic(auto)]

mod groups;
mod printing;
mod tables;

pub use printing::run_file;
