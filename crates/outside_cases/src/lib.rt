//! What rows of tables call of the outside: sources and sinks in memory and over std, words, lines
//! and marks, and volumes that fail, in memory and over a machine of files that counts what it is
//! asked for. It stands on `outside_io` and `case_rows`; no library stands on it but the program
//! that runs tables.
//!
//! The contract that the layer above uses: `OutsideCalls` calls what a row names and tells what
//! came out.
#![tactic(auto)]

mod calls;
mod desk;
mod desks;
mod lines;
mod scripted;
mod streams;
mod volumes;

pub use calls::OutsideCalls;
