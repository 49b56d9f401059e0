//! What rows of tables call of the programs: `lerc_cli`, ASCII grids and overviews, over inputs,
//! outputs and volumes in memory. It stands on the libraries of the programs, on `case_rows` and on
//! `volume_rows`; no library stands on it but the program that runs tables.
//!
//! The contract that the layer above uses: `ProgramCalls` runs what a row names and tells what came
//! out.
#![tactic(auto)]

mod ascii;
mod calls;
mod halves;
mod lerc;
mod overview;
mod runs;
mod sweeps;
mod tasks;

pub use calls::ProgramCalls;
