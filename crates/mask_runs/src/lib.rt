//! Runs: the form in which a blob holds the bytes of a mask, read and written.
//!
//! The crate stands on `byteorder` alone, and takes no memory. What the layer above uses: bytes are
//! read exactly where they are runs of a mask of the wanted length, and else the first place at
//! which they are not is told; what is written are the chosen runs of the mask.
#![tactic(auto)]

mod laws;
mod read;
mod write;

pub use laws::{
    bytes_are_runs_or_go_wrong, pieces_are_chosen, pieces_go_on, repeats_are_found,
    runs_are_determined,
};
pub use read::{RunFault, read_runs};
pub use write::{runs_len, runs_len_with, write_runs, write_runs_with};
