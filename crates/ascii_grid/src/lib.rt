//! Esri ASCII grids of whole numbers: a text and its grid, and the file `LGA1`, which keeps a grid
//! with the texts of its corner and its cells. This crate stands on `raster_values`, `outside_io`
//! and `first_fault`.
//!
//! The contract that the layer above uses: a text, or an `LGA1`, is read to its grid exactly where
//! it is one, and else its first fault is told; a grid has one text and one `LGA1`.
#![tactic(auto)]

mod canon;
mod fault;
mod grid;
mod head;
mod laws;
mod lga;
mod numbers;
mod page;
mod text;
mod token;
mod window;
mod words;

pub use canon::ascii_write;
pub use fault::{AsciiFault, AsciiReason, AsciiStop};
pub use grid::{AsciiGrid, Georef};
pub use laws::{
    canon_stands, is_either, lga_is_either, lga_stands, one_fault, one_grid, one_lga, one_lga_fault,
};
pub use lga::{lga_read, lga_write};
pub use text::ascii_read;
pub use words::Key;
