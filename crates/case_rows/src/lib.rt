//! Tables of cases: rows of words, each of which stands for bytes. A row names what is called and
//! what it is given, and behind `->` what has to come out; whoever calls says what came out, and a
//! table is run row by row. It stands on `hex` alone.
//!
//! What the layer above uses: `row_of_line` reads a line of a table, and `Told` keeps what came
//! out.
#![tactic(auto)]

mod bytes;
mod names;
mod parts;
mod rows;
mod stop;
mod table;
mod told;

pub use names::Names;
pub use rows::Row;
pub use stop::CaseStop;
pub use table::{Calls, row_of_line};
pub use told::Told;
