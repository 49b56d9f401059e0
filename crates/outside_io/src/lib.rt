//! The outside of a program: where bytes come from and where they go to (`streams`), the two files
//! of a store (`volume`), and the words, lines and reports of a command line (`program`). It
//! stands on std and itoa.
//!
//! The contract that the layers above use: a call answers `Failed` only where the object's own
//! count of faults rose in that call or stands at its greatest.
#![tactic(auto)]

mod laws;
mod program;
mod streams;
mod volume;

pub use laws::settled_has_one_image;
pub use program::{Line, Marks, Report, Word, give_line};
pub use streams::{
    Bytes, Failed, MemSink, MemSource, Numbers, Sink, Source, StdSink, StdSource, give_all,
    has_more, hold_numbers, take_all,
};
pub use volume::{Failure, FileVolume, MemVolume, NoVolume, Pick, Piece, Start, VolFile, Volume};
