//! Lists in both forms: the numbers themselves stuffed, or a table of the different ones and
//! stuffed indexes into it.
//!
//! It stands on `bit_stuff`, `first_fault` and byteorder, and takes no memory. The layer above uses
//! one contract: a list is read exactly where the bytes begin with one, else its first fault is
//! told.
#![tactic(auto)]

mod hashing;
mod known;
mod laws;
mod marking;
mod naming;
mod ranking;
mod reading;
mod writing;

pub use known::known_len;
pub use laws::{
    entries_are_the_different_values, lists_stand_or_have_one_fault, ranks_rise_with_values,
    simple_lists_are_lists, table_bytes_are_a_list,
};
pub use naming::{NameSet, Names};
pub use ranking::Ranks;
pub use reading::read_list;
pub use writing::{table_len, write_table, write_table_front};
