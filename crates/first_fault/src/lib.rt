//! The words in which the formats of this repository say their first fault, and what follows from
//! them: definitions and lemmas, and no code that runs. It stands on std alone.
//!
//! The contract that the layers above use: whatever is built of parts that are read in one way and
//! stand or have one first fault, is read in one way and stands or has one first fault, too.
#![tactic(auto)]

mod laws;

pub use laws::{a_part_and_its_rest_have_one_first_fault, parts_in_a_row_are_a_part};
