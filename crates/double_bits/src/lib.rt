//! Doubles as bit patterns: IEEE 754 binary64 numbers that are whole numbers or halves.
//!
//! It stands on nothing and does no floating-point arithmetic. The layer above uses two contracts:
//! `halves_of` answers `Some(h)` exactly where `h` is twice the value of the double with these
//! bits, and `bits_of` gives such bits for each `h` below 2 ^ 34 in absolute value.
#![tactic(auto)]

mod halves;
mod laws;

pub use halves::{bits_of, halves_of};
pub use laws::{
    a_half_has_its_bits, bits_have_a_half_or_none, bits_have_one_half, halves_are_small,
    halves_have_one_double,
};
