//! Code lengths: symbols counted, and the lengths that are chosen by the counts.

pub(crate) mod code_lengths;
pub(crate) mod counts;
pub(crate) mod joining;
pub(crate) mod symbol_counter;
