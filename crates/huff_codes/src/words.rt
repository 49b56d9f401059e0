//! Code words, read and written.

pub(crate) mod lookup;
pub(crate) mod prefixes;
pub(crate) mod reader;
pub(crate) mod reading;
pub(crate) mod symbol_writer;
pub(crate) mod word_pairs;
pub(crate) mod writing;
