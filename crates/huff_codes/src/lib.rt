//! Code lengths, code tables and code words, read and written; the lengths and the codes that are
//! chosen.
//!
//! The crate stands on `bit_stuff` and `lut_stuff` for its lists, and on `first_fault` and
//! byteorder. It takes no memory. What the layer above uses: bytes are read exactly where they
//! begin with a table of codes, or with the words of some symbols, and else their first fault is
//! told; what is written of lengths and symbols is such a table and such words.
#![tactic(auto)]

mod codes;
mod faults;
mod laws;
mod lengths;
mod tables;
mod words;

pub use codes::Codes;
pub use faults::{CodeFault, CodeReason};
pub use laws::{
    canonical_codes_are_codes, canonical_codes_count_up, chosen_lengths_are_lengths,
    counted_symbols_have_lengths, joins_take_the_least, tables_are_a_part, tables_have_codes,
    words_are_a_part, written_bytes_are_once, written_tables_are_tables, written_words_are_words,
};
pub use lengths::code_lengths::Lengths;
pub use lengths::counts::{count_symbols, counted_len};
pub use lengths::symbol_counter::SymbolCounter;
pub use tables::chosen_table::{table_size, write_code_table};
pub use tables::table::{SymbolRange, read_table};
pub use words::prefixes::{Look, Prefixes};
pub use words::reader::{SymbolReader, read_symbols};
pub use words::symbol_writer::{SymbolWriter, write_symbols};
pub use words::writing::{have_lengths, symbols_len};
