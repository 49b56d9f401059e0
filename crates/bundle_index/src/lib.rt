//! The index and the header of a bundle: slots, entries, and the 64 bytes at the front. It stands
//! on `byteorder`, and takes no memory.
//!
//! The contract that the layers above use: an entry and each field of a header are the numbers at
//! their places.
#![tactic(auto)]

mod entry;
mod header;
mod laws;
mod sizes;
mod slot;

pub use entry::{Entry, entry_place};
pub use header::{BundleHeader, HeaderFault};
pub use laws::{
    entries_are_read_back, fresh_headers_have_their_fields, fresh_headers_pass,
    headers_after_a_put_have_their_fields, headers_after_a_put_pass, headers_pass_or_fail,
};
pub use sizes::{INDEX_END, SLOT_COUNT};
pub use slot::Slot;
