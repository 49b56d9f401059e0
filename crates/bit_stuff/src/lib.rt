//! Stuffed numbers, and lists of them in the simple form.
//!
//! It stands on `byteorder` and on the words of `first_fault`, and takes no memory. The layer above
//! uses one contract: stuffed bytes are one large number, cut into fields of one width.
#![tactic(auto)]

mod groups;
mod heads;
mod laws;
mod packing;
mod simple;
mod unpacking;

pub use heads::{ListFault, ListHead, ListReason, head_len, read_head, write_head};
pub use laws::{
    clear_bytes_are_written_bytes, heads_stand_or_have_one_fault, length_is_monotone,
    simple_bytes_are_a_list, simple_lists_have_one_list, stuffed_bytes_have_one_list,
    stuffed_values_are_below, written_bytes_are_stuffed,
};
pub use packing::stuff;
pub use simple::{digit_count, list_width, simple_len, write_simple};
pub use unpacking::{stuffed_len, unstuff, unstuff_front};
