//! The header and the checksum of a LERC2 blob, and what a blob is refused for.
//!
//! It stands on raster_cells, double_bits, first_fault and byteorder, and takes no memory. The
//! layer above uses one contract: `read_header` answers the header exactly where the bytes begin
//! with one, and else the first of its fields that fails.
#![tactic(auto)]

/// The key, with which every blob begins: `Lerc2` and a space.
pub const KEY: [u8; 6] = *b"Lerc2 ";

mod fault;
mod fletcher;
mod header;
mod lanes;
mod laws;
mod numbers;
mod reading;
mod step;
mod writing;

pub use fault::{BlobFault, BlobReason};
pub use fletcher::{checksum, sum_behind};
pub use header::{Header, Version, needs_v4};
pub use laws::{
    bytes_have_a_header_or_a_fault, bytes_have_one_first_fault, bytes_have_one_header,
    fields_stand_or_fail, first_faults_stay, head_bytes_are_a_header,
    headers_depend_on_their_bytes, headers_have_no_fault, headers_of_bytes_are_headers,
};
pub use numbers::signed_at;
pub use reading::{kind_of, read_header, read_version};
pub use step::Step;
pub use writing::write_header;
