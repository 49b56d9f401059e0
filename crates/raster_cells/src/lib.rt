//! What rasters are made of: pixel types, the marks of pixels as the bits of bytes, and values as
//! the bytes that stand for them. This crate stands on lane_kernels and byteorder.
//!
//! The contract that the layers above use: a contract sees marks as a list, and values as a type
//! with a list, whoever keeps the bytes.
#![tactic(auto)]

mod kind;
mod laws;
mod limits;
mod marks;
mod values;

pub use kind::PixelType;
pub use laws::{bytes_are_values, distances_keep_order, distances_stand};
pub use limits::{GREATEST_BANDS, GREATEST_DEPTH, GREATEST_VALUES, is_shape};
pub use marks::bits::{Run, clear_spare};
pub use marks::lent_mask::LentMask;
pub use marks::mark_source::MarkSource;
pub use marks::mask::Mask;
pub use marks::mask_bits::{clear_bits, count_marked, set_bits};
pub use values::byte_runs as byte_runs;
pub use values::cell_bytes::CellBytes;
pub use values::cell_store::{CellStore, fill_pixels, one_of, put_marked_as, put_pixels_as};
pub use values::cells::Cells;
pub use values::pixels_from::PixelsFrom;
pub use values::value_bytes::{place, value_at, write_values};
pub use values::value_source::{ByteList, OneValue, Sums, ValueList, ValueSource};
