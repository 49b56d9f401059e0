//! The file `LGA1`: four bytes of magic, a byte of flags, three texts behind their lengths, the
//! nodata value in eight bytes, and the grid of the raster.

mod contents;
mod fields;
mod reading;
mod writing;

pub use reading::lga_read;
pub use writing::lga_write;
