//! Delta and plain mode: the symbols of rasters of bytes. It stands on `lane_kernels`,
//! `raster_cells`, `raster_values` and `raster_access`, and takes no memory.
//!
//! The contract that the layer above uses: a pixel's symbol is that of its value less its
//! predictor, one equation per pixel; symbols of all depths have one raster.
#![tactic(auto)]

mod byte_plane;
mod depth;
mod full;
mod giving;
mod giving_plain;
mod laws;
mod marked_piece;
mod plain;
mod plain_taking;
mod run;
mod source;
mod starts;
mod taking;
mod walk;

pub use depth::deltas_of;
pub use giving::{EncodeState, first_state, next_deltas};
pub use giving_plain::{PlainState, first_plain, next_plain};
pub use laws::{symbols_have_a_raster, symbols_have_one_depth, symbols_have_one_raster};
pub use plain::plain_of;
pub use plain_taking::{unplain, unplain_from};
pub use source::SymbolSource;
pub use taking::{undelta, undelta_from};
