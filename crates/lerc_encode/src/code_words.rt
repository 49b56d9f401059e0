//! The values of a raster of bytes as symbols, and these in code words.

pub(crate) mod byte_view;
pub(crate) mod codings;
pub(crate) mod symbols;
