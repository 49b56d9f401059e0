//! Blobs that come in pieces, one or all of a tile, and those of a source.

pub(crate) mod bands;
pub(crate) mod bands_source;
pub(crate) mod decoder;
pub(crate) mod from_source;
pub(crate) mod front_blobs;
pub(crate) mod kept;
pub(crate) mod turns;

/// How many bytes are asked of a source at once, at most.
const PIECE: usize = 65536;
