//! A source becomes what a command works on, or a stop.

pub(crate) mod blobs;
pub(crate) mod encoding;
pub(crate) mod tiles;
