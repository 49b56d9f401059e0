//! The store of tiles: sessions, works with their lines, and what a bundle holds.

pub(crate) mod held;
pub(crate) mod line_rows;
pub(crate) mod sessions;
pub(crate) mod store_rows;
