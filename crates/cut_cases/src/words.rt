//! What rows name and tell: works, tiles and slots, and what came out.

pub(crate) mod outcomes;
pub(crate) mod tiles;
pub(crate) mod work_words;
