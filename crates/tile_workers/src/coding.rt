//! What blobs are made with.

ghost use Rattle.std.specs.Prelude.{◌≤◌};

use lerc_header::{Step, Version};

/// What the blobs of tiles are made with.
#[derive(Clone, Copy)]
pub struct Coding {
    /// The version of the blobs.
    pub version: Version,
    /// The step of the blobs.
    pub step: Step,
    /// How many workers encode, from 1 to 64. Nothing of an answer depends on it.
    pub workers: usize,
    ghost some: { 1 ≤ workers },
    ghost few: { workers ≤ 64 },
}
