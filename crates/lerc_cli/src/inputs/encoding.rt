//! What the tiles of an input are encoded with.

ghost use Rattle.std.specs.Prelude.{◌≤◌};

use lerc_header::Version;

/// What the tiles of an input are encoded with, as a command says it.
#[derive(Clone, Copy)]
pub struct Encoding {
    /// The version of the blobs.
    pub version: Version,
    /// How far a value may be from the given one.
    pub error: u32,
    /// How many workers encode, from 1 to 64. Nothing of what is given depends on it.
    pub workers: u32,
    ghost some: { 1 ≤ workers },
    ghost few: { workers ≤ 64 },
}
