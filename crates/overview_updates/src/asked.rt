//! What an overview is asked for with.

ghost use Rattle.std.specs.Prelude.{◌<◌};

use tile_workers::Coding;

/// What an overview is asked for with.
#[derive(Clone, Copy)]
pub struct Asked {
    /// Which quarter of the coarser bundle the bundle that is read becomes, from 0 to 3: upper
    /// left, upper right, lower left, lower right.
    pub quarter: u8,
    /// What its blobs are made with.
    pub coding: Coding,
    ghost one_of_four: { quarter < 4 },
}
