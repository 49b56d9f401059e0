//! What a block depends on, what is read of it, and what is wrong with one.

ghost use Rattle.raster_cells.specs.PixelType.{InRange};
ghost use Rattle.raster_cells.specs.Step.{IsTwiceError};

use bit_stuff::ListReason;
use raster_cells::PixelType;

/// What a block depends on besides its values. Always: `top` is one of the type's values, and
/// `step` is 1, or even and from 2 to 2^33 - 2.
#[derive(Clone, Copy, Debug, PartialEq, Eq)]
pub struct BlockCtx {
    /// The type of the raster's values.
    pub kind: PixelType,
    /// The block's first column.
    pub col: u32,
    /// The step, twice the greatest error.
    pub step: u64,
    /// The greatest value that a block of this depth may have.
    pub top: i64,
    ghost top_of_type: { InRange kind top },
    ghost twice_error: { IsTwiceError step },
}

/// What is read of a block beside its numbers of steps: each value is so many steps from the
/// offset, or the top where that is less.
#[derive(Clone, Copy, Debug, PartialEq, Eq)]
pub struct SteppedBlock {
    /// How many bytes the block takes.
    pub used: usize,
    /// What the steps are counted from: a value of the type.
    pub offset: i64,
    /// How far a step leads: 1 to 2^33.
    pub step: i64,
    /// The greatest value that any number of steps leads to: a value of the type.
    pub top: i64,
}

/// Why bytes are not a block.
#[derive(Clone, Copy, Debug, PartialEq, Eq)]
pub enum BlockReason {
    /// The bytes end within a field.
    Cut,
    /// The tag has not the bits of the block's column.
    BadTag,
    /// The code of the offset's type has no meaning for this pixel type.
    BadOffset,
    /// A fault of the list of numbers.
    List(ListReason),
}

/// The first fault of a block, and its place from the block's first byte.
#[derive(Clone, Copy, Debug, PartialEq, Eq)]
pub struct BlockFault {
    /// What is wrong.
    pub reason: BlockReason,
    /// The place of the field that is wrong.
    pub at: usize,
}
