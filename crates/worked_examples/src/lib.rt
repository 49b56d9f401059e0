//! Blobs and grids that were worked by hand from the formats, for the tests of several crates. No
//! library of the codec or of the tile store stands on them.
#![tactic(auto)]

mod coded_blobs;
mod grids;
mod worked_blobs;

pub use coded_blobs::{
    DIFFERENCES, DIFFERENCES_OF_I8, FOUR, FOUR_DEEP, ONES, PLAIN_OF_I8, SEVENTEEN, SIGNED, STEPS,
    STEPS_DEEP, THREE_BLOCKS,
};
pub use grids::{RISING, TENS, TENS_DEEP};
pub use worked_blobs::{
    BAD_RUN, BLOB, EIGHT, GRID, MINUS_ZERO, MISCOUNTED, NO_MASK, NO_MASK_OF_SEVEN, NO_PIXEL,
    NO_SWEEP, NONE_VALID, NONE_VALID_ODD, RANGES, RUNS, RUNS_SPARE, SWEEP, TWO_ENDS, TWO_PAIRS,
    ZERO,
};
