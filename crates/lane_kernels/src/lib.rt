//! Kernels over lists of whole numbers: the least and the greatest of a list, a list less a number,
//! a list of quantised values turned back into values, and running sums of bytes. The crate stands
//! on std alone and takes no memory.
//!
//! The contract that the layer above uses: each call gives exactly what its plain definition over
//! the list gives, at every length. `range`, `minus` and `plus_capped` go over eight lanes at once,
//! and `running_sums` over sixteen, with a plain loop for what is left over.
#![tactic(auto)]

mod capped;
mod difference;
mod extremes;
mod lanes;
mod running;
mod unsigned;

pub use capped::plus_capped;
pub use difference::minus;
pub use extremes::range;
pub use running::running_sums;
pub use unsigned::{gap_between, plus_capped_unsigned, step_within, steps_within};
