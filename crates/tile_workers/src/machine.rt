//! What workers run on.

use std::alloc::Global;

/// What workers run on: threads, memory, and the gate that each passes before it encodes a tile.
#[derive(Drop)]
pub struct Machine<'a, R, G> {
    /// What starts the threads.
    pub rt: &'a R,
    /// What memory is taken from.
    pub alloc: Global,
    /// The gate. Nothing of an answer depends on it.
    pub gate: &'a G,
}
