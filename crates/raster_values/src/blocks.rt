//! Blocks and runs of pixels, of whoever has the marks and the values: counted, read and put.

pub(crate) mod counting;
pub(crate) mod gathering;
pub(crate) mod numbered;
pub(crate) mod order;
pub(crate) mod ranging;
pub(crate) mod scattering;
pub(crate) mod window;
