//! The only fault that an object of the outside gives.

/// The only fault that an object of the outside gives.
#[derive(Clone, Copy, Debug, PartialEq, Eq)]
pub struct Failed;
