//! Why a row cannot be run.

use std::alloc::{AllocError, AllocFailed};

/// Why a row cannot be run.
#[derive(Clone, Copy, PartialEq, Eq, Debug, Drop)]
pub enum CaseStop {
    /// The row is none: it has too few words, or one that stands for no bytes or no number, or
    /// what it gives is outside what the call takes.
    BadRow,
    /// Memory is refused.
    OutOfMemory,
}

impl From<AllocError> for CaseStop {
    fn from(_: AllocError) -> Self {
        CaseStop::OutOfMemory
    }
}

impl<T: Drop> From<AllocFailed<T>> for CaseStop {
    fn from(_: AllocFailed<T>) -> Self {
        CaseStop::OutOfMemory
    }
}
