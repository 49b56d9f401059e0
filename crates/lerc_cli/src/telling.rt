//! What is told, as lines of text.

pub(crate) mod outline;
pub(crate) mod refusals;
pub(crate) mod samples;
