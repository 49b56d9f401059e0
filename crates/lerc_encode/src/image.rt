//! The image of a raster: the ranges of its depths, the forms that its values can have, which of
//! them is chosen, and its bytes.

pub(crate) mod choosing;
pub(crate) mod forms;
pub(crate) mod images;
pub(crate) mod ranging;
