//! The parts of one blob that is whole: its front, its mask, and what fills a raster from the rest.

pub(crate) mod blocks;
pub(crate) mod body;
pub(crate) mod codes;
pub(crate) mod faults;
pub(crate) mod front;
pub(crate) mod image_blocks;
pub(crate) mod masks;
pub(crate) mod maxima;
pub(crate) mod previous_mask;
pub(crate) mod summed;
pub(crate) mod words;
