//! The blocks of an image.

ghost use Rattle.lerc_decode.specs.inside.Blocks.{HasToppedBlocks};
ghost use Rattle.lerc_decode.specs.inside.BlockProps.{HasToppedBlocks-prop};

use crate::blob::maxima::Maxima;
use lerc_header::Header;

/// The blocks of an image: the bytes from the first of them on, and of what header, with which
/// maxima, they are.
#[derive(Clone, Copy)]
pub(crate) struct ImageBlocks<'a> {
    pub(crate) rest: &'a [u8],
    pub(crate) header: &'a Header,
    pub(crate) maxima: &'a Maxima<'a>,
    ghost topped: { HasToppedBlocks header.now maxima.now } by { HasToppedBlocks-prop header.now maxima.now },
}
