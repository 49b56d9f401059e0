//! The maxima of an image's depths, above which no stuffed value is, read where they stand in the
//! blob.

ghost use Rattle.std.specs.Prelude.{◌≡◌, ◌↔◌, ◌<◌, ◌≤◌, IsTrue};
ghost use Rattle.raster_cells.specs.PixelType.{InRange};
ghost use Rattle.lerc_decode.specs.inside.Maxima.{AreMaxima, AreMaximaOf, HasBoth, IsOneTop, top_in};

use lerc_header::{Header, Version};

/// Where the top of each depth stands.
#[derive(Clone, Copy)]
pub(crate) enum Maxima<'a> {
    /// All depths have the header's greatest value.
    One,
    /// Each depth has its own of the list of greatest values, which these bytes are.
    Listed(&'a [u8]),
}

/// Whether all depths have the header's top.
fn has_one_top(header: &Header) -> bool
    ensures { IsTrue result ↔ IsOneTop header.now }
{
    header.version == Version::V3 || header.depth == 1
}

impl<'a> Maxima<'a> {
    /// The maxima of an image whose bytes begin with the lists, where it has some. Nothing is read.
    pub(crate) fn of(bytes: &'a [u8], header: &Header) -> Maxima<'a>
        requires top { InRange header.now.kind header.now.greatest }
        requires lists { HasBoth header.now bytes.now }
        ensures { AreMaximaOf header.now bytes.now result }
    {
        if has_one_top(header) {
            return Maxima::One;
        }
        let size = header.depth as usize * header.kind.bytes();
        Maxima::Listed(&bytes[size..2 * size])
    }

    /// The top of a depth.
    #[inline]
    #[tactic(auto, unfolding(crate::specs::inside::Maxima::top_in))]
    pub(crate) fn at(&self, header: &Header, d: u32) -> i64
        requires maxima { AreMaxima header.now self.now }
        requires depth { d < header.now.depth }
        ensures value { result ≡ top_in header.now self.now d }
        ensures in_range { InRange header.now.kind result }
    {
        match *self {
            Maxima::One => header.greatest,
            Maxima::Listed(list) => {
                let place = d as usize * header.kind.bytes();
                header.kind.read_value(&list[place..])
            }
        }
    }
}
