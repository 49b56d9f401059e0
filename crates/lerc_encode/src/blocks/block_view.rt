//! A raster that is cut into blocks, of one side or of both.

ghost use Rattle.std.specs.Prelude.{◌≡◌, ◌≤◌};
ghost use Rattle.lerc_encode.specs.inside.Blocked.{IsBlocked};
ghost use Rattle.lerc_encode.specs.inside.BlockedProps.{IsBlocked-prop};

use lerc_header::Header;
use raster_access::View;

/// A raster, and the header by whose side it is cut into blocks.
#[derive(Drop)]
pub(crate) struct BlockView<'a, V: View> {
    pub(crate) header: &'a Header,
    pub(crate) raster: &'a V,
    ghost blocked: { IsBlocked header.now (V.pixels raster.now) } by { IsBlocked-prop header.now (V.pixels raster.now) },
}

/// A raster whose blocks of one side are looked at as long as they take no more than `most` bytes.
#[derive(Drop)]
pub(crate) struct BlockWalk<'a, V: View> {
    pub(crate) header: &'a Header,
    pub(crate) raster: &'a V,
    pub(crate) most: usize,
    ghost blocked: { IsBlocked header.now (V.pixels raster.now) } by { IsBlocked-prop header.now (V.pixels raster.now) },
    ghost few: { most ≤ 67108865 },
}

/// A raster and its headers with blocks of 8 rows and columns and of 16, which are looked at as
/// long as those of a side take no more than `most` bytes.
#[derive(Drop)]
pub(crate) struct BothSides<'a, V: View> {
    pub(crate) small: &'a Header,
    pub(crate) large: &'a Header,
    pub(crate) raster: &'a V,
    pub(crate) most: usize,
    ghost blocked: { IsBlocked small.now (V.pixels raster.now) } by { IsBlocked-prop small.now (V.pixels raster.now) },
    ghost eight: { small.now.side ≡ 8 },
    ghost few: { most ≤ 67108865 },
}
