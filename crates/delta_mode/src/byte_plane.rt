//! A depth of a raster of bytes.

ghost use Rattle.std.specs.Prelude.{◌<◌};
ghost use Rattle.delta_mode.specs.Symbols.{IsByteType};

use raster_access::View;

/// A depth of a raster of bytes.
#[derive(Drop)]
pub(super) struct BytePlane<'a, V: View> {
    pub(super) raster: &'a V,
    pub(super) d: u32,
    ghost byte: { IsByteType (V.pixels raster.now).kind },
    ghost below: { d < (V.pixels raster.now).depth },
}
