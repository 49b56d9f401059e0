//! A raster of bytes.

ghost use Rattle.delta_mode.specs.Symbols.{IsByteType};

use raster_access::View;

/// A raster of bytes: only its values have symbols.
#[derive(Drop)]
pub(crate) struct ByteView<'a, V: View> {
    pub(crate) raster: &'a V,
    ghost byte: { IsByteType (V.pixels raster.now).kind },
}
