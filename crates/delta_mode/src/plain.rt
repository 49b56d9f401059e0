//! Plain mode: the symbols of all values, pixel by pixel and depth innermost.

ghost use Rattle.std.specs.Prelude.{◌≡◌, ◌+◌, ◌*◌, ◌%◌, map, length};
ghost use Rattle.raster_values.specs.Raster.{valid_count};
ghost use Rattle.delta_mode.specs.Symbols.{IsByteType};
ghost use Rattle.delta_mode.specs.Deltas.{ArePlain};

use raster_access::View;
use raster_values::PixelType;

/// Adds 128 to each byte, modulo 256.
fn add_bias(bytes: &mut [u8])
    ensures { bytes.new ≡ map (λ b. (b + 128) % 256) bytes.old }
{
    for i in 0..bytes.len() {
        bytes[i] = bytes[i].wrapping_add(128);
    }
}

/// The symbols of the valid pixels' values, pixel by pixel and depth innermost, in plain mode.
pub fn plain_of<V: View>(raster: &V, out: &mut [u8])
    requires kind { IsByteType (V.pixels raster.now).kind }
    requires count { length out.old
        ≡ valid_count (V.pixels raster.now) * (V.pixels raster.now).depth }
    ensures { ArePlain (V.pixels raster.now) out.new }
{
    raster.value_bytes(out);
    match raster.kind() {
        PixelType::I8 => add_bias(out),
        _ => {}
    }
}
