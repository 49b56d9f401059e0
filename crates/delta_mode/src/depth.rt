//! Delta mode: the symbols of a depth, one for each valid pixel in order.

ghost use Rattle.std.specs.Prelude.{◌≡◌, ◌*◌, ◌<◌, ◌↔◌, IsTrue, length};
ghost use Rattle.raster_values.specs.Raster.{IsRaster, valid_count};
ghost use Rattle.delta_mode.specs.Symbols.{IsByteType};
ghost use Rattle.delta_mode.specs.Deltas.{AreDeltas};

use super::byte_plane::BytePlane;
use super::full::write_full;
use super::marked_piece::write_marked;
use super::walk::start;
use raster_access::View;

/// The symbols of a depth of a raster of which some pixels are not valid.
fn walked_deltas<V: View>(plane: &BytePlane<V>, out: &mut [u8])
    requires count { length out.old ≡ valid_count (V.pixels plane.now.raster.now) }
    ensures { AreDeltas (V.pixels plane.now.raster.now) plane.now.d out.new }
{
    // for the proof: `kind` ensures that the raster is a lawful one
    let _kind = plane.raster.kind();
    if out.is_empty() {
        return;
    }
    write_marked(plane, 0, start(), 1, out);
}

/// Whether every pixel is valid.
pub(super) fn is_full<V: View>(raster: &V) -> bool
    ensures full { IsTrue result ↔ (valid_count (V.pixels raster.now)
        ≡ (V.pixels raster.now).rows * (V.pixels raster.now).cols) }
    ensures sound { IsRaster (V.pixels raster.now) }
{
    let pixels = raster.rows() as usize * raster.cols() as usize;
    raster.valid_count() as usize == pixels
}

/// The symbols of a depth of a raster of bytes: of each valid pixel's value less its predictor, row
/// by row.
pub fn deltas_of<V: View>(raster: &V, d: u32, out: &mut [u8])
    requires kind { IsByteType (V.pixels raster.now).kind }
    requires depth { d < (V.pixels raster.now).depth }
    requires count { length out.old ≡ valid_count (V.pixels raster.now) }
    ensures { AreDeltas (V.pixels raster.now) d out.new }
{
    let plane = BytePlane { raster, d };
    if is_full(raster) {
        write_full(&plane, 0, out);
    } else {
        walked_deltas(&plane, out);
    }
}
