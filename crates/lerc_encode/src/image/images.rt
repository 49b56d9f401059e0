//! The image of a raster, by how it ends.

ghost use Rattle.std.specs.Prelude.{◌≡◌, ◌≤◌, length};
ghost use Rattle.lerc_encode.specs.Images.{tail, image_bytes, side_at};
ghost use Rattle.lerc_encode.specs.inside.Choosing.{AreRanges, IsBase, IsTail};

use crate::image::choosing::Tail;
use crate::image::forms::{ValueForm, front_len, write_form, write_front};
use crate::image::ranging::Ranges;
use lerc_header::Header;
use raster_access::View;

/// The side of blocks that the header says.
pub(crate) fn side_of<V: View>(end: &Tail, base: &Header, raster: &V) -> u32
    requires base { IsBase base.now (V.pixels raster.now) }
    requires tail { IsTail (V.pixels raster.now) base.now.version base.now.step end.now }
    ensures { result ≡ side_at (tail (V.pixels raster.now) base.now.version base.now.step) }
{
    match end {
        Tail::Coded(chosen) => match chosen.form {
            ValueForm::LargeBlocks => 16,
            _ => 8,
        },
        _ => 8,
    }
}

/// How many bytes the image takes.
pub(crate) fn image_len<V: View>(end: &Tail, base: &Header, raster: &V) -> usize
    requires base { IsBase base.now (V.pixels raster.now) }
    requires tail { IsTail (V.pixels raster.now) base.now.version base.now.step end.now }
    ensures value { result ≡ length (image_bytes (V.pixels raster.now) base.now.version
        base.now.step
        (tail (V.pixels raster.now) base.now.version base.now.step)) }
    ensures few { result ≤ 67633153 }
{
    match end {
        Tail::Empty | Tail::Constant => 0,
        Tail::Ranges => front_len(base.version, raster),
        Tail::Coded(chosen) => front_len(base.version, raster) + chosen.size,
    }
}

/// Writes the image over all of `out`.
pub(crate) fn write_image<V: View>(
    end: &Tail,
    base: &Header,
    found: &Ranges,
    raster: &V,
    out: &mut [u8],
)
    requires base { IsBase base.now (V.pixels raster.now) }
    requires ranges { AreRanges (V.pixels raster.now) found.now }
    requires tail { IsTail (V.pixels raster.now) base.now.version base.now.step end.now }
    requires room { length out.old
        ≡ length (image_bytes (V.pixels raster.now) base.now.version base.now.step
        (tail (V.pixels raster.now) base.now.version base.now.step)) }
    ensures { out.new ≡ image_bytes (V.pixels raster.now) base.now.version base.now.step
        (tail (V.pixels raster.now) base.now.version base.now.step) }
{
    match end {
        Tail::Empty | Tail::Constant => {}
        Tail::Ranges => write_front(base.version, found, raster, out),
        Tail::Coded(chosen) => {
            let front = front_len(base.version, raster);
            write_front(base.version, found, raster, &mut out[..front]);
            write_form(chosen, base, raster, &mut out[front..]);
        }
    }
}
