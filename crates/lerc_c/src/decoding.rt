//! Blobs decoded into arrays.

ghost use Rattle.std.specs.Prelude.{◌≡◌, ℕ, ◌↔◌, IfOk, IfErr, OnOk, OnErr, IsTrue, length};
ghost use Rattle.raster_cells.specs.Values.{values_bytes};
ghost use Rattle.raster_values.specs.Flat.{all_values};
ghost use Rattle.raster_values.specs.Order.{IsMaskOf};
ghost use Rattle.lerc_grammar.specs.Verdict.{IsDone};
ghost use Rattle.lerc_c.specs.Arrays.{AreDecodedInto, HaveSizes, IsFull, NeedsNoMask, values_size};
ghost use Rattle.lerc_c.specs.inside.Stops.{IsRasterStop, IsArrayStop};

use lerc_decode::{DecodeFault, decode};
use lerc_header::BlobFault;
use raster_values::Raster;
use std::alloc::Global;

/// Why no blob was decoded into arrays.
#[derive(Clone, Copy, Debug)]
pub(crate) enum DecodeStop {
    Refused(BlobFault),
    OutOfMemory,
    Sizes,
}

/// The raster of the blob with which the bytes begin.
fn raster_of(alloc: Global, blob: &[u8]) -> Result<Raster, DecodeFault>
    ensures ok { IfOk result (λ r. (size : ℕ) × IsDone blob.now r size) }
    ensures stop { IfErr result (λ stop. IsRasterStop blob.now stop) }
{
    match decode(alloc, blob) {
        Ok(decoded) => Ok(decoded.raster),
        Err(stop) => Err(stop),
    }
}

/// Whether arrays of these lengths hold the raster.
fn have_sizes(raster: &Raster, values: usize, mask: usize) -> bool
    ensures { IsTrue result ↔ HaveSizes raster.now values mask }
{
    let pixels = raster.rows() as usize * raster.cols() as usize;
    let size = pixels * raster.depth() as usize * raster.kind().bytes();
    values == size && mask == pixels.div_ceil(8)
}

/// Whether every pixel is valid.
pub(crate) fn is_full(raster: &Raster) -> bool
    ensures { IsTrue result ↔ IsFull raster.now }
{
    let pixels = raster.rows() as usize * raster.cols() as usize;
    raster.valid_count() as usize == pixels
}

/// Whether every pixel is valid, there is no array of a mask, and one of values of this length
/// holds the raster's.
fn needs_no_mask(raster: &Raster, values: usize, mask: usize) -> bool
    ensures { IsTrue result ↔ NeedsNoMask raster.now values mask }
{
    let pixels = raster.rows() as usize * raster.cols() as usize;
    let size = pixels * raster.depth() as usize * raster.kind().bytes();
    mask == 0 && values == size && is_full(raster)
}

/// Writes the values of a raster into an array.
fn write_values(raster: &Raster, values: &mut [u8])
    requires { length values.old
        ≡ values_size raster.now.kind raster.now.rows raster.now.cols raster.now.depth }
    ensures { values.new ≡ values_bytes raster.now.kind (all_values raster.now) }
{
    values.copy_from_slice(raster.cells());
}

/// Writes a raster into arrays.
fn write_arrays(raster: &Raster, values: &mut [u8], mask: &mut [u8])
    requires { HaveSizes raster.now (length values.old) (length mask.old) }
    ensures values { values.new ≡ values_bytes raster.now.kind (all_values raster.now) }
    ensures mask { IsMaskOf raster.now mask.new }
{
    write_values(raster, values);
    raster.mask_bytes(mask);
}

/// Decodes the blob with which the bytes begin into arrays, which stay as they are where it fails.
/// No array of a mask is asked for where every pixel is valid.
pub(crate) fn decode_into(
    alloc: Global,
    blob: &[u8],
    values: &mut [u8],
    mask: &mut [u8],
) -> Result<(), DecodeStop>
    ensures ok { OnOk result (AreDecodedInto blob.now values.new mask.new) }
    ensures stop { IfErr result (λ stop.
        IsArrayStop blob.now (length values.old) (length mask.old) stop) }
    ensures kept { OnErr result ((values.new ≡ values.old) × (mask.new ≡ mask.old)) }
{
    let raster = match raster_of(alloc, blob) {
        Ok(raster) => raster,
        Err(DecodeFault::Blob(fault)) => return Err(DecodeStop::Refused(fault)),
        Err(DecodeFault::OutOfMemory) => return Err(DecodeStop::OutOfMemory),
    };
    if needs_no_mask(&raster, values.len(), mask.len()) {
        write_values(&raster, values);
        return Ok(());
    }
    if !have_sizes(&raster, values.len(), mask.len()) {
        return Err(DecodeStop::Sizes);
    }
    write_arrays(&raster, values, mask);
    Ok(())
}
