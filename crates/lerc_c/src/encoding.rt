//! Arrays encoded into a blob.

ghost use Rattle.std.specs.Prelude.{◌≡◌, ℕ, ◌-◌, ◌<◌, ◌≤◌, ◌↔◌, drop, get_or, take, length};
ghost use Rattle.std.specs.Prelude.{IfOk, IfErr, IfSome, OnOk, OnErr, IsTrue};
ghost use Rattle.raster_cells.specs.Shapes.{IsShape};
ghost use Rattle.lerc_header.specs.Head.{version_number};
ghost use Rattle.lerc_header.specs.Written.{step_of};
ghost use Rattle.lerc_c.specs.Arrays.{GivesSizes, IsEncoded};
ghost use Rattle.lerc_c.specs.inside.Given.{IsGivenBy};
ghost use Rattle.lerc_c.specs.inside.Stops.{IsArgumentStop, IsFit, IsWriteStop, IsWritten};
ghost use Rattle.lerc_c.specs.inside.Stops.{IsEncodeStop};
ghost use Rattle.lerc_c.specs.inside.Repeated.{IsOneValue};
ghost use Rattle.lerc_encode.specs.AllAlike.{alike_pixels};
ghost use Rattle.raster_cells.specs.PixelType.{bytes_of, code_of};

use crate::arrays::{FitArrays, RasterArrays};
use lerc_encode::{AlikeRaster, LayFault, encode_alike_over, encode_view_over};
use lerc_header::{Step, Version, kind_of, needs_v4};
use raster_values::{PixelType, RasterRef, is_shape};
use std::alloc::Global;

/// Why no blob was written.
#[derive(Debug, Drop)]
pub(crate) enum EncodeStop {
    /// A number of the shape is 0.
    BadShape,
    /// There are more than 65,536 depths, or more than 2^24 values.
    TooLarge,
    /// An array is not as long as the raster asks for.
    BadSizes,
    /// There is more than one depth, which version 3 has no place for.
    DepthNeedsV4,
    OutOfMemory,
    /// The blob is longer than the room for it: it has so many bytes.
    NoRoom(usize),
}

/// The pixel type that a number of C names.
pub(crate) fn kind_numbered(number: u32) -> Option<PixelType>
    ensures { (kind : PixelType) → (result ≡ Some kind) ↔ (number ≡ code_of kind) }
{
    kind_of(i64::from(number))
}

/// The version that a number of C names.
pub(crate) fn version_numbered(number: u32) -> Option<Version>
    ensures { (version : Version) → (result ≡ Some version) ↔ (number ≡ version_number version) }
{
    Version::of_number(i64::from(number))
}

/// Whether arrays are as long as the values and the mask of a raster of this shape.
fn give_sizes(arrays: RasterArrays) -> bool
    requires { IsShape arrays.rows arrays.cols arrays.depth }
    ensures { IsTrue result ↔ GivesSizes arrays.entry.kind arrays.entry.rows arrays.entry.cols
        arrays.entry.depth (length arrays.entry.values.now) (length arrays.entry.mask.now) }
{
    let pixels = arrays.rows as usize * arrays.cols as usize;
    let size = pixels * arrays.depth as usize * arrays.kind.bytes();
    let (values, mask) = (arrays.values.len(), arrays.mask.len());
    values == size && (mask == 0 || mask == pixels.div_ceil(8))
}

/// Whether there are rasters of the shape, the arrays give one, and the version has a place for it.
fn test_arguments(arrays: RasterArrays, version: Version) -> Result<(), EncodeStop>
    ensures ok { OnOk result (IsFit arrays.entry.kind arrays.entry.rows arrays.entry.cols
        arrays.entry.depth version
        (length arrays.entry.values.now) (length arrays.entry.mask.now)) }
    ensures stop { IfErr result (λ stop. IsArgumentStop arrays.entry.kind arrays.entry.rows
        arrays.entry.cols arrays.entry.depth version (length arrays.entry.values.now)
        (length arrays.entry.mask.now) stop) }
{
    if arrays.rows == 0 || arrays.cols == 0 || arrays.depth == 0 {
        return Err(EncodeStop::BadShape);
    }
    if !is_shape(arrays.rows, arrays.cols, arrays.depth) {
        return Err(EncodeStop::TooLarge);
    }
    if !give_sizes(arrays) {
        return Err(EncodeStop::BadSizes);
    }
    if needs_v4(version, arrays.depth) {
        return Err(EncodeStop::DepthNeedsV4);
    }
    Ok(())
}

/// The raster that the arrays are, which is read where it lies.
fn view_of<'a>(fit: FitArrays<'a>) -> RasterRef<'a, 'a>
    ensures { IsGivenBy fit.entry.arrays result }
{
    let RasterArrays {
        kind,
        rows,
        cols,
        depth,
        values,
        mask,
    } = fit.arrays;
    if mask.is_empty() {
        return RasterRef::whole(kind, rows, cols, depth, values);
    }
    RasterRef::over(kind, rows, cols, depth, mask, values)
}

/// Whether as many bytes are the same.
fn are_same(one: &[u8], other: &[u8]) -> bool
    requires { length one.now ≡ length other.now }
    ensures { IsTrue result ↔ (one.now ≡ other.now) }
{
    *one == *other
}

/// Whether the bytes from number `size` on repeat those before them.
fn repeat(bytes: &[u8], size: usize) -> bool
    requires { size ≤ length bytes.now }
    ensures { IsTrue result
        ↔ (drop size bytes.now ≡ take (length bytes.now - size) bytes.now) }
{
    are_same(&bytes[size..], &bytes[..bytes.len() - size])
}

/// Whether all bytes are 0.
fn are_zero(bytes: &[u8]) -> bool
    ensures { IsTrue result → (k : ℕ) → get_or bytes.now k 0 ≡ 0 }
{
    bytes.is_empty() || (bytes[0] == 0 && repeat(bytes, 1))
}

/// The value that all of the values are, where they are one.
fn one_value(kind: PixelType, values: &[u8]) -> Option<i64>
    requires { bytes_of kind ≤ length values.now }
    ensures { IfSome result (IsOneValue kind values.now) }
{
    if repeat(values, kind.bytes()) {
        Some(kind.read_value(values))
    } else {
        None
    }
}

/// What the pixels are, where they are found to be all alike: nothing is read beyond the first
/// difference. They are not where the mask has a bit behind the last pixel, which says nothing.
fn alike_of(fit: FitArrays) -> Option<AlikeRaster>
    ensures { IfSome result (λ r. IsGivenBy fit.entry.arrays (alike_pixels r)) }
{
    let RasterArrays {
        kind,
        rows,
        cols,
        depth,
        values,
        mask,
    } = fit.arrays;
    if mask.is_empty() {
        let value = one_value(kind, values)?;
        return Some(AlikeRaster {
            kind,
            rows,
            cols,
            depth,
            value: Some(value),
        });
    }
    if are_zero(mask) {
        Some(AlikeRaster {
            kind,
            rows,
            cols,
            depth,
            value: None,
        })
    } else {
        None
    }
}

/// Lays the blob of a raster over the front of `out`, and answers how many bytes it has.
fn write_blob(
    alloc: Global,
    raster: &RasterRef,
    version: Version,
    step: Step,
    out: &mut [u8],
) -> Result<usize, EncodeStop>
    ensures ok { IfOk result (λ size. IsWritten raster.now version step size out.old out.new) }
    ensures stop { IfErr result (λ stop.
        IsWriteStop raster.now version step (length out.old) stop) }
    ensures kept { OnErr result (out.new ≡ out.old) }
{
    match encode_view_over(alloc, raster, version, step, out) {
        Ok(size) => Ok(size),
        Err(LayFault::DepthNeedsV4) => Err(EncodeStop::DepthNeedsV4),
        Err(LayFault::NoRoom(size)) => Err(EncodeStop::NoRoom(size)),
        Err(LayFault::OutOfMemory) => Err(EncodeStop::OutOfMemory),
    }
}

/// Does what `write_blob` does, for a raster whose pixels are all alike.
fn write_alike(
    raster: AlikeRaster,
    version: Version,
    step: Step,
    out: &mut [u8],
) -> Result<usize, EncodeStop>
    ensures ok { IfOk result (λ size.
        IsWritten (alike_pixels raster) version step size out.old out.new) }
    ensures stop { IfErr result (λ stop.
        IsWriteStop (alike_pixels raster) version step (length out.old) stop) }
    ensures kept { OnErr result (out.new ≡ out.old) }
{
    match encode_alike_over(raster, version, step, out) {
        Ok(laid) => Ok(laid),
        Err(LayFault::DepthNeedsV4) => Err(EncodeStop::DepthNeedsV4),
        Err(LayFault::NoRoom(size)) => Err(EncodeStop::NoRoom(size)),
        Err(LayFault::OutOfMemory) => Err(EncodeStop::OutOfMemory),
    }
}

/// Encodes the raster that the arrays are into `out`, and answers how many bytes the blob has.
/// `out` stays as it is where it fails.
pub(crate) fn encode_into(
    alloc: Global,
    arrays: RasterArrays,
    version: Version,
    error: u32,
    out: &mut [u8],
) -> Result<usize, EncodeStop>
    ensures ok { IfOk result (λ size. IsEncoded arrays.entry.kind arrays.entry.rows
        arrays.entry.cols arrays.entry.depth arrays.entry.values.now arrays.entry.mask.now version
        (step_of error) size out.old out.new) }
    ensures stop { IfErr result (λ stop. IsEncodeStop arrays.entry.kind arrays.entry.rows
        arrays.entry.cols arrays.entry.depth arrays.entry.values.now arrays.entry.mask.now version
        (step_of error) (length out.old) stop) }
    ensures kept { OnErr result (out.new ≡ out.old) }
{
    test_arguments(arrays, version)?;
    let fit = FitArrays { arrays };
    if let Some(raster) = alike_of(fit) {
        return write_alike(raster, version, Step::of(error), out);
    }
    let raster = view_of(fit);
    write_blob(alloc, &raster, version, Step::of(error), out)
}
