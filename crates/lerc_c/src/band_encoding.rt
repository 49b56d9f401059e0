//! Arrays of bands encoded into blobs.

ghost use Rattle.std.specs.Prelude.{◌≡◌, ◌+◌, ◌*◌, ◌<◌, ◌≤◌, ◌⊎◌, ◌↔◌, length};
ghost use Rattle.std.specs.Prelude.{IfOk, IfErr, IfSome, OnOk, OnErr, IsTrue};
ghost use Rattle.raster_cells.specs.Shapes.{IsShape};
ghost use Rattle.lerc_header.specs.Written.{step_of};
ghost use Rattle.lerc_c.specs.Arrays.{GivesSizes, IsGiven, values_size, mask_array_size};
ghost use Rattle.lerc_c.specs.BandArrays.{AreAllowed, AreEncodedInto, GiveBandSizes, mask_for};
ghost use Rattle.lerc_c.specs.BandArrays.{part_at};
ghost use Rattle.lerc_c.specs.inside.Given.{AreGivenBy};
ghost use Rattle.lerc_c.specs.inside.Stops.{AreFit, IsBandsArgumentStop, IsBandsEncodeStop};

use crate::arrays::{BandArrays, FitArrays, FitBandArrays, RasterArrays};
use crate::band_rasters::raster_given;
use crate::encoding::EncodeStop;
use lerc_encode::{EncodeFault, encode_bands};
use lerc_header::{Step, Version, needs_v4};
use raster_values::{Bands, GREATEST_BANDS, GREATEST_VALUES, PixelType, Raster, is_shape};
use std::alloc::Global;

/// Part number i of an array whose parts have this size.
fn part(array: &[u8], size: usize, i: usize) -> &[u8]
    requires { i * size + size ≤ length array.now }
    ensures { result.now ≡ part_at size i array.now }
{
    let from = i * size;
    &array[from..from + size]
}

/// The mask of band number i: none, the one for all, or its own.
fn mask_of(masks: &[u8], size: usize, i: usize) -> &[u8]
    requires { size < length masks.now → i * size + size ≤ length masks.now }
    ensures { result.now ≡ mask_for size i masks.now }
{
    if size < masks.len() {
        part(masks, size, i)
    } else {
        masks
    }
}

/// How many bytes the values of a band have.
pub(crate) fn band_size(kind: PixelType, rows: u32, cols: u32, depth: u32) -> usize
    requires { IsShape rows cols depth }
    ensures { result ≡ values_size kind rows cols depth }
{
    rows as usize * cols as usize * depth as usize * kind.bytes()
}

/// How many bytes a mask has.
pub(crate) fn mask_size(rows: u32, cols: u32) -> usize
    requires { rows * cols ≤ 16777216 }
    ensures { result ≡ mask_array_size rows cols }
{
    (rows as usize * cols as usize).div_ceil(8)
}

/// Whether arrays are as long as the values and the masks of so many bands of this shape.
fn give_band_sizes(arrays: BandArrays) -> bool
    requires shape { IsShape arrays.rows arrays.cols arrays.depth }
    requires few { arrays.count ≤ 16 }
    ensures { IsTrue result ↔ GiveBandSizes arrays.entry.kind arrays.entry.rows arrays.entry.cols
        arrays.entry.depth arrays.entry.count (length arrays.entry.values.now)
        (length arrays.entry.masks.now) }
{
    let pixels = arrays.rows as usize * arrays.cols as usize;
    let size = pixels * arrays.depth as usize * arrays.kind.bytes();
    let mask = pixels.div_ceil(8);
    let count = arrays.count as usize;
    let (values, masks) = (arrays.values.len(), arrays.masks.len());
    values == count * size && (masks == 0 || masks == mask || masks == count * mask)
}

/// Whether there are so many bands of the shape, and together few enough values.
fn are_small(rows: u32, cols: u32, depth: u32, count: u32) -> bool
    requires { IsShape rows cols depth }
    ensures { IsTrue result ↔ ((count ≤ 16) × (count * (rows * cols * depth) ≤ 16777216)) }
{
    let values = rows as u64 * cols as u64 * depth as u64;
    count <= GREATEST_BANDS && count as u64 * values <= GREATEST_VALUES
}

/// Whether there are so many bands of the shape, the arrays give them, and the version has a place
/// for them.
fn test_bands(arrays: BandArrays, version: Version) -> Result<(), EncodeStop>
    ensures ok { OnOk result (AreFit arrays.entry.kind arrays.entry.rows arrays.entry.cols
        arrays.entry.depth arrays.entry.count version (length arrays.entry.values.now)
        (length arrays.entry.masks.now)) }
    ensures stop { IfErr result (λ stop. IsBandsArgumentStop arrays.entry.kind arrays.entry.rows
        arrays.entry.cols arrays.entry.depth arrays.entry.count version
        (length arrays.entry.values.now) (length arrays.entry.masks.now) stop) }
{
    let (rows, cols, depth, count) = (arrays.rows, arrays.cols, arrays.depth, arrays.count);
    if rows == 0 || cols == 0 || depth == 0 || count == 0 {
        return Err(EncodeStop::BadShape);
    }
    if !is_shape(rows, cols, depth) {
        return Err(EncodeStop::TooLarge);
    }
    if !are_small(rows, cols, depth, count) {
        return Err(EncodeStop::TooLarge);
    }
    if !give_band_sizes(arrays) {
        return Err(EncodeStop::BadSizes);
    }
    if needs_v4(version, depth) {
        return Err(EncodeStop::DepthNeedsV4);
    }
    Ok(())
}

/// Band number i of the arrays. None where memory is refused.
fn given_band(alloc: Global, fit: FitBandArrays, i: usize) -> Option<Raster>
    requires within { i < fit.arrays.count }
    requires sizes { GiveBandSizes fit.arrays.kind fit.arrays.rows fit.arrays.cols
        fit.arrays.depth fit.arrays.count (length fit.arrays.values.now)
        (length fit.arrays.masks.now) }
    ensures { IfSome result (λ r. IsGiven fit.entry.arrays.kind fit.entry.arrays.rows
        fit.entry.arrays.cols fit.entry.arrays.depth
        (part_at (values_size fit.entry.arrays.kind fit.entry.arrays.rows fit.entry.arrays.cols
        fit.entry.arrays.depth) i fit.entry.arrays.values.now)
        (mask_for (mask_array_size fit.entry.arrays.rows fit.entry.arrays.cols) i
        fit.entry.arrays.masks.now) r) }
{
    let BandArrays {
        kind,
        rows,
        cols,
        depth,
        values,
        masks,
        ..
    } = fit.arrays;
    let mask = mask_of(masks, mask_size(rows, cols), i);
    let values = part(values, band_size(kind, rows, cols, depth), i);
    let arrays = RasterArrays {
        kind,
        rows,
        cols,
        depth,
        values,
        mask,
    };
    let band = FitArrays { arrays };
    raster_given(alloc, band)
}

/// The bands that the arrays are. None where memory is refused.
fn given_bands(alloc: Global, fit: FitBandArrays) -> Option<Bands>
    requires sizes { GiveBandSizes fit.arrays.kind fit.arrays.rows fit.arrays.cols
        fit.arrays.depth fit.arrays.count (length fit.arrays.values.now)
        (length fit.arrays.masks.now) }
    ensures { IfSome result (λ bands. AreGivenBy fit.entry.arrays bands) }
{
    let first = given_band(alloc, fit, 0)?;
    let mut bands = Bands::of(alloc, first).ok()?;
    while bands.len() < fit.arrays.count as usize {
        let i = bands.len();
        let band = given_band(alloc, fit, i)?;
        match bands.push(band) {
            Ok(()) => {}
            Err(_) => return None,
        }
    }
    Some(bands)
}

/// Encodes the bands that the arrays are into `out`, and answers how many bytes the blobs have.
/// `out` stays as it is where it fails.
pub(crate) fn encode_bands_into(
    alloc: Global,
    arrays: BandArrays,
    version: Version,
    error: u32,
    out: &mut [u8],
) -> Result<usize, EncodeStop>
    ensures ok { IfOk result (λ size. AreEncodedInto arrays.entry.kind arrays.entry.rows
        arrays.entry.cols arrays.entry.depth arrays.entry.count arrays.entry.values.now
        arrays.entry.masks.now version (step_of error) size out.old out.new) }
    ensures stop { IfErr result (λ stop. IsBandsEncodeStop arrays.entry.kind arrays.entry.rows
        arrays.entry.cols arrays.entry.depth arrays.entry.count arrays.entry.values.now
        arrays.entry.masks.now version (step_of error) (length out.old) stop) }
    ensures kept { OnErr result (out.new ≡ out.old) }
{
    test_bands(arrays, version)?;
    let fit = FitBandArrays { arrays };
    let Some(bands) = given_bands(alloc, fit) else {
        return Err(EncodeStop::OutOfMemory);
    };
    let blobs = match encode_bands(alloc, &bands, version, Step::of(error)) {
        Ok(blobs) => blobs,
        Err(EncodeFault::DepthNeedsV4) => return Err(EncodeStop::DepthNeedsV4),
        Err(EncodeFault::OutOfMemory) => return Err(EncodeStop::OutOfMemory),
    };
    let size = blobs.len();
    if size > out.len() {
        return Err(EncodeStop::NoRoom(size));
    }
    out[..size].copy_from_slice(blobs.as_slice());
    Ok(size)
}
