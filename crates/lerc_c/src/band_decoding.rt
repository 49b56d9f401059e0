//! Tiles of bands decoded into arrays.

ghost use Rattle.std.specs.Prelude.{◌≡◌, ◌+◌, ◌*◌, ◌<◌, ◌≤◌, ◌↔◌, ◌++◌, ℕ, List, IfOk, IfErr, OnOk};
ghost use Rattle.std.specs.Prelude.{All, OnErr, IsTrue, length, take, drop};
ghost use Rattle.std.specs.List.{flat_map};
ghost use Rattle.raster_values.specs.Raster.{Pixels};
ghost use Rattle.raster_values.specs.Order.{IsMaskOf};
ghost use Rattle.lerc_grammar.specs.Bands.{BandsBlob, BandsFaultAt};
ghost use Rattle.lerc_decode.specs.Decoding.{HasHeader};
ghost use Rattle.lerc_c.specs.Arrays.{IsFull, mask_array_size};
ghost use Rattle.lerc_c.specs.BandArrays.{AreBandsDecodedInto, AreMasks, HaveBandSizes};
ghost use Rattle.lerc_c.specs.BandArrays.{NeedNoMasks, cells_of};
ghost use Rattle.lerc_c.specs.inside.Stops.{IsBandsArrayStop, IsCountStop};

use crate::band_encoding::{band_size, mask_size};
use crate::decoding::is_full;
use lerc_decode::{BandsStop, decode_bands};
use lerc_grammar::BandsFault;
use raster_values::{Bands, Raster};
use std::alloc::Global;

/// Why no tile was decoded into arrays.
#[derive(Clone, Copy, Debug)]
pub(crate) enum BandsDecodeStop {
    Refused(BandsFault),
    OutOfMemory,
    Sizes,
}

/// How many blobs the tile has that all the bytes are.
pub(crate) fn count_of(alloc: Global, blob: &[u8]) -> Result<u32, BandsDecodeStop>
    ensures ok { IfOk result (λ n. (bands : List Pixels)
        × (BandsBlob blob.now bands × (n ≡ length bands))) }
    ensures stop { IfErr result (λ stop. IsCountStop blob.now stop) }
{
    match decode_bands(alloc, blob) {
        Ok(bands) => Ok(bands.len() as u32),
        Err(BandsStop::Fault(fault)) => Err(BandsDecodeStop::Refused(fault)),
        Err(BandsStop::OutOfMemory) => Err(BandsDecodeStop::OutOfMemory),
    }
}

/// Whether so many bands are asked for, and arrays of these lengths hold them.
fn have_band_sizes(bands: &Bands, count: u32, values: usize, masks: usize) -> bool
    ensures { IsTrue result ↔ HaveBandSizes bands.now count values masks }
{
    let n = bands.len();
    let first = bands.at(0);
    let size = band_size(first.kind(), first.rows(), first.cols(), first.depth());
    let mask = mask_size(first.rows(), first.cols());
    count as usize == n && values == n * size && masks == n * mask
}

/// Lays bytes over as many from `at` on.
fn lay(array: &mut [u8], at: usize, run: &[u8])
    requires { at + length run.now ≤ length array.old }
    ensures { array.new
        ≡ take at array.old ++ (run.now ++ drop (at + length run.now) array.old) }
{
    let place = &mut array[at..at + run.len()];
    place.copy_from_slice(run);
}

/// Lays the mask of a raster over as many bytes from `at` on.
fn lay_mask(raster: &Raster, masks: &mut [u8], at: usize, size: usize)
    requires size { size ≡ mask_array_size raster.now.rows raster.now.cols }
    requires within { at + size ≤ length masks.old }
    ensures { (run : List ℕ) × (IsMaskOf raster.now run × (masks.new
        ≡ take at masks.old ++ (run ++ drop (at + size) masks.old))) }
{
    let place = &mut masks[at..at + size];
    raster.mask_bytes(place);
}

/// Whether every pixel of each band is valid.
fn are_full(bands: &Bands) -> bool
    ensures { IsTrue result ↔ All IsFull bands.now }
{
    for i in 0..bands.len() {
        let band = bands.at(i);
        if !is_full(band) {
            return false;
        }
    }
    true
}

/// Whether so many bands are asked for, and an array of values of this length holds theirs.
fn have_values_size(bands: &Bands, count: u32, values: usize) -> bool
    ensures { IsTrue result ↔ ((size : ℕ) × HaveBandSizes bands.now count values size) }
{
    let n = bands.len();
    let first = bands.at(0);
    let mask = mask_size(first.rows(), first.cols());
    have_band_sizes(bands, count, values, n * mask)
}

/// Whether so many bands are asked for, every pixel of which is valid, there is no array of masks,
/// and one of values of this length holds theirs.
fn need_no_masks(bands: &Bands, count: u32, values: usize, masks: usize) -> bool
    ensures { IsTrue result ↔ NeedNoMasks bands.now count values masks }
{
    masks == 0 && have_values_size(bands, count, values) && are_full(bands)
}

/// Writes the values of the bands of a tile into an array.
fn write_values(bands: &Bands, values: &mut [u8])
    requires { (size : ℕ)
        × HaveBandSizes bands.now (length bands.now) (length values.old) size }
    ensures { values.new ≡ flat_map cells_of bands.now }
{
    let first = bands.at(0);
    let size = band_size(first.kind(), first.rows(), first.cols(), first.depth());
    for i in 0..bands.len() {
        let band = bands.at(i);
        lay(values, i * size, band.cells());
    }
}

/// Writes the masks of the bands of a tile into an array.
fn write_masks(bands: &Bands, masks: &mut [u8])
    requires { (size : ℕ) × HaveBandSizes bands.now (length bands.now) size (length masks.old) }
    ensures { AreMasks masks.new bands.now }
{
    let first = bands.at(0);
    let mask = mask_size(first.rows(), first.cols());
    for i in 0..bands.len() {
        let band = bands.at(i);
        lay_mask(band, masks, i * mask, mask);
    }
}

/// Writes the bands of a tile into arrays.
fn write_bands(bands: &Bands, values: &mut [u8], masks: &mut [u8])
    requires { HaveBandSizes bands.now (length bands.now) (length values.old) (length masks.old) }
    ensures values { values.new ≡ flat_map cells_of bands.now }
    ensures masks { AreMasks masks.new bands.now }
{
    write_values(bands, values);
    write_masks(bands, masks);
}

/// Decodes the tile that all the bytes are into arrays, which stay as they are where it fails. No
/// array of masks is asked for where every pixel of each band is valid.
pub(crate) fn decode_bands_into(
    alloc: Global,
    blob: &[u8],
    count: u32,
    values: &mut [u8],
    masks: &mut [u8],
) -> Result<(), BandsDecodeStop>
    ensures ok { OnOk result (AreBandsDecodedInto blob.now count values.new masks.new) }
    ensures stop { IfErr result (λ stop. IsBandsArrayStop
        blob.now count (length values.old) (length masks.old) stop) }
    ensures kept { OnErr result ((values.new ≡ values.old) × (masks.new ≡ masks.old)) }
{
    let bands = match decode_bands(alloc, blob) {
        Ok(bands) => bands,
        Err(BandsStop::Fault(fault)) => return Err(BandsDecodeStop::Refused(fault)),
        Err(BandsStop::OutOfMemory) => return Err(BandsDecodeStop::OutOfMemory),
    };
    if need_no_masks(&bands, count, values.len(), masks.len()) {
        write_values(&bands, values);
        return Ok(());
    }
    if !have_band_sizes(&bands, count, values.len(), masks.len()) {
        return Err(BandsDecodeStop::Sizes);
    }
    write_bands(&bands, values, masks);
    Ok(())
}
