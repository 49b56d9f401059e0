//! Grid files of bands read.

ghost use Rattle.std.specs.Prelude.{◌≡◌, ℕ, ◌+◌, ◌*◌, ◌^◌, ◌<◌, ◌≤◌, ◌↔◌, codes, List, IfOk, IfErr, OnErr, IsTrue, length, take};
ghost use Rattle.first_fault.specs.Faults.{AllNumbered, InNumbered};
ghost use Rattle.raster_cells.specs.Shapes.{IsShape};
ghost use Rattle.raster_grids.specs.ReadGrid.{IsGrid, IsHead, IsToldFault, CountsGridStop, behind_head};
ghost use Rattle.raster_grids.specs.Taken.{TookBytes, TookSome};
ghost use Rattle.raster_grids.specs.BandsGrid.{IsBandCount, IsBandGrid, IsBandsGrid, TookBands, bands_faults, count_faults};
ghost use Rattle.raster_grids.specs.inside.Heads.{front_faults, letters_of};
ghost use Rattle.raster_grids.specs.inside.Sizes.{band_bytes};

use crate::reading::{GridReason, GridStop, Head, ONE, fault, head_of, read_band, stop_at};
use byteorder::{ByteOrder, LittleEndian};
use outside_io::{Source, take_all};
use raster_cells::{GREATEST_BANDS, GREATEST_VALUES};
use raster_values::{Bands, Raster};
use std::alloc::Global;

/// The letters of the grid of more bands than one.
const MORE: [u8; 4] = *b"LGR2";

/// Whether bytes begin with the letters of more bands than one.
fn are_more(bytes: &[u8]) -> bool
    ensures { IsTrue result ↔ (take 4 bytes.now ≡ codes "LGR2") }
{
    bytes.len() >= 4 && bytes[..4] == MORE[..]
}

/// The letters of a grid.
fn letters(more: bool) -> [u8; 4]
    ensures { result ≡ letters_of more }
{
    if more { MORE } else { ONE }
}

/// Takes the head of a grid of bands, and answers too whether the letters are those of more bands
/// than one, of which the number follows.
fn take_front<S: Source>(src: &mut S, at: u64) -> Result<(Head, bool), GridStop>
    requires { at < 2 ^ 60 }
    ensures ok { IfOk result (λ front. (bytes : List ℕ)
        × (IsHead (letters_of front.1) bytes front.0
        × TookBytes (S.left src.old) (S.left src.new) bytes)) }
    ensures err { IfErr result (λ stop. IsToldFault front_faults (S.left src.old) at stop) }
    ensures some { OnErr result (TookSome (S.left src.old) (S.left src.new)) }
    ensures counted { CountsGridStop result (S.faults src.old) (S.faults src.new) }
{
    let mut bytes = [0; 17];
    let n = take_all(src, &mut bytes)?;
    let more = are_more(&bytes[..n]);
    match head_of(letters(more), &bytes[..n]) {
        Ok(head) => Ok((head, more)),
        Err(fault) => Err(stop_at(at, fault)),
    }
}

/// Takes the number of bands that stands behind a head.
fn take_count<S: Source>(src: &mut S, at: u64, head: Head) -> Result<usize, GridStop>
    requires at { at < 2 ^ 61 }
    requires shape { IsShape head.rows head.cols head.depth }
    ensures ok { IfOk result (λ n. (bytes : List ℕ) × (IsBandCount head bytes n
        × TookBytes (S.left src.old) (S.left src.new) bytes)) }
    ensures err { IfErr result (λ stop. IsToldFault (count_faults head) (S.left src.old) at stop) }
    ensures some { OnErr result (TookSome (S.left src.old) (S.left src.new)) }
    ensures counted { CountsGridStop result (S.faults src.old) (S.faults src.new) }
{
    let mut bytes = [0; 4];
    let n = take_all(src, &mut bytes)?;
    if n < 4 {
        return Err(stop_at(at, fault(GridReason::Truncated, n)));
    }
    let count = LittleEndian::read_u32(&bytes);
    if count < 2 || count > GREATEST_BANDS {
        return Err(stop_at(at, fault(GridReason::BadSize, 0)));
    }
    let values = head.rows as u64 * head.cols as u64 * head.depth as u64;
    if count as u64 * values > GREATEST_VALUES {
        return Err(stop_at(at, fault(GridReason::TooLarge, 0)));
    }
    Ok(count as usize)
}

/// How many bytes the marks and the values of a raster take.
fn band_size(raster: &Raster) -> u64
    ensures value { result ≡ band_bytes raster.now }
    ensures few { result ≤ 83886080 }
{
    let pixels = raster.rows() as u64 * raster.cols() as u64;
    let values = raster.valid_count() as u64 * raster.depth() as u64;
    pixels + values * raster.kind().bytes() as u64
}

/// How many bytes stand before the first band of so many.
fn front_size(count: usize) -> u64
    ensures one { count ≡ 1 → result ≡ 17 }
    ensures more { 2 ≤ count → result ≡ 21 }
    ensures few { result ≤ 21 }
{
    if count == 1 { 17 } else { 21 }
}

/// How many bytes the grid of a raster has.
pub fn grid_size(raster: &Raster) -> u64
    ensures size { (grid : List ℕ) → IsGrid grid raster.now → result ≡ length grid }
    ensures small { result ≤ 83886097 }
{
    front_size(1) + band_size(raster)
}

/// How many bytes the grid of the bands has.
pub fn bands_size(bands: &Bands) -> u64
    ensures size { (grid : List ℕ) → IsBandsGrid grid bands.now → result ≡ length grid }
    ensures small { result ≤ 83886101 }
{
    let count = bands.len();
    let mut size = front_size(count);
    for i in 0..count {
        size += band_size(bands.at(i));
    }
    size
}

/// Reads so many bands, one behind the other.
fn read_bands<S: Source>(
    alloc: Global,
    src: &mut S,
    at: u64,
    head: Head,
    count: usize,
) -> Result<Bands, GridStop>
    requires at { at + 2 ^ 31 < 2 ^ 61 }
    requires shape { IsShape head.rows head.cols head.depth }
    requires least { 1 ≤ count }
    requires most { count ≤ 16 }
    requires small { count * (head.rows * head.cols * head.depth) ≤ 16777216 }
    ensures ok { IfOk result (λ bands. (bytes : List ℕ)
        × (AllNumbered (λ k. IsBandGrid head) count bytes bands
        × TookBytes (S.left src.old) (S.left src.new) bytes)) }
    ensures err { IfErr result (λ stop. IsToldFault
        (InNumbered (λ k. IsBandGrid head) (λ k. behind_head head) count)
        (S.left src.old) at stop) }
    ensures some { OnErr result (TookSome (S.left src.old) (S.left src.new)) }
    ensures counted { CountsGridStop result (S.faults src.old) (S.faults src.new) }
{
    let first = read_band(alloc, src, at, head)?;
    let mut place = at + band_size(&first);
    let mut bands = Bands::of(alloc, first)?;
    while bands.len() < count {
        let band = read_band(alloc, src, place, head)?;
        place += band_size(&band);
        bands.push(band)?;
    }
    Ok(bands)
}

/// Reads a grid of bands from the source, and takes the grid's bytes alone: the grid of one raster,
/// or of 2 to 16 bands.
///
/// A fault is the first one of the bytes that are left, its place counted from `at`, the place of
/// the first of them. After any refusal some bytes are taken.
pub fn bands_read<S: Source>(alloc: Global, src: &mut S, at: u64) -> Result<Bands, GridStop>
    requires { at < 2 ^ 60 }
    ensures ok { IfOk result (λ bands. TookBands (S.left src.old) (S.left src.new) bands) }
    ensures fault { IfErr result (λ stop. IsToldFault bands_faults (S.left src.old) at stop) }
    ensures some { OnErr result (TookSome (S.left src.old) (S.left src.new)) }
    ensures counted { CountsGridStop result (S.faults src.old) (S.faults src.new) }
{
    let (head, more) = take_front(src, at)?;
    if more {
        let count = take_count(src, at + 17, head)?;
        read_bands(alloc, src, at + 21, head, count)
    } else {
        let band = read_band(alloc, src, at + 17, head)?;
        Ok(Bands::of(alloc, band)?)
    }
}
