//! Tiles of bands: decoded in pieces of any length, from memory and from a source, cut at each
//! length, kept as blobs, and encoded.

use crate::fixtures::{bands_grid_of, bands_of, source_of, version_at};
use case_rows::{CaseStop, Row, Told};
use lerc_decode::{
    BandsDecoder, BandsFromFault, BandsState, BandsStop, decode_bands, decode_bands_from,
    keep_bands_from,
};
use lerc_encode::{EncodeFault, encode_bands};
use lerc_grammar::{BandReason, BandsFault};
use lerc_header::{BlobReason, Step};
use raster_values::Bands;
use std::alloc::Global;

/// `read`, `cuts`, `decided`, `keep` and `encode`.
pub(crate) fn call(alloc: Global, row: &Row, told: &mut Told) -> Result<(), CaseStop> {
    match row.call.as_slice() {
        b"read" => read(alloc, row.bytes(0)?, told),
        b"cuts" => tell_cuts(alloc, row.bytes(0)?, told),
        b"decided" => told.fact(deciding_byte(alloc, row.bytes(0)?)),
        b"keep" => keep(alloc, row, told),
        b"encode" => encode(alloc, row, told),
        _ => Err(CaseStop::BadRow),
    }
}

/// The grid of a tile, or what is wrong with it first.
type Tile = Result<Vec<u8>, BandsFault>;

/// What was read, with the grid for the bands.
fn tile_of(alloc: Global, read: Result<Bands, BandsStop>) -> Result<Tile, CaseStop> {
    match read {
        Ok(bands) => Ok(Ok(bands_grid_of(alloc, &bands)?)),
        Err(BandsStop::Fault(fault)) => Ok(Err(fault)),
        Err(BandsStop::OutOfMemory) => Err(CaseStop::OutOfMemory),
    }
}

/// What a decoder of bands answers that was fed these bytes in pieces of so many.
fn feed_in(alloc: Global, bytes: &[u8], piece: usize) -> Result<Tile, CaseStop> {
    if piece == 0 {
        return Err(CaseStop::BadRow);
    }
    let mut decoder = BandsDecoder::new(alloc);
    for part in bytes.chunks(piece) {
        decoder.feed(part);
    }
    tile_of(alloc, decoder.finish())
}

/// What is answered of a source that gives at most so many bytes a call.
fn read_in(alloc: Global, bytes: &[u8], piece: usize) -> Result<Tile, CaseStop> {
    let mut source = source_of(alloc, bytes, piece, b"")?;
    match decode_bands_from(alloc, &mut source) {
        Ok(bands) => tile_of(alloc, Ok(bands)),
        Err(BandsFromFault::Fault(fault)) => Ok(Err(fault)),
        Err(BandsFromFault::Source) => Err(CaseStop::BadRow),
        Err(BandsFromFault::OutOfMemory) => Err(CaseStop::OutOfMemory),
    }
}

/// What is answered of the bytes as they are, in pieces of each length, and of sources.
fn answers(alloc: Global, bytes: &[u8]) -> Result<Vec<Tile>, CaseStop> {
    let mut list = Vec::new(alloc);
    list.push(tile_of(alloc, decode_bands(alloc, bytes))?)?;
    for piece in [1, 7, 1000] {
        list.push(feed_in(alloc, bytes, piece)?)?;
        list.push(read_in(alloc, bytes, piece)?)?;
    }
    Ok(list)
}

/// Tells the grid, or the reason and the place of the fault.
fn tell(tile: &Tile, told: &mut Told) -> Result<(), CaseStop> {
    match tile {
        Ok(grid) => told.bytes(grid),
        Err(fault) => {
            told.fact(fault.reason)?;
            told.word(fault.place)
        }
    }
}

/// Tells what a tile is, and again what each answer says that is another than the first.
fn read(alloc: Global, bytes: &[u8], told: &mut Told) -> Result<(), CaseStop> {
    let list = answers(alloc, bytes)?;
    let mut first = None;
    for tile in &list {
        if first != Some(tile) {
            tell(tile, told)?;
        }
        if first.is_none() {
            first = Some(tile);
        }
    }
    Ok(())
}

/// Tells at how many of the shorter lengths each answer is that the tile is truncated there.
fn tell_cuts(alloc: Global, bytes: &[u8], told: &mut Told) -> Result<(), CaseStop> {
    let mut count = 0u32;
    for length in 0..bytes.len() {
        let cut = Err(BandsFault {
            reason: BandReason::Blob(BlobReason::Truncated),
            place: length as u64,
        });
        let list = answers(alloc, &bytes[..length])?;
        if list.iter().all(|tile| *tile == cut) {
            count = count.saturating_add(1);
        }
    }
    told.word(count)
}

/// Which of the bytes decides a fault, fed one by one and counted from 0.
fn deciding_byte(alloc: Global, bytes: &[u8]) -> Option<usize> {
    let mut decoder = BandsDecoder::new(alloc);
    for (at, part) in bytes.chunks(1).enumerate() {
        let fed = decoder.feed(part);
        match fed.state {
            BandsState::Refused(_) => return Some(at),
            _ => {}
        }
    }
    None
}

/// Tells the blobs of a tile that a source gives, seven bytes a call.
fn keep(alloc: Global, row: &Row, told: &mut Told) -> Result<(), CaseStop> {
    let mut source = source_of(alloc, row.bytes(0)?, 7, b"")?;
    match keep_bands_from(alloc, &mut source) {
        Ok(kept) => {
            for i in 0..kept.len() {
                told.bytes(kept.at(i))?;
            }
            Ok(())
        }
        Err(_) => Err(CaseStop::BadRow),
    }
}

/// Tells the blobs of bands: by a version, with an error, of a grid.
fn encode(alloc: Global, row: &Row, told: &mut Told) -> Result<(), CaseStop> {
    let version = version_at(row, 0)?;
    let step = Step::of(row.number(1)?);
    let bands = bands_of(alloc, row.bytes(2)?)?;
    match encode_bands(alloc, &bands, version, step) {
        Ok(blobs) => told.bytes(blobs.as_slice()),
        Err(EncodeFault::OutOfMemory) => Err(CaseStop::OutOfMemory),
        Err(fault) => told.word(fault),
    }
}
