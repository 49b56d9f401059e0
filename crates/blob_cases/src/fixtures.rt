//! What several calls begin and end with: sources, the rasters and bands of grids, and their grids,
//! and the blob of a raster.

use case_rows::{CaseStop, Row, Told};
use lerc_encode::{EncodeFault, LayFault, encode_view};
use lerc_header::{BlobFault, Step, Version};
use outside_io::{Bytes, MemSink, MemSource, take_all};
use raster_grids::{
    GridStop, bands_read, bands_size, bands_write, grid_read, grid_size, grid_write,
};
use raster_values::{Bands, PixelType, Raster};
use std::alloc::Global;

/// A source that gives at most `piece` bytes a call, and fails at the calls that are named.
pub(crate) fn source_of(
    alloc: Global,
    bytes: &[u8],
    piece: usize,
    failing: &[u8],
) -> Result<MemSource, CaseStop> {
    if piece == 0 {
        return Err(CaseStop::BadRow);
    }
    let bytes = Bytes::of(alloc, bytes)?;
    Ok(MemSource::new(bytes, piece, Bytes::of(alloc, failing)?))
}

/// A sink that takes at most `piece` bytes a call and `room` in all, and fails at the calls that
/// are named.
pub(crate) fn sink_of(
    alloc: Global,
    piece: usize,
    room: u64,
    failing: &[u8],
) -> Result<MemSink, CaseStop> {
    match usize::try_from(room) {
        Ok(room) if piece > 0 => {
            let failing = Bytes::of(alloc, failing)?;
            Ok(MemSink::new(alloc, piece, failing, room)?)
        }
        _ => Err(CaseStop::BadRow),
    }
}

/// Why a row with a wrong grid cannot be run.
fn stop_of(stop: GridStop) -> CaseStop {
    match stop {
        GridStop::OutOfMemory => CaseStop::OutOfMemory,
        _ => CaseStop::BadRow,
    }
}

/// The raster of a grid.
pub(crate) fn raster_of(alloc: Global, grid: &[u8]) -> Result<Raster, CaseStop> {
    let mut source = source_of(alloc, grid, 1 << 20, b"")?;
    grid_read(alloc, &mut source, 0).map_err(stop_of)
}

/// The bands of a grid.
pub(crate) fn bands_of(alloc: Global, grid: &[u8]) -> Result<Bands, CaseStop> {
    let mut source = source_of(alloc, grid, 1 << 20, b"")?;
    bands_read(alloc, &mut source, 0).map_err(stop_of)
}

/// The grid of a raster, which has just the size that is told of it.
pub(crate) fn grid_of(alloc: Global, raster: &Raster) -> Result<Vec<u8>, CaseStop> {
    let size = grid_size(raster);
    let mut sink = sink_of(alloc, 1 << 20, size, b"")?;
    match grid_write(raster, &mut sink) {
        Ok(()) if sink.held().len() as u64 == size => Ok(sink.held().to_vec(alloc)?),
        _ => Err(CaseStop::BadRow),
    }
}

/// The grid of bands, which has just the size that is told of it.
pub(crate) fn bands_grid_of(alloc: Global, bands: &Bands) -> Result<Vec<u8>, CaseStop> {
    let size = bands_size(bands);
    let mut sink = sink_of(alloc, 1 << 20, size, b"")?;
    match bands_write(bands, &mut sink) {
        Ok(()) if sink.held().len() as u64 == size => Ok(sink.held().to_vec(alloc)?),
        _ => Err(CaseStop::BadRow),
    }
}

/// The blob that is chosen for a raster, or why there is none.
pub(crate) fn blob_of(
    alloc: Global,
    raster: &Raster,
    version: Version,
    step: Step,
) -> Result<Result<Vec<u8>, EncodeFault>, CaseStop> {
    match encode_view(alloc, raster, version, step) {
        Ok(blob) => Ok(Ok(blob.into_vec())),
        Err(EncodeFault::OutOfMemory) => Err(CaseStop::OutOfMemory),
        Err(fault) => Ok(Err(fault)),
    }
}

/// Tells how many bytes were laid, or why none were.
pub(crate) fn tell_laid(laid: Result<usize, LayFault>, told: &mut Told) -> Result<(), CaseStop> {
    match laid {
        Ok(size) => told.word(size),
        Err(fault) => told.fact(fault),
    }
}

/// Tells what is left in a source, of which it gives at most sixteen bytes.
pub(crate) fn tell_left(mut source: MemSource, told: &mut Told) -> Result<(), CaseStop> {
    let mut rest = [0u8; 16];
    match take_all(&mut source, &mut rest) {
        Ok(count) => told.bytes(&rest[..count]),
        Err(_) => told.word("failed"),
    }
}

/// Tells the reason and the place of a fault.
pub(crate) fn tell_fault(fault: BlobFault, told: &mut Told) -> Result<(), CaseStop> {
    told.fact(fault.reason)?;
    told.word(fault.place)
}

/// The type that the word names.
pub(crate) fn kind_at(row: &Row, at: usize) -> Result<PixelType, CaseStop> {
    match row.bytes(at)? {
        b"I8" => Ok(PixelType::I8),
        b"U8" => Ok(PixelType::U8),
        b"I16" => Ok(PixelType::I16),
        b"U16" => Ok(PixelType::U16),
        b"I32" => Ok(PixelType::I32),
        b"U32" => Ok(PixelType::U32),
        _ => Err(CaseStop::BadRow),
    }
}

/// The version whose number the word is.
pub(crate) fn version_at(row: &Row, at: usize) -> Result<Version, CaseStop> {
    match Version::of_number(row.number::<i64>(at)?) {
        Some(version) => Ok(version),
        None => Err(CaseStop::BadRow),
    }
}
