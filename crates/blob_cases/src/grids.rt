//! Grids of rasters and of bands: read in pieces of any length, cut at each length, of sources that
//! fail, and given to sinks.

use crate::fixtures::{bands_grid_of, bands_of, grid_of, raster_of, sink_of, source_of, tell_left};
use case_rows::{CaseStop, Row, Told};
use outside_io::MemSource;
use raster_grids::{
    GridFault, GridReason, GridStop, bands_read, bands_write, grid_read, grid_write,
};
use std::alloc::Global;

/// `read`, `cuts`, `source` and `sink` of a grid, and `at` of one of bands, which are given their
/// own where `are_bands`.
pub(crate) fn call(
    alloc: Global,
    are_bands: bool,
    row: &Row,
    told: &mut Told,
) -> Result<(), CaseStop> {
    match row.call.as_slice() {
        b"read" => read(alloc, are_bands, row, told),
        b"cuts" => tell_cuts(alloc, are_bands, row, told),
        b"source" => from_source(alloc, are_bands, row, told),
        b"sink" => to_sink(alloc, are_bands, row, told),
        b"at" => band_at(alloc, row, told),
        _ => Err(CaseStop::BadRow),
    }
}

/// The grid of what is read, or why nothing is.
type Grid = Result<Vec<u8>, GridStop>;

/// What is read of a source from this place on. Of a raster it is the grid of a copy.
fn read_of(
    alloc: Global,
    are_bands: bool,
    source: &mut MemSource,
    at: u64,
) -> Result<Grid, CaseStop> {
    if at >= 1 << 60 {
        return Err(CaseStop::BadRow);
    }
    if are_bands {
        match bands_read(alloc, source, at) {
            Ok(bands) => Ok(Ok(bands_grid_of(alloc, &bands)?)),
            Err(stop) => Ok(Err(stop)),
        }
    } else {
        match grid_read(alloc, source, at) {
            Ok(raster) => Ok(Ok(grid_of(alloc, &raster.copy(alloc)?)?)),
            Err(stop) => Ok(Err(stop)),
        }
    }
}

/// Tells the grid and what is left in the source, or the reason and the place, or that the source
/// failed.
fn tell(grid: Grid, source: MemSource, told: &mut Told) -> Result<(), CaseStop> {
    match grid {
        Ok(grid) => {
            told.bytes(&grid)?;
            tell_left(source, told)
        }
        Err(GridStop::Fault(fault)) => {
            told.fact(fault.reason)?;
            told.word(fault.place)
        }
        Err(GridStop::Source) => told.word("source"),
        Err(GridStop::OutOfMemory) => Err(CaseStop::OutOfMemory),
    }
}

/// Tells what bytes are from a place on, and again for each length of pieces by which it is another
/// than at once.
fn read(alloc: Global, are_bands: bool, row: &Row, told: &mut Told) -> Result<(), CaseStop> {
    let (at, bytes) = (row.number(0)?, row.bytes(1)?);
    let mut whole = source_of(alloc, bytes, 1 << 20, b"")?;
    let first = read_of(alloc, are_bands, &mut whole, at)?;
    for piece in [1, 7, 1000] {
        let mut source = source_of(alloc, bytes, piece, b"")?;
        let other = read_of(alloc, are_bands, &mut source, at)?;
        if other != first {
            told.word(piece)?;
            tell(other, source, told)?;
        }
    }
    tell(first, whole, told)
}

/// Tells at how many of the shorter lengths the bytes from a place on are truncated at that length,
/// in pieces of seven.
fn tell_cuts(alloc: Global, are_bands: bool, row: &Row, told: &mut Told) -> Result<(), CaseStop> {
    let (at, bytes) = (row.number::<u64>(0)?, row.bytes(1)?);
    let mut count = 0u32;
    for length in 0..bytes.len() {
        let mut source = source_of(alloc, &bytes[..length], 7, b"")?;
        let cut = GridFault {
            reason: GridReason::Truncated,
            place: at.wrapping_add(length as u64),
        };
        if read_of(alloc, are_bands, &mut source, at)? == Err(GridStop::Fault(cut)) {
            count = count.saturating_add(1);
        }
    }
    told.word(count)
}

/// Tells what is read of a source that gives at most so many bytes a call, and fails at the calls
/// named.
fn from_source(alloc: Global, are_bands: bool, row: &Row, told: &mut Told) -> Result<(), CaseStop> {
    let mut source = source_of(alloc, row.bytes(2)?, row.number(0)?, row.bytes(1)?)?;
    let grid = read_of(alloc, are_bands, &mut source, 0)?;
    tell(grid, source, told)
}

/// Tells the answer of a sink that takes at most so many bytes a call and so many in all, and fails
/// at the calls named, and what it holds then.
fn to_sink(alloc: Global, are_bands: bool, row: &Row, told: &mut Told) -> Result<(), CaseStop> {
    let mut sink = sink_of(alloc, row.number(0)?, row.number(1)?, row.bytes(2)?)?;
    let answer = if are_bands {
        bands_write(&bands_of(alloc, row.bytes(3)?)?, &mut sink)
    } else {
        grid_write(&raster_of(alloc, row.bytes(3)?)?, &mut sink)
    };
    told.fact(answer)?;
    told.bytes(sink.held())
}

/// Tells the grid of a band.
fn band_at(alloc: Global, row: &Row, told: &mut Told) -> Result<(), CaseStop> {
    let bands = bands_of(alloc, row.bytes(1)?)?;
    let i = row.number::<usize>(0)?;
    if i < bands.len() {
        told.bytes(&grid_of(alloc, bands.at(i))?)
    } else {
        Err(CaseStop::BadRow)
    }
}
