//! What a decoder takes and wants, and what sources give.

use crate::answers::{read_of, tell_read};
use crate::fixtures::{source_of, tell_fault, tell_left};
use case_rows::{CaseStop, Row, Told};
use lerc_decode::{Decoder, FedState, FromFault, decode_from, decode_sized};
use outside_io::MemSource;
use std::alloc::Global;

/// `pieces` of a blob, and a `source` of it, of which the `size` is told, too.
pub(crate) fn call(alloc: Global, row: &Row, told: &mut Told) -> Result<(), CaseStop> {
    match row.call.as_slice() {
        b"pieces" => tell_pieces(alloc, row, told),
        b"source" => tell_source(alloc, row, told),
        b"sized" => tell_sized(alloc, row, told),
        _ => Err(CaseStop::BadRow),
    }
}

/// Tells how many of the bytes a decoder takes in pieces of so many, what it says then, and how
/// many bytes it wants before each piece and then.
fn tell_pieces(alloc: Global, row: &Row, told: &mut Told) -> Result<(), CaseStop> {
    let piece = row.number::<usize>(0)?;
    if piece == 0 {
        return Err(CaseStop::BadRow);
    }
    let mut decoder = Decoder::new(alloc);
    let (mut taken, mut state) = (0usize, FedState::More);
    let mut wanted = Vec::new(alloc);
    for part in row.bytes(1)?.chunks(piece) {
        wanted.push(decoder.wants())?;
        let fed = decoder.feed(part);
        taken = taken.saturating_add(fed.used);
        state = fed.state;
    }
    wanted.push(decoder.wants())?;
    told.word(taken)?;
    told.fact(state)?;
    told.list(&wanted)
}

/// The source that a row gives: the length of its pieces, the calls at which it fails, and its
/// bytes.
fn source_in(alloc: Global, row: &Row) -> Result<MemSource, CaseStop> {
    source_of(alloc, row.bytes(2)?, row.number(0)?, row.bytes(1)?)
}

/// Tells why a source gave no raster.
fn tell_stop(stop: FromFault, told: &mut Told) -> Result<(), CaseStop> {
    match stop {
        FromFault::Blob(fault) => tell_fault(fault, told),
        FromFault::Source => told.word("source"),
        FromFault::OutOfMemory => Err(CaseStop::OutOfMemory),
    }
}

/// Tells what the blob is that a source gives, and what is left in it.
fn tell_source(alloc: Global, row: &Row, told: &mut Told) -> Result<(), CaseStop> {
    let mut source = source_in(alloc, row)?;
    match decode_from(alloc, &mut source) {
        Ok(raster) => {
            tell_read(&read_of(alloc, &raster)?, told)?;
            tell_left(source, told)
        }
        Err(stop) => tell_stop(stop, told),
    }
}

/// The same, with how many bytes the blob has in front.
fn tell_sized(alloc: Global, row: &Row, told: &mut Told) -> Result<(), CaseStop> {
    let mut source = source_in(alloc, row)?;
    match decode_sized(alloc, &mut source) {
        Ok(decoded) => {
            told.word(decoded.size)?;
            tell_read(&read_of(alloc, &decoded.raster)?, told)?;
            tell_left(source, told)
        }
        Err(stop) => tell_stop(stop, told),
    }
}
