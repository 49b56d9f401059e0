//! Tiles of streams.

use case_rows::{CaseStop, Row, Told};
use outside_io::{Bytes, MemSource};
use std::alloc::Global;
use tile_stream::next_tile;

/// The greatest place of a tile.
const PLACES: u64 = 1 << 59;

/// `next BYTES PIECE FAILING PLACE`: the slot's number of the next tile, how many bands it has, and
/// how many bytes; or that there is none; or why it is none.
fn next(alloc: Global, row: &Row, told: &mut Told) -> Result<(), CaseStop> {
    let bytes = Bytes::of(alloc, row.bytes(0)?)?;
    let failing = Bytes::of(alloc, row.bytes(2)?)?;
    let (piece, place): (usize, u64) = (row.number(1)?, row.number(3)?);
    if place >= PLACES {
        return Err(CaseStop::BadRow);
    }
    let mut src = MemSource::new(bytes, piece.max(1), failing);
    match next_tile(alloc, &mut src, place) {
        Ok(Some(tile)) => {
            told.word(tile.slot.number())?;
            told.word(tile.bands.len())?;
            told.word(tile.size())
        }
        Ok(None) => told.word("none"),
        Err(stop) => told.fact(stop),
    }
}

pub(crate) fn call(alloc: Global, row: &Row, told: &mut Told) -> Result<(), CaseStop> {
    match row.call.as_slice() {
        b"next" => next(alloc, row, told),
        _ => Err(CaseStop::BadRow),
    }
}
