//! Inputs of tiles, read whole and encoded in version 3 without loss by workers.

use bundle_store::TileRec;
use case_rows::{CaseStop, Row, Told};
use lerc_header::{Step, Version};
use outside_io::{Bytes, MemSource, Source};
use std::alloc::Global;
use std::thread::Threads;
use tile_updates::read_updates;
use tile_workers::{Coding, Open};

/// `read BYTES PIECE FAILING WORKERS`: the slot's number and the bytes of each update, of an input
/// that gives so many bytes a call and whose calls of these numbers fail; or why there are none. It
/// is told where a byte is left.
fn read<R: Threads + Sync>(
    rt: &R,
    alloc: Global,
    row: &Row,
    told: &mut Told,
) -> Result<(), CaseStop> {
    let bytes = Bytes::of(alloc, row.bytes(0)?)?;
    let failing = Bytes::of(alloc, row.bytes(2)?)?;
    let (piece, workers): (usize, usize) = (row.number(1)?, row.number(3)?);
    if workers < 1 || workers > 64 {
        return Err(CaseStop::BadRow);
    }
    let mut src = MemSource::new(bytes, piece.max(1), failing);
    let coding = Coding {
        version: Version::V3,
        step: Step::of(0),
        workers,
    };
    match read_updates(rt, alloc, &mut src, coding, &Open) {
        Err(stop) => told.fact(stop),
        Ok(updates) => {
            tell_updates(&updates, told)?;
            if src.take(&mut [0; 1]) == Ok(0) {
                Ok(())
            } else {
                told.word("left")
            }
        }
    }
}

/// The slot's number and the bytes of each update.
fn tell_updates(updates: &[TileRec], told: &mut Told) -> Result<(), CaseStop> {
    for update in updates {
        told.word(update.slot.number())?;
        told.bytes(update.bytes.as_slice())?;
    }
    Ok(())
}

/// A call of the group `updates`, by the threads of a runtime. `BadRow` where nothing has that
/// name.
pub fn update_call<R: Threads + Sync>(
    rt: &R,
    alloc: Global,
    row: &Row,
    told: &mut Told,
) -> Result<(), CaseStop> {
    match row.call.as_slice() {
        b"read" => read(rt, alloc, row, told),
        _ => Err(CaseStop::BadRow),
    }
}
