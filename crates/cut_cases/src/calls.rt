//! The groups of calls.

use crate::cut::crashes::crashes;
use crate::cut::cuts::{cuts, files};
use crate::cut::works::tell_work;
use crate::runs::{level_rows, pack_rows, tile_rows};
use crate::store::{line_rows, store_rows};
use case_rows::{Calls, CaseStop, Row, Told};
use std::alloc::Global;
use std::thread::Threads;
use volume_rows::Volumes;

/// Calls what the row names and tells what came out. `BadRow` where nothing has that name.
///
/// The groups are `volume`, `store`, `lines`, `pack`, `level`, `tiles` and `cut`, over volumes that
/// rows have made. What a call is given, and what it tells, stands with its function. Those of
/// `cut` are given a work, as `cut::works` names them; what a bundle holds is told as a line of each of
/// its tiles, by slot: the row, the column and the record, which is the number in front of the tile
/// and its bytes. The images of a moment are as last synced, as read, torn with 0, and torn with 255.
pub fn cut_call<R: Threads + Sync>(
    rt: &R,
    alloc: Global,
    volumes: &mut Volumes,
    row: &Row,
    told: &mut Told,
) -> Result<(), CaseStop> {
    match row.group.as_slice() {
        b"volume" => volumes.call(row, told),
        b"store" => store_rows::call(alloc, volumes, row, told),
        b"lines" => line_rows::call(alloc, volumes, row, told),
        b"pack" => pack_rows::call(alloc, volumes, row, told),
        b"level" => level_rows::call(alloc, volumes, row, told),
        b"tiles" => tile_rows::call(alloc, volumes, row, told),
        b"cut" => cut(rt, alloc, volumes, row, told),
        _ => Err(CaseStop::BadRow),
    }
}

/// Works that are done, or cut off at each of their calls, and crashes.
fn cut<R: Threads + Sync>(
    rt: &R,
    alloc: Global,
    volumes: &mut Volumes,
    row: &Row,
    told: &mut Told,
) -> Result<(), CaseStop> {
    match row.call.as_slice() {
        b"work" => tell_work(rt, alloc, volumes, row, told),
        b"stops" | b"fails" => cuts(rt, alloc, volumes, row, told),
        b"phase" | b"recoveries" => crashes(rt, alloc, volumes, row, told),
        b"files" => files(rt, alloc, volumes, row, told),
        _ => Err(CaseStop::BadRow),
    }
}
