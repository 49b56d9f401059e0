//! Works on one volume, as rows name them: those of a session, packings and overviews of it and
//! into it, and runs over it or over a level that it is in.

use crate::runs::{level_rows, pack_rows, run_rows, tile_rows};
use crate::store::store_rows;
use crate::words::work_words::named_work;
use case_rows::{CaseStop, Row, Told};
use outside_io::MemVolume;
use std::alloc::Global;
use std::thread::Threads;
use volume_rows::Volumes;

/// Does the work, and answers the volume and what came out.
pub(crate) fn perform<R: Threads + Sync>(
    rt: &R,
    alloc: Global,
    volumes: &mut Volumes,
    mut vol: MemVolume,
    work: &Row,
) -> Result<(MemVolume, Vec<u8>), CaseStop> {
    let text = match work.call.as_slice() {
        b"pack_into" => pack_rows::pack_into(alloc, volumes, work, &mut vol)?,
        b"pack_from" => return pack_rows::pack_from(alloc, vol),
        b"level" => return level_rows::run_level_work(alloc, volumes, vol, work),
        b"run" => run_rows::run_work(rt, alloc, work, &mut vol)?,
        b"tiles" => tile_rows::run_tile_work(alloc, work, &mut vol)?,
        b"overview_into" => run_rows::overview_into(rt, alloc, volumes, work, &mut vol)?,
        b"overview_from" => run_rows::overview_from(rt, alloc, work, &mut vol)?,
        _ => store_rows::work(alloc, &mut vol, work)?,
    };
    Ok((vol, text))
}

/// `work NAME WORK ..`: the work on the volume, and what came out.
pub(crate) fn tell_work<R: Threads + Sync>(
    rt: &R,
    alloc: Global,
    volumes: &mut Volumes,
    row: &Row,
    told: &mut Told,
) -> Result<(), CaseStop> {
    let work = named_work(alloc, row, 1)?;
    let vol = volumes.take(row.bytes(0)?)?;
    let (vol, text) = perform(rt, alloc, volumes, vol, &work)?;
    volumes.keep(row.bytes(0)?, vol)?;
    told.bytes(&text)
}

/// Whether a work came out as it does where the volume fails before it gave anything: a call of a
/// session, a run that tells no marks, and one that tells them.
pub(crate) fn has_plainly_failed(text: &[u8]) -> bool {
    text == b"Device".as_slice()
        || text == b"5 volume failed\n".as_slice()
        || text == b"0 5 volume failed\n".as_slice()
}

/// Whether a work came out as it does where the volume fails, behind lines that it gave, if any.
pub(crate) fn has_failed(text: &[u8]) -> bool {
    has_plainly_failed(text) || text.starts_with(b"5 ") && text.ends_with(b"volume failed\n")
}
