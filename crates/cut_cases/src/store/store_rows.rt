//! Sessions: recoveries, puts, groups, builds, gets and checks. A row tells what came out as one
//! word: `Ok`, the numbers or the bytes that were asked, or the fault.

ghost use Rattle.std.specs.Prelude.{◌≡◌, true};

use crate::store::sessions::{Ended, open_session, recover_session, text_of};
use crate::words::tiles::{are_fit, slot_of, tiles_of};
use crate::words::work_words::work_of;
use bundle_index::{Entry, Slot};
use bundle_store::{Session, StoreFault, TileRec, built_size, recover};
use case_rows::{CaseStop, Row, Told};
use outside_io::{Bytes, MemVolume, Volume};
use std::alloc::Global;
use volume_rows::Volumes;

/// The word for a work that was done.
fn ok_word(alloc: Global) -> Result<Vec<u8>, Ended> {
    Ok(Vec::from_slice(alloc, b"Ok")?)
}

/// `put NAME ROW COL BYTES`, once the volume is recovered.
fn put(alloc: Global, vol: &mut MemVolume, tiles: &[TileRec]) -> Result<Vec<u8>, Ended> {
    let [tile] = tiles else {
        return Err(Ended::Case(CaseStop::BadRow));
    };
    let mut session = recover_session(alloc, vol)?;
    session.put_blob(vol, tile.slot, tile.bytes.as_slice())?;
    ok_word(alloc)
}

/// `group NAME ROW COL BYTES ..`, once the volume is recovered.
fn group(alloc: Global, vol: &mut MemVolume, tiles: &[TileRec]) -> Result<Vec<u8>, Ended> {
    if tiles.is_empty() || tiles.len() > 64 {
        return Err(Ended::Case(CaseStop::BadRow));
    }
    let mut session = recover_session(alloc, vol)?;
    session.put_group(vol, tiles)?;
    ok_word(alloc)
}

/// `build NAME ROW COL BYTES ..`, once the volume is recovered.
fn build(alloc: Global, vol: &mut MemVolume, tiles: &[TileRec]) -> Result<Vec<u8>, Ended> {
    let mut session = recover_session(alloc, vol)?;
    session.build(vol, tiles)?;
    ok_word(alloc)
}

/// The bytes of a slot's tile.
fn get(alloc: Global, vol: &mut MemVolume, slot: Slot) -> Result<Vec<u8>, Ended> {
    let session = open_session(alloc, vol)?;
    Ok(session.get(vol, slot)?.into_vec())
}

/// `entry NAME ROW COL`: the offset and the size.
fn entry(alloc: Global, vol: &mut MemVolume, slot: Slot) -> Result<Vec<u8>, Ended> {
    let session = open_session(alloc, vol)?;
    let Entry { offset, size } = session.entry(vol, slot)?;
    Ok(format!(in alloc; "{offset} {size}")?.into_bytes())
}

/// `check NAME`: the tiles, their bytes, the bad entries, and the slot of the first of these.
fn check(alloc: Global, vol: &mut MemVolume) -> Result<Vec<u8>, Ended> {
    let session = open_session(alloc, vol)?;
    let report = session.check(vol)?;
    let first = report.first_bad.map(|slot| slot.number());
    let (tiles, bytes, bad) = (report.tiles, report.bytes, report.bad);
    Ok(format!(in alloc; "{tiles} {bytes} {bad} {first:?}")?.into_bytes())
}

/// `length NAME`.
fn length(alloc: Global, vol: &mut MemVolume) -> Result<Vec<u8>, Ended> {
    let session = open_session(alloc, vol)?;
    let len = session.length(vol)?;
    Ok(format!(in alloc; "{len}")?.into_bytes())
}

/// `recover NAME`.
fn recovery(alloc: Global, vol: &mut MemVolume) -> Result<Vec<u8>, Ended> {
    let found = recover(vol)?;
    Ok(format!(in alloc; "{found:?}")?.into_bytes())
}

/// What comes out of that work, whose words are what it is given.
fn answer_of(alloc: Global, vol: &mut MemVolume, work: &Row) -> Result<Vec<u8>, Ended> {
    match work.call.as_slice() {
        b"put" => put(alloc, vol, &tiles_of(alloc, work, 0)?),
        b"group" => group(alloc, vol, &tiles_of(alloc, work, 0)?),
        b"build" => build(alloc, vol, &tiles_of(alloc, work, 0)?),
        b"recover" => recovery(alloc, vol),
        b"get" => get(alloc, vol, slot_of(work, 0)?),
        b"entry" => entry(alloc, vol, slot_of(work, 0)?),
        b"check" => check(alloc, vol),
        b"length" => length(alloc, vol),
        _ => Err(Ended::Case(CaseStop::BadRow)),
    }
}

/// The text of what came out of that work.
pub(crate) fn work(alloc: Global, vol: &mut MemVolume, work: &Row) -> Result<Vec<u8>, CaseStop> {
    text_of(alloc, answer_of(alloc, vol, work))
}

/// `size ROW COL BYTES ..`: how many tiles a bundle of these has, and its length.
fn size(alloc: Global, row: &Row, told: &mut Told) -> Result<(), CaseStop> {
    let tiles = tiles_of(alloc, row, 0)?;
    if !are_fit(&tiles) {
        return Err(CaseStop::BadRow);
    }
    let size = built_size(alloc, &tiles)?;
    told.word(size.tiles)?;
    told.word(size.len)
}

/// What stands behind a put in its session: the entry of its slot, and the tile of another one.
fn look_again(
    alloc: Global,
    vol: &mut MemVolume,
    tile: &TileRec,
    other: Slot,
    told: &mut Told,
) -> Result<(), Ended> {
    let mut session = recover_session(alloc, vol)?;
    session.put_blob(vol, tile.slot, tile.bytes.as_slice())?;
    let moment = vol.moment();
    let entry = session.entry(vol, tile.slot)?;
    let answer = session.get(vol, other);
    told.list(&[entry.offset, u64::from(entry.size)])?;
    told.fact(answer.err())?;
    told.word(vol.moment() == moment)?;
    Ok(())
}

/// `kept NAME ROW COL OTHER_ROW OTHER_COL BYTES`: puts a tile, and tells what its session has of
/// its slot and of another one then, and whether that took no call of the volume.
fn tell_kept(
    alloc: Global,
    volumes: &mut Volumes,
    row: &Row,
    told: &mut Told,
) -> Result<(), CaseStop> {
    let (slot, other) = (slot_of(row, 1)?, slot_of(row, 3)?);
    let bytes = Bytes::of(alloc, row.bytes(5)?)?;
    let vol = volumes.volume(row.bytes(0)?)?;
    match look_again(alloc, vol, &TileRec { slot, bytes }, other, told) {
        Ok(()) => Ok(()),
        Err(_) => Err(CaseStop::BadRow),
    }
}

/// The faults of the calls of a session that is stopped.
fn faults_of(session: &mut Session, vol: &mut MemVolume, slot: Slot) -> [Option<StoreFault>; 6]
    requires { session.old.stopped ≡ true }
{
    [
        session.length(vol).err(),
        session.check(vol).err(),
        session.entry(vol, slot).err(),
        session.get(vol, slot).err(),
        session.put_blob(vol, slot, &[]).err(),
        session.build(vol, &[]).err(),
    ]
}

/// The faults of a session that a put into the slot stops.
fn stop_by_put(
    alloc: Global,
    vol: &mut MemVolume,
    slot: Slot,
    bytes: &[u8],
) -> Result<[Option<StoreFault>; 6], Ended> {
    let mut session = recover_session(alloc, vol)?;
    match session.put_blob(vol, slot, bytes) {
        Err(StoreFault::Device) => Ok(faults_of(&mut session, vol, slot)),
        _ => Err(Ended::Case(CaseStop::BadRow)),
    }
}

/// `stopped NAME ROW COL BYTES`: a put that a failing volume ends, and the faults of each call of
/// its session behind it.
fn tell_stopped(
    alloc: Global,
    volumes: &mut Volumes,
    row: &Row,
    told: &mut Told,
) -> Result<(), CaseStop> {
    let slot = slot_of(row, 1)?;
    let vol = volumes.volume(row.bytes(0)?)?;
    match stop_by_put(alloc, vol, slot, row.bytes(3)?) {
        Ok(faults) => told.fact(faults),
        Err(_) => Err(CaseStop::BadRow),
    }
}

pub(crate) fn call(
    alloc: Global,
    volumes: &mut Volumes,
    row: &Row,
    told: &mut Told,
) -> Result<(), CaseStop> {
    match row.call.as_slice() {
        b"size" => size(alloc, row, told),
        b"kept" => tell_kept(alloc, volumes, row, told),
        b"stopped" => tell_stopped(alloc, volumes, row, told),
        name => {
            let given = row.given.get(1..).unwrap_or(&[]);
            let named = work_of(alloc, name, given)?;
            told.bytes(&work(alloc, volumes.volume(row.bytes(0)?)?, &named)?)
        }
    }
}
