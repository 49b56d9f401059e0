//! Works with their lines: puts, builds, listings and reports.

ghost use Rattle.std.specs.Prelude.{◌≡◌, ◌≤◌, [], IfOk, length};

use crate::store::sessions::{Ended, open_session, recover_session};
use crate::words::tiles::{are_fit, tiles_of};
use bundle_index::Slot;
use bundle_lines::{build_all, give_built, give_recovery, give_report, list_all, put_all};
use bundle_store::{CheckReport, Recovery, TileRec};
use case_rows::{CaseStop, Row, Told};
use outside_io::{Bytes, Marks, MemSink, MemVolume};
use std::alloc::Global;
use volume_rows::Volumes;

/// How many bytes an output takes a call.
const PIECE: usize = 100_000;

/// An output of so many bytes.
fn output(alloc: Global, room: usize) -> Result<MemSink, CaseStop> {
    Ok(MemSink::new(alloc, PIECE, Bytes::of(alloc, &[])?, room)?)
}

/// How often each mark stands there.
fn tell_marks(
    alloc: Global,
    volumes: &mut Volumes,
    marks: &Marks,
    told: &mut Told,
) -> Result<(), CaseStop> {
    let mut runs: Vec<u32> = Vec::new(alloc);
    let mut last = None;
    for i in 0..marks.len() {
        let mark = marks.at(i);
        match runs.last_mut() {
            Some(count) if last == Some(mark) => *count = count.saturating_add(1),
            _ => {
                runs.push(1)?;
                let name = format!(in alloc; "mark{i}")?;
                volumes.keep_moment(name.as_bytes(), mark)?;
            }
        }
        last = Some(mark);
    }
    told.list(&runs)
}

/// The answer of a work, as it is printed for those who look for faults, and its marks.
#[derive(Drop)]
struct Worked {
    answer: String,
    marks: Marks,
}

/// Marks with room for one of each update.
fn marks_for(alloc: Global, updates: &[TileRec]) -> Result<Marks, CaseStop>
    ensures none { IfOk result (λ m. m.marks ≡ []) }
    ensures room { IfOk result (λ m. length updates.now ≤ m.spare) }
{
    let mut marks = Marks::new(alloc);
    marks.reserve(updates.len())?;
    Ok(marks)
}

/// Puts the tiles once the volume is recovered.
fn put_lines(
    alloc: Global,
    vol: &mut MemVolume,
    out: &mut MemSink,
    tiles: &[TileRec],
) -> Result<Worked, Ended> {
    if !are_fit(tiles) {
        return Err(Ended::Case(CaseStop::BadRow));
    }
    let mut marks = marks_for(alloc, tiles)?;
    let mut session = recover_session(alloc, vol)?;
    let end = put_all(&mut session, vol, out, &mut marks, tiles);
    let answer = format!(in alloc; "{end:?}")?;
    Ok(Worked { answer, marks })
}

/// Builds the bundle of the tiles once the volume is recovered.
fn build_lines(
    alloc: Global,
    vol: &mut MemVolume,
    out: &mut MemSink,
    tiles: &[TileRec],
) -> Result<Worked, Ended> {
    if !are_fit(tiles) {
        return Err(Ended::Case(CaseStop::BadRow));
    }
    let mut marks = marks_for(alloc, tiles)?;
    let mut session = recover_session(alloc, vol)?;
    let end = build_all(alloc, &mut session, vol, out, &mut marks, tiles);
    let answer = format!(in alloc; "{end:?}")?;
    Ok(Worked { answer, marks })
}

/// `put NAME ROOM ROW COL BYTES ..` and `build NAME ROOM ROW COL BYTES ..`: the answer, the lines,
/// and how often each mark stands there. A mark that is another one than that before it is kept as
/// a moment, `mark` and its number.
fn work(alloc: Global, volumes: &mut Volumes, row: &Row, told: &mut Told) -> Result<(), CaseStop> {
    let tiles = tiles_of(alloc, row, 2)?;
    let mut out = output(alloc, row.number(1)?)?;
    let vol = volumes.volume(row.bytes(0)?)?;
    let worked = match row.call.as_slice() {
        b"put" => put_lines(alloc, vol, &mut out, &tiles),
        _ => build_lines(alloc, vol, &mut out, &tiles),
    };
    let Ok(Worked { answer, marks }) = worked else {
        return Err(CaseStop::BadRow);
    };
    told.bytes(answer.as_bytes())?;
    told.bytes(out.held())?;
    tell_marks(alloc, volumes, &marks, told)
}

/// Lists a bundle. Whether the listing was given whole.
fn list_lines(alloc: Global, vol: &mut MemVolume, out: &mut MemSink) -> Result<bool, Ended> {
    let session = open_session(alloc, vol)?;
    Ok(list_all(&session, vol, out).is_ok())
}

/// How many lines these bytes end.
fn count_lines(bytes: &[u8]) -> usize {
    bytes.iter().filter(|byte| **byte == b'\n').count()
}

/// `list NAME ROOM FRONT BACK`: whether the listing was given whole, how many lines there are, so
/// many bytes of their front, and of their end.
fn list(alloc: Global, volumes: &mut Volumes, row: &Row, told: &mut Told) -> Result<(), CaseStop> {
    let mut out = output(alloc, row.number(1)?)?;
    let (front, back): (usize, usize) = (row.number(2)?, row.number(3)?);
    let vol = volumes.volume(row.bytes(0)?)?;
    let Ok(is_whole) = list_lines(alloc, vol, &mut out) else {
        return Err(CaseStop::BadRow);
    };
    let held = out.held();
    told.word(is_whole)?;
    told.word(count_lines(held))?;
    told.bytes(&held[..front.min(held.len())])?;
    told.bytes(&held[held.len() - back.min(held.len())..])
}

/// `built TILES LEN`: the line of a build.
fn give_built_line(row: &Row, out: &mut MemSink) -> Result<bool, CaseStop> {
    Ok(give_built(row.number(0)?, row.number(1)?, out).is_ok())
}

/// `recovery FOUND`: the line of a recovery.
fn give_recovery_line(row: &Row, out: &mut MemSink) -> Result<bool, CaseStop> {
    let found = match row.bytes(0)? {
        b"Closed" => Recovery::Closed,
        b"Applied" => Recovery::Applied,
        b"Emptied" => Recovery::Emptied,
        _ => return Err(CaseStop::BadRow),
    };
    Ok(give_recovery(found, out).is_ok())
}

/// `report TILES BYTES BAD ROW COL`: the lines of a check.
fn give_report_line(row: &Row, out: &mut MemSink) -> Result<bool, CaseStop> {
    let report = CheckReport {
        tiles: row.number(0)?,
        bytes: row.number(1)?,
        bad: row.number(2)?,
        first_bad: Slot::of(row.number(3)?, row.number(4)?),
    };
    Ok(give_report(report, out).is_ok())
}

/// A line that needs no volume: whether it was given, and what was given.
fn line(alloc: Global, row: &Row, told: &mut Told) -> Result<(), CaseStop> {
    let mut out = output(alloc, 1000)?;
    let is_given = match row.call.as_slice() {
        b"built" => give_built_line(row, &mut out)?,
        b"recovery" => give_recovery_line(row, &mut out)?,
        _ => give_report_line(row, &mut out)?,
    };
    told.word(is_given)?;
    told.bytes(out.held())
}

pub(crate) fn call(
    alloc: Global,
    volumes: &mut Volumes,
    row: &Row,
    told: &mut Told,
) -> Result<(), CaseStop> {
    match row.call.as_slice() {
        b"put" | b"build" => work(alloc, volumes, row, told),
        b"list" => list(alloc, volumes, row, told),
        b"built" | b"recovery" | b"report" => line(alloc, row, told),
        _ => Err(CaseStop::BadRow),
    }
}
