//! Works that are cut off at each of their calls.

use crate::cut::works::{has_failed, has_plainly_failed, perform};
use crate::store::held::{PICKS, content_at, content_of_all, files_of};
use crate::words::outcomes::{Outcomes, join_texts};
use crate::words::work_words::named_work;
use case_rows::{CaseStop, Row, Told};
use outside_io::{MemVolume, Pick, Volume};
use std::alloc::Global;
use std::thread::Threads;
use volume_rows::{Failing, Volumes, copy};

/// No work has so many calls.
const MOST: u64 = 300;

/// A work on copies of a volume that are cut off, and what came out so far.
#[derive(Drop)]
struct Cutting {
    name: Vec<u8>,
    work: Row,
    /// Whether each call behind the one that fails does so too.
    is_stop: bool,
    outcomes: Outcomes,
}

/// The one that a row names: `NAME WORK ..`.
fn cutting_of(alloc: Global, row: &Row) -> Result<Cutting, CaseStop> {
    Ok(Cutting {
        name: row.bytes(0)?.to_vec(alloc)?,
        work: named_work(alloc, row, 1)?,
        is_stop: row.call.as_slice() == b"stops".as_slice(),
        outcomes: Outcomes::new(alloc),
    })
}

/// A copy whose call of that number fails, and each behind it where it stops.
fn cut_copy(
    alloc: Global,
    vol: &MemVolume,
    is_stop: bool,
    call: u64,
) -> Result<MemVolume, CaseStop> {
    let mut calls = Vec::new(alloc);
    calls.push(call)?;
    let stop = if is_stop { Some(call) } else { None };
    copy(alloc, vol, Failing { calls, stop })
}

/// The work on a copy that is cut off at that call.
fn cut_off<R: Threads + Sync>(
    rt: &R,
    alloc: Global,
    volumes: &mut Volumes,
    cutting: &Cutting,
    call: u64,
) -> Result<(MemVolume, Vec<u8>), CaseStop> {
    let vol = volumes.volume(&cutting.name)?;
    let vol = cut_copy(alloc, vol, cutting.is_stop, call)?;
    perform(rt, alloc, volumes, vol, &cutting.work)
}

/// What the images of now hold, each behind the lines that the cut work gave, if any. A call that
/// fails changes nothing, so what images of earlier moments hold is what those of earlier calls do,
/// which are cut off in their turn.
fn add_left(
    alloc: Global,
    vol: &MemVolume,
    answer: &[u8],
    outcomes: &mut Outcomes,
) -> Result<(), CaseStop> {
    for pick in PICKS {
        let held = content_at(alloc, vol, vol.moment(), pick)?;
        if has_plainly_failed(answer) {
            outcomes.add(held)?;
        } else {
            outcomes.add(join_texts(alloc, answer, &held)?)?;
        }
    }
    Ok(())
}

/// What comes of the work where it is done again.
fn add_again<R: Threads + Sync>(
    rt: &R,
    alloc: Global,
    volumes: &mut Volumes,
    cutting: &mut Cutting,
    vol: MemVolume,
) -> Result<(), CaseStop> {
    let (vol, answer) = perform(rt, alloc, volumes, vol, &cutting.work)?;
    let held = content_at(alloc, &vol, vol.moment(), Pick::Newest)?;
    let text = join_texts(alloc, &answer, &held)?;
    cutting.outcomes.add(join_texts(alloc, b"again", &text)?)
}

/// What came out of the whole work, and what all images of its end hold.
fn tell_end(
    alloc: Global,
    vol: &MemVolume,
    answer: &[u8],
    told: &mut Told,
) -> Result<(), CaseStop> {
    told.bytes(&join_texts(alloc, answer, &content_of_all(alloc, vol)?)?)
}

/// `stops NAME WORK ..` and `fails NAME WORK ..`: the work on copies of a volume that stop at each
/// of its calls, or of which each fails alone. Tells how many calls the whole work makes; what
/// images hold that cut ones leave, behind the lines that these gave, if any; where one call failed
/// what comes of the work done again; and last what comes out of the whole work and what all its
/// images hold.
pub(crate) fn cuts<R: Threads + Sync>(
    rt: &R,
    alloc: Global,
    volumes: &mut Volumes,
    row: &Row,
    told: &mut Told,
) -> Result<(), CaseStop> {
    let mut cutting = cutting_of(alloc, row)?;
    for call in 0..MOST {
        let (vol, answer) = cut_off(rt, alloc, volumes, &cutting, call)?;
        if !has_failed(&answer) {
            told.word(call)?;
            cutting.outcomes.tell(told)?;
            return tell_end(alloc, &vol, &answer, told);
        }
        add_left(alloc, &vol, &answer, &mut cutting.outcomes)?;
        if !cutting.is_stop {
            add_again(rt, alloc, volumes, &mut cutting, vol)?;
        }
    }
    Err(CaseStop::BadRow)
}

/// The bundle's length, its header and the entry of the first slot, and whether the journal is
/// another one than this.
fn state_of(alloc: Global, vol: &MemVolume, journal: &[u8]) -> Result<Vec<u8>, CaseStop> {
    let files = files_of(alloc, vol)?;
    let front = files.bundle.get(..72).ok_or(CaseStop::BadRow)?;
    let is_same = files.journal.as_slice() == journal;
    let word = if is_same { " same" } else { " other" };
    let len = files.bundle.len();
    let mut text = format!(in alloc; "{len} ")?.into_bytes();
    text.extend_from_slice(front)?;
    text.extend_from_slice(word.as_bytes())?;
    Ok(text)
}

/// `files NAME WORK ..`: how many calls the work makes, and what stands in the files where one of
/// them fails, and where none does.
pub(crate) fn files<R: Threads + Sync>(
    rt: &R,
    alloc: Global,
    volumes: &mut Volumes,
    row: &Row,
    told: &mut Told,
) -> Result<(), CaseStop> {
    let mut cutting = cutting_of(alloc, row)?;
    let before = files_of(alloc, volumes.volume(&cutting.name)?)?;
    for call in 0..MOST {
        let (vol, answer) = cut_off(rt, alloc, volumes, &cutting, call)?;
        let state = state_of(alloc, &vol, &before.journal)?;
        cutting.outcomes.add(state)?;
        if !has_failed(&answer) {
            told.word(call)?;
            return cutting.outcomes.tell(told);
        }
    }
    Err(CaseStop::BadRow)
}
