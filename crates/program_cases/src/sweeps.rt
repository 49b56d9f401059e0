//! Runs of `lerc_cli` over each shorter input, and with each call of a stream failing.

use crate::runs::Left;
use crate::tasks::{Task, left_over, task_of};
use case_rows::{CaseStop, Row, Told};
use outside_io::{MemVolume, Pick, Volume};
use std::alloc::Global;
use std::thread::Threads;
use volume_rows::{Volumes, image};

/// Whether a run of these words over this input, in each of three pieces, is refused as truncated
/// at its end.
fn is_cut<R: Threads + Sync>(
    rt: &R,
    alloc: Global,
    volumes: &mut Volumes,
    task: &mut Task,
) -> Result<bool, CaseStop> {
    let length = task.input.len();
    let line = format!(in alloc; "refused: Truncated at {length}\n")?;
    for piece in [1, 7, 100] {
        task.pieces = (piece, 100);
        let left = left_over(rt, alloc, volumes, b"", task)?;
        if !left.is(2, b"", line.as_bytes()) || !left.report.marks.is_empty() {
            return Ok(false);
        }
    }
    Ok(true)
}

/// `cuts WORDS INPUT`
pub(crate) fn cuts<R: Threads + Sync>(
    rt: &R,
    alloc: Global,
    volumes: &mut Volumes,
    row: &Row,
    told: &mut Told,
) -> Result<(), CaseStop> {
    let mut task = task_of(alloc, row, 0)?;
    let whole = row.bytes(1)?;
    let mut count = 0u32;
    for length in 0..whole.len() {
        task.input = whole[..length].to_vec(alloc)?;
        if is_cut(rt, alloc, volumes, &mut task)? {
            count = count.saturating_add(1);
        }
    }
    told.word(count)
}

/// Which stream fails at one of its calls.
#[derive(Clone, Copy, PartialEq, Eq)]
enum Stream {
    Source,
    Output,
}

/// Another volume of the files of that one, as they are read.
fn copy_of(alloc: Global, volumes: &mut Volumes, name: &[u8]) -> Result<MemVolume, CaseStop> {
    let vol = volumes.volume(name)?;
    image(alloc, vol, vol.moment(), Pick::Newest)
}

/// What a run leaves whose call of this number fails, over another volume of the files of that one,
/// or over none where the name is empty.
fn left_failing<R: Threads + Sync>(
    rt: &R,
    alloc: Global,
    volumes: &mut Volumes,
    name: &[u8],
    task: &mut Task,
    stream: Stream,
    call: u8,
) -> Result<Left, CaseStop> {
    let failing = Vec::from_slice(alloc, &[call])?;
    match stream {
        Stream::Source => task.source_failing = failing,
        Stream::Output => task.output_failing = failing,
    }
    if name.is_empty() {
        return left_over(rt, alloc, volumes, name, task);
    }
    let copy = copy_of(alloc, volumes, name)?;
    volumes.keep(b" ", copy)?;
    left_over(rt, alloc, volumes, b" ", task)
}

/// `output_fails VOLUME WORDS INPUT OUTPUT`
pub(crate) fn output_fails<R: Threads + Sync>(
    rt: &R,
    alloc: Global,
    volumes: &mut Volumes,
    row: &Row,
    told: &mut Told,
) -> Result<(), CaseStop> {
    let (name, output) = (row.bytes(0)?, row.bytes(3)?);
    let mut task = task_of(alloc, row, 1)?;
    task.pieces = (7, 1);
    let (mut count, mut marks) = (0u32, 0usize);
    for at in 0..output.len() {
        let call = u8::try_from(at).map_err(|_| CaseStop::BadRow)?;
        let left = left_failing(rt, alloc, volumes, name, &mut task, Stream::Output, call)?;
        marks = marks.saturating_add(left.report.marks.len());
        if left.is(4, &output[..at], b"output failed\n") {
            count = count.saturating_add(1);
        }
    }
    told.word(count)?;
    told.word(marks)
}

/// `source_fails VOLUME WORDS INPUT PIECE LAST`
pub(crate) fn source_fails<R: Threads + Sync>(
    rt: &R,
    alloc: Global,
    volumes: &mut Volumes,
    row: &Row,
    told: &mut Told,
) -> Result<(), CaseStop> {
    let name = row.bytes(0)?;
    let mut task = task_of(alloc, row, 1)?;
    task.pieces = (row.number(3)?, 100);
    let last = row.number(4)?;
    let mut count = 0u32;
    for call in 0u8..=last {
        let left = left_failing(rt, alloc, volumes, name, &mut task, Stream::Source, call)?;
        let is_told = left.is(3, b"", b"source failed\n") && left.report.marks.is_empty();
        if left.moment == 0 && is_told {
            count = count.saturating_add(1);
        }
    }
    told.word(count)
}
