//! Rows of runs of `lerc_cli`.

ghost use Rattle.std.specs.Prelude.{◌<◌};

use crate::runs::Left;
use crate::tasks::{Task, left_over, task_of};
use case_rows::{CaseStop, Row, Told};
use outside_io::Marks;
use std::alloc::Global;
use std::thread::Threads;
use volume_rows::Volumes;

/// The pieces of both streams where a row leaves them out.
const EACH: [(usize, usize); 4] = [(100, 1000), (1, 1), (7, 5), (100, 100)];

/// Tells what a run in each of four pieces leaves, and leaves out what the run before told.
fn lerc_in_each<R: Threads + Sync>(
    rt: &R,
    alloc: Global,
    volumes: &mut Volumes,
    name: &[u8],
    mut task: Task,
    told: &mut Told,
) -> Result<(), CaseStop> {
    let mut last: Option<Left> = None;
    for pieces in EACH {
        task.pieces = pieces;
        let left = left_over(rt, alloc, volumes, name, &task)?;
        if !is_again(&last, &left) {
            left.tell(told)?;
        }
        last = Some(left);
    }
    Ok(())
}

/// Whether a run left the same as the one before.
fn is_again(last: &Option<Left>, left: &Left) -> bool {
    match last {
        Some(last) => {
            left.is(last.report.status, last.out.held(), last.err.held())
                && left.report.marks.len() == last.report.marks.len()
        }
        None => false,
    }
}

/// `lerc WORDS INPUT PIECES`, and `lerc_on VOLUME WORDS INPUT PIECES FAILING`, whose words of the
/// run begin with the second.
pub(crate) fn lerc<R: Threads + Sync>(
    rt: &R,
    alloc: Global,
    volumes: &mut Volumes,
    name: &[u8],
    row: &Row,
    at: usize,
    told: &mut Told,
) -> Result<(), CaseStop>
    requires { at < 8 }
{
    let mut task = task_of(alloc, row, at)?;
    if at > 0 {
        task.output_failing = row.numbers(alloc, at + 3)?;
    }
    match row.numbers(alloc, at + 2)?.as_slice() {
        [] => lerc_in_each(rt, alloc, volumes, name, task, told),
        [source, output] => {
            task.pieces = (*source, *output);
            left_over(rt, alloc, volumes, name, &task)?.tell(told)
        }
        _ => Err(CaseStop::BadRow),
    }
}

/// How long the header of a blob of version 3 is.
const HEADER: usize = 66;

/// `image WORDS INPUT`
fn tell_image(left: &Left, told: &mut Told) -> Result<(), CaseStop> {
    told.word(left.report.status)?;
    told.bytes(left.out.held().get(HEADER..).ok_or(CaseStop::BadRow)?)
}

/// How many marks in turn are the same.
fn counts_of(alloc: Global, marks: &Marks) -> Result<Vec<usize>, CaseStop> {
    let mut counts = Vec::new(alloc);
    let (mut count, mut last) = (0usize, None);
    for at in 0..marks.len() {
        let mark = Some(marks.at(at));
        if count > 0 && mark != last {
            counts.push(count)?;
            count = 0;
        }
        count = count.saturating_add(1);
        last = mark;
    }
    counts.push(count)?;
    Ok(counts)
}

/// Whether the last mark is this moment.
fn ends_at(marks: &Marks, moment: u64) -> bool {
    match marks.len().checked_sub(1) {
        Some(at) => marks.at(at) == moment,
        None => false,
    }
}

/// `marked VOLUME WORDS INPUT`
fn tell_marked(alloc: Global, left: &Left, told: &mut Told) -> Result<(), CaseStop> {
    left.tell_streams(told)?;
    told.list(&counts_of(alloc, &left.report.marks)?)?;
    told.fact(ends_at(&left.report.marks, left.moment))
}

/// What a run over a volume leaves, told by its marks, or its image where there is no volume.
pub(crate) fn lerc_told<R: Threads + Sync>(
    rt: &R,
    alloc: Global,
    volumes: &mut Volumes,
    name: &[u8],
    row: &Row,
    at: usize,
    told: &mut Told,
) -> Result<(), CaseStop>
    requires { at < 8 }
{
    let task = task_of(alloc, row, at)?;
    let left = left_over(rt, alloc, volumes, name, &task)?;
    if name.is_empty() {
        tell_image(&left, told)
    } else {
        tell_marked(alloc, &left, told)
    }
}
