//! Runs of `lerc_cli`, over a volume or over none.

ghost use Rattle.std.specs.Prelude.{◌<◌};

use crate::runs::{Left, sink_of, source_of, words_of};
use case_rows::{CaseStop, Row};
use lerc_cli::run;
use outside_io::{MemSink, MemSource, NoVolume, Volume, Word};
use std::alloc::Global;
use std::thread::Threads;
use tile_workers::Open;
use volume_rows::Volumes;

/// The words of a run, its input, the pieces of both streams and the numbers of their failing
/// calls.
#[derive(Drop)]
pub(crate) struct Task {
    pub(crate) words: Vec<Word>,
    pub(crate) input: Vec<u8>,
    pub(crate) pieces: (usize, usize),
    pub(crate) source_failing: Vec<u8>,
    pub(crate) output_failing: Vec<u8>,
}

/// A run of the words and over the input that two words of a row stand for.
pub(crate) fn task_of(alloc: Global, row: &Row, at: usize) -> Result<Task, CaseStop>
    requires { at < 8 }
{
    Ok(Task {
        words: words_of(alloc, row, at)?,
        input: row.bytes(at + 1)?.to_vec(alloc)?,
        pieces: (7, 100),
        source_failing: Vec::new(alloc),
        output_failing: Vec::new(alloc),
    })
}

/// What a run over these streams leaves.
fn ran<R: Threads + Sync, V: Volume>(
    rt: &R,
    alloc: Global,
    words: &[Word],
    mut src: MemSource,
    mut out: MemSink,
    mut err: MemSink,
    vol: &mut V,
) -> Left {
    let report = run(rt, alloc, words, &mut src, &mut out, &mut err, vol, &Open);
    let moment = vol.moment();
    Left {
        report,
        out,
        err,
        moment,
    }
}

/// What a run over a volume leaves.
fn left_by<R: Threads + Sync, V: Volume>(
    rt: &R,
    alloc: Global,
    task: &Task,
    vol: &mut V,
) -> Result<Left, CaseStop> {
    let src = source_of(alloc, &task.input, task.pieces.0, &task.source_failing)?;
    let out = sink_of(alloc, task.pieces.1, &task.output_failing)?;
    let err = sink_of(alloc, 100, &[])?;
    Ok(ran(rt, alloc, &task.words, src, out, err, vol))
}

/// What a run over the volume of a name leaves. An empty name is that of none.
pub(crate) fn left_over<R: Threads + Sync>(
    rt: &R,
    alloc: Global,
    volumes: &mut Volumes,
    name: &[u8],
    task: &Task,
) -> Result<Left, CaseStop> {
    if name.is_empty() {
        return left_by(rt, alloc, task, &mut NoVolume::new());
    }
    left_by(rt, alloc, task, volumes.volume(name)?)
}
