//! Runs of `lerc_cli` over a volume, and of `overview_cli` over two.

use crate::runs::programs::{Left, no_failing, sink, words_of};
use crate::words::outcomes::join_texts;
use case_rows::{CaseStop, Row};
use lerc_cli::run;
use outside_io::{Bytes, MemSource, MemVolume, Volume, Word};
use overview_cli::run_overview;
use std::alloc::Global;
use std::thread::Threads;
use tile_workers::Open;
use volume_rows::{Volumes, copy, volume};

/// How many bytes an input gives a call.
const IN_PIECE: usize = 7;

/// How many bytes an output takes a call.
const OUT_PIECE: usize = 100;

/// What a run leaves, and how many marks it has.
#[derive(Drop)]
struct Marked {
    left: Left,
    marks: usize,
}

impl Marked {
    /// The number of marks, the status, the output and the line of errors.
    fn text(&self, alloc: Global) -> Result<Vec<u8>, CaseStop> {
        let marks = format!(in alloc; "{}", self.marks)?;
        join_texts(alloc, marks.as_bytes(), &self.left.text(alloc)?)
    }
}

/// What a run of `lerc_cli` over these leaves.
fn run_lerc<R: Threads + Sync, V: Volume>(
    rt: &R,
    alloc: Global,
    words: &[Word],
    mut src: MemSource,
    vol: &mut V,
) -> Result<Marked, CaseStop> {
    let mut out = sink(alloc, OUT_PIECE, &[])?;
    let mut err = sink(alloc, OUT_PIECE, &[])?;
    let report = run(rt, alloc, words, &mut src, &mut out, &mut err, vol, &Open);
    let (status, marks) = (report.status, report.marks.len());
    let left = Left { status, out, err };
    Ok(Marked { left, marks })
}

/// What a run of `overview_cli` over these leaves.
fn make_overview<R: Threads + Sync, V: Volume, W: Volume>(
    rt: &R,
    alloc: Global,
    words: &[u8],
    from: &mut V,
    to: &mut W,
) -> Result<Marked, CaseStop> {
    let words = words_of(alloc, words)?;
    let mut out = sink(alloc, OUT_PIECE, &[])?;
    let mut err = sink(alloc, OUT_PIECE, &[])?;
    let report = run_overview(rt, alloc, &words, &mut out, &mut err, from, to, &Open);
    let (status, marks) = (report.status, report.marks.len());
    let left = Left { status, out, err };
    Ok(Marked { left, marks })
}

/// `run WORDS INPUT`: a run of `lerc_cli` over the volume.
pub(crate) fn run_work<R: Threads + Sync>(
    rt: &R,
    alloc: Global,
    work: &Row,
    vol: &mut MemVolume,
) -> Result<Vec<u8>, CaseStop> {
    let words = words_of(alloc, work.bytes(0)?)?;
    let input = Bytes::of(alloc, work.bytes(1)?)?;
    let src = MemSource::new(input, IN_PIECE, Bytes::of(alloc, &[])?);
    run_lerc(rt, alloc, &words, src, vol)?.text(alloc)
}

/// `overview_into FROM WORDS`: an overview of a copy of that volume into the volume.
pub(crate) fn overview_into<R: Threads + Sync>(
    rt: &R,
    alloc: Global,
    volumes: &mut Volumes,
    work: &Row,
    vol: &mut MemVolume,
) -> Result<Vec<u8>, CaseStop> {
    let mut from = copy(alloc, volumes.volume(work.bytes(0)?)?, no_failing(alloc))?;
    make_overview(rt, alloc, work.bytes(1)?, &mut from, vol)?.text(alloc)
}

/// `overview_from WORDS`: an overview of the volume into an empty one. It is told where one that
/// failed has called the empty one.
pub(crate) fn overview_from<R: Threads + Sync>(
    rt: &R,
    alloc: Global,
    work: &Row,
    vol: &mut MemVolume,
) -> Result<Vec<u8>, CaseStop> {
    let mut to = volume(alloc, 0, &[], &[], no_failing(alloc))?;
    let marked = make_overview(rt, alloc, work.bytes(0)?, vol, &mut to)?;
    let mut text = marked.text(alloc)?;
    if marked.left.status > 0 && to.moment() > 0 {
        text.extend_from_slice(b"the second bundle was called")?;
    }
    Ok(text)
}
