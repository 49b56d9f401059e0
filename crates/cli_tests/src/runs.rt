//! Runs over an input and a volume in memory.

use lerc_cli::run;
use outside_io::{Bytes, MemSink, MemSource, Volume, Word};
use std::alloc::{AllocError, Global};
use std::thread::Threads;
use tile_workers::Gate;

/// What a run leaves.
#[derive(Drop)]
pub(crate) struct Left {
    pub(crate) status: u8,
    pub(crate) out: MemSink,
    pub(crate) err: MemSink,
}

/// These words.
fn words_of(alloc: Global, words: &[&str]) -> Result<Vec<Word>, AllocError> {
    let mut list = Vec::new(alloc);
    for word in words {
        list.push(Word::of(alloc, word)?)?;
    }
    Ok(list)
}

/// An input of these bytes, of which a call gives 7 at most.
fn source_of(alloc: Global, input: &[u8]) -> Result<MemSource, AllocError> {
    let failing = Bytes::of(alloc, &[])?;
    Ok(MemSource::new(Bytes::of(alloc, input)?, 7, failing))
}

/// An output of which a call takes 100 bytes at most.
fn sink_of(alloc: Global) -> Result<MemSink, AllocError> {
    MemSink::new(alloc, 100, Bytes::of(alloc, &[])?, 1000)
}

/// What a run over a volume and a gate leaves.
pub(crate) fn run_through<R: Threads + Sync, V: Volume, G: Gate>(
    rt: &R,
    alloc: Global,
    words: &[&str],
    input: &[u8],
    vol: &mut V,
    gate: &G,
) -> Result<Left, AllocError> {
    let words = words_of(alloc, words)?;
    let mut src = source_of(alloc, input)?;
    let (mut out, mut err) = (sink_of(alloc)?, sink_of(alloc)?);
    let report = run(rt, alloc, &words, &mut src, &mut out, &mut err, vol, gate);
    Ok(Left {
        status: report.status,
        out,
        err,
    })
}
