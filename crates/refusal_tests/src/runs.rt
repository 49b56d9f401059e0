//! Runs of the program, and what they may leave where memory may be refused.

ghost use Rattle.std.specs.Prelude.{◌≤◌, length};

use lerc_cli::run;
use outside_io::{Bytes, MemSink, MemSource, MemVolume, Pick, Piece, Start, Volume, Word};
use std::alloc::{AllocError, Global};
use std::process::Abort;
use std::thread::Threads;
use tile_workers::Open;

/// These words.
fn words_of(alloc: Global, words: &[&str]) -> Result<Vec<Word>, AllocError> {
    let mut list = Vec::new(alloc);
    for word in words {
        list.push(Word::of(alloc, word)?)?;
    }
    Ok(list)
}

/// A file of this length that begins with these bytes.
fn file_of(alloc: Global, len: u64, bytes: &[u8]) -> Result<Start, AllocError>
    requires { length bytes.now ≤ len }
{
    let mut pieces = Vec::new(alloc);
    let bytes = Bytes::of(alloc, bytes)?;
    pieces.push(Piece { at: 0, bytes })?;
    Ok(Start::new(len, pieces))
}

/// This bundle beside an empty journal, none of whose calls fails.
pub(crate) fn volume(alloc: Global, bundle: &[u8]) -> Result<MemVolume, AllocError> {
    let bundle = file_of(alloc, bundle.len() as u64, bundle)?;
    let journal = file_of(alloc, 0, &[])?;
    MemVolume::new(alloc, bundle, journal, Vec::new(alloc), None, 1000, 300_000)
}

/// What a run left.
#[derive(Drop)]
struct RunEnd {
    status: u8,
    out: MemSink,
    err: MemSink,
}

/// What a run of these words over this input and this volume leaves.
fn left_by<R: Threads + Sync>(
    rt: &R,
    alloc: Global,
    words: &[&str],
    input: &[u8],
    vol: &mut MemVolume,
) -> Result<RunEnd, AllocError> {
    let words = words_of(alloc, words)?;
    let mut src = MemSource::new(Bytes::of(alloc, input)?, 7, Bytes::of(alloc, &[])?);
    let mut out = MemSink::new(alloc, 100, Bytes::of(alloc, &[])?, 1000)?;
    let mut err = MemSink::new(alloc, 100, Bytes::of(alloc, &[])?, 1000)?;
    let report = run(rt, alloc, &words, &mut src, &mut out, &mut err, vol, &Open);
    let status = report.status;
    Ok(RunEnd { status, out, err })
}

/// Whether a run ended for want of memory, which then gave the line of that and no output.
fn wanted_memory(rt: &impl Abort, left: &RunEnd) -> bool {
    if left.status != 6 {
        return false;
    }
    assert!(rt; left.out.held().is_empty());
    assert_eq!(rt; left.err.held(), b"out of memory\n".as_slice());
    true
}

/// A run of these words over this input and this volume gives this output, or ends for want of
/// memory and gives none; whether it gave it.
pub(crate) fn gives(
    rt: &(impl Abort + Threads + Sync),
    alloc: Global,
    words: &[&str],
    input: &[u8],
    vol: &mut MemVolume,
    output: &[u8],
) -> Result<bool, AllocError> {
    let left = left_by(rt, alloc, words, input, vol)?;
    if wanted_memory(rt, &left) {
        return Ok(false);
    }
    assert!(rt; left.status == 0);
    assert_eq!(rt; left.out.held(), output);
    Ok(true)
}

/// The store refuses a run of these words over this input and this volume with this line, or the
/// run ends for want of memory; whether it refused it.
pub(crate) fn refuses(
    rt: &(impl Abort + Threads + Sync),
    alloc: Global,
    words: &[&str],
    input: &[u8],
    vol: &mut MemVolume,
    line: &[u8],
) -> Result<bool, AllocError> {
    let left = left_by(rt, alloc, words, input, vol)?;
    if wanted_memory(rt, &left) {
        return Ok(false);
    }
    assert!(rt; left.status == 7 && left.out.held().is_empty());
    assert_eq!(rt; left.err.held(), line);
    Ok(true)
}

/// One image of a moment, recovered, gives this output of these words.
fn recovers(
    rt: &(impl Abort + Threads + Sync),
    alloc: Global,
    vol: &MemVolume,
    moment: u64,
    pick: Pick,
    words: &[&str],
    output: &[u8],
) -> Result<(), AllocError> {
    assert!(rt; moment <= vol.moment());
    let mut crashed = vol.crash(alloc, moment, pick)?;
    assert!(rt; left_by(rt, alloc, &["recover"], &[], &mut crashed)?.status == 0);
    assert!(rt; gives(rt, alloc, words, &[], &mut crashed, output)?);
    Ok(())
}

/// Each image of each moment, recovered, gives this output of these words: of the files as last
/// synced, as read, and torn with 0 and with 255.
pub(crate) fn all_recover(
    rt: &(impl Abort + Threads + Sync),
    alloc: Global,
    vol: &MemVolume,
    words: &[&str],
    output: &[u8],
) -> Result<(), AllocError> {
    for moment in 0..=vol.moment() {
        for pick in [Pick::Oldest, Pick::Newest, Pick::Torn(0), Pick::Torn(255)] {
            recovers(rt, alloc, vol, moment, pick, words, output)?;
        }
    }
    Ok(())
}
