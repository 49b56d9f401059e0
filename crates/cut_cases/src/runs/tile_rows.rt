//! Runs of `tiles_cli` over a volume: streams that are whole, cut and changed.

use crate::runs::programs::{Left, no_failing, sink, words_of};
use case_rows::{CaseStop, Row, Told};
use outside_io::{Bytes, MemSource, MemVolume, Volume};
use std::alloc::Global;
use tiles_cli::run_tiles;
use volume_rows::{Volumes, volume};

/// How many bytes an input gives a call.
const IN_PIECE: usize = 7;

/// How many bytes an output takes a call.
const OUT_PIECE: usize = 100;

/// An input of these bytes. The calls of these numbers fail.
fn source_of(alloc: Global, input: &[u8], failing: &[u8]) -> Result<MemSource, CaseStop> {
    let failing = Bytes::of(alloc, failing)?;
    Ok(MemSource::new(Bytes::of(alloc, input)?, IN_PIECE, failing))
}

/// What a run over these leaves. The calls of these numbers of the output fail.
fn run_over<V: Volume>(
    alloc: Global,
    words: &[u8],
    mut src: MemSource,
    failing: &[u8],
    vol: &mut V,
) -> Result<Left, CaseStop> {
    let words = words_of(alloc, words)?;
    let mut out = sink(alloc, OUT_PIECE, failing)?;
    let mut err = sink(alloc, OUT_PIECE, &[])?;
    let status = run_tiles(alloc, &words, &mut src, &mut out, &mut err, vol);
    Ok(Left { status, out, err })
}

/// What an import of these bytes where there is nothing leaves.
fn import(alloc: Global, input: &[u8]) -> Result<Left, CaseStop> {
    let mut vol = volume(alloc, 0, &[], &[], no_failing(alloc))?;
    run_over(
        alloc,
        b"import",
        source_of(alloc, input, &[])?,
        &[],
        &mut vol,
    )
}

/// `tiles WORDS INPUT`: a run over the volume.
pub(crate) fn run_tile_work(
    alloc: Global,
    work: &Row,
    vol: &mut MemVolume,
) -> Result<Vec<u8>, CaseStop> {
    let src = source_of(alloc, work.bytes(1)?, &[])?;
    run_over(alloc, work.bytes(0)?, src, &[], vol)?.text(alloc)
}

/// `run VOLUME WORDS INPUT FAILING FAILING`: a run whose calls of the input and of the output with
/// these numbers fail.
fn run_named(
    alloc: Global,
    volumes: &mut Volumes,
    row: &Row,
    told: &mut Told,
) -> Result<(), CaseStop> {
    let src = source_of(alloc, row.bytes(2)?, row.bytes(3)?)?;
    let vol = volumes.volume(row.bytes(0)?)?;
    run_over(alloc, row.bytes(1)?, src, row.bytes(4)?, vol)?.tell(told)
}

/// Whether an import of this input is refused as cut at its end, and gives nothing.
fn is_cut(alloc: Global, input: &[u8]) -> Result<bool, CaseStop> {
    let length = input.len();
    let line = format!(in alloc; "refused: Truncated at {length}\n")?;
    let left = import(alloc, input)?;
    let is_told = left.err.held() == line.as_bytes();
    Ok(left.status == 2 && left.out.held().is_empty() && is_told)
}

/// `cuts INPUT`: the lengths of the shorter inputs that are refused so are all but these, which it
/// tells.
fn cuts(alloc: Global, row: &Row, told: &mut Told) -> Result<(), CaseStop> {
    let whole = row.bytes(0)?;
    for length in 0..whole.len() {
        if !is_cut(alloc, &whole[..length])? {
            told.word(length)?;
        }
    }
    Ok(())
}

/// `changes INPUT BYTE`: what each import tells in which one byte more is this one, in turn.
fn changes(alloc: Global, row: &Row, told: &mut Told) -> Result<(), CaseStop> {
    let whole = row.bytes(0)?;
    let byte: u8 = row.number(1)?;
    let mut text = Vec::new(alloc);
    for at in 0..whole.len() {
        let mut input = whole.to_vec(alloc)?;
        if at < input.len() {
            input[at] = byte;
        }
        let left = import(alloc, &input)?;
        text.extend_from_slice(left.out.held())?;
        text.extend_from_slice(left.err.held())?;
    }
    told.bytes(&text)
}

pub(crate) fn call(
    alloc: Global,
    volumes: &mut Volumes,
    row: &Row,
    told: &mut Told,
) -> Result<(), CaseStop> {
    match row.call.as_slice() {
        b"run" => run_named(alloc, volumes, row, told),
        b"cuts" => cuts(alloc, row, told),
        b"changes" => changes(alloc, row, told),
        _ => Err(CaseStop::BadRow),
    }
}
