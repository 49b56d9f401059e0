//! Sources and sinks, in memory and over std.

ghost use Rattle.std.specs.Prelude.{◌<◌};

use crate::scripted::Scripted;
use case_rows::{CaseStop, Row, Told};
use outside_io::{
    Bytes, Failed, MemSink, MemSource, Sink, Source, StdSink, StdSource, give_all, take_all,
};
use std::alloc::Global;

/// The most bytes that a row takes at once.
const MOST: usize = 1_048_576;

/// Takes into a buffer, once or until it is full.
fn takes<S: Source>(source: &mut S, is_all: bool, buf: &mut [u8]) -> Result<usize, Failed> {
    if is_all {
        take_all(source, buf)
    } else {
        source.take(buf)
    }
}

/// Takes into buffers of these sizes, and tells each answer and each buffer, which had dots.
fn tell_takes<S: Source>(
    alloc: Global,
    source: &mut S,
    how: &str,
    sizes: &[usize],
    told: &mut Told,
) -> Result<(), CaseStop> {
    for size in sizes {
        let mut buf = vec![in alloc; b'.'; *size]?;
        told.fact(takes(source, how == "all", buf.as_mut_slice()))?;
        told.bytes(buf.as_slice())?;
    }
    Ok(())
}

/// `take TEXT PIECE FAILING HOW SIZES`
pub(crate) fn take(alloc: Global, row: &Row, told: &mut Told) -> Result<(), CaseStop> {
    let piece = row.size(1, MOST)?;
    if piece == 0 {
        return Err(CaseStop::BadRow);
    }
    let failing = Bytes::from_vec(row.numbers(alloc, 2)?);
    let mut source = MemSource::new(Bytes::of(alloc, row.bytes(0)?)?, piece, failing);
    let sizes: Vec<usize> = row.numbers(alloc, 4)?;
    tell_takes(alloc, &mut source, row.text(3)?, &sizes, told)
}

/// A file whose calls go as a script says.
fn scripted(alloc: Global, row: &Row) -> Result<Scripted, CaseStop> {
    Ok(Scripted {
        script: row.bytes(1)?.to_vec(alloc)?,
        bytes: row.bytes(0)?.to_vec(alloc)?,
        at: 0,
        calls: 0,
    })
}

/// `read TEXT SCRIPT HOW SIZES`
pub(crate) fn read(alloc: Global, row: &Row, told: &mut Told) -> Result<(), CaseStop> {
    let mut file = scripted(alloc, row)?;
    let sizes: Vec<usize> = row.numbers(alloc, 3)?;
    let mut source = StdSource::new(&mut file);
    tell_takes(alloc, &mut source, row.text(2)?, &sizes, told)?;
    told.word(source.faults())?;
    told.word(file.calls)
}

/// `write TEXT SCRIPT BYTES BYTES`
pub(crate) fn write(alloc: Global, row: &Row, told: &mut Told) -> Result<(), CaseStop> {
    let mut file = scripted(alloc, row)?;
    let mut sink = StdSink::new(&mut file);
    told.fact(give_all(&mut sink, row.bytes(2)?))?;
    told.fact(give_all(&mut sink, row.bytes(3)?))?;
    told.word(sink.faults())?;
    told.word(file.calls)?;
    told.bytes(&file.bytes)
}

/// `give PIECE FAILING ROOM BYTES BYTES`
pub(crate) fn give(alloc: Global, row: &Row, told: &mut Told) -> Result<(), CaseStop> {
    let piece = row.size(0, MOST)?;
    if piece == 0 {
        return Err(CaseStop::BadRow);
    }
    let failing = Bytes::from_vec(row.numbers(alloc, 1)?);
    let mut sink = MemSink::new(alloc, piece, failing, row.size(2, MOST)?)?;
    for bytes in row.given.get(3..).unwrap_or(&[]) {
        told.fact(give_all(&mut sink, bytes))?;
        told.bytes(sink.held())?;
    }
    told.fact(sink.give(b""))
}
