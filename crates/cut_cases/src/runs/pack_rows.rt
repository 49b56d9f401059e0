//! Packing.

use crate::runs::programs::{Left, no_failing, sink, words_of};
use bundle_pack::{pack, run_pack};
use case_rows::{CaseStop, Row, Told};
use outside_io::{MemVolume, NoVolume, Volume};
use std::alloc::Global;
use volume_rows::{Volumes, copy, volume};

/// How many bytes an output takes a call.
const PIECE: usize = 7;

/// A run over these sources and this target. The calls of these numbers of the output fail.
fn run<W: Volume>(
    alloc: Global,
    words: &[u8],
    failing: &[u8],
    from: &mut [MemVolume],
    to: &mut W,
) -> Result<Left, CaseStop> {
    let words = words_of(alloc, words)?;
    let mut out = sink(alloc, PIECE, failing)?;
    let mut err = sink(alloc, PIECE, &[])?;
    let status = run_pack(alloc, &words, &mut out, &mut err, from, to);
    Ok(Left { status, out, err })
}

/// One volume as a list.
fn list_of_one(alloc: Global, vol: MemVolume) -> Result<Vec<MemVolume>, CaseStop> {
    let mut list = Vec::new(alloc);
    list.push(vol)?;
    Ok(list)
}

/// The volumes of names with commas between them.
fn take_all(
    alloc: Global,
    volumes: &mut Volumes,
    names: &[u8],
) -> Result<Vec<MemVolume>, CaseStop> {
    let mut list = Vec::new(alloc);
    for name in names.split(|byte| *byte == b',') {
        if !name.is_empty() {
            list.push(volumes.take(name)?)?;
        }
    }
    Ok(list)
}

/// Gives them these names again.
fn keep_all(volumes: &mut Volumes, names: &[u8], list: Vec<MemVolume>) -> Result<(), CaseStop> {
    let mut list = list.into_iter();
    for name in names.split(|byte| *byte == b',') {
        if let Some(vol) = list.next() {
            volumes.keep(name, vol)?;
        }
    }
    Ok(())
}

/// `run WORDS FAILING TARGET SOURCES`.
fn run_named(
    alloc: Global,
    volumes: &mut Volumes,
    row: &Row,
    told: &mut Told,
) -> Result<(), CaseStop> {
    let mut to = volumes.take(row.bytes(2)?)?;
    let mut from = take_all(alloc, volumes, row.bytes(3)?)?;
    let left = run(alloc, row.bytes(0)?, row.bytes(1)?, &mut from, &mut to)?;
    volumes.keep(row.bytes(2)?, to)?;
    keep_all(volumes, row.bytes(3)?, from)?;
    left.tell(told)
}

/// `without WORDS SOURCES`: a run over a target that has no files.
fn run_without(
    alloc: Global,
    volumes: &mut Volumes,
    row: &Row,
    told: &mut Told,
) -> Result<(), CaseStop> {
    let mut from = take_all(alloc, volumes, row.bytes(1)?)?;
    let left = run(alloc, row.bytes(0)?, &[], &mut from, &mut NoVolume::new())?;
    keep_all(volumes, row.bytes(1)?, from)?;
    left.tell(told)
}

/// What packing itself answers, as it is printed for those who look for faults.
fn answer_of_pack(
    alloc: Global,
    from: &mut [MemVolume],
    to: &mut MemVolume,
) -> Result<Vec<u8>, CaseStop> {
    if from.is_empty() || from.len() > 8 {
        return Err(CaseStop::BadRow);
    }
    let answer = pack(alloc, from, to);
    Ok(format!(in alloc; "{answer:?}")?.into_bytes())
}

/// `pack TARGET SOURCES`: what packing itself answers.
fn pack_named(
    alloc: Global,
    volumes: &mut Volumes,
    row: &Row,
    told: &mut Told,
) -> Result<(), CaseStop> {
    let mut to = volumes.take(row.bytes(0)?)?;
    let mut from = take_all(alloc, volumes, row.bytes(1)?)?;
    let answer = answer_of_pack(alloc, &mut from, &mut to)?;
    volumes.keep(row.bytes(0)?, to)?;
    keep_all(volumes, row.bytes(1)?, from)?;
    told.bytes(&answer)
}

/// `pack_into SOURCE`: a packing of a copy of that source into the volume.
pub(crate) fn pack_into(
    alloc: Global,
    volumes: &mut Volumes,
    work: &Row,
    vol: &mut MemVolume,
) -> Result<Vec<u8>, CaseStop> {
    let source = copy(alloc, volumes.volume(work.bytes(0)?)?, no_failing(alloc))?;
    let mut from = list_of_one(alloc, source)?;
    run(alloc, b"pack", &[], &mut from, vol)?.text(alloc)
}

/// `pack_from`: a packing of the volume into an empty target. It is told where one that failed has
/// called the target.
pub(crate) fn pack_from(alloc: Global, vol: MemVolume) -> Result<(MemVolume, Vec<u8>), CaseStop> {
    let mut to = volume(alloc, 0, &[], &[], no_failing(alloc))?;
    let mut from = list_of_one(alloc, vol)?;
    let left = run(alloc, b"pack", &[], &mut from, &mut to)?;
    let mut text = left.text(alloc)?;
    if left.status > 0 && to.moment() > 0 {
        text.extend_from_slice(b"the target was called")?;
    }
    match from.pop() {
        Some(vol) => Ok((vol, text)),
        None => Err(CaseStop::BadRow),
    }
}

pub(crate) fn call(
    alloc: Global,
    volumes: &mut Volumes,
    row: &Row,
    told: &mut Told,
) -> Result<(), CaseStop> {
    match row.call.as_slice() {
        b"run" => run_named(alloc, volumes, row, told),
        b"without" => run_without(alloc, volumes, row, told),
        b"pack" => pack_named(alloc, volumes, row, told),
        _ => Err(CaseStop::BadRow),
    }
}
