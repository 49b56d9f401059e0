//! Runs of `overview_cli`, and whether two of them leave the same files.

use crate::runs::{Left, sink_of, words_of};
use case_rows::{CaseStop, Row, Told};
use outside_io::{MemSink, MemVolume, Pick, VolFile, Volume, Word};
use overview_cli::run_overview;
use std::alloc::Global;
use std::thread::Threads;
use tile_workers::Open;
use volume_rows::{Volumes, image, whole};

/// What a run over these streams and volumes leaves.
fn ran<R: Threads + Sync, V: Volume>(
    rt: &R,
    alloc: Global,
    words: &[Word],
    mut out: MemSink,
    mut err: MemSink,
    from: &mut V,
    to: &mut V,
) -> Left {
    let report = run_overview(rt, alloc, words, &mut out, &mut err, from, to, &Open);
    let moment = to.moment();
    Left {
        report,
        out,
        err,
        moment,
    }
}

/// `overview FROM TO WORDS FAILING`
pub(crate) fn overview<R: Threads + Sync>(
    rt: &R,
    alloc: Global,
    volumes: &mut Volumes,
    row: &Row,
    told: &mut Told,
) -> Result<(), CaseStop> {
    let words = words_of(alloc, row, 2)?;
    let out = sink_of(alloc, 7, &row.numbers(alloc, 3)?)?;
    let err = sink_of(alloc, 7, &[])?;
    let mut from = volumes.take(row.bytes(0)?)?;
    let to = volumes.volume(row.bytes(1)?)?;
    let left = ran(rt, alloc, &words, out, err, &mut from, to);
    volumes.keep(row.bytes(0)?, from)?;
    left.tell(told)
}

/// The bytes of a file, without a call of the volume.
fn bytes_of(alloc: Global, vol: &MemVolume, file: VolFile) -> Result<Vec<u8>, CaseStop> {
    whole(
        alloc,
        &mut image(alloc, vol, vol.moment(), Pick::Newest)?,
        file,
    )
}

/// `same FILE VOLUME OTHER`
pub(crate) fn same(
    alloc: Global,
    volumes: &mut Volumes,
    row: &Row,
    told: &mut Told,
) -> Result<(), CaseStop> {
    let file = match row.bytes(0)? {
        b"bundle" => VolFile::Bundle,
        b"journal" => VolFile::Journal,
        _ => return Err(CaseStop::BadRow),
    };
    let bytes = bytes_of(alloc, volumes.volume(row.bytes(1)?)?, file)?;
    let others = bytes_of(alloc, volumes.volume(row.bytes(2)?)?, file)?;
    told.fact(bytes == others)
}
