//! The volume in memory at the calls that it fails, and the volume that fails at every call.

use case_rows::{CaseStop, Row, Told};
use outside_io::{MemVolume, NoVolume, Start, VolFile, Volume};
use std::alloc::Global;

/// The number of a word, or none where it is empty.
fn stop_of(row: &Row, at: usize) -> Result<Option<u64>, CaseStop> {
    if row.bytes(at)?.is_empty() {
        return Ok(None);
    }
    Ok(Some(row.number(at)?))
}

/// `failing CALLS STOP MOST ROOM`
pub(crate) fn failing(alloc: Global, row: &Row, told: &mut Told) -> Result<(), CaseStop> {
    let bundle = Start::new(0, Vec::new(alloc));
    let journal = Start::new(0, Vec::new(alloc));
    let calls: Vec<u64> = row.numbers(alloc, 0)?;
    let (stop, most, room) = (stop_of(row, 1)?, row.size(2, 100)?, row.size(3, 100)?);
    let mut vol = MemVolume::new(alloc, bundle, journal, calls, stop, most, room)?;
    for _ in 0..5 {
        told.word(vol.write(VolFile::Journal, 0, b"x").is_ok())?;
    }
    told.word(vol.moment())
}

/// `none`
pub(crate) fn none(told: &mut Told) -> Result<(), CaseStop> {
    let (bundle, journal) = (VolFile::Bundle, VolFile::Journal);
    let mut vol = NoVolume::new();
    let mut buf = *b"..";
    told.word(vol.len(bundle).is_ok())?;
    told.word(vol.read(journal, 0, &mut buf).is_ok())?;
    told.word(vol.write(bundle, 0, b"ab").is_ok())?;
    told.word(vol.cut(journal, 0).is_ok())?;
    told.word(vol.sync(bundle).is_ok())?;
    told.word(vol.moment())?;
    told.bytes(&buf)
}
