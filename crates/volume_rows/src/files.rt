//! Files of volumes in memory: how they are made, and what they hold.

ghost use Rattle.std.specs.Prelude.{◌≤◌, length};

use case_rows::CaseStop;
use outside_io::{Bytes, Failed, MemVolume, Pick, Piece, Start, VolFile, Volume};
use std::alloc::Global;

/// How many calls a volume answers.
const CALLS: usize = 4000;

/// How many bytes can be written to it.
const ROOM: usize = 4_000_000;

/// The longest file that is read whole.
const MOST: u64 = 67_108_864;

/// Which calls of a volume fail: these, and all from one on.
#[derive(Drop)]
pub struct Failing {
    pub calls: Vec<u64>,
    pub stop: Option<u64>,
}

/// A file of `len` bytes that begins with these, and has zeros behind them.
fn start(alloc: Global, len: u64, front: &[u8]) -> Result<Start, CaseStop> {
    if front.len() as u64 > len {
        return Err(CaseStop::BadRow);
    }
    let piece = Piece {
        at: 0,
        bytes: Bytes::of(alloc, front)?,
    };
    let mut pieces = Vec::new(alloc);
    pieces.push(piece)?;
    Ok(Start::new(len, pieces))
}

/// A bundle of `len` bytes that begins with these beside this journal.
pub fn volume(
    alloc: Global,
    len: u64,
    front: &[u8],
    journal: &[u8],
    failing: Failing,
) -> Result<MemVolume, CaseStop> {
    let bundle = start(alloc, len, front)?;
    let beside = start(alloc, journal.len() as u64, journal)?;
    let Failing { calls, stop } = failing;
    Ok(MemVolume::new(alloc, bundle, beside, calls, stop, CALLS, ROOM)?)
}

/// One image of a moment.
pub fn image(
    alloc: Global,
    vol: &MemVolume,
    moment: u64,
    pick: Pick,
) -> Result<MemVolume, CaseStop> {
    if moment > vol.moment() {
        return Err(CaseStop::BadRow);
    }
    Ok(vol.crash(alloc, moment, pick)?)
}

/// A row needs this call, which failed.
pub(crate) fn needed<T: Drop>(answer: Result<T, Failed>) -> Result<T, CaseStop> {
    answer.map_err(|_| CaseStop::BadRow)
}

/// So many bytes of a file, or fewer at its end.
pub fn part(
    alloc: Global,
    vol: &mut MemVolume,
    file: VolFile,
    at: u64,
    count: usize,
) -> Result<Vec<u8>, CaseStop> {
    let mut bytes = vec![in alloc; 0u8; count]?;
    let got = needed(vol.read(file, at, bytes.as_mut_slice()))?;
    bytes.truncate(got);
    Ok(bytes)
}

/// The bytes of a file.
pub fn whole(alloc: Global, vol: &mut MemVolume, file: VolFile) -> Result<Vec<u8>, CaseStop> {
    let len = needed(vol.len(file))?;
    if len > MOST {
        return Err(CaseStop::BadRow);
    }
    part(alloc, vol, file, 0, len as usize)
}

/// Another volume of the same files, as a read gives them.
pub fn copy(alloc: Global, vol: &MemVolume, failing: Failing) -> Result<MemVolume, CaseStop> {
    let mut read = image(alloc, vol, vol.moment(), Pick::Newest)?;
    let bundle = whole(alloc, &mut read, VolFile::Bundle)?;
    let journal = whole(alloc, &mut read, VolFile::Journal)?;
    volume(alloc, bundle.len() as u64, &bundle, &journal, failing)
}

/// Lays the bytes over the file from a place in it, or at its end, on.
pub(crate) fn lay(
    vol: &mut MemVolume,
    file: VolFile,
    at: u64,
    bytes: &[u8],
) -> Result<(), CaseStop> {
    let Ok(len) = vol.len(file) else {
        return Err(CaseStop::BadRow);
    };
    if at > len || at > 1 << 50 || bytes.len() > 1 << 50 {
        return Err(CaseStop::BadRow);
    }
    needed(vol.write(file, at, bytes))?;
    needed(vol.sync(file))
}

/// Shortens the file.
pub(crate) fn shorten(vol: &mut MemVolume, file: VolFile, len: u64) -> Result<(), CaseStop> {
    let Ok(held) = vol.len(file) else {
        return Err(CaseStop::BadRow);
    };
    if len > held {
        return Err(CaseStop::BadRow);
    }
    needed(vol.cut(file, len))?;
    needed(vol.sync(file))
}
