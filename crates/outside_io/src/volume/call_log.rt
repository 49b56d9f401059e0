//! The record of the calls of a volume in memory.

ghost use Rattle.std.specs.Prelude.{◌≡◌, ◌+◌, ◌^◌, ◌<◌, ◌≤◌, ◌++◌, ◌∷◌, [], ℕ, List, take, OnOk, length, slice_index, vec_len, vec_capacity};
ghost use Rattle.outside_io.specs.volume.Disk.{AreBytes, Disk, file_of};
ghost use Rattle.outside_io.specs.volume.Pieces.{pieces_of};
ghost use Rattle.outside_io.specs.inside.Effects.{AllFit, AllEndWithin, AllInPool, EndsWithin, len_after, place_in, effects, syncs, written_pieces};
ghost use Rattle.outside_io.specs.volume.Recorded.{replay};
ghost use Rattle.outside_io.specs.volume.Sparse.{byte_at};

use super::start::{Piece, lay_over};
use crate::{Bytes, VolFile};
use std::alloc::{AllocError, Global};

/// What a call did to a volume in memory. A call that failed, or only read, did nothing: `Look`.
#[derive(Clone, Copy)]
pub enum Ask {
    Look,
    Write(VolFile, u64),
    Cut(VolFile, u64),
    Sync(VolFile),
}

impl Ask {
    /// Whether it synced the file.
    pub fn syncs(self, file: VolFile) -> bool
        ensures { result ≡ syncs self file }
    {
        match (self, file) {
            (Ask::Sync(VolFile::Bundle), VolFile::Bundle) => true,
            (Ask::Sync(VolFile::Journal), VolFile::Journal) => true,
            _ => false,
        }
    }

    /// Where it wrote to the file.
    pub fn place_in(self, file: VolFile) -> Option<u64>
        ensures { result ≡ place_in self file }
    {
        match (self, file) {
            (Ask::Write(VolFile::Bundle, place), VolFile::Bundle) => Some(place),
            (Ask::Write(VolFile::Journal, place), VolFile::Journal) => Some(place),
            _ => None,
        }
    }
}

/// A call, and where its bytes stand among all the bytes that were written.
#[derive(Clone, Copy)]
pub struct Call {
    pub ask: Ask,
    pub from: usize,
    pub count: usize,
}

/// Notes a call and its bytes, for which there is room.
pub fn append(log: &mut Vec<Call>, written: &mut Vec<u8>, ask: Ask, bytes: &[u8])
    requires pool { AllInPool (length written.old.items) log.old.items }
    requires ends { AllEndWithin log.old.items }
    requires octets { AreBytes written.old.items }
    requires end { EndsWithin ask (length bytes.now) }
    requires log { vec_len log.old < vec_capacity log.old }
    requires written { vec_len written.old + length bytes.now ≤ vec_capacity written.old }
    ensures effects { effects written.new.items log.new.items
        ≡ effects written.old.items log.old.items ++
        (record { ask = ask; bytes = bytes.now }) ∷ [] }
    ensures pool { AllInPool (length written.new.items) log.new.items }
    ensures ends { AllEndWithin log.new.items }
    ensures octets { AreBytes written.new.items }
    ensures counted { length log.new.items ≡ length log.old.items + 1 }
    ensures used { length written.new.items ≡ length written.old.items + length bytes.now }
    ensures log_capacity { vec_capacity log.old ≤ vec_capacity log.new }
    ensures written_capacity { vec_capacity written.old ≤ vec_capacity written.new }
{
    let from = written.len();
    let count = bytes.len();
    push_bytes(written, bytes);
    push_call(log, Call { ask, from, count });
}

fn push_call(log: &mut Vec<Call>, call: Call)
    requires { vec_len log.old < vec_capacity log.old }
    ensures items { log.new.items ≡ log.old.items ++ call ∷ [] }
    ensures capacity { vec_capacity log.old ≤ vec_capacity log.new }
{
    match log.push(call) {
        Ok(()) => (),
        Err(_) => unreachable!(),
    }
}

fn push_bytes(written: &mut Vec<u8>, bytes: &[u8])
    requires { vec_len written.old + length bytes.now ≤ vec_capacity written.old }
    ensures items { written.new.items ≡ written.old.items ++ bytes.now }
    ensures capacity { vec_capacity written.old ≤ vec_capacity written.new }
    ensures octets { AreBytes bytes.now }
{
    match written.extend_from_slice(bytes) {
        Ok(()) => (),
        Err(_) => unreachable!(),
    }
}

/// The file's length after a call.
pub fn len_after(file: VolFile, ask: Ask, len: u64, count: usize) -> u64
    requires { EndsWithin ask count }
    ensures { result ≡ len_after file ask len count }
{
    match (file, ask) {
        (VolFile::Bundle, Ask::Write(VolFile::Bundle, at)) => len.max(at + count as u64),
        (VolFile::Journal, Ask::Write(VolFile::Journal, at)) => len.max(at + count as u64),
        (VolFile::Bundle, Ask::Cut(VolFile::Bundle, to)) => to,
        (VolFile::Journal, Ask::Cut(VolFile::Journal, to)) => to,
        _ => len,
    }
}

/// The file's length after these calls.
pub fn len_of(log: &[Call], file: VolFile, first: u64) -> u64
    requires { AllEndWithin log.now }
    ensures { (written : List ℕ) (d : Disk) → AllInPool (length written) log.now
        → AllFit (effects written log.now) d → first ≡ length (file_of file d).now
        → result ≡ length (file_of file (replay (effects written log.now) d)).now }
{
    let mut len = first;
    for call in log {
        len = len_after(file, call.ask, len, call.count);
    }
    len
}

/// How many of the calls there are up to the last sync of the file.
pub fn synced_by(log: &[Call], file: VolFile) -> usize
    ensures within { result ≤ length log.now }
    ensures base { (written : List ℕ) (d : Disk) → (file_of file d).base ≡ (file_of file d).now
        → (file_of file (replay (effects written log.now) d)).base
        ≡ (file_of file (replay (effects written (take result log.now)) d)).now }
{
    let mut last = 0;
    for (i, call) in log.iter().enumerate() {
        if call.ask.syncs(file) {
            last = i + 1;
        }
    }
    last
}

/// Lays what was written to the file over a buffer that stands from `at` on.
pub fn replay_over(log: &[Call], written: &[u8], file: VolFile, at: u64, buf: &mut [u8])
    requires pool { AllInPool (length written.now) log.now }
    requires end { at + length buf.old < 2 ^ 64 }
    ensures { (k : ℕ) → k < length buf.old → slice_index buf.new k
        ≡ byte_at (written_pieces file (effects written.now log.now)) (at + k)
        (slice_index buf.old k) }
{
    for call in log {
        if let Some(place) = call.ask.place_in(file) {
            lay_over(buf, at, place, &written[call.from..call.from + call.count]);
        }
    }
}

/// Adds what was written to the file.
pub fn add_written(
    alloc: Global,
    pieces: &mut Vec<Piece>,
    log: &[Call],
    written: &[u8],
    file: VolFile,
) -> Result<(), AllocError>
    requires { AllInPool (length written.now) log.now }
    ensures { OnOk result (pieces_of pieces.new.items
        ≡ pieces_of pieces.old.items ++ written_pieces file (effects written.now log.now)) }
{
    for call in log {
        if let Some(at) = call.ask.place_in(file) {
            let bytes = Bytes::of(alloc, &written[call.from..call.from + call.count])?;
            pieces.push(Piece { at, bytes })?;
        }
    }
    Ok(())
}
