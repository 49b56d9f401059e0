//! What the tests stand on: bundles in memory, and a run over them.

use audit_cli::run_audit;
use bundle_index::Slot;
use bundle_store::{Session, recover};
use outside_io::{Bytes, MemSink, MemVolume, Start, Volume, Word};
use std::alloc::Global;
use std::process::Abort;
use std::thread::Threads;
use tile_workers::Gate;

/// The blob of one unsigned byte, 7, as an independent reading of the format makes it.
pub(crate) const SEVEN: [u8; 66] =
    *b"\x4c\x65\x72\x63\x32\x20\x03\x00\x00\x00\xc0\x66\x45\x59\x01\x00\x00\x00\x01\x00\x00\x00\
    \x01\x00\x00\x00\x08\x00\x00\x00\x42\x00\x00\x00\x01\x00\x00\x00\x00\x00\x00\x00\x00\x00\
    \xe0\x3f\x00\x00\x00\x00\x00\x00\x1c\x40\x00\x00\x00\x00\x00\x00\x1c\x40\x00\x00\x00\x00";

/// A volume of no bytes, of which the calls with these numbers fail.
pub(crate) fn empty(rt: &impl Abort, alloc: Global, failing: Vec<u64>) -> MemVolume {
    let bundle = Start::new(0, Vec::new(alloc));
    let journal = Start::new(0, Vec::new(alloc));
    MemVolume::new(alloc, bundle, journal, failing, None, 2000, 600_000).expect(rt, "memory")
}

/// Puts a tile into the first row, once the volume is recovered.
pub(crate) fn put(rt: &impl Abort, alloc: Global, vol: &mut MemVolume, col: u8, tile: &[u8]) {
    recover(vol).expect(rt, "recover");
    let mut session = Session::open(alloc, vol).expect(rt, "open");
    let slot = Slot::of(0, col).expect(rt, "slot");
    session.put_blob(vol, slot, tile).expect(rt, "put");
}

/// A volume over a bundle of two tiles, of which the calls with these numbers fail, the second of
/// the tiles being of another format.
pub(crate) fn two_tiles(rt: &impl Abort, alloc: Global, failing: Vec<u64>) -> MemVolume {
    let mut vol = empty(rt, alloc, failing);
    put(rt, alloc, &mut vol, 0, &SEVEN);
    put(rt, alloc, &mut vol, 1, b"GIF");
    vol
}

/// What a run leaves.
#[derive(Drop)]
pub(crate) struct Left {
    pub(crate) status: u8,
    pub(crate) out: MemSink,
    pub(crate) err: MemSink,
}

fn words_of(rt: &impl Abort, alloc: Global, words: &[&str]) -> Vec<Word> {
    let mut list = Vec::new(alloc);
    for word in words {
        list.push(Word::of(alloc, word).expect(rt, "memory"))
            .expect(rt, "memory");
    }
    list
}

fn sink(rt: &impl Abort, alloc: Global) -> MemSink {
    let failing = Bytes::of(alloc, &[]).expect(rt, "memory");
    MemSink::new(alloc, 7, failing, 1000).expect(rt, "memory")
}

/// A run over this volume, through the gate.
pub(crate) fn run_through<R: Abort + Threads + Sync, V: Volume, G: Gate>(
    rt: &R,
    alloc: Global,
    words: &[&str],
    vol: &mut V,
    gate: &G,
) -> Left {
    let words = words_of(rt, alloc, words);
    let mut out = sink(rt, alloc);
    let mut err = sink(rt, alloc);
    let status = run_audit(rt, alloc, &words, &mut out, &mut err, vol, gate);
    Left { status, out, err }
}
