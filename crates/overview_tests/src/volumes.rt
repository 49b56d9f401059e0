//! What the test stands on: a bundle, volumes in memory, and a run over them.

use crate::same::same;
use bundle_index::Slot;
use bundle_store::{Session, recover};
use outside_io::{Bytes, MemSink, MemVolume, Report, Start, Volume, Word};
use overview_cli::run_overview;
use std::alloc::Global;
use std::process::Abort;
use std::thread::Threads;
use tile_workers::Gate;

/// A row, a column, and the bytes of a tile there.
pub(crate) type Tile<'a> = (u8, u8, &'a [u8]);

/// The slot of a row and a column.
fn slot_at(rt: &impl Abort, row: u8, col: u8) -> Slot {
    Slot::of(row, col).expect(rt, "slot")
}

/// A volume of no bytes.
pub(crate) fn empty(rt: &impl Abort, alloc: Global) -> MemVolume {
    let bundle = Start::new(0, Vec::new(alloc));
    let journal = Start::new(0, Vec::new(alloc));
    let failing = Vec::new(alloc);
    MemVolume::new(alloc, bundle, journal, failing, None, 2000, 600_000).expect(rt, "memory")
}

/// Puts one tile, once the volume is recovered.
pub(crate) fn put(rt: &impl Abort, alloc: Global, vol: &mut MemVolume, tile: Tile<'_>) {
    recover(vol).expect(rt, "recover");
    let mut session = Session::open(alloc, vol).expect(rt, "open");
    let slot = slot_at(rt, tile.0, tile.1);
    session.put_blob(vol, slot, tile.2).expect(rt, "put");
}

/// What a run leaves.
#[derive(Drop)]
pub(crate) struct Left {
    pub(crate) report: Report,
    pub(crate) out: MemSink,
    pub(crate) err: MemSink,
}

fn words_of(rt: &impl Abort, alloc: Global, words: &[&str]) -> Vec<Word> {
    let mut list = Vec::new(alloc);
    for word in words {
        list.push(Word::of(alloc, word).expect(rt, "memory"))
            .expect(rt, "memory");
    }
    list
}

fn sink(rt: &impl Abort, alloc: Global) -> MemSink {
    let failing = Bytes::of(alloc, &[]).expect(rt, "memory");
    MemSink::new(alloc, 7, failing, 1000).expect(rt, "memory")
}

/// A run over these volumes, through the gate.
pub(crate) fn run_through<R: Abort + Threads + Sync, V: Volume, W: Volume, G: Gate>(
    rt: &R,
    alloc: Global,
    words: &[&str],
    from: &mut V,
    to: &mut W,
    gate: &G,
) -> Left {
    let words = words_of(rt, alloc, words);
    let mut out = sink(rt, alloc);
    let mut err = sink(rt, alloc);
    let report = run_overview(rt, alloc, &words, &mut out, &mut err, from, to, gate);
    Left { report, out, err }
}
