//! Inputs read and encoded by several workers.

ghost use Rattle.std.specs.Prelude.{◌≤◌};

use lerc_header::{Step, Version};
use meeting_gate::Counting;
use outside_io::{Bytes, MemSource};
use std::alloc::Global;
use std::process::Abort;
use std::thread::Threads;
use tile_updates::{StreamStop, read_updates};
use tile_workers::{Coding, Gate, Open};

/// A tile of eight by eight unsigned bytes for row 1 and this column: pixel i has the value 3 * i +
/// column, and is not valid where i is below the column.
fn add_tile(rt: &impl Abort, alloc: Global, stream: &mut Vec<u8>, column: u8) {
    stream.extend_from_slice(b"T\x01").expect(rt, "memory");
    stream.push(column).expect(rt, "memory");
    let head = *b"LGR1\x01\x08\0\0\0\x08\0\0\0\x01\0\0\0";
    stream.extend_from_slice(&head).expect(rt, "memory");
    for i in 0..64u8 {
        stream.push(u8::from(i >= column)).expect(rt, "memory");
    }
    for i in column..64 {
        stream
            .push(i.wrapping_mul(3).wrapping_add(column))
            .expect(rt, "memory");
    }
}

/// So many tiles.
fn stream_of(rt: &impl Abort, alloc: Global, count: u8) -> Vec<u8> {
    let mut stream = Vec::new(alloc);
    for column in 0..count {
        add_tile(rt, alloc, &mut stream, column);
    }
    stream
}

/// What this many workers make of a stream through a gate: all bytes of the updates behind one
/// another, each behind its slot.
fn made_of<R: Threads + Sync + Abort, G: Gate>(
    rt: &R,
    alloc: Global,
    stream: &[u8],
    workers: usize,
    gate: &G,
) -> Result<Vec<u8>, StreamStop>
    requires { (1 ≤ workers) × (workers ≤ 64) }
{
    let bytes = Bytes::of(alloc, stream).expect(rt, "memory");
    let failing = Bytes::of(alloc, b"").expect(rt, "memory");
    let mut source = MemSource::new(bytes, 100, failing);
    let coding = Coding {
        version: Version::V3,
        step: Step::of(1),
        workers,
    };
    let updates = read_updates(rt, alloc, &mut source, coding, gate)?;
    let mut all = Vec::new(alloc);
    for update in updates {
        all.extend_from_slice(&update.slot.number().to_le_bytes())
            .expect(rt, "memory");
        all.extend_from_slice(update.bytes.as_slice())
            .expect(rt, "memory");
    }
    Ok(all)
}

#[test]
fn the_updates_are_those_of_one_worker(rt: HostRuntime) {
    let alloc = rt.alloc();
    let stream = stream_of(&rt, alloc, 50);
    let by_one = made_of(&rt, alloc, &stream, 1, &Open).expect(&rt, "updates");
    assert!(&rt; by_one.len() > 50 * 66, "blobs of fifty tiles");
    for workers in [2, 7, 64] {
        let by_many = made_of(&rt, alloc, &stream, workers, &Open).expect(&rt, "updates");
        assert!(&rt; by_many == by_one, "{workers} workers");
    }
}

/// How often the tile with this number of its batch passes where this many tiles are read: a batch
/// has 16 tiles for each worker, and the last one what is left.
fn wanted_passes(at: usize, count: usize, workers: usize) -> u64 {
    let most = workers.wrapping_mul(16).max(1);
    if at >= most {
        return 0;
    }
    ((count / most) as u64).wrapping_add(u64::from(at < count % most))
}

/// A thousand tiles are not held at once: each batch ends where it is full, and not before.
#[test]
fn a_batch_has_sixteen_tiles_for_each_worker(rt: HostRuntime) {
    let alloc = rt.alloc();
    let mut stream = Vec::new(alloc);
    for k in 0..1000u16 {
        add_tile(&rt, alloc, &mut stream, (k % 50) as u8);
    }
    for workers in [1, 2, 7, 64] {
        let gate = Counting::new(alloc, 1000).expect(&rt, "memory");
        let made = made_of(&rt, alloc, &stream, workers, &gate);
        assert!(&rt; made.is_ok(), "the updates by {workers} workers");
        for at in 0..=1000 {
            let wanted = wanted_passes(at, 1000, workers);
            assert_eq!(&rt;
                gate.passes_of(at),
                wanted,
                "tile {at} by {workers} workers"
            );
        }
    }
}
