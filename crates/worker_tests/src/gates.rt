//! Tiles encoded at once.

ghost use Rattle.std.specs.Prelude.{◌≤◌};

use bundle_index::Slot;
use lerc_encode::EncodeFault;
use lerc_header::{Step, Version};
use meeting_gate::{Counting, Meeting};
use outside_io::{Bytes, MemSource};
use raster_grids::bands_read;
use raster_values::Bands;
use std::alloc::Global;
use std::process::Abort;
use std::thread::Threads;
use tile_updates::{Batch, BatchStop, UpdateList, encode_batch};
use tile_workers::{Blobs, Coding, Gate, Open, encode_tiles};

/// One unsigned byte, 7.
const SEVEN: [u8; 19] = *b"LGR1\x01\x01\0\0\0\x01\0\0\0\x01\0\0\0\x01\x07";

/// One unsigned byte, 8.
const EIGHT: [u8; 19] = *b"LGR1\x01\x01\0\0\0\x01\0\0\0\x01\0\0\0\x01\x08";

/// Two depths of one unsigned byte, 7 and 8.
const DEEP: [u8; 20] = *b"LGR1\x01\x01\0\0\0\x01\0\0\0\x02\0\0\0\x01\x07\x08";

/// The blob of the first, worked by hand from the layout. The least and the greatest value, its
/// last fields but the mask's size, are doubles.
const SEVEN_BLOB: [u8; 66] = *b"Lerc2 \x03\0\0\0\xc0\x66\x45\x59\
\x01\0\0\0\x01\0\0\0\x01\0\0\0\x08\0\0\0\x42\0\0\0\x01\0\0\0\
\0\0\0\0\0\0\xe0\x3f\0\0\0\0\0\0\x1c\x40\0\0\0\0\0\0\x1c\x40\0\0\0\0";

/// The bands of a grid.
fn bands_of(rt: &impl Abort, alloc: Global, grid: &[u8]) -> Bands {
    let bytes = Bytes::of(alloc, grid).expect(rt, "memory");
    let failing = Bytes::of(alloc, b"").expect(rt, "memory");
    let mut source = MemSource::new(bytes, 7, failing);
    bands_read(alloc, &mut source, 0).expect(rt, "bands")
}

/// The blobs of tiles of these grids, one behind the other, or the number of the tile that is
/// refused and whether that is for its depths.
fn encoded<R: Threads + Sync + Abort, G: Gate>(
    rt: &R,
    alloc: Global,
    grids: &[&[u8]],
    workers: usize,
    gate: &G,
) -> Result<Vec<u8>, (usize, bool)>
    requires { (1 ≤ workers) × (workers ≤ 64) }
{
    let mut tiles = Vec::new(alloc);
    for grid in grids {
        tiles.push(bands_of(rt, alloc, grid)).expect(rt, "memory");
    }
    let coding = Coding {
        version: Version::V3,
        step: Step::of(0),
        workers,
    };
    match encode_tiles(rt, alloc, &tiles, coding, gate) {
        Ok(blobs) => Ok(joined(rt, alloc, &blobs)),
        Err(fault) => Err((fault.at, matches!(&fault.cause, EncodeFault::DepthNeedsV4))),
    }
}

/// The blobs, one behind the other.
fn joined(rt: &impl Abort, alloc: Global, blobs: &Blobs) -> Vec<u8> {
    let mut all = Vec::new(alloc);
    for at in 0..blobs.len() {
        all.extend_from_slice(blobs.at(at)).expect(rt, "memory");
    }
    all
}

#[test]
fn two_workers_encode_at_once(rt: HostRuntime) {
    let gate = Meeting::of_two();
    let blobs = encoded(&rt, rt.alloc(), &[&SEVEN, &EIGHT], 2, &gate).expect(&rt, "blobs");
    assert!(&rt; gate.all_met(), "the workers did not meet");
    assert!(&rt; blobs.starts_with(&SEVEN_BLOB), "the blob of the first");
    assert_eq!(&rt; blobs.len(), 132, "two blobs");
}

#[test]
fn four_workers_encode_at_once(rt: HostRuntime) {
    let gate = Meeting::of_four();
    let grids: [&[u8]; 4] = [&SEVEN, &EIGHT, &EIGHT, &SEVEN];
    let blobs = encoded(&rt, rt.alloc(), &grids, 4, &gate).expect(&rt, "blobs");
    assert!(&rt; gate.all_met(), "the workers did not meet");
    assert!(&rt; blobs.ends_with(&SEVEN_BLOB), "the blob of the last");
    assert_eq!(&rt; blobs.len(), 264, "four blobs");
}

/// Where there is one worker or one tile nobody can meet, and the gate says so.
#[test]
fn a_lone_worker_meets_nobody(rt: HostRuntime) {
    let one = Meeting::of_two();
    let blobs = encoded(&rt, rt.alloc(), &[&SEVEN, &EIGHT], 1, &one).expect(&rt, "blobs");
    assert_eq!(&rt; blobs.len(), 132, "two blobs");
    assert!(&rt; !one.all_met(), "one worker met another");
    let alone = Meeting::of_two();
    let blobs = encoded(&rt, rt.alloc(), &[&SEVEN], 2, &alone).expect(&rt, "blobs");
    assert_eq!(&rt; blobs.len(), 66, "one blob");
    assert!(&rt; !alone.all_met(), "the worker of the one tile met another");
}

#[test]
fn each_tile_passes_once_by_its_number(rt: HostRuntime) {
    let alloc = rt.alloc();
    let grids: [&[u8]; 50] = [&SEVEN; 50];
    for workers in [1, 2, 7, 64] {
        let gate = Counting::new(alloc, grids.len()).expect(&rt, "memory");
        let blobs = encoded(&rt, alloc, &grids, workers, &gate).expect(&rt, "blobs");
        assert_eq!(&rt; blobs.len(), 3300, "fifty blobs");
        for at in 0..grids.len() {
            assert_eq!(&rt; gate.passes_of(at), 1, "tile {at} by {workers} workers");
        }
        let others = gate.passes_of(grids.len());
        assert_eq!(&rt; others, 0, "numbers of no tile by {workers} workers");
    }
}

#[test]
fn the_first_deep_tile_is_told_by_its_number(rt: HostRuntime) {
    for workers in [1, 2, 4, 64] {
        let grids: [&[u8]; 4] = [&SEVEN, &DEEP, &EIGHT, &DEEP];
        let answer = encoded(&rt, rt.alloc(), &grids, workers, &Open);
        assert_eq!(&rt; answer.err(), Some((1, true)), "{workers} workers");
    }
}

/// A batch of these tiles, each for the slot of its number.
fn batch_of(rt: &impl Abort, alloc: Global, grids: &[&[u8]]) -> Batch {
    let mut batch = Batch::new(alloc);
    let mut number = 0;
    for grid in grids {
        let slot = Slot::of_number(number).expect(rt, "a slot");
        let bands = bands_of(rt, alloc, grid);
        if batch.len() < 1000 && batch.push(slot, bands).is_err() {
            panic!(rt; "memory");
        }
        number = number.saturating_add(1);
    }
    batch
}

#[test]
fn a_batch_is_encoded_at_once(rt: HostRuntime) {
    let alloc = rt.alloc();
    let batch = batch_of(&rt, alloc, &[&SEVEN, &EIGHT]);
    assert!(&rt; !batch.is_full(1), "two tiles are few");
    let gate = Meeting::of_two();
    let mut list = UpdateList::new(alloc);
    let coding = Coding {
        version: Version::V4,
        step: Step::of(0),
        workers: 2,
    };
    let added = encode_batch(&rt, alloc, batch, coding, &gate, &mut list);
    assert!(&rt; added.is_ok(), "the updates");
    assert!(&rt; gate.all_met(), "the workers did not meet");
    let updates = list.into_vec();
    if updates.len() != 2 {
        panic!(&rt; "two updates");
    }
    assert_eq!(&rt; updates[1].slot.number(), 1);
}
