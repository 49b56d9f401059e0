//! A gate in which two workers meet, one that counts, and calls that fail.

use crate::same::same;
use crate::volumes::{SEVEN, empty, put, run_through, two_tiles};
use meeting_gate::{Counting, Meeting};
use outside_io::Volume;
use std::alloc::Global;
use std::process::Abort;
use std::thread::Threads;
use tile_workers::Open;

/// The line of the first tile, and that of the second.
const FIRST: &[u8] = b"0\t0\t131140\t66\tc0664559\twhole\t-\t-\tu8\t1\t1\t1\t1\t1\n";

const SECOND: &[u8] = b"0\t1\t131210\t3\tffffffff\tforeign\t-\t-\t-\t-\t-\t-\t-\t-\n";

/// The same where they are not read.
const NO_FIRST: &[u8] = b"0\t0\t131140\t66\t-\tdamaged\tFailed\t-\t-\t-\t-\t-\t-\t-\n";

const NO_SECOND: &[u8] = b"0\t1\t131210\t3\t-\tdamaged\tFailed\t-\t-\t-\t-\t-\t-\t-\n";

/// The front of the totals.
const TOTALS: &[u8] = b"tiles 2\nbytes 69\n";

/// How many device calls come before the one that reads the first tile's size: two of the journal,
/// the bundle's length, and three of opening.
const FIRST_READ: u64 = 6;

#[test]
fn two_workers_judge_at_once(rt: HostRuntime) {
    let alloc = rt.alloc();
    let mut vol = two_tiles(&rt, alloc, Vec::new(alloc));
    let gate = Meeting::of_two();
    let left = run_through(&rt, alloc, &["audit", "2", "all"], &mut vol, &gate);
    same(&rt, "the status", left.status, 0);
    gives(&rt, alloc, "the lines", left.out.held(), FIRST, SECOND);
    same(&rt, "the workers met", gate.all_met(), true);
}

/// How often the tile with this number of its batch passes, of forty: a batch has 16 tiles for each
/// worker, and the last one what is left.
fn wanted_passes(at: usize, workers: usize) -> u64 {
    let most = workers.wrapping_mul(16).max(1);
    if at >= most {
        return 0;
    }
    ((40 / most) as u64).wrapping_add(u64::from(at < 40 % most))
}

#[test]
fn a_batch_has_sixteen_tiles_for_each_worker(rt: HostRuntime) {
    let alloc = rt.alloc();
    let mut vol = empty(&rt, alloc, Vec::new(alloc));
    for col in 0..40 {
        put(&rt, alloc, &mut vol, col, &SEVEN);
    }
    for (count, workers) in [(1, "1"), (2, "2"), (64, "64")] {
        let gate = Counting::new(alloc, 40).expect(&rt, "memory");
        let left = run_through(&rt, alloc, &["audit", workers], &mut vol, &gate);
        same(&rt, "the status", left.status, 0);
        for at in 0..=40 {
            let found = (workers, at, gate.passes_of(at));
            same(
                &rt,
                "passes",
                found,
                (workers, at, wanted_passes(at, count)),
            );
        }
    }
}

/// The output begins with these two lines and the totals.
fn gives(rt: &impl Abort, alloc: Global, at: &str, held: &[u8], first: &[u8], second: &[u8]) {
    let mut wanted = Vec::new(alloc);
    for part in [first, second, TOTALS] {
        wanted.extend_from_slice(part).expect(rt, "memory");
    }
    let front = &held[..wanted.len().min(held.len())];
    same(rt, at, front, wanted.as_slice());
}

/// A run whose call with this number fails.
fn failing_at<R: Abort + Threads + Sync>(rt: &R, alloc: Global, call: u64) {
    let begun = two_tiles(rt, alloc, Vec::new(alloc)).moment();
    let mut failing = Vec::new(alloc);
    failing
        .push(begun.saturating_add(call))
        .expect(rt, "memory");
    let mut vol = two_tiles(rt, alloc, failing);
    let left = run_through(rt, alloc, &["audit", "1", "all"], &mut vol, &Open);
    if call < FIRST_READ {
        same(
            rt,
            call,
            (left.status, left.out.held()),
            (5, b"".as_slice()),
        );
        same(rt, call, left.err.held(), b"volume failed\n".as_slice());
        return;
    }
    same(rt, call, left.status, 9);
    if call < FIRST_READ + 2 {
        gives(
            rt,
            alloc,
            "the second alone",
            left.out.held(),
            NO_FIRST,
            SECOND,
        );
    } else {
        gives(
            rt,
            alloc,
            "the first alone",
            left.out.held(),
            FIRST,
            NO_SECOND,
        );
    }
    same(
        rt,
        call,
        left.err.held(),
        b"damaged: 1 of 2 tiles\n".as_slice(),
    );
}

#[test]
fn a_call_that_fails_costs_one_tile(rt: HostRuntime) {
    let alloc = rt.alloc();
    for call in 0..FIRST_READ + 4 {
        failing_at(&rt, alloc, call);
    }
}
