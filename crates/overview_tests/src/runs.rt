//! A gate in which two workers meet, and one that counts.

use crate::same::same;
use crate::volumes::{empty, put, run_through};
use meeting_gate::{Counting, Meeting};

/// The blob of one unsigned byte, 7, as an independent reading of the format makes it; and of 8.
const SEVEN: [u8; 66] =
    *b"\x4c\x65\x72\x63\x32\x20\x03\x00\x00\x00\xc0\x66\x45\x59\x01\x00\x00\x00\x01\x00\x00\x00\
    \x01\x00\x00\x00\x08\x00\x00\x00\x42\x00\x00\x00\x01\x00\x00\x00\x00\x00\x00\x00\x00\x00\
    \xe0\x3f\x00\x00\x00\x00\x00\x00\x1c\x40\x00\x00\x00\x00\x00\x00\x1c\x40\x00\x00\x00\x00";

const EIGHT: [u8; 66] =
    *b"\x4c\x65\x72\x63\x32\x20\x03\x00\x00\x00\xc0\x6e\x45\x81\x01\x00\x00\x00\x01\x00\x00\x00\
    \x01\x00\x00\x00\x08\x00\x00\x00\x42\x00\x00\x00\x01\x00\x00\x00\x00\x00\x00\x00\x00\x00\
    \xe0\x3f\x00\x00\x00\x00\x00\x00\x20\x40\x00\x00\x00\x00\x00\x00\x20\x40\x00\x00\x00\x00";

#[test]
fn two_workers_encode_at_once(rt: HostRuntime) {
    let alloc = rt.alloc();
    let mut from = empty(&rt, alloc);
    put(&rt, alloc, &mut from, (0, 0, &SEVEN));
    put(&rt, alloc, &mut from, (0, 2, &EIGHT));
    let mut to = empty(&rt, alloc);
    let gate = Meeting::of_two();
    let words = ["overview", "0", "3", "0", "2"];
    let left = run_through(&rt, alloc, &words, &mut from, &mut to, &gate);
    let found = (left.report.status, left.out.held());
    let lines = b"put 0 0 66\nput 0 1 66\n".as_slice();
    same(&rt, "the run", found, (0, lines));
    same(&rt, "the workers met", gate.all_met(), true);
}

/// How often the coarse tile with this number of its batch passes, of forty: a batch has 16 tiles
/// for each worker, and the last one what is left.
fn wanted_passes(at: usize, workers: usize) -> u64 {
    let most = workers.wrapping_mul(16).max(1);
    if at >= most {
        return 0;
    }
    ((40 / most) as u64).wrapping_add(u64::from(at < 40 % most))
}

#[test]
fn a_batch_has_sixteen_tiles_for_each_worker(rt: HostRuntime) {
    let alloc = rt.alloc();
    let mut from = empty(&rt, alloc);
    for k in 0..40 {
        put(&rt, alloc, &mut from, (2, 2 * k, &SEVEN));
    }
    for (count, workers) in [(1, "1"), (2, "2"), (64, "64")] {
        let mut to = empty(&rt, alloc);
        let gate = Counting::new(alloc, 40).expect(&rt, "memory");
        let words = ["overview", "0", "3", "0", workers];
        let left = run_through(&rt, alloc, &words, &mut from, &mut to, &gate);
        same(&rt, "the status", left.report.status, 0);
        for at in 0..=40 {
            let found = (workers, at, gate.passes_of(at));
            same(
                &rt,
                "passes",
                found,
                (workers, at, wanted_passes(at, count)),
            );
        }
    }
}
