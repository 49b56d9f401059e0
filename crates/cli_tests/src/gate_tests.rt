//! Commands that encode two tiles at once, which a gate shows.

use crate::runs::run_through;
use crate::same::same;
use crate::volumes::{empty_volume, join_parts};
use meeting_gate::Meeting;
use std::process::Abort;
use std::thread::Threads;
use worked_examples::{GRID, NO_PIXEL};

/// Two tiles for the first slot: of one pixel, and of one that is not valid.
const TWO_TILES: [&[u8]; 4] = [b"T\0\0", &GRID, b"T\0\0", &NO_PIXEL];

/// A run of these words over these parts and an empty volume gives this output, and the workers of
/// the two tiles that it encodes see each other.
fn meet(
    rt: &(impl Abort + AllocGlobal + Threads + Sync),
    words: &[&str],
    parts: &[&[u8]],
    output: &[u8],
) {
    let alloc = rt.alloc();
    let input = join_parts(rt, parts);
    let mut vol = empty_volume(rt);
    let gate = Meeting::of_two();
    let left = run_through(rt, alloc, words, &input, &mut vol, &gate).expect(rt, "memory");
    let found = (left.status, left.out.held(), left.err.held());
    same(rt, "what is given", found, (0, output, b"".as_slice()));
    same(rt, "the workers met", gate.all_met(), true);
}

#[test]
fn a_build_encodes_two_tiles_at_once(rt: HostRuntime) {
    meet(
        &rt,
        &["build", "3", "0", "2"],
        &TWO_TILES,
        b"built 1 131206\n",
    );
}

#[test]
fn a_put_encodes_two_tiles_at_once(rt: HostRuntime) {
    let lines = b"put 0 0 66\nput 0 0 66\n";
    meet(&rt, &["put", "3", "0", "2"], &TWO_TILES, lines);
}

#[test]
fn a_sample_encodes_two_tiles_at_once(rt: HostRuntime) {
    let lines = b"tiles 2\nbytes 6545\nworst 1\nsum 514240657\n";
    meet(&rt, &["sample", "7", "2"], &[], lines);
}
