//! What begins the works that a call ends, how that call has acted, and what images then hold.

use crate::same::same;
use crate::works::{PICKS, Work, are_whole_groups, empty, letters_of, perform};
use bundle_store::TileRec;
use outside_io::{MemVolume, Pick, Volume};
use rough_volume::RoughVolume;
use std::alloc::Global;
use std::process::Abort;

/// No work has so many calls.
pub(crate) const MOST: u64 = 300;

/// How many bytes of a write land, and what stands in the place of the others.
pub(crate) const LANDS: [(usize, u8); 5] = [
    (0, 255),
    (1, 0),
    (40, 255),
    (1000, 0),
    (usize::MAX, 0),
];

/// A bundle with these tiles, or an empty file where there are none.
pub(crate) fn begun(rt: &impl Abort, alloc: Global, tiles: &[TileRec]) -> MemVolume {
    let mut vol = empty(rt, alloc);
    perform(alloc, &mut vol, Work::Put, tiles).expect(rt, "a put");
    vol
}

/// What each image of now holds, once it is recovered, is whole groups of these letters alone.
pub(crate) fn images_hold(
    rt: &impl Abort,
    alloc: Global,
    at: &str,
    vol: &RoughVolume,
    count: u16,
    few: &[u8],
) {
    for pick in PICKS {
        let mut image = vol.crash(alloc, vol.moment(), pick).expect(rt, "memory");
        let letters = letters_of(rt, alloc, &mut image, count);
        same(rt, at, are_whole_groups(&letters), true);
        for letter in &letters {
            same(rt, at, few.contains(letter), true);
        }
    }
}

/// What is read of the volume, once it is recovered.
pub(crate) fn read_now(rt: &impl Abort, alloc: Global, vol: &RoughVolume, count: u16) -> Vec<u8> {
    let mut read = vol
        .crash(alloc, vol.moment(), Pick::Newest)
        .expect(rt, "memory");
    letters_of(rt, alloc, &mut read, count)
}
