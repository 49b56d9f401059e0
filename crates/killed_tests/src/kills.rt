//! Works that end at a call which has acted, and works behind them.

use crate::images::{LANDS, MOST, begun, images_hold, read_now};
use crate::same::same;
use crate::works::{
    PICKS, Work, are_whole_groups, empty, letters_of, perform, rough_copy, tiles_of,
};
use bundle_pack::pack;
use bundle_store::TileRec;
use outside_io::{MemVolume, Pick, VolFile, Volume};
use rough_volume::{Landed, Rough, RoughVolume, landed_bytes};
use std::alloc::Global;
use std::process::Abort;

/// A work over tiles of the letter c, or of none, that ends at each of its calls in turn, which has
/// acted; each image then has tiles of before and of b alone, in whole groups. Behind it tiles of a
/// are put on the same volume, without a crash, and no call fails. How many calls the work has.
fn killed_at_each(
    rt: &impl Abort,
    alloc: Global,
    start: &MemVolume,
    work: Work,
    count: u16,
) -> u64 {
    let new = tiles_of(rt, alloc, count, b'b');
    let other = tiles_of(rt, alloc, count, b'a');
    // Of many images one such part of each write has to do.
    let is_many = count > 64 || work == Work::Recover;
    for number in 0..MOST {
        for (lands, rest) in LANDS {
            if is_many && lands != 40 {
                continue;
            }
            let rough = Rough {
                number,
                lands,
                rest,
            };
            let mut vol = rough_copy(rt, alloc, start, &[rough]);
            if perform(alloc, &mut vol, work, &new).is_ok() {
                images_hold(rt, alloc, "at the end", &vol, count, b"cb.");
                return number;
            }
            images_hold(rt, alloc, "behind a kill", &vol, count, b"cb.");
            let again = perform(alloc, &mut vol, Work::Put, &other);
            same(rt, "a put behind it", again.is_ok(), true);
            images_hold(rt, alloc, "behind that put", &vol, count, b"a");
        }
    }
    MOST
}

/// The same of two works that end so, one behind the other on the same volume.
fn killed_twice(rt: &impl Abort, alloc: Global, start: &MemVolume, count: u16) -> u64 {
    let new = tiles_of(rt, alloc, count, b'b');
    let other = tiles_of(rt, alloc, count, b'a');
    let mut pairs = 0u64;
    for number in 0..MOST {
        for behind in number + 1..number + MOST {
            let first = Rough {
                number,
                lands: 40,
                rest: 255,
            };
            let second = Rough {
                number: behind,
                lands: 1,
                rest: 0,
            };
            let mut vol = rough_copy(rt, alloc, start, &[first, second]);
            if perform(alloc, &mut vol, Work::Put, &new).is_ok() {
                return pairs;
            }
            let again = perform(alloc, &mut vol, Work::Put, &other);
            images_hold(rt, alloc, "behind two kills", &vol, count, b"cba.");
            if again.is_ok() {
                break;
            }
            pairs = pairs.saturating_add(1);
            recover_holds(rt, alloc, &mut vol, count);
        }
    }
    pairs
}

/// A third run recovers on the same volume, and what is read then is what each image is.
fn recover_holds(rt: &impl Abort, alloc: Global, vol: &mut RoughVolume, count: u16) {
    let none: [TileRec; 0] = [];
    let third = perform(alloc, vol, Work::Recover, &none);
    same(rt, "a recovery behind them", third.is_ok(), true);
    let now = read_now(rt, alloc, vol, count);
    for pick in PICKS {
        let mut image = vol.crash(alloc, vol.moment(), pick).expect(rt, "memory");
        same(
            rt,
            "at rest",
            letters_of(rt, alloc, &mut image, count) == now,
            true,
        );
    }
}

#[test]
fn puts_of_three_tiles_go_on_behind_kills(rt: HostRuntime) {
    let alloc = rt.alloc();
    let start = begun(&rt, alloc, &tiles_of(&rt, alloc, 3, b'c'));
    let calls = killed_at_each(&rt, alloc, &start, Work::Put, 3);
    same(&rt, "it has calls, and few", calls > 10 && calls < 60, true);
    let pairs = killed_twice(&rt, alloc, &start, 3);
    same(&rt, "there are pairs", pairs > 100, true);
}

#[test]
fn puts_of_65_tiles_go_on_behind_kills(rt: HostRuntime) {
    let alloc = rt.alloc();
    let start = begun(&rt, alloc, &tiles_of(&rt, alloc, 65, b'c'));
    let calls = killed_at_each(&rt, alloc, &start, Work::Put, 65);
    same(&rt, "it has calls", calls > 80 && calls < MOST, true);
}

#[test]
fn builds_go_on_behind_kills(rt: HostRuntime) {
    let alloc = rt.alloc();
    let start = empty(&rt, alloc);
    let calls = killed_at_each(&rt, alloc, &start, Work::Build, 3);
    same(&rt, "it has calls, and few", calls > 10 && calls < 60, true);
}

/// Tiles of c packed into an empty file, which ends at each of its calls in turn: each image of the
/// target has none of them or all, and the source has them. Then they are packed into it again,
/// unless they are there.
#[test]
fn packings_go_on_behind_kills(rt: HostRuntime) {
    let alloc = rt.alloc();
    let source = begun(&rt, alloc, &tiles_of(&rt, alloc, 3, b'c'));
    let target = empty(&rt, alloc);
    let mut calls = 0u64;
    for number in 0..MOST {
        let rough = Rough {
            number,
            lands: 40,
            rest: 255,
        };
        let mut from = [rough_copy(&rt, alloc, &source, &[])];
        let mut to = rough_copy(&rt, alloc, &target, &[rough]);
        if pack(alloc, &mut from, &mut to).is_ok() {
            break;
        }
        images_hold(&rt, alloc, "the target", &to, 3, b"c.");
        images_hold(&rt, alloc, "the source", &from[0], 3, b"c");
        let is_there = read_now(&rt, alloc, &to, 3).first() == Some(&b'c');
        let again = pack(alloc, &mut from, &mut to);
        same(&rt, "again", again.is_ok(), !is_there);
        images_hold(&rt, alloc, "behind that", &to, 3, b"c");
        calls = calls.saturating_add(1);
    }
    same(&rt, "it has calls, and few", calls > 10 && calls < 60, true);
}

/// An image of a put of b over c whose journal is open, made whole at each call in turn.
#[test]
fn recoveries_go_on_behind_kills(rt: HostRuntime) {
    let alloc = rt.alloc();
    let start = begun(&rt, alloc, &tiles_of(&rt, alloc, 3, b'c'));
    let new = tiles_of(&rt, alloc, 3, b'b');
    let mut recovered = 0u64;
    for number in 0..MOST {
        let rough = Rough {
            number,
            lands: 40,
            rest: 255,
        };
        let mut vol = rough_copy(&rt, alloc, &start, &[rough]);
        if perform(alloc, &mut vol, Work::Put, &new).is_ok() {
            break;
        }
        for pick in PICKS {
            let image = vol.crash(alloc, vol.moment(), pick).expect(&rt, "memory");
            let calls = killed_at_each(&rt, alloc, &image, Work::Recover, 3);
            recovered = recovered.saturating_add(calls);
        }
    }
    same(&rt, "recoveries have calls", recovered > 100, true);
}

/// So many calls since a file's last sync have each landed or not. A put of three tiles writes no
/// file more often between two syncs of it: the header and three entries.
const STEPS: u64 = 5;

/// Each write of the last few calls before a kill has landed or not, whatever the others have, in
/// each file, beside the other one as it was read or as it was synced.
#[test]
fn images_of_any_landed_steps_have_whole_groups(rt: HostRuntime) {
    let alloc = rt.alloc();
    let start = begun(&rt, alloc, &tiles_of(&rt, alloc, 3, b'c'));
    let new = tiles_of(&rt, alloc, 3, b'b');
    for number in 0..MOST {
        let rough = Rough {
            number,
            lands: 40,
            rest: 255,
        };
        let mut vol = rough_copy(&rt, alloc, &start, &[rough]);
        if perform(alloc, &mut vol, Work::Put, &new).is_ok() {
            break;
        }
        for file in [VolFile::Bundle, VolFile::Journal] {
            landed_hold(&rt, alloc, &vol, file);
        }
    }
}

/// What the images hold of which the steps on this file since its last sync have landed or not.
fn landed_hold(rt: &impl Abort, alloc: Global, vol: &RoughVolume, file: VolFile) {
    let since = last_sync(rt, alloc, vol, file);
    let count = (vol.moment() - since.min(vol.moment())).min(STEPS);
    for steps in 0..1u64 << count {
        for fill in [None, Some(0), Some(255)] {
            let bytes = landed_bytes(alloc, vol, file, Landed { since, steps, fill }).expect(
                rt, "memory",
            );
            let mut image = with_bytes(rt, alloc, vol, file, &bytes);
            let letters = letters_of(rt, alloc, &mut image, 3);
            same(rt, "landed", are_whole_groups(&letters), true);
        }
    }
}

/// The last moment at which nothing was pending on the file, by its images.
fn last_sync(rt: &impl Abort, alloc: Global, vol: &RoughVolume, file: VolFile) -> u64 {
    let mut last = 0;
    for moment in 0..vol.moment() {
        let old = bytes_by(rt, alloc, vol, file, moment, Pick::Oldest);
        let new = bytes_by(rt, alloc, vol, file, moment, Pick::Newest);
        let torn = bytes_by(rt, alloc, vol, file, moment, Pick::Torn(255));
        if old == new && torn == new {
            last = moment;
        }
    }
    last
}

/// The bytes of a file in one image.
fn bytes_by(
    rt: &impl Abort,
    alloc: Global,
    vol: &RoughVolume,
    file: VolFile,
    moment: u64,
    pick: Pick,
) -> Vec<u8> {
    let mut image = vol
        .crash(alloc, moment.min(vol.moment()), pick)
        .expect(rt, "memory");
    bytes_of(rt, alloc, &mut image, file)
}

/// The bytes of a file.
fn bytes_of(rt: &impl Abort, alloc: Global, vol: &mut MemVolume, file: VolFile) -> Vec<u8> {
    let len = vol.len(file).expect(rt, "a length") as usize;
    let mut bytes = vec![in alloc; 0u8; len].expect(rt, "memory");
    vol.read(file, 0, bytes.as_mut_slice()).expect(rt, "a read");
    bytes
}

/// An image with these bytes of one file, and of the other one what was synced last.
fn with_bytes(
    rt: &impl Abort,
    alloc: Global,
    vol: &RoughVolume,
    file: VolFile,
    bytes: &[u8],
) -> MemVolume {
    let mut image = vol
        .crash(alloc, vol.moment(), Pick::Oldest)
        .expect(rt, "memory");
    if bytes.len() > 1 << 40 {
        return image;
    }
    image.cut(file, 0).expect(rt, "a cut");
    image.write(file, 0, bytes).expect(rt, "a write");
    image.sync(file).expect(rt, "a sync");
    image
}
