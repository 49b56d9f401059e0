//! Overviews that end at a call of either bundle which has acted, and others behind them.

use crate::images::{LANDS, MOST, begun, images_hold, read_now};
use crate::same::same;
use crate::works::{Work, perform, rough_copy, tiles_of};
use bundle_index::Slot;
use bundle_store::TileRec;
use outside_io::{Bytes, MemSink, MemVolume, Pick, Volume, Word};
use overview_cli::run_overview;
use rough_volume::{Rough, RoughVolume};
use std::alloc::Global;
use std::process::Abort;
use std::thread::Threads;
use tile_workers::Open;

/// The blob of one unsigned byte, 7, as an independent reading of the format makes it; and of 8.
/// By their checksums their letters are f and n.
const SEVEN: [u8; 66] =
    *b"\x4c\x65\x72\x63\x32\x20\x03\x00\x00\x00\xc0\x66\x45\x59\x01\x00\x00\x00\x01\x00\x00\x00\
    \x01\x00\x00\x00\x08\x00\x00\x00\x42\x00\x00\x00\x01\x00\x00\x00\x00\x00\x00\x00\x00\x00\
    \xe0\x3f\x00\x00\x00\x00\x00\x00\x1c\x40\x00\x00\x00\x00\x00\x00\x1c\x40\x00\x00\x00\x00";

const EIGHT: [u8; 66] =
    *b"\x4c\x65\x72\x63\x32\x20\x03\x00\x00\x00\xc0\x6e\x45\x81\x01\x00\x00\x00\x01\x00\x00\x00\
    \x01\x00\x00\x00\x08\x00\x00\x00\x42\x00\x00\x00\x01\x00\x00\x00\x00\x00\x00\x00\x00\x00\
    \xe0\x3f\x00\x00\x00\x00\x00\x00\x20\x40\x00\x00\x00\x00\x00\x00\x20\x40\x00\x00\x00\x00";

/// How many tiles a bundle has of which an overview is made; and its overview, of two each.
const FINE: u16 = 6;

const COARSE: u16 = 3;

/// This blob in each of the first slots.
fn blobs_of(rt: &impl Abort, alloc: Global, blob: &[u8]) -> Vec<TileRec> {
    let mut tiles = Vec::new(alloc);
    for number in 0..FINE {
        let slot = Slot::of_number(number).expect(rt, "a slot");
        let bytes = Bytes::of(alloc, blob).expect(rt, "memory");
        tiles.push(TileRec { slot, bytes }).expect(rt, "memory");
    }
    tiles
}

/// An output of the program.
fn sink(rt: &impl Abort, alloc: Global) -> MemSink {
    let failing = Bytes::of(alloc, &[]).expect(rt, "memory");
    MemSink::new(alloc, 7, failing, 1000).expect(rt, "memory")
}

/// Puts the overview of the one bundle into the other. The status, and how many bytes of lines were
/// given.
fn overview<R: Abort + Threads + Sync>(
    rt: &R,
    alloc: Global,
    from: &mut RoughVolume,
    to: &mut RoughVolume,
) -> (u8, usize) {
    let mut words = Vec::new(alloc);
    for word in ["overview", "0", "3", "0", "1"] {
        let word = Word::of(alloc, word).expect(rt, "memory");
        words.push(word).expect(rt, "memory");
    }
    let mut out = sink(rt, alloc);
    let mut err = sink(rt, alloc);
    let report = run_overview(rt, alloc, &words, &mut out, &mut err, from, to, &Open);
    (report.status, out.held().len())
}

/// Bundles of which overviews are made, and one that they are put into.
#[derive(Drop)]
struct Bundles {
    sevens: MemVolume,
    eights: MemVolume,
    target: MemVolume,
}

/// Two bundles of blobs of 7 and of 8, and one of tiles of c.
fn three_bundles(rt: &impl Abort, alloc: Global) -> Bundles {
    Bundles {
        sevens: begun(rt, alloc, &blobs_of(rt, alloc, &SEVEN)),
        eights: begun(rt, alloc, &blobs_of(rt, alloc, &EIGHT)),
        target: begun(rt, alloc, &tiles_of(rt, alloc, COARSE, b'c')),
    }
}

/// An overview of the sevens that ends at each call of its target in turn, and one of the eights
/// behind it, which goes well. How many calls there are.
fn killed_at_each<R: Abort + Threads + Sync>(rt: &R, alloc: Global, bundles: &Bundles) -> u64 {
    for number in 0..MOST {
        for (lands, rest) in LANDS {
            let rough = Rough {
                number,
                lands,
                rest,
            };
            let mut from = rough_copy(rt, alloc, &bundles.sevens, &[]);
            let mut to = rough_copy(rt, alloc, &bundles.target, &[rough]);
            let (status, given) = overview(rt, alloc, &mut from, &mut to);
            if status == 0 {
                images_hold(rt, alloc, "at the end", &to, COARSE, b"f");
                return number;
            }
            same(rt, "the status and the lines", (status, given), (5, 0));
            images_hold(rt, alloc, "behind a kill", &to, COARSE, b"cf");
            images_hold(rt, alloc, "what is read", &from, FINE, b"f");
            let mut other = rough_copy(rt, alloc, &bundles.eights, &[]);
            let again = overview(rt, alloc, &mut other, &mut to);
            same(rt, "another one behind it", again.0, 0);
            images_hold(rt, alloc, "behind that one", &to, COARSE, b"n");
        }
    }
    MOST
}

/// The same of two overviews that end so, one behind the other, and a third. How many pairs of
/// calls there are.
fn killed_twice<R: Abort + Threads + Sync>(rt: &R, alloc: Global, bundles: &Bundles) -> u64 {
    let mut pairs = 0u64;
    for number in 0..MOST {
        for behind in number + 1..number + MOST {
            let first = Rough {
                number,
                lands: 40,
                rest: 255,
            };
            let second = Rough {
                number: behind,
                lands: 1,
                rest: 0,
            };
            let mut from = rough_copy(rt, alloc, &bundles.sevens, &[]);
            let mut other = rough_copy(rt, alloc, &bundles.eights, &[]);
            let mut to = rough_copy(rt, alloc, &bundles.target, &[first, second]);
            if overview(rt, alloc, &mut from, &mut to).0 == 0 {
                return pairs;
            }
            let again = overview(rt, alloc, &mut other, &mut to);
            images_hold(rt, alloc, "behind two kills", &to, COARSE, b"cfn");
            if again.0 == 0 {
                break;
            }
            pairs = pairs.saturating_add(1);
            same(rt, "a third", overview(rt, alloc, &mut from, &mut to).0, 0);
            images_hold(rt, alloc, "at rest", &to, COARSE, b"f");
        }
    }
    pairs
}

#[test]
fn overviews_go_on_behind_kills(rt: HostRuntime) {
    let alloc = rt.alloc();
    let bundles = three_bundles(&rt, alloc);
    let calls = killed_at_each(&rt, alloc, &bundles);
    same(&rt, "it has calls, and few", calls > 10 && calls < 60, true);
    let pairs = killed_twice(&rt, alloc, &bundles);
    same(&rt, "there are pairs", pairs > 100, true);
}

/// An overview of an image that ends at each call of it in turn: the target is as it was. Then one
/// on the same volumes goes well, and has the tiles that the image has then. How many calls there
/// are.
fn read_at_each<R: Abort + Threads + Sync>(
    rt: &R,
    alloc: Global,
    image: &MemVolume,
    target: &MemVolume,
) -> u64 {
    for number in 0..MOST {
        let rough = Rough {
            number,
            lands: 40,
            rest: 255,
        };
        let mut from = rough_copy(rt, alloc, image, &[rough]);
        let mut to = rough_copy(rt, alloc, target, &[]);
        let (status, _) = overview(rt, alloc, &mut from, &mut to);
        images_hold(rt, alloc, "what is read", &from, FINE, b"fn");
        if status == 0 {
            return number;
        }
        same(rt, "the status", status, 5);
        same(rt, "calls of the target", to.moment(), 0);
        let (again, _) = overview(rt, alloc, &mut from, &mut to);
        same(rt, "one behind it", again, 0);
        let now = read_now(rt, alloc, &from, FINE);
        images_hold(rt, alloc, "what was read", &from, FINE, &now);
        images_hold(rt, alloc, "its overview", &to, COARSE, &now);
    }
    MOST
}

/// An image of a put of eights over sevens whose journal may be open, of which an overview is made.
#[test]
fn overviews_are_read_behind_kills(rt: HostRuntime) {
    let alloc = rt.alloc();
    let bundles = three_bundles(&rt, alloc);
    let new = blobs_of(&rt, alloc, &EIGHT);
    let mut calls = 0u64;
    for number in 0..MOST {
        let rough = Rough {
            number,
            lands: 40,
            rest: 255,
        };
        let mut vol = rough_copy(&rt, alloc, &bundles.sevens, &[rough]);
        if perform(alloc, &mut vol, Work::Put, &new).is_ok() {
            break;
        }
        let image = vol
            .crash(alloc, vol.moment(), Pick::Newest)
            .expect(&rt, "memory");
        calls = calls.saturating_add(read_at_each(&rt, alloc, &image, &bundles.target));
    }
    same(&rt, "overviews have calls", calls > 150, true);
}
