//! Puts and gets of a level that end at a call which has acted, and others behind them.

ghost use Rattle.std.specs.Prelude.{◌≡◌, None};

use crate::images::{LANDS, MOST, begun};
use crate::same::same;
use crate::works::{PICKS, Work, letters_of, perform, rough_copy, tiles_of};
use bundle_store::StoreFault;
use level_cache::{Base, LevelFault, Place, level_get, level_put};
use outside_io::{MemVolume, Volume};
use rough_volume::{Rough, RoughShelf};
use std::alloc::Global;
use std::process::Abort;

/// The first rows of the level's two bundles.
const UPPER: u32 = 0;

const LOWER: u32 = 128;

/// The place of a column of the lower bundle's first row.
fn place_at(rt: &impl Abort, col: u32) -> Place {
    Place::of(LOWER, col).expect(rt, "a place")
}

/// The base of a bundle.
fn base_of(rt: &impl Abort, row: u32) -> Base {
    Place::of(row, 0).expect(rt, "a place").base()
}

/// A level of which both bundles have the tiles of this volume. These calls of the lower one are
/// rough.
fn level_over(rt: &impl Abort, alloc: Global, start: &MemVolume, calls: &[Rough]) -> RoughShelf
    ensures { result.out ≡ None }
{
    let mut shelf = RoughShelf::new(alloc);
    let upper = rough_copy(rt, alloc, start, &[]);
    shelf.lay(base_of(rt, UPPER), upper).expect(rt, "memory");
    let lower = rough_copy(rt, alloc, start, calls);
    shelf.lay(base_of(rt, LOWER), lower).expect(rt, "memory");
    shelf
}

/// The letters of the lower bundle's first three tiles are, in each image of now, once it is
/// recovered, one of these lists; and the upper bundle was not called.
fn images_are(rt: &impl Abort, alloc: Global, at: &str, shelf: &RoughShelf, few: &[[u8; 3]]) {
    let upper = shelf.volume(base_of(rt, UPPER)).expect(rt, "a volume");
    same(rt, at, upper.moment(), 0);
    let lower = shelf.volume(base_of(rt, LOWER)).expect(rt, "a volume");
    for pick in PICKS {
        let mut image = lower
            .crash(alloc, lower.moment(), pick)
            .expect(rt, "memory");
        let letters = letters_of(rt, alloc, &mut image, 3);
        same(rt, at, is_one_of(&letters, few), true);
    }
}

/// Whether the letters are one of these lists.
fn is_one_of(letters: &[u8], few: &[[u8; 3]]) -> bool {
    for list in few {
        if letters == list.as_slice() {
            return true;
        }
    }
    false
}

/// Puts a tile of this letter at a column.
fn put(
    rt: &impl Abort,
    alloc: Global,
    shelf: &mut RoughShelf,
    col: u32,
    letter: u8,
) -> Result<(), LevelFault>
    requires { shelf.old.out ≡ None }
    ensures { shelf.new.out ≡ None }
{
    level_put(alloc, shelf, place_at(rt, col), &[letter; 3])
}

/// The first letter of the tile at a column.
fn get(rt: &impl Abort, alloc: Global, shelf: &mut RoughShelf, col: u32) -> Result<u8, LevelFault>
    requires { shelf.old.out ≡ None }
    ensures { shelf.new.out ≡ None }
{
    let tile = level_get(alloc, shelf, place_at(rt, col))?;
    Ok(*tile.as_slice().first().expect(rt, "a byte"))
}

/// A volume's call has failed, and nothing else.
fn is_device<T>(answer: &Result<T, LevelFault>) -> bool {
    matches!(answer, Err(LevelFault::Store(StoreFault::Device)))
}

/// Gets of the three tiles go well, and what they give is what each image then has.
fn gets_hold(rt: &impl Abort, alloc: Global, shelf: &mut RoughShelf)
    requires { shelf.old.out ≡ None }
    ensures { shelf.new.out ≡ None }
{
    let first = get(rt, alloc, shelf, 0).expect(rt, "the first tile");
    let second = get(rt, alloc, shelf, 1).expect(rt, "the second tile");
    let third = get(rt, alloc, shelf, 2).expect(rt, "the third tile");
    images_are(rt, alloc, "at rest", shelf, &[[first, second, third]]);
}

/// A put of b over the second of three tiles of c that ends at each of its calls in turn, and one
/// of a over the third behind it, which goes well. How many calls the put has.
fn killed_at_each(rt: &impl Abort, alloc: Global, start: &MemVolume) -> u64 {
    for number in 0..MOST {
        for (lands, rest) in LANDS {
            let rough = Rough {
                number,
                lands,
                rest,
            };
            let mut shelf = level_over(rt, alloc, start, &[rough]);
            let ended = put(rt, alloc, &mut shelf, 1, b'b');
            if ended.is_ok() {
                images_are(rt, alloc, "at the end", &shelf, &[*b"cbc"]);
                return number;
            }
            same(rt, "the device failed", is_device(&ended), true);
            images_are(rt, alloc, "behind a kill", &shelf, &[*b"ccc", *b"cbc"]);
            let again = put(rt, alloc, &mut shelf, 2, b'a');
            same(rt, "a put behind it", again.is_ok(), true);
            images_are(rt, alloc, "behind that put", &shelf, &[*b"cca", *b"cba"]);
        }
    }
    MOST
}

/// The same of two puts that end so, one behind the other, and gets behind both. How many pairs of
/// calls there are.
fn killed_twice(rt: &impl Abort, alloc: Global, start: &MemVolume) -> u64 {
    let few = [*b"ccc", *b"cbc", *b"cca", *b"cba"];
    let mut pairs = 0u64;
    for number in 0..MOST {
        for behind in number + 1..number + MOST {
            let first = Rough {
                number,
                lands: 40,
                rest: 255,
            };
            let second = Rough {
                number: behind,
                lands: 1,
                rest: 0,
            };
            let mut shelf = level_over(rt, alloc, start, &[first, second]);
            if put(rt, alloc, &mut shelf, 1, b'b').is_ok() {
                return pairs;
            }
            let again = put(rt, alloc, &mut shelf, 2, b'a');
            images_are(rt, alloc, "behind two kills", &shelf, &few);
            if again.is_ok() {
                break;
            }
            pairs = pairs.saturating_add(1);
            gets_hold(rt, alloc, &mut shelf);
        }
    }
    pairs
}

#[test]
fn level_puts_go_on_behind_kills(rt: HostRuntime) {
    let alloc = rt.alloc();
    let start = begun(&rt, alloc, &tiles_of(&rt, alloc, 3, b'c'));
    let calls = killed_at_each(&rt, alloc, &start);
    same(&rt, "it has calls, and few", calls > 10 && calls < 60, true);
    let pairs = killed_twice(&rt, alloc, &start);
    same(&rt, "there are pairs", pairs > 100, true);
}

/// A get of the second tile that ends at each of its calls in turn, and gets behind it. How many
/// calls it has.
fn got_at_each(rt: &impl Abort, alloc: Global, image: &MemVolume) -> u64 {
    for number in 0..MOST {
        let rough = Rough {
            number,
            lands: 40,
            rest: 255,
        };
        let mut shelf = level_over(rt, alloc, image, &[rough]);
        let got = get(rt, alloc, &mut shelf, 1);
        images_are(rt, alloc, "behind a get", &shelf, &[*b"ccc", *b"bbb"]);
        if got.is_ok() {
            return number;
        }
        same(rt, "the device failed", is_device(&got), true);
        gets_hold(rt, alloc, &mut shelf);
    }
    MOST
}

/// An image of a put of b over c whose journal may be open, of which a tile is got.
#[test]
fn level_gets_go_on_behind_kills(rt: HostRuntime) {
    let alloc = rt.alloc();
    let start = begun(&rt, alloc, &tiles_of(&rt, alloc, 3, b'c'));
    let new = tiles_of(&rt, alloc, 3, b'b');
    let mut calls = 0u64;
    for number in 0..MOST {
        let rough = Rough {
            number,
            lands: 40,
            rest: 255,
        };
        let mut vol = rough_copy(&rt, alloc, &start, &[rough]);
        if perform(alloc, &mut vol, Work::Put, &new).is_ok() {
            break;
        }
        for pick in PICKS {
            let image = vol.crash(alloc, vol.moment(), pick).expect(&rt, "memory");
            calls = calls.saturating_add(got_at_each(&rt, alloc, &image));
        }
    }
    same(&rt, "gets have calls", calls > 200, true);
}
