//! Works on a bundle, what begins them, and what they leave.

ghost use Rattle.std.specs.Prelude.{◌≡◌, ◌≤◌, false, length, IfOk, IsTrue};
ghost use Rattle.outside_io.specs.volume.History.{current};
ghost use Rattle.bundle_store.specs.Session.{IsReadyToPut};

use bundle_index::Slot;
use bundle_store::{Session, StoreFault, TileRec, recover};
use outside_io::{Bytes, MemVolume, Pick, Start, Volume};
use rough_volume::{Rough, RoughVolume};
use std::alloc::Global;
use std::process::Abort;

/// How many calls a volume answers, and how many bytes can be written to it.
const CALLS: usize = 1000;

const ROOM: usize = 2_000_000;

/// The longest write of a work: an index.
const LONGEST: usize = 131_136;

/// The four images of a moment.
pub(crate) const PICKS: [Pick; 4] = [Pick::Oldest, Pick::Newest, Pick::Torn(0), Pick::Torn(255)];

/// What is done to a bundle with some tiles.
#[derive(Clone, Copy, PartialEq, Eq)]
pub(crate) enum Work {
    /// They are put, in groups of 64.
    Put,
    /// It is built of them.
    Build,
    /// It is recovered alone.
    Recover,
}

/// One tile for each of the first slots, each of three of these letters.
pub(crate) fn tiles_of(rt: &impl Abort, alloc: Global, count: u16, letter: u8) -> Vec<TileRec> {
    let mut tiles = Vec::new(alloc);
    for number in 0..count {
        let slot = Slot::of_number(number).expect(rt, "a slot");
        let bytes = Bytes::of(alloc, &[letter; 3]).expect(rt, "memory");
        tiles.push(TileRec { slot, bytes }).expect(rt, "memory");
    }
    tiles
}

/// A volume of no bytes.
pub(crate) fn empty(rt: &impl Abort, alloc: Global) -> MemVolume {
    let bundle = Start::new(0, Vec::new(alloc));
    let journal = Start::new(0, Vec::new(alloc));
    MemVolume::new(alloc, bundle, journal, Vec::new(alloc), None, CALLS, ROOM).expect(rt, "memory")
}

/// A volume that reads as this one, with nothing pending, of which these calls are rough.
pub(crate) fn rough_copy(
    rt: &impl Abort,
    alloc: Global,
    vol: &MemVolume,
    calls: &[Rough],
) -> RoughVolume {
    let inner = vol
        .crash(alloc, vol.moment(), Pick::Newest)
        .expect(rt, "memory");
    let rough = Vec::from_slice(alloc, calls).expect(rt, "memory");
    let room = vec![in alloc; 0u8; LONGEST].expect(rt, "memory");
    RoughVolume::new(inner, rough, room)
}

/// A session on the volume, once it is recovered.
fn recovered<V: Volume>(alloc: Global, vol: &mut V) -> Result<Session, StoreFault>
    ensures running { IfOk result (λ s. s.stopped ≡ false) }
    ensures ready { IsTrue (V.told vol.new) →
        IfOk result (λ s. IsReadyToPut s (current (V.history vol.new))) }
{
    recover(vol)?;
    Session::open(alloc, vol)
}

/// Puts tiles, of which there are some and 64 at most.
fn put_some<V: Volume>(alloc: Global, vol: &mut V, tiles: &[TileRec]) -> Result<(), StoreFault> {
    if tiles.is_empty() || tiles.len() > 64 {
        return Ok(());
    }
    let mut session = recovered(alloc, vol)?;
    session.put_group(vol, tiles)
}

/// Does a work with these tiles.
pub(crate) fn perform<V: Volume>(
    alloc: Global,
    vol: &mut V,
    work: Work,
    tiles: &[TileRec],
) -> Result<(), StoreFault> {
    match work {
        Work::Put => {
            for group in tiles.chunks(64) {
                put_some(alloc, vol, group)?;
            }
            Ok(())
        }
        Work::Build => {
            let mut session = recovered(alloc, vol)?;
            session.build(vol, tiles)
        }
        Work::Recover => {
            recover(vol)?;
            Ok(())
        }
    }
}

/// The letter that a tile is known by: its first, or of a blob one of its checksum.
fn letter_of(tile: &[u8]) -> u8 {
    match tile.get(11) {
        Some(letter) => *letter,
        None => tile.first().copied().unwrap_or(b'!'),
    }
}

/// The letter of the tile of each of the first slots, or a dot where there is none, once the volume
/// is recovered.
pub(crate) fn letters_of(
    rt: &impl Abort,
    alloc: Global,
    vol: &mut MemVolume,
    count: u16,
) -> Vec<u8> {
    let session = recovered(alloc, vol).expect(rt, "a recovery");
    let mut letters = Vec::new(alloc);
    for number in 0..count {
        let slot = Slot::of_number(number).expect(rt, "a slot");
        let letter = match session.get(vol, slot) {
            Ok(tile) => letter_of(tile.as_slice()),
            Err(StoreFault::NoTile) => b'.',
            Err(_) => b'!',
        };
        letters.push(letter).expect(rt, "memory");
    }
    letters
}

/// Whether groups of up to 64 have each one letter, and no group an earlier letter than the one
/// before it: what is put later has an earlier letter, and its groups are put in their order.
pub(crate) fn are_whole_groups(letters: &[u8]) -> bool {
    let mut before = 0;
    for group in letters.chunks(64) {
        for letter in group {
            if group.first() != Some(letter) {
                return false;
            }
        }
        let first = group.first().copied().unwrap_or(0);
        if first < before {
            return false;
        }
        before = first;
    }
    true
}
