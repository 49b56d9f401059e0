//! A tile put at its place, and the tile of a place.

ghost use Rattle.std.specs.Prelude.{◌≡◌, ◌⊎◌, ◌≤◌, ◌<◌, ℕ, None, Some, Ok, Err, IsTrue, IfOk, IfErr, OnOk, length};
ghost use Rattle.outside_io.specs.streams.Faults.{IsCause};
ghost use Rattle.bundle_index.specs.Sizes.{slot_count};
ghost use Rattle.bundle_store.specs.Causes.{CountsDevice};
ghost use Rattle.level_cache.specs.Places.{base_of, slot_of};
ghost use Rattle.level_cache.specs.Calls.{DeviceRose, GetRefusal, GetsFrom, Lends, LevelMoves, OnStore, PutRefusal, PutsIn};

use crate::{Place, Shelf};
use bundle_index::Slot;
use bundle_store::{Session, StoreFault, recover};
use outside_io::{Bytes, Volume};
use std::alloc::Global;

/// Why a call on a level refuses.
#[derive(Clone, Copy, Debug, PartialEq, Eq)]
pub enum LevelFault {
    /// The shelf failed.
    Shelf,
    /// The store refuses.
    Store(StoreFault),
}

/// Puts a tile into the bundle of one volume.
fn put_in<V: Volume>(alloc: Global, vol: &mut V, slot: Slot, tile: &[u8]) -> Result<(), StoreFault>
    requires slot { slot < slot_count }
    ensures puts { IsTrue (V.told vol.old) → PutsIn result slot tile.now
        (V.history vol.old) (V.history vol.new) }
    ensures answers { IfErr result (λ fault. PutRefusal (length tile.now) fault) }
    ensures fits { OnOk result ((0 < length tile.now) × (length tile.now ≤ 16777215)) }
    ensures told { V.told vol.new ≡ V.told vol.old }
    ensures counted { CountsDevice result (V.faults vol.old) (V.faults vol.new) }
{
    let _found = match recover(vol) {
        Ok(found) => found,
        Err(fault) => return Err(fault),
    };
    let mut session = match Session::open(alloc, vol) {
        Ok(session) => session,
        Err(fault) => return Err(fault),
    };
    session.put_blob(vol, slot, tile)
}

/// Puts the tile at its place: takes the volume of the place's bundle from the shelf, makes whole
/// what a crash left of it, opens the bundle, puts, and gives the volume back, also behind a
/// refusal. Shelf stands before every other refusal; then BadJournal, BadBundle, OutOfMemory,
/// EmptyTile, TileTooLarge, Full, and Device wherever the volume fails.
pub fn level_put<H: Shelf>(
    alloc: Global,
    shelf: &mut H,
    place: Place,
    tile: &[u8],
) -> Result<(), LevelFault>
    requires none_out { H.out shelf.old ≡ None }
    ensures none_out { H.out shelf.new ≡ None }
    ensures moved { IsTrue (H.told shelf.old) → LevelMoves result (base_of place)
        (H.volumes shelf.old) (H.volumes shelf.new) (Lends H.Vol.told H.Vol.history H.Vol.faults
        (λ r old new. PutsIn r (slot_of place) tile.now old new)) }
    ensures answers { IfErr result (λ fault. OnStore (PutRefusal (length tile.now)) fault) }
    ensures fits { OnOk result ((0 < length tile.now) × (length tile.now ≤ 16777215)) }
    ensures shelf_failed { IsCause (result ≡ Err LevelFault.Shelf) (H.faults shelf.old)
        (H.faults shelf.new) }
    ensures volume_failed { DeviceRose result (H.volume_faults shelf.old)
        (H.volume_faults shelf.new) }
    ensures told { H.told shelf.new ≡ H.told shelf.old }
{
    let base = place.base();
    let mut vol = match shelf.take(base) {
        Ok(vol) => vol,
        Err(_) => return Err(LevelFault::Shelf),
    };
    let put = put_in(alloc, &mut vol, place.slot(), tile);
    match shelf.give(base, vol) {
        Ok(()) => {}
        Err(_) => return Err(LevelFault::Shelf),
    }
    match put {
        Ok(()) => Ok(()),
        Err(fault) => Err(LevelFault::Store(fault)),
    }
}

/// Gets a tile from the bundle of one volume.
fn get_from<V: Volume>(alloc: Global, vol: &mut V, slot: Slot) -> Result<Bytes, StoreFault>
    requires slot { slot < slot_count }
    ensures gets { IsTrue (V.told vol.old) → GetsFrom result slot (V.history vol.old)
        (V.history vol.new) }
    ensures answers { IfErr result (λ fault. GetRefusal fault) }
    ensures fits { IfOk result (λ tile. (0 < length tile) × (length tile < 16777216)) }
    ensures told { V.told vol.new ≡ V.told vol.old }
    ensures counted { CountsDevice result (V.faults vol.old) (V.faults vol.new) }
{
    let _found = match recover(vol) {
        Ok(found) => found,
        Err(fault) => return Err(fault),
    };
    let session = match Session::open(alloc, vol) {
        Ok(session) => session,
        Err(fault) => return Err(fault),
    };
    session.get(vol, slot)
}

/// The tile at its place, by the same steps as a put. Shelf stands before every other refusal; then
/// BadJournal, BadBundle, NoTile, OutOfMemory, Beyond, and Device wherever the volume fails.
pub fn level_get<H: Shelf>(alloc: Global, shelf: &mut H, place: Place) -> Result<Bytes, LevelFault>
    requires none_out { H.out shelf.old ≡ None }
    ensures none_out { H.out shelf.new ≡ None }
    ensures moved { IsTrue (H.told shelf.old) → LevelMoves result (base_of place)
        (H.volumes shelf.old) (H.volumes shelf.new) (Lends H.Vol.told H.Vol.history H.Vol.faults
        (λ r old new. GetsFrom r (slot_of place) old new)) }
    ensures answers { IfErr result (λ fault. OnStore GetRefusal fault) }
    ensures fits { IfOk result (λ tile. (0 < length tile) × (length tile < 16777216)) }
    ensures shelf_failed { IsCause (result ≡ Err LevelFault.Shelf) (H.faults shelf.old)
        (H.faults shelf.new) }
    ensures volume_failed { DeviceRose result (H.volume_faults shelf.old)
        (H.volume_faults shelf.new) }
    ensures told { H.told shelf.new ≡ H.told shelf.old }
{
    let base = place.base();
    let mut vol = match shelf.take(base) {
        Ok(vol) => vol,
        Err(_) => return Err(LevelFault::Shelf),
    };
    let got = get_from(alloc, &mut vol, place.slot());
    match shelf.give(base, vol) {
        Ok(()) => {}
        Err(_) => return Err(LevelFault::Shelf),
    }
    match got {
        Ok(tile) => Ok(tile),
        Err(fault) => Err(LevelFault::Store(fault)),
    }
}
