//! Reading the tiles that count.

ghost use Rattle.std.specs.Prelude.{◌≡◌, ◌≤◌, ◌<◌, IsTrue, IfErr, IfOk, IfSome, OnOk, OnErr, All, false, length};
ghost use Rattle.outside_io.specs.declared.volume.VolFile.TheVariants.{Bundle};
ghost use Rattle.outside_io.specs.volume.History.{contents};
ghost use Rattle.bundle_index.specs.Sizes.{slot_count};
ghost use Rattle.bundle_store.specs.Ahead.{IsAheadOf};
ghost use Rattle.bundle_store.specs.Build.{EachFits};
ghost use Rattle.bundle_store.specs.Session.{Serves};
ghost use Rattle.bundle_pack.specs.Files.{all_bundles};
ghost use Rattle.bundle_pack.specs.Sources.{DeviceAt, Each, IsServing};
ghost use Rattle.bundle_pack.specs.inside.Collecting.{AreAhead, GetSays, IsGetFault, IsStill, ReadFails, TakesTile, TileSays, TilesSay};

use crate::PackFault;
use crate::aheads::aheads_of;
use crate::chosen::choice_at;
use crate::fault::tile_fault;
use bundle_index::{SLOT_COUNT, Slot};
use bundle_store::{Ahead, Session, StoreFault, TileRec};
use outside_io::{Bytes, Volume};
use std::alloc::Global;

/// Reads the tile of one slot of the source of this number, if it has one.
fn get_tile<V: Volume>(
    session: &Session,
    vol: &mut V,
    ahead: &mut Ahead,
    at: usize,
    slot: Slot,
) -> Result<Option<Bytes>, PackFault>
    requires running { session.now.stopped ≡ false }
    requires serves { IsTrue (V.told vol.old) → Serves session.now (contents Bundle
        (V.history vol.old)) }
    requires ahead { IsTrue (V.told vol.old) → IsAheadOf (contents Bundle (V.history vol.old))
        ahead.old }
    ensures ahead { IsTrue (V.told vol.old) → IsAheadOf (contents Bundle (V.history vol.old))
        ahead.new }
    ensures still { IsStill V.told V.history V.faults (DeviceAt result at) vol.old vol.new }
    ensures fits { IfOk result (λ o. IfSome o (λ tile. (0 < length tile)
        × (length tile < 16777216))) }
    ensures says { IsTrue (V.told vol.old) → GetSays (contents Bundle (V.history vol.old)) slot
        result }
    ensures answers { IfErr result (λ f. IsGetFault at slot f) }
{
    match session.get_ahead(vol, slot, ahead) {
        Ok(bytes) => Ok(Some(bytes)),
        Err(StoreFault::NoTile) => Ok(None),
        Err(fault) => Err(tile_fault(at, slot, fault)),
    }
}

/// Reads the tile of the slot of this number, where a source has one.
fn take_tile<V: Volume>(
    sessions: &[Session],
    from: &mut [V],
    aheads: &mut [Ahead],
    number: u16,
    tiles: &mut Vec<TileRec>,
) -> Result<(), PackFault>
    requires number { number < slot_count }
    requires serving { IsServing V.told V.history sessions.now from.old }
    requires aheads { AreAhead V.told V.history from.old aheads.old }
    requires fits { EachFits tiles.old.items }
    ensures aheads { AreAhead V.told V.history from.new aheads.new }
    ensures still { Each (λ i v w.
        IsStill V.told V.history V.faults (DeviceAt result i) v w) from.old from.new }
    ensures fits { EachFits tiles.new.items }
    ensures takes { All (λ v. IsTrue (V.told v)) from.old → OnOk result (TakesTile
        (all_bundles V.history from.old) number tiles.old.items tiles.new.items) }
    ensures says { All (λ v. IsTrue (V.told v)) from.old → IfErr result (λ f. TileSays
        (all_bundles V.history from.old) number f) }
    ensures answers { IfErr result (λ f. ReadFails (length from.old) f) }
{
    let Some(slot) = Slot::of_number(number) else {
        return Ok(());
    };
    let Some(choice) = choice_at(sessions, slot) else {
        return Ok(());
    };
    let at = choice.at;
    match get_tile(&sessions[at], &mut from[at], &mut aheads[at], at, slot) {
        Ok(Some(bytes)) => match tiles.push(TileRec { slot, bytes }) {
            Ok(()) => Ok(()),
            Err(_) => Err(PackFault::OutOfMemory),
        },
        Ok(None) => Ok(()),
        Err(fault) => Err(fault),
    }
}

/// Reads the tile of each slot for which a source has one.
pub(crate) fn collect_tiles<V: Volume>(
    alloc: Global,
    sessions: &[Session],
    from: &mut [V],
) -> Result<Vec<TileRec>, PackFault>
    requires serving { IsServing V.told V.history sessions.now from.old }
    ensures still { Each (λ i v w.
        IsStill V.told V.history V.faults (DeviceAt result i) v w) from.old from.new }
    ensures fits { IfOk result (λ tiles. EachFits tiles.items) }
    ensures says { All (λ v. IsTrue (V.told v)) from.old → TilesSay
        (all_bundles V.history from.old) result }
    ensures answers { IfErr result (λ f. ReadFails (length from.old) f) }
{
    let Ok(mut aheads) = aheads_of(alloc, sessions) else {
        return Err(PackFault::OutOfMemory);
    };
    let mut tiles = Vec::new(alloc);
    for number in 0..SLOT_COUNT {
        match take_tile(sessions, from, aheads.as_mut_slice(), number, &mut tiles) {
            Ok(()) => {}
            Err(fault) => return Err(fault),
        }
    }
    Ok(tiles)
}
