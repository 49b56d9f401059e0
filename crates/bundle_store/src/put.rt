//! Tiles put at once: their entries, the body of their journal, and the put.

ghost use Rattle.std.specs.Prelude.{◌≡◌, ◌+◌, ◌^◌, ◌<◌, ◌≤◌, ◌∷◌, ◌++◌, ℕ, List, [], length, IsTrue, IsErrOf, IfErr, OnOk};
ghost use Rattle.outside_io.specs.declared.volume.VolFile.TheVariants.{Bundle};
ghost use Rattle.outside_io.specs.streams.Faults.{CountsFaults};
ghost use Rattle.outside_io.specs.volume.History.{During, contents, current};
ghost use Rattle.side_journal.specs.declared.body.Body.TheVariants.{Group as OfGroup};
ghost use Rattle.bundle_index.specs.Sizes.{index_end, slot_count};
ghost use Rattle.bundle_store.specs.Appended.{bundle_with_tile};
ghost use Rattle.bundle_store.specs.Build.{EachFits};
ghost use Rattle.bundle_store.specs.Causes.{CountsDevice, OnRefusal, UnlessDevice};
ghost use Rattle.bundle_store.specs.GroupPuts.{AllOrNone, AreTilesIn, NoRoom, OnFull, bundle_after_puts, bundle_with_tiles, group_records, new_entries};
ghost use Rattle.bundle_store.specs.Images.{EachImage, HoldsClosed};
ghost use Rattle.bundle_store.specs.Kept.{Keeps};
ghost use Rattle.bundle_store.specs.Layout.{layout};
ghost use Rattle.bundle_store.specs.Session.{GroupFails};
ghost use Rattle.bundle_store.specs.Tiles.{IsBundle, IsReadable, no_tiles, tiles};
ghost use Rattle.bundle_store.specs.inside.Grouped.{AreForOnePut, IsFullOf};
ghost use Rattle.bundle_store.specs.inside.Parts.{IsAtRest, IsIdle};
ghost use Rattle.bundle_store.specs.Told.{Changes};

mod append;
mod overlay;
pub(crate) mod steps;

use crate::StoreFault;
use crate::build::build_empty;
use crate::front::Front;
use crate::room::fitting_tiles;
use crate::updates::Updates;
use bundle_index::{Entry, INDEX_END, Slot};
use outside_io::{Failed, VolFile, Volume};
use side_journal::{Body, Group};
use steps::commit;

/// Adds the entry of a tile, whose record is to stand at `end`, to the group, and to what is kept
/// of the bundle.
fn add_tile(front: &mut Front, end: u64, slot: Slot, tile: &[u8], group: &mut Group)
    requires some { 0 < length tile.now }
    requires size { length tile.now < 2 ^ 24 }
    requires room { end + 4 + length tile.now ≤ 2 ^ 40 }
    requires most { length group.old < 64 }
    ensures slot { slot < slot_count }
    ensures group { group.new ≡ group.old
        ++ new_entries end (record { slot = slot; bytes = tile.now } ∷ []) }
    ensures keeps { (bundle : List ℕ) → index_end ≤ length bundle → end ≡ length bundle →
        Keeps front.old bundle → Keeps front.new (bundle_with_tile bundle slot tile.now) }
{
    let old = front.entry(slot);
    let size = tile.len() as u32;
    let entry = Entry {
        offset: end + 4,
        size,
    };
    let header = front.header().after_put(old, size, end + 4 + size as u64);
    front.put(&header, slot, entry);
    group.push(slot, entry);
}

/// The body of a journal of the tiles, whose records are to stand behind `len` bytes. `front` has
/// the header and the index of the bundle without them, and then with them.
fn body_of_tiles(front: &mut Front, len: u64, tiles: &Updates) -> Body
    requires fit { EachFits tiles.now }
    requires most { length tiles.now ≤ 64 }
    requires room { len + length (group_records tiles.now) ≤ 2 ^ 40 }
    ensures body { result ≡ OfGroup (new_entries len tiles.now)
        (len + length (group_records tiles.now)) front.new.header }
    ensures tiles { AreTilesIn tiles.now }
    ensures header { length front.new.header ≡ 64 }
    ensures keeps { (bundle : List ℕ) → index_end ≤ length bundle → len ≡ length bundle →
        Keeps front.old bundle → Keeps front.new (bundle_with_tiles bundle tiles.now) }
{
    let mut group = Group::new();
    let mut end = len;
    for i in 0..tiles.len() {
        let tile = tiles.bytes(i);
        add_tile(front, end, tiles.slot(i), tile, &mut group);
        end += 4 + tile.len() as u64;
    }
    Body::Group {
        group,
        length: end,
        header: front.header(),
    }
}

/// Puts the tiles on a bundle of `len` bytes, of which `front` has the header and the index, before
/// and after.
fn put_on_bundle<V: Volume>(
    vol: &mut V,
    len: u64,
    front: &mut Front,
    updates: &Updates,
) -> Result<(), Failed>
    requires group { AreForOnePut updates.now }
    requires room { len + length (group_records updates.now) ≤ 2 ^ 40 }
    requires least { IsTrue (V.told vol.old) → index_end ≤ len }
    requires len { IsTrue (V.told vol.old) → len ≡ length (contents Bundle (V.history vol.old)) }
    requires keeps { IsTrue (V.told vol.old) → Keeps front.old (contents Bundle
        (V.history vol.old)) }
    requires idle { IsTrue (V.told vol.old) → IsIdle (current (V.history vol.old)) }
    ensures done { IsTrue (V.told vol.old) →
        OnOk result (HoldsClosed (bundle_with_tiles (contents Bundle
        (V.history vol.old)) updates.now) (current (V.history vol.new))) }
    ensures keeps { IsTrue (V.told vol.old) → OnOk result (Keeps front.new (bundle_with_tiles
        (contents Bundle (V.history vol.old)) updates.now)) }
    ensures tiles { AreTilesIn updates.now }
    ensures changes { Changes V.told V.history V.faults (CountsFaults result)
        (λ old d. IsBundle old.bundle.now
        → EachImage (AllOrNone updates.now (tiles old.bundle.now)) d) vol.old vol.new }
{
    let body = body_of_tiles(front, len, updates);
    commit(vol, len, updates, &body)
}

/// Puts the tiles on an empty file, which is first made a bundle of no tiles.
fn put_on_nothing<V: Volume>(
    vol: &mut V,
    front: &mut Front,
    updates: &Updates,
) -> Result<(), Failed>
    requires group { AreForOnePut updates.now }
    requires room { index_end + length (group_records updates.now) ≤ 2 ^ 40 }
    requires empty { IsTrue (V.told vol.old) → contents Bundle (V.history vol.old) ≡ [] }
    requires idle { IsTrue (V.told vol.old) → IsIdle (current (V.history vol.old)) }
    ensures done { IsTrue (V.told vol.old) →
        OnOk result (HoldsClosed (bundle_with_tiles (layout no_tiles) updates.now)
        (current (V.history vol.new))) }
    ensures keeps { IsTrue (V.told vol.old) →
        OnOk result (Keeps front.new (bundle_with_tiles (layout no_tiles) updates.now)) }
    ensures tiles { OnOk result (AreTilesIn updates.now) }
    ensures changes { Changes V.told V.history V.faults (CountsFaults result)
        (λ _. EachImage (AllOrNone updates.now no_tiles)) vol.old vol.new }
{
    build_empty(vol, &[], &[], &mut [], front)?;
    put_on_bundle(vol, INDEX_END, front, updates)
}

/// Whether there is room for the tiles behind `len` bytes. Full, with the length that the tiles
/// before the first one without room leave.
fn room_for(len: u64, updates: &Updates) -> Result<(), StoreFault>
    requires fit { EachFits updates.now }
    requires some { 1 ≤ length updates.now }
    ensures room { OnOk result (len + length (group_records updates.now) ≤ 2 ^ 40) }
    ensures full { IfErr result (λ f. IsFullOf len updates.now f) }
{
    let (count, end) = fitting_tiles(len, updates, updates.len());
    if count < updates.len() {
        return Err(StoreFault::Full { len: end });
    }
    Ok(())
}

/// Puts the tiles, if there is room for them; `front` has the bundle's header and index, before and
/// after.
pub(crate) fn put_tiles<V: Volume>(
    vol: &mut V,
    front: &mut Front,
    updates: &Updates,
) -> Result<(), StoreFault>
    requires group { AreForOnePut updates.now }
    requires rest { IsTrue (V.told vol.old) → IsAtRest front.old (current (V.history vol.old)) }
    ensures done { IsTrue (V.told vol.old) →
        OnOk result (HoldsClosed (bundle_after_puts (contents Bundle
        (V.history vol.old)) updates.now) (current (V.history vol.new))) }
    ensures room { IsTrue (V.told vol.old) → OnOk result (length (contents Bundle
        (V.history vol.old)) + length (group_records updates.now) ≤ 2 ^ 40) }
    ensures full { IsTrue (V.told vol.old) → IfErr result (λ f. OnFull (λ len. NoRoom
        (length (contents Bundle (V.history vol.old))) updates.now len) f) }
    ensures kept { IsTrue (V.told vol.old) → OnRefusal result
        (During (λ d. d ≡ current (V.history vol.old)) (V.history vol.old) (V.history vol.new)) }
    ensures rest { IsTrue (V.told vol.old) → UnlessDevice result
        (IsAtRest front.new (current (V.history vol.new))) }
    ensures answers { IfErr result (λ f. GroupFails updates.now f) }
    ensures running { ¬ IsErrOf result StoreFault.Stopped }
    ensures changes { Changes V.told V.history V.faults (CountsDevice result)
        (λ old d. IsReadable old.bundle.now
        → EachImage (AllOrNone updates.now (tiles old.bundle.now)) d) vol.old vol.new }
{
    let len = vol.len(VolFile::Bundle)?;
    room_for(len, updates)?;
    if len == 0 {
        put_on_nothing(vol, front, updates)?;
    } else {
        put_on_bundle(vol, len, front, updates)?;
    }
    Ok(())
}
