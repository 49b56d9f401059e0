//! The bytes of a new bundle: header, index and records.

ghost use Rattle.std.specs.Prelude.{◌≡◌, ◌+◌, ◌++◌, ◌^◌, ◌<◌, ◌≤◌, [], length, take, IsTrue, IfOk, OnOk};
ghost use Rattle.outside_io.specs.declared.volume.VolFile.TheVariants.{Bundle};
ghost use Rattle.outside_io.specs.volume.Disk.{settled};
ghost use Rattle.outside_io.specs.streams.Faults.{CountsFaults};
ghost use Rattle.outside_io.specs.volume.History.{contents, current};
ghost use Rattle.bundle_index.specs.Sizes.{index_end, slot_count};
ghost use Rattle.bundle_store.specs.inside.Parts.{Extends, Gathers, KeepsJournal};
ghost use Rattle.bundle_store.specs.Kept.{Keeps};
ghost use Rattle.bundle_store.specs.inside.Table.{HasRoom, NumbersTiles, table_map};
ghost use Rattle.bundle_store.specs.Layout.{layout, record_of, records, record_bytes};
ghost use Rattle.bundle_store.specs.Told.{Changes};

use crate::TileRec;
use crate::front::Front;
use crate::spelling::lay;
use crate::table::{SLOTS, measure};
use bundle_index::{BundleHeader, INDEX_END};
use outside_io::{Failed, VolFile, Volume};

/// Lays the record of a tile over the buffer from a place on, and answers where it ends.
fn spell_record(tile: &[u8], at: usize, buffer: &mut [u8]) -> usize
    requires size { length tile.now < 2 ^ 24 }
    requires room { at + length tile.now + 4 ≤ length buffer.old }
    ensures bytes { take result buffer.new ≡ take at buffer.old ++ record_bytes tile.now }
    ensures count { result ≡ at + length tile.now + 4 }
    ensures kept { length buffer.new ≡ length buffer.old }
{
    let size = (tile.len() as u32).to_le_bytes();
    lay(buffer, at, &size);
    lay(buffer, at + 4, tile);
    at + tile.len() + 4
}

/// Bytes that wait in front of a buffer to be written behind the bundle's end: where that is, and
/// how many they are.
#[derive(Clone, Copy)]
struct Waiting {
    at: u64,
    count: usize,
}

/// Writes what waits, by one call, and answers where the bundle then ends.
fn write_waiting<V: Volume>(vol: &mut V, waiting: Waiting, buffer: &[u8]) -> Result<u64, Failed>
    requires count { waiting.count ≤ length buffer.now }
    requires room { waiting.at + waiting.count ≤ 2 ^ 40 }
    requires end { IsTrue (V.told vol.old) → waiting.at
        ≡ length (contents Bundle (V.history vol.old)) }
    ensures done { IsTrue (V.told vol.old) → OnOk result (Extends (current (V.history vol.old))
        (current (V.history vol.new)) (take waiting.count buffer.now)) }
    ensures next { IfOk result (λ at. at ≡ waiting.at + waiting.count) }
    ensures changes { Changes V.told V.history V.faults (CountsFaults result)
        KeepsJournal vol.old vol.new }
{
    if waiting.count == 0 {
        return Ok(waiting.at);
    }
    vol.write(VolFile::Bundle, waiting.at, &buffer[..waiting.count])?;
    Ok(waiting.at + waiting.count as u64)
}

/// Room for so many bytes behind what waits: where the buffer has none, what waits is written.
fn make_room<V: Volume>(
    vol: &mut V,
    waiting: Waiting,
    len: usize,
    buffer: &[u8],
) -> Result<Waiting, Failed>
    requires fits { len ≤ length buffer.now }
    requires count { waiting.count ≤ length buffer.now }
    requires room { waiting.at + waiting.count ≤ 2 ^ 40 }
    requires end { IsTrue (V.told vol.old) → waiting.at
        ≡ length (contents Bundle (V.history vol.old)) }
    ensures done { IsTrue (V.told vol.old) → IfOk result (λ w. Gathers
        (current (V.history vol.old)) (current (V.history vol.new))
        (take waiting.count buffer.now) (take w.count buffer.now) []) }
    ensures end { IsTrue (V.told vol.old) → IfOk result (λ w. w.at
        ≡ length (contents Bundle (V.history vol.new))) }
    ensures next { IfOk result (λ w. w.at + w.count ≡ waiting.at + waiting.count) }
    ensures room { IfOk result (λ w. w.count + len ≤ length buffer.now) }
    ensures changes { Changes V.told V.history V.faults (CountsFaults result)
        KeepsJournal vol.old vol.new }
{
    if len <= buffer.len() - waiting.count {
        return Ok(waiting);
    }
    let at = write_waiting(vol, waiting, buffer)?;
    Ok(Waiting { at, count: 0 })
}

/// Lets the record of a tile wait behind what waits.
fn gather_record<V: Volume>(
    vol: &mut V,
    waiting: Waiting,
    tile: &[u8],
    buffer: &mut [u8],
) -> Result<Waiting, Failed>
    requires size { length tile.now < 2 ^ 24 }
    requires buffer { length tile.now + 4 ≤ length buffer.old }
    requires count { waiting.count ≤ length buffer.old }
    requires room { waiting.at + waiting.count < 2 ^ 39 }
    requires end { IsTrue (V.told vol.old) → waiting.at
        ≡ length (contents Bundle (V.history vol.old)) }
    ensures done { IsTrue (V.told vol.old) → IfOk result (λ w. Gathers
        (current (V.history vol.old)) (current (V.history vol.new))
        (take waiting.count buffer.old) (take w.count buffer.new) (record_bytes tile.now)) }
    ensures end { IsTrue (V.told vol.old) → IfOk result (λ w. w.at
        ≡ length (contents Bundle (V.history vol.new))) }
    ensures next { IfOk result (λ w. w.at + w.count
        ≡ waiting.at + waiting.count + length (record_bytes tile.now)) }
    ensures count { IfOk result (λ w. w.count ≤ length buffer.new) }
    ensures changes { Changes V.told V.history V.faults (CountsFaults result)
        KeepsJournal vol.old vol.new }
{
    let next = make_room(vol, waiting, tile.len() + 4, buffer)?;
    let count = spell_record(tile, next.count, buffer);
    Ok(Waiting { at: next.at, count })
}

/// Lets the record of the slot's tile wait, if it has one.
fn gather_slot<V: Volume>(
    vol: &mut V,
    tiles: &[TileRec],
    table: &[Option<usize>],
    slot: usize,
    waiting: Waiting,
    buffer: &mut [u8],
) -> Result<Waiting, Failed>
    requires buffer { HasRoom tiles.now (length buffer.old) }
    requires table { NumbersTiles tiles.now table.now }
    requires count { waiting.count ≤ length buffer.old }
    requires room { waiting.at + waiting.count < 2 ^ 39 }
    requires end { IsTrue (V.told vol.old) → waiting.at
        ≡ length (contents Bundle (V.history vol.old)) }
    ensures done { IsTrue (V.told vol.old) → IfOk result (λ w. Gathers
        (current (V.history vol.old)) (current (V.history vol.new))
        (take waiting.count buffer.old) (take w.count buffer.new)
        (record_of (table_map tiles.now table.now slot))) }
    ensures end { IsTrue (V.told vol.old) → IfOk result (λ w. w.at
        ≡ length (contents Bundle (V.history vol.new))) }
    ensures next { IfOk result (λ w. w.at + w.count ≡ waiting.at + waiting.count
        + length (record_of (table_map tiles.now table.now slot))) }
    ensures count { IfOk result (λ w. w.count ≤ length buffer.new) }
    ensures changes { Changes V.told V.history V.faults (CountsFaults result)
        KeepsJournal vol.old vol.new }
{
    if slot >= table.len() {
        return Ok(waiting);
    }
    let Some(number) = table[slot] else {
        return Ok(waiting);
    };
    gather_record(vol, waiting, tiles[number].bytes.as_slice(), buffer)
}

/// The records by slot, behind the index: they are gathered in the buffer, and written whenever it
/// has no room for the next one.
fn write_records<V: Volume>(
    vol: &mut V,
    tiles: &[TileRec],
    table: &[Option<usize>],
    buffer: &mut [u8],
) -> Result<(), Failed>
    requires buffer { HasRoom tiles.now (length buffer.old) }
    requires table { NumbersTiles tiles.now table.now }
    requires end { IsTrue (V.told vol.old) → length (contents Bundle (V.history vol.old))
        ≡ index_end }
    ensures done { IsTrue (V.told vol.old) → OnOk result (Extends (current (V.history vol.old))
        (current (V.history vol.new)) (records (table_map tiles.now table.now) slot_count)) }
    ensures changes { Changes V.told V.history V.faults (CountsFaults result)
        KeepsJournal vol.old vol.new }
{
    let mut waiting = Waiting {
        at: INDEX_END,
        count: 0,
    };
    for slot in 0..SLOTS {
        waiting = gather_slot(vol, tiles, table, slot, waiting, buffer)?;
    }
    write_waiting(vol, waiting, buffer)?;
    Ok(())
}

/// Writes header, index and records of the tiles that the table numbers into the empty bundle, and
/// syncs it; `front` then has its header and its index. The buffer takes each record.
pub(crate) fn write_layout<V: Volume>(
    vol: &mut V,
    tiles: &[TileRec],
    table: &[Option<usize>],
    buffer: &mut [u8],
    front: &mut Front,
) -> Result<(), Failed>
    requires buffer { HasRoom tiles.now (length buffer.old) }
    requires table { NumbersTiles tiles.now table.now }
    requires empty { IsTrue (V.told vol.old) → contents Bundle (V.history vol.old) ≡ [] }
    ensures bundle { IsTrue (V.told vol.old) → OnOk result ((current (V.history vol.new)).bundle
        ≡ settled (layout (table_map tiles.now table.now))) }
    ensures keeps { Keeps front.new (layout (table_map tiles.now table.now)) }
    ensures changes { Changes V.told V.history V.faults (CountsFaults result)
        KeepsJournal vol.old vol.new }
{
    let (most, total) = measure(tiles, table);
    front.fill(BundleHeader::fresh(most, INDEX_END + total), tiles, table);
    front.write(vol)?;
    write_records(vol, tiles, table, buffer)?;
    vol.sync(VolFile::Bundle)
}
