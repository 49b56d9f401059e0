//! The table of the number of each slot's last tile, and what a bundle of these tiles has.

ghost use Rattle.std.specs.Prelude.{◌≡◌, ◌+◌, ◌*◌, ◌^◌, ◌<◌, length, IfOk};
ghost use Rattle.bundle_index.specs.Entry.{IsEntry};
ghost use Rattle.bundle_index.specs.Header.{bytes_left_behind};
ghost use Rattle.bundle_index.specs.Sizes.{slot_count};
ghost use Rattle.bundle_store.specs.Build.{EachFits, last_tiles};
ghost use Rattle.bundle_store.specs.Built.{filled};
ghost use Rattle.bundle_store.specs.Layout.{entries, greatest_size, records, size_of};
ghost use Rattle.bundle_store.specs.inside.Table.{HasRoom, IsTable, NumbersTiles, entry_of_size, table_map};

use crate::TileRec;
use bundle_index::{Entry, INDEX_END, SLOT_COUNT};
use byteorder::{ByteOrder, LittleEndian};
use std::alloc::{AllocError, Global};

/// How many slots there are.
pub(crate) const SLOTS: usize = SLOT_COUNT as usize;

/// For each slot the number of its last tile.
pub(crate) fn number_tiles(
    alloc: Global,
    tiles: &[TileRec],
) -> Result<Vec<Option<usize>>, AllocError>
    ensures table { IfOk result (λ t. IsTable tiles.now t.items) }
    ensures long { IfOk result (λ t. length t.items ≡ slot_count) }
    ensures last { IfOk result (λ t. table_map tiles.now t.items ≡ last_tiles tiles.now) }
{
    let slots = SLOT_COUNT as usize;
    let mut table = Vec::with_capacity(alloc, slots)?;
    table.resize(slots, None)?;
    for number in 0..tiles.len() {
        let slot = tiles[number].slot.number() as usize;
        table[slot] = Some(number);
    }
    Ok(table)
}

/// How many bytes of records are gathered before they are written, where no record is longer.
const GATHERED: usize = 1048576;

/// Bytes for the records of the tiles, but no more than are gathered; enough for each record alone.
pub(crate) fn record_buffer(alloc: Global, tiles: &[TileRec]) -> Result<Vec<u8>, AllocError>
    requires { EachFits tiles.now }
    ensures { IfOk result (λ b. HasRoom tiles.now (length b.items)) }
{
    let mut most = 0;
    let mut gathered = 0;
    for i in 0..tiles.len() {
        let len = tiles[i].bytes.len();
        most = most.max(len);
        gathered = (gathered + len + 4).min(GATHERED);
    }
    vec![in alloc; 0u8; gathered.max(most + 4)]
}

/// How many bytes the slot's tile has; 0 for none.
fn len_at(tiles: &[TileRec], table: &[Option<usize>], slot: usize) -> usize
    requires table { IsTable tiles.now table.now }
    ensures { result ≡ size_of (table_map tiles.now table.now slot) }
{
    if slot >= table.len() {
        return 0;
    }
    match table[slot] {
        Some(number) => tiles[number].bytes.len(),
        None => 0,
    }
}

/// How many bytes the record of a tile of `len` bytes has; 0 for no tile.
fn record_len(len: usize) -> u64
    requires { len < 2 ^ 24 }
    ensures { result ≡ bytes_left_behind len }
{
    if len == 0 { 0 } else { len as u64 + 4 }
}

/// The entry of a tile of `len` bytes whose record stands behind so many bytes of records.
fn entry_for(len: usize, before: u64) -> Entry
    requires size { len < 2 ^ 24 }
    requires room { before < 2 ^ 39 }
    ensures value { result ≡ entry_of_size before len }
    ensures fits { IsEntry result }
{
    if len == 0 {
        return Entry { offset: 0, size: 0 };
    }
    Entry {
        offset: INDEX_END + before + 4,
        size: len as u32,
    }
}

/// The greatest size of a tile, and how many bytes the records have.
pub(crate) fn measure(tiles: &[TileRec], table: &[Option<usize>]) -> (u32, u64)
    requires table { NumbersTiles tiles.now table.now }
    ensures greatest { result.0 ≡ greatest_size (table_map tiles.now table.now) slot_count }
    ensures total { result.1 ≡ length (records (table_map tiles.now table.now) slot_count) }
    ensures room { result.1 < 2 ^ 39 }
{
    let mut most = 0;
    let mut total = 0;
    for slot in 0..SLOTS {
        let len = len_at(tiles, table, slot);
        most = len.max(most);
        total += record_len(len);
    }
    (most as u32, total)
}

/// How many of the slots have a tile.
pub(crate) fn count_tiles(tiles: &[TileRec], table: &[Option<usize>]) -> u32
    requires table { NumbersTiles tiles.now table.now }
    ensures { result ≡ filled (table_map tiles.now table.now) slot_count }
{
    let mut count = 0;
    for slot in 0..SLOTS {
        if len_at(tiles, table, slot) > 0 {
            count += 1;
        }
    }
    count
}

/// The index of the tiles that the table numbers.
pub(crate) fn spell_index(tiles: &[TileRec], table: &[Option<usize>], index: &mut [u8])
    requires table { NumbersTiles tiles.now table.now }
    requires long { length index.old ≡ 131072 }
    ensures { index.new ≡ entries (table_map tiles.now table.now) slot_count }
{
    let mut end = 0;
    for i in 0..SLOTS {
        let len = len_at(tiles, table, i);
        let word = entry_for(len, end).pack();
        LittleEndian::write_u64(&mut index[8 * i..], word);
        end += record_len(len);
    }
}
