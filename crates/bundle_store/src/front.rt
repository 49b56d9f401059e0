//! What a session keeps of its bundle: the header, and the index as it stands in the file.

ghost use Rattle.std.specs.Prelude.{◌≡◌, ◌*◌, ◌<◌, ◌≤◌, ◌++◌, ℕ, List, [], length, replicate, take, IsTrue, IfOk, OnOk};
ghost use Rattle.outside_io.specs.declared.volume.VolFile.TheVariants.{Bundle};
ghost use Rattle.outside_io.specs.volume.Disk.{laid};
ghost use Rattle.outside_io.specs.streams.Faults.{CountsFaults};
ghost use Rattle.outside_io.specs.volume.History.{Ticks, contents, current};
ghost use Rattle.bundle_index.specs.Entry.{IsEntry, entry_at, entry_bytes};
ghost use Rattle.bundle_index.specs.Sizes.{index_end, slot_count};
ghost use Rattle.bundle_store.specs.Kept.{Keeps};
ghost use Rattle.bundle_store.specs.Layout.{entries};
ghost use Rattle.bundle_store.specs.inside.Parts.{Extends, KeepsJournal};
ghost use Rattle.bundle_store.specs.inside.Table.{NumbersTiles, table_map};
ghost use Rattle.bundle_store.specs.Told.{Changes, Told};

use crate::TileRec;
use crate::spelling::{lay, spell_entry};
use crate::table::spell_index;
use bundle_index::{BundleHeader, Entry, Slot};
use byteorder::{ByteOrder, LittleEndian};
use outside_io::{Failed, VolFile, Volume};
use std::alloc::{AllocError, Global};
use std::marker::Model;

/// The place of the index, behind the header.
const INDEX: u64 = 64;

/// The header of a bundle, and the 131,072 bytes of its index.
#[derive(Drop)]
pub(crate) struct Front {
    header: BundleHeader,
    index: Vec<u8>,
}

impl Model for Front {
    ghost use Rattle.std.specs.Prelude.{◌≡◌, length};
    ghost use Rattle.bundle_store.specs.Kept.{FrontBytes};

    ghost Value = { FrontBytes };

    ghost view = { λ f. record { header = f.header; index = f.index.items } };

    ghost invariant = { λ f. (length f.header ≡ 64) × (length f.index.items ≡ 131072) };
}

impl Front {
    /// What is kept of an empty file: each byte is 0.
    pub(crate) fn empty(alloc: Global) -> Result<Front, AllocError>
        ensures { IfOk result (λ f. f.index ≡ replicate 131072 0) }
    {
        let index = vec![in alloc; 0u8; 131072]?;
        Ok(Front {
            header: BundleHeader::of([0; 64]),
            index,
        })
    }

    /// Takes the header of a bundle, and reads its index by one call.
    pub(crate) fn read<V: Volume>(
        &mut self,
        vol: &mut V,
        header: BundleHeader,
    ) -> Result<(), Failed>
        requires size { length header ≡ 64 }
        requires header { IsTrue (V.told vol.old) → header ≡ take 64 (contents Bundle
            (V.history vol.old)) }
        requires long { IsTrue (V.told vol.old) → index_end ≤ length (contents Bundle
            (V.history vol.old)) }
        ensures keeps { IsTrue (V.told vol.old) → OnOk result (Keeps self.new (contents Bundle
            (V.history vol.old))) }
        ensures disk { IsTrue (V.told vol.old) →
            current (V.history vol.new) ≡ current (V.history vol.old) }
        ensures time { Ticks (V.history vol.old) (V.history vol.new) result }
        ensures told { Told V.told V.faults (CountsFaults result) vol.old vol.new }
    {
        self.header = header;
        vol.read(VolFile::Bundle, INDEX, self.index.as_mut_slice())?;
        Ok(())
    }

    /// The header.
    pub(crate) fn header(&self) -> BundleHeader
        ensures value { result ≡ self.now.header }
        ensures size { length result ≡ 64 }
    {
        self.header
    }

    /// The entry of the slot that has this number.
    pub(crate) fn entry_of_number(&self, number: u16) -> Entry
        requires { number < slot_count }
        ensures value { (bundle : List ℕ) → Keeps self.now bundle →
            result ≡ entry_at bundle number }
        ensures fits { IsEntry result }
    {
        let place = 8 * number as usize;
        Entry::unpack(LittleEndian::read_u64(&self.index[place..]))
    }

    /// The entry of the slot.
    pub(crate) fn entry(&self, slot: Slot) -> Entry
        ensures value { (bundle : List ℕ) → Keeps self.now bundle → result ≡ entry_at bundle slot }
        ensures fits { IsEntry result }
        ensures slot { slot < slot_count }
    {
        self.entry_of_number(slot.number())
    }

    /// Takes another header, and an entry in the place of the slot's.
    pub(crate) fn put(&mut self, header: &BundleHeader, slot: Slot, entry: Entry)
        requires size { length header.now ≡ 64 }
        requires entry { IsEntry entry }
        ensures header { self.new.header ≡ header.now }
        ensures index { self.new.index ≡ laid (8 * slot) (entry_bytes entry) self.old.index }
    {
        self.header = *header;
        let place = 8 * slot.number() as usize;
        lay(self.index.as_mut_slice(), place, &spell_entry(entry));
    }

    /// Takes the header and the index of a new bundle of the tiles that the table numbers.
    pub(crate) fn fill(&mut self, header: BundleHeader, tiles: &[TileRec], table: &[Option<usize>])
        requires size { length header ≡ 64 }
        requires table { NumbersTiles tiles.now table.now }
        ensures header { self.new.header ≡ header }
        ensures index { self.new.index ≡ entries (table_map tiles.now table.now) slot_count }
    {
        self.header = header;
        spell_index(tiles, table, self.index.as_mut_slice());
    }

    /// Writes the header and the index into an empty file, by one call each.
    pub(crate) fn write<V: Volume>(&self, vol: &mut V) -> Result<(), Failed>
        requires { IsTrue (V.told vol.old) → contents Bundle (V.history vol.old) ≡ [] }
        ensures done { IsTrue (V.told vol.old) → OnOk result (Extends (current (V.history vol.old))
            (current (V.history vol.new)) (self.now.header ++ self.now.index)) }
        ensures changes { Changes V.told V.history V.faults (CountsFaults result)
            KeepsJournal vol.old vol.new }
    {
        let header = self.header.bytes();
        vol.write(VolFile::Bundle, 0, &header)?;
        vol.write(VolFile::Bundle, INDEX, self.index.as_slice())
    }
}
