//! Sessions: an open bundle, and the calls on it.

ghost use Rattle.std.specs.Prelude.{◌≡◌, ◌↔◌, ◌⊎◌, ◌+◌, ◌^◌, ◌<◌, ◌≤◌, ℕ, List, [], false, true, None, Some, length, IsTrue, IsErrOf, IfOk, IfErr, OnOk};
ghost use Rattle.outside_io.specs.declared.volume.VolFile.TheVariants.{Bundle};
ghost use Rattle.outside_io.specs.volume.History.{During, contents, current};
ghost use Rattle.bundle_index.specs.Entry.{entry_at};
ghost use Rattle.bundle_index.specs.Sizes.{slot_count};
ghost use Rattle.bundle_store.specs.Ahead.{IsAheadOf};
ghost use Rattle.bundle_store.specs.Causes.{CountsDevice, OnRefusal, UnlessDevice};
ghost use Rattle.bundle_store.specs.Check.{Reports};
ghost use Rattle.bundle_store.specs.Appended.{bundle_after_put};
ghost use Rattle.bundle_store.specs.Build.{EachFits, last_tiles};
ghost use Rattle.bundle_store.specs.Built.{HoldsTiles};
ghost use Rattle.bundle_store.specs.GroupPuts.{AllOrNone, NoRoom, OnFull, bundle_after_puts, group_records};
ghost use Rattle.bundle_store.specs.Layout.{layout};
ghost use Rattle.bundle_store.specs.Images.{EachImage, EmptyOr, HoldsClosed, WithOrWithout};
ghost use Rattle.bundle_store.specs.Tiles.{IsReadable, tiles};
ghost use Rattle.bundle_store.specs.Session.{BuildFails, GetFails, GetGives, GetRefuses, GroupFails, IsReadyToPut, KeepsLength, OpenFails, OpenRefuses, PutFails, Serves};
ghost use Rattle.bundle_store.specs.Told.{Told};

mod header;

use crate::ahead::Ahead;
use crate::build::build_on;
use crate::check::check_index;
use crate::front::Front;
use crate::put::put_tiles;
use crate::reading::read_tile;
use crate::table::{number_tiles, record_buffer};
use crate::updates::{Updates, check_tiles};
use crate::{CheckReport, StoreFault, TileRec};
use bundle_index::{Entry, INDEX_END, Slot};
use header::{fault_of, read_header};
use outside_io::{Bytes, VolFile, Volume};
use std::alloc::Global;
use std::marker::Model;

/// An open bundle. It keeps the header and the index; it holds no volume: each call takes the one
/// on which it was opened.
#[derive(Drop)]
pub struct Session {
    alloc: Global,
    stopped: bool,
    front: Front,
}

impl Model for Session {
    ghost use Rattle.bundle_store.specs.Session.{SessionState};

    ghost Value = { SessionState };

    ghost view = { λ s. record { stopped = s.stopped; front = s.front } };
}

impl Session {
    /// Opens the bundle, and reads its header and its index. A file of length 0 is a bundle without
    /// tiles. In this order Device for the length, BadBundle for it, Device for the header,
    /// BadBundle where a field of it fails a reader's test, OutOfMemory, Device for the index.
    pub fn open<V: Volume>(alloc: Global, vol: &mut V) -> Result<Session, StoreFault>
        ensures ok { IsTrue (V.told vol.old) → IfOk result
            (λ s. Serves s (contents Bundle (V.history vol.old))) }
        ensures running { IfOk result (λ s. s.stopped ≡ false) }
        ensures refused { IsTrue (V.told vol.old) →
            IfErr result (λ f. OpenRefuses (contents Bundle (V.history vol.old)) f) }
        ensures answers { IfErr result (λ f. OpenFails f) }
        ensures during { IsTrue (V.told vol.old) → During (λ d. d ≡ current (V.history vol.old))
            (V.history vol.old) (V.history vol.new) }
        ensures calls { (V.history vol.new).moment ≤ (V.history vol.old).moment + 3 }
        ensures told { Told V.told V.faults (CountsDevice result) vol.old vol.new }
    {
        let len = vol.len(VolFile::Bundle)?;
        if len == 0 {
            return Ok(Session {
                alloc,
                stopped: false,
                front: Front::empty(alloc)?,
            });
        }
        if len < INDEX_END {
            return Err(StoreFault::BadBundle {
                place: len,
                found: len,
            });
        }
        let header = read_header(vol)?;
        match fault_of(&header) {
            Some(fault) => {
                return Err(StoreFault::BadBundle {
                    place: fault.place,
                    found: fault.found,
                });
            }
            None => {}
        }
        let Ok(mut front) = Front::empty(alloc) else {
            return Err(StoreFault::OutOfMemory);
        };
        front.read(vol, header)?;
        Ok(Session {
            alloc,
            stopped: false,
            front,
        })
    }

    /// The bundle's length in bytes. Device, Stopped.
    pub fn length<V: Volume>(&self, vol: &mut V) -> Result<u64, StoreFault>
        requires serves { IsTrue (V.told vol.old) → self.now.stopped ≡ false →
            Serves self.now (contents Bundle (V.history vol.old)) }
        ensures value { IsTrue (V.told vol.old) →
            IfOk result (λ n. n ≡ length (contents Bundle (V.history vol.old))) }
        ensures stopped { IsErrOf result StoreFault.Stopped ↔ (self.now.stopped ≡ true) }
        ensures answers { IfErr result (λ f. (f ≡ StoreFault.Device) ⊎ (f ≡ StoreFault.Stopped)) }
        ensures during { IsTrue (V.told vol.old) → During (λ d. d ≡ current (V.history vol.old))
            (V.history vol.old) (V.history vol.new) }
        ensures calls { (V.history vol.new).moment ≤ (V.history vol.old).moment + 1 }
        ensures idle { self.now.stopped ≡ true → vol.new ≡ vol.old }
        ensures told { Told V.told V.faults (CountsDevice result) vol.old vol.new }
    {
        if self.stopped {
            return Err(StoreFault::Stopped);
        }
        Ok(vol.len(VolFile::Bundle)?)
    }

    /// Looks at each entry, and at the number in front of each tile. Device, Stopped.
    pub fn check<V: Volume>(&self, vol: &mut V) -> Result<CheckReport, StoreFault>
        requires serves { IsTrue (V.told vol.old) → self.now.stopped ≡ false →
            Serves self.now (contents Bundle (V.history vol.old)) }
        ensures report { IsTrue (V.told vol.old) →
            IfOk result (λ r. Reports (contents Bundle (V.history vol.old)) slot_count r) }
        ensures stopped { IsErrOf result StoreFault.Stopped ↔ (self.now.stopped ≡ true) }
        ensures answers { IfErr result (λ f. (f ≡ StoreFault.Device) ⊎ (f ≡ StoreFault.Stopped)) }
        ensures during { IsTrue (V.told vol.old) → During (λ d. d ≡ current (V.history vol.old))
            (V.history vol.old) (V.history vol.new) }
        ensures calls { (V.history vol.new).moment ≤ (V.history vol.old).moment + 1 + slot_count }
        ensures needed { IfOk result (λ r.
            (V.history vol.new).moment ≤ (V.history vol.old).moment + 1 + r.tiles) }
        ensures idle { self.now.stopped ≡ true → vol.new ≡ vol.old }
        ensures told { Told V.told V.faults (CountsDevice result) vol.old vol.new }
    {
        if self.stopped {
            return Err(StoreFault::Stopped);
        }
        let len = vol.len(VolFile::Bundle)?;
        Ok(check_index(vol, &self.front, len)?)
    }

    /// The entry at the slot's place, by no device call; that of an empty file is 0. Stopped is its
    /// one refusal.
    pub fn entry<V: Volume>(&self, vol: &mut V, slot: Slot) -> Result<Entry, StoreFault>
        requires serves { IsTrue (V.told vol.old) → self.now.stopped ≡ false →
            Serves self.now (contents Bundle (V.history vol.old)) }
        ensures value { IsTrue (V.told vol.old) →
            IfOk result (λ e. e ≡ entry_at (contents Bundle (V.history vol.old)) slot) }
        ensures stopped { IsErrOf result StoreFault.Stopped ↔ (self.now.stopped ≡ true) }
        ensures answers { IfErr result (λ f. f ≡ StoreFault.Stopped) }
        ensures same { vol.new ≡ vol.old }
    {
        if self.stopped {
            return Err(StoreFault::Stopped);
        }
        Ok(self.front.entry(slot))
    }

    /// The entry at the slot's place, as the session keeps it; that of an empty file is 0.
    pub fn kept_entry(&self, slot: Slot) -> Entry
        ensures value { (bundle : List ℕ) → Serves self.now bundle →
            result ≡ entry_at bundle slot }
        ensures small { result.size < 16777216 }
    {
        self.front.entry(slot)
    }

    /// The bytes of the slot's tile, by one device call; none where there is no tile. In this order
    /// Stopped, NoTile, OutOfMemory, Device, Beyond.
    pub fn get<V: Volume>(&self, vol: &mut V, slot: Slot) -> Result<Bytes, StoreFault>
        requires serves { IsTrue (V.told vol.old) → self.now.stopped ≡ false →
            Serves self.now (contents Bundle (V.history vol.old)) }
        ensures ok { IsTrue (V.told vol.old) → IfOk result (λ tile. GetGives (contents Bundle
            (V.history vol.old)) slot tile) }
        ensures tile { IsTrue (V.told vol.old) →
            IfOk result (λ tile. tiles (contents Bundle (V.history vol.old)) slot ≡ Some tile) }
        ensures none { IsTrue (V.told vol.old) → IsErrOf result StoreFault.NoTile →
            tiles (contents Bundle (V.history vol.old)) slot ≡ None }
        ensures fits { IfOk result (λ tile. (0 < length tile) × (length tile < 16777216)) }
        ensures stopped { IsErrOf result StoreFault.Stopped ↔ (self.now.stopped ≡ true) }
        ensures refused { IsTrue (V.told vol.old) →
            IfErr result (λ f. GetRefuses (contents Bundle (V.history vol.old)) slot f) }
        ensures answers { IfErr result (λ f. GetFails f) }
        ensures during { IsTrue (V.told vol.old) → During (λ d. d ≡ current (V.history vol.old))
            (V.history vol.old) (V.history vol.new) }
        ensures calls { (V.history vol.new).moment ≤ (V.history vol.old).moment + 1 }
        ensures unread { IsErrOf result StoreFault.NoTile → vol.new ≡ vol.old }
        ensures idle { self.now.stopped ≡ true → vol.new ≡ vol.old }
        ensures told { Told V.told V.faults (CountsDevice result) vol.old vol.new }
    {
        if self.stopped {
            return Err(StoreFault::Stopped);
        }
        let entry = self.front.entry(slot);
        if entry.size == 0 {
            return Err(StoreFault::NoTile);
        }
        read_tile(self.alloc, vol, entry)
    }

    /// The bytes of the slot's tile, as `get` gives them, for callers that read many tiles in the
    /// order of their slots: they are cut from those that were read at once, and where they are not
    /// among them they are read with those of the tiles behind it that lie near, at most 1 MiB. A
    /// tile for which there is no room, or of which the bundle has not all bytes, is read alone.
    /// In this order Stopped, NoTile, Device for bytes read at once, OutOfMemory, Device, Beyond.
    pub fn get_ahead<V: Volume>(
        &self,
        vol: &mut V,
        slot: Slot,
        ahead: &mut Ahead,
    ) -> Result<Bytes, StoreFault>
        requires serves { IsTrue (V.told vol.old) → self.now.stopped ≡ false →
            Serves self.now (contents Bundle (V.history vol.old)) }
        requires ahead { IsTrue (V.told vol.old) → IsAheadOf (contents Bundle (V.history vol.old))
            ahead.old }
        ensures ahead { IsTrue (V.told vol.old) → IsAheadOf (contents Bundle (V.history vol.old))
            ahead.new }
        ensures ok { IsTrue (V.told vol.old) → IfOk result (λ tile. GetGives (contents Bundle
            (V.history vol.old)) slot tile) }
        ensures tile { IsTrue (V.told vol.old) →
            IfOk result (λ tile. tiles (contents Bundle (V.history vol.old)) slot ≡ Some tile) }
        ensures none { IsTrue (V.told vol.old) → IsErrOf result StoreFault.NoTile →
            tiles (contents Bundle (V.history vol.old)) slot ≡ None }
        ensures fits { IfOk result (λ tile. (0 < length tile) × (length tile < 16777216)) }
        ensures stopped { IsErrOf result StoreFault.Stopped ↔ (self.now.stopped ≡ true) }
        ensures refused { IsTrue (V.told vol.old) →
            IfErr result (λ f. GetRefuses (contents Bundle (V.history vol.old)) slot f) }
        ensures answers { IfErr result (λ f. GetFails f) }
        ensures during { IsTrue (V.told vol.old) → During (λ d. d ≡ current (V.history vol.old))
            (V.history vol.old) (V.history vol.new) }
        ensures calls { (V.history vol.new).moment ≤ (V.history vol.old).moment + 2 }
        ensures unread { IsErrOf result StoreFault.NoTile → vol.new ≡ vol.old }
        ensures idle { self.now.stopped ≡ true → vol.new ≡ vol.old }
        ensures told { Told V.told V.faults (CountsDevice result) vol.old vol.new }
    {
        if self.stopped {
            return Err(StoreFault::Stopped);
        }
        let entry = self.front.entry(slot);
        if entry.size == 0 {
            return Err(StoreFault::NoTile);
        }
        ahead.load(vol, &self.front, slot)?;
        if ahead.has(entry) {
            return Ok(ahead.cut(self.alloc, entry)?);
        }
        read_tile(self.alloc, vol, entry)
    }

    /// Puts the tiles, in their order.
    fn put_updates<V: Volume>(&mut self, vol: &mut V, updates: &Updates) -> Result<(), StoreFault>
        requires some { 1 ≤ length updates.now }
        requires most { length updates.now ≤ 64 }
        requires ready { IsTrue (V.told vol.old) → self.old.stopped ≡ false →
            IsReadyToPut self.old (current (V.history vol.old)) }
        ensures done { IsTrue (V.told vol.old) →
            OnOk result (HoldsClosed (bundle_after_puts (contents Bundle
            (V.history vol.old)) updates.now) (current (V.history vol.new))) }
        ensures stopped { IsErrOf result StoreFault.Stopped ↔ (self.old.stopped ≡ true) }
        ensures stops { self.new.stopped ≡ true ↔ ((self.old.stopped ≡ true) ⊎
            IsErrOf result StoreFault.Device) }
        ensures answers { IfErr result (λ f. GroupFails updates.now f) }
        ensures fits { OnOk result (EachFits updates.now) }
        ensures room { IsTrue (V.told vol.old) → OnOk result (length (contents Bundle
            (V.history vol.old)) + length (group_records updates.now) ≤ 2 ^ 40) }
        ensures full { IsTrue (V.told vol.old) → IfErr result (λ f. OnFull (λ len. NoRoom
            (length (contents Bundle (V.history vol.old))) updates.now len) f) }
        ensures images { IsTrue (V.told vol.old) → During (λ d. self.old.stopped ≡ false →
            IsReadable (contents Bundle (V.history vol.old))
            → EachImage (AllOrNone updates.now
            (tiles (contents Bundle (V.history vol.old)))) d) (V.history vol.old)
            (V.history vol.new) }
        ensures kept { IsTrue (V.told vol.old) → OnRefusal result
            (During (λ d. d ≡ current (V.history vol.old)) (V.history vol.old)
            (V.history vol.new)) }
        ensures ready { IsTrue (V.told vol.old) → self.old.stopped ≡ false → UnlessDevice result
            (IsReadyToPut self.new (current (V.history vol.new))) }
        ensures idle { self.old.stopped ≡ true → vol.new ≡ vol.old }
        ensures told { Told V.told V.faults (CountsDevice result) vol.old vol.new }
    {
        if self.stopped {
            return Err(StoreFault::Stopped);
        }
        check_tiles(updates)?;
        let put = put_tiles(vol, &mut self.front, updates);
        if let Err(StoreFault::Device) = put {
            self.stopped = true;
        }
        put
    }

    /// Puts the tile into the slot. In this order Stopped, EmptyTile, TileTooLarge, Device for the
    /// length, Full, Device. After Device the put stands or does not, and the session is stopped:
    /// `recover` is called, and a new session opened.
    pub fn put_blob<V: Volume>(
        &mut self,
        vol: &mut V,
        slot: Slot,
        tile: &[u8],
    ) -> Result<(), StoreFault>
        requires ready { IsTrue (V.told vol.old) → self.old.stopped ≡ false →
            IsReadyToPut self.old (current (V.history vol.old)) }
        ensures done { IsTrue (V.told vol.old) →
            OnOk result (HoldsClosed (bundle_after_put (contents Bundle
            (V.history vol.old)) slot tile.now) (current (V.history vol.new))) }
        ensures stopped { IsErrOf result StoreFault.Stopped ↔ (self.old.stopped ≡ true) }
        ensures stops { self.new.stopped ≡ true ↔ ((self.old.stopped ≡ true) ⊎
            IsErrOf result StoreFault.Device) }
        ensures answers { IfErr result (λ f. PutFails (length tile.now) f) }
        ensures fits { OnOk result ((0 < length tile.now) × (length tile.now ≤ 16777215)) }
        ensures room { IsTrue (V.told vol.old) →
            OnOk result (length (contents Bundle (V.history vol.old)) + 4 + length tile.now
            ≤ 2 ^ 40) }
        ensures full { IsTrue (V.told vol.old) →
            IfErr result (λ f. KeepsLength (length (contents Bundle (V.history vol.old))) f) }
        ensures images { IsTrue (V.told vol.old) → During (λ d. self.old.stopped ≡ false →
            IsReadable (contents Bundle (V.history vol.old))
            → EachImage (WithOrWithout slot tile.now
            (tiles (contents Bundle (V.history vol.old)))) d) (V.history vol.old)
            (V.history vol.new) }
        ensures kept { IsTrue (V.told vol.old) → OnRefusal result
            (During (λ d. d ≡ current (V.history vol.old)) (V.history vol.old)
            (V.history vol.new)) }
        ensures ready { IsTrue (V.told vol.old) → self.old.stopped ≡ false → UnlessDevice result
            (IsReadyToPut self.new (current (V.history vol.new))) }
        ensures idle { self.old.stopped ≡ true → vol.new ≡ vol.old }
        ensures told { Told V.told V.faults (CountsDevice result) vol.old vol.new }
    {
        self.put_updates(vol, &Updates::one(slot, tile))
    }

    /// Puts up to 64 tiles into their slots at once: in their order, so of two in one slot the last
    /// stands. In this order Stopped, the first tile that is empty or too large, Device for the
    /// length, Full, Device. After Device all of them stand or none does, and the session is
    /// stopped: `recover` is called, and a new session opened.
    pub fn put_group<V: Volume>(
        &mut self,
        vol: &mut V,
        updates: &[TileRec],
    ) -> Result<(), StoreFault>
        requires some { 1 ≤ length updates.now }
        requires most { length updates.now ≤ 64 }
        requires ready { IsTrue (V.told vol.old) → self.old.stopped ≡ false →
            IsReadyToPut self.old (current (V.history vol.old)) }
        ensures done { IsTrue (V.told vol.old) →
            OnOk result (HoldsClosed (bundle_after_puts (contents Bundle
            (V.history vol.old)) updates.now) (current (V.history vol.new))) }
        ensures stopped { IsErrOf result StoreFault.Stopped ↔ (self.old.stopped ≡ true) }
        ensures stops { self.new.stopped ≡ true ↔ ((self.old.stopped ≡ true) ⊎
            IsErrOf result StoreFault.Device) }
        ensures answers { IfErr result (λ f. GroupFails updates.now f) }
        ensures fits { OnOk result (EachFits updates.now) }
        ensures room { IsTrue (V.told vol.old) → OnOk result (length (contents Bundle
            (V.history vol.old)) + length (group_records updates.now) ≤ 2 ^ 40) }
        ensures full { IsTrue (V.told vol.old) → IfErr result (λ f. OnFull (λ len. NoRoom
            (length (contents Bundle (V.history vol.old))) updates.now len) f) }
        ensures images { IsTrue (V.told vol.old) → During (λ d. self.old.stopped ≡ false →
            IsReadable (contents Bundle (V.history vol.old))
            → EachImage (AllOrNone updates.now
            (tiles (contents Bundle (V.history vol.old)))) d) (V.history vol.old)
            (V.history vol.new) }
        ensures kept { IsTrue (V.told vol.old) → OnRefusal result
            (During (λ d. d ≡ current (V.history vol.old)) (V.history vol.old)
            (V.history vol.new)) }
        ensures ready { IsTrue (V.told vol.old) → self.old.stopped ≡ false → UnlessDevice result
            (IsReadyToPut self.new (current (V.history vol.new))) }
        ensures idle { self.old.stopped ≡ true → vol.new ≡ vol.old }
        ensures told { Told V.told V.faults (CountsDevice result) vol.old vol.new }
    {
        self.put_updates(vol, &Updates::all(updates))
    }

    /// Builds a bundle of each slot's last tile in the place of an empty file. In this order
    /// Stopped, the first tile that is empty or too large, OutOfMemory, Device for the length,
    /// NotEmpty, Device. After Device the session is stopped: `recover` is called, and a new
    /// session opened.
    pub fn build<V: Volume>(&mut self, vol: &mut V, tiles: &[TileRec]) -> Result<(), StoreFault>
        requires ready { IsTrue (V.told vol.old) → self.old.stopped ≡ false →
            IsReadyToPut self.old (current (V.history vol.old)) }
        ensures done { IsTrue (V.told vol.old) →
            OnOk result (HoldsClosed (layout (last_tiles tiles.now))
            (current (V.history vol.new))) }
        ensures holds { IsTrue (V.told vol.old) → OnOk result
            (HoldsTiles (contents Bundle (V.history vol.new)) (last_tiles tiles.now)) }
        ensures stopped { IsErrOf result StoreFault.Stopped ↔ (self.old.stopped ≡ true) }
        ensures stops { self.new.stopped ≡ true ↔ ((self.old.stopped ≡ true) ⊎
            IsErrOf result StoreFault.Device) }
        ensures answers { IfErr result (λ f. BuildFails tiles.now f) }
        ensures fits { OnOk result (EachFits tiles.now) }
        ensures empty { IsTrue (V.told vol.old) → OnOk result (contents Bundle (V.history vol.old)
            ≡ []) }
        ensures not_empty { IsTrue (V.told vol.old) →
            IfErr result (λ f. KeepsLength (length (contents Bundle (V.history vol.old))) f) }
        ensures beside { IsTrue (V.told vol.old) →
            0 < length (contents Bundle (V.history vol.old)) →
            During (λ d. d ≡ current (V.history vol.old)) (V.history vol.old) (V.history vol.new) }
        ensures images { IsTrue (V.told vol.old) → During (λ d. self.old.stopped ≡ false →
            contents Bundle (V.history vol.old) ≡ []
            → EachImage (EmptyOr (last_tiles tiles.now)) d) (V.history vol.old)
            (V.history vol.new) }
        ensures kept { IsTrue (V.told vol.old) → OnRefusal result
            (During (λ d. d ≡ current (V.history vol.old)) (V.history vol.old)
            (V.history vol.new)) }
        ensures ready { IsTrue (V.told vol.old) → self.old.stopped ≡ false → UnlessDevice result
            (IsReadyToPut self.new (current (V.history vol.new))) }
        ensures idle { self.old.stopped ≡ true → vol.new ≡ vol.old }
        ensures early { IsErrOf result StoreFault.OutOfMemory → vol.new ≡ vol.old }
        ensures told { Told V.told V.faults (CountsDevice result) vol.old vol.new }
    {
        if self.stopped {
            return Err(StoreFault::Stopped);
        }
        check_tiles(&Updates::all(tiles))?;
        let table = number_tiles(self.alloc, tiles)?;
        let mut buffer = record_buffer(self.alloc, tiles)?;
        let built = build_on(
            vol,
            tiles,
            table.as_slice(),
            buffer.as_mut_slice(),
            &mut self.front,
        );
        if let Err(StoreFault::Device) = built {
            self.stopped = true;
        }
        built
    }
}
