//! Bytes of a bundle that are read by one device call: of one tile, or from one place to another.

ghost use Rattle.std.specs.Prelude.{◌≡◌, ◌+◌, ◌-◌, ◌<◌, ◌≤◌, ℕ, length, min, take, IsTrue, IfOk, IfErr};
ghost use Rattle.outside_io.specs.declared.volume.VolFile.TheVariants.{Bundle};
ghost use Rattle.outside_io.specs.streams.Faults.{CountsFaults};
ghost use Rattle.outside_io.specs.volume.History.{contents};
ghost use Rattle.bundle_index.specs.Entry.{IsEntry, entry_at};
ghost use Rattle.bundle_store.specs.Ahead.{IsAheadOf};
ghost use Rattle.bundle_store.specs.Causes.{CountsDevice};
ghost use Rattle.bundle_store.specs.Session.{GetGives, GetRefuses};
ghost use Rattle.bundle_store.specs.Told.{OnlyReads};
ghost use Rattle.bundle_store.specs.inside.Reading.{ReadFails};

use crate::StoreFault;
use bundle_index::Entry;
use outside_io::{Bytes, Failed, VolFile, Volume};
use std::alloc::Global;

/// How many bytes between two parts of a bundle are read with them at most.
pub(crate) const MOST_GAP: u64 = 4096;

/// Bytes of a bundle, from a place up to another.
#[derive(Clone, Copy)]
pub(crate) struct Span {
    pub(crate) start: u64,
    pub(crate) end: u64,
}

/// The bytes that an entry names, by one device call. In this order OutOfMemory, Device, Beyond.
pub(crate) fn read_tile<V: Volume>(
    alloc: Global,
    vol: &mut V,
    entry: Entry,
) -> Result<Bytes, StoreFault>
    requires entry { IsEntry entry }
    requires some { 0 < entry.size }
    ensures ok { IsTrue (V.told vol.old) → (slot : ℕ)
        → entry ≡ entry_at (contents Bundle (V.history vol.old)) slot
        → IfOk result (λ tile. GetGives (contents Bundle (V.history vol.old)) slot tile) }
    ensures refused { IsTrue (V.told vol.old) → (slot : ℕ)
        → entry ≡ entry_at (contents Bundle (V.history vol.old)) slot
        → IfErr result (λ f. GetRefuses (contents Bundle (V.history vol.old)) slot f) }
    ensures size { IfOk result (λ tile. length tile ≡ entry.size) }
    ensures answers { IfErr result (λ f. ReadFails f) }
    ensures calls { (V.history vol.new).moment ≤ (V.history vol.old).moment + 1 }
    ensures reads { OnlyReads V.told V.history V.faults (CountsDevice result) vol.old vol.new }
{
    let size = entry.size as usize;
    let mut tile = Vec::with_capacity(alloc, size)?;
    tile.resize(size, 0)?;
    let got = vol.read(VolFile::Bundle, entry.offset, &mut tile)?;
    if got < size {
        return Err(StoreFault::Beyond {
            entry,
            got: got as u64,
        });
    }
    Ok(Bytes::from_vec(tile))
}

/// Reads the bytes of a span into the front of the room, as many as there are and have room, and
/// answers how many.
pub(crate) fn read_span<V: Volume>(
    vol: &mut V,
    span: Span,
    room: &mut [u8],
) -> Result<usize, Failed>
    requires { span.start ≤ span.end }
    ensures bytes { IsTrue (V.told vol.old) → IfOk result (λ n. IsAheadOf (contents Bundle
        (V.history vol.old)) (record { start = span.start; bytes = take n room.new })) }
    ensures count { IsTrue (V.told vol.old) → IfOk result (λ n. n ≡ min (min (span.end
        - span.start) (length room.old)) (length (contents Bundle (V.history vol.old))
        - span.start)) }
    ensures few { IfOk result (λ n. n ≤ length room.old) }
    ensures calls { (V.history vol.new).moment ≤ (V.history vol.old).moment + 1 }
    ensures reads { OnlyReads V.told V.history V.faults (CountsFaults result) vol.old vol.new }
{
    let len = ((span.end - span.start) as usize).min(room.len());
    vol.read(VolFile::Bundle, span.start, &mut room[..len])
}
