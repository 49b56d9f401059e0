//! The records of the tiles of a put, written at once.

ghost use Rattle.std.specs.Prelude.{◌≡◌, ◌+◌, ◌^◌, ◌≤◌, ◌++◌, length, IsTrue, OnOk};
ghost use Rattle.outside_io.specs.declared.volume.VolFile.TheVariants.{Bundle};
ghost use Rattle.outside_io.specs.volume.Disk.{IsSettled, change, settled};
ghost use Rattle.outside_io.specs.streams.Faults.{CountsFaults};
ghost use Rattle.outside_io.specs.volume.History.{contents, current};
ghost use Rattle.bundle_store.specs.Build.{EachFits};
ghost use Rattle.bundle_store.specs.GroupPuts.{group_records};
ghost use Rattle.bundle_store.specs.inside.Parts.{KeepsFront};
ghost use Rattle.bundle_store.specs.Told.{Changes};

use crate::updates::Updates;
use outside_io::{Failed, VolFile, Volume};

/// Writes the tiles, each behind its size, at the bundle's end, and syncs the bundle.
pub(crate) fn append_records<V: Volume>(
    vol: &mut V,
    end: u64,
    tiles: &Updates,
) -> Result<(), Failed>
    requires fit { EachFits tiles.now }
    requires room { end + length (group_records tiles.now) ≤ 2 ^ 40 }
    requires end { IsTrue (V.told vol.old) → end ≡ length (contents Bundle (V.history vol.old)) }
    requires settled { IsTrue (V.told vol.old) → IsSettled (current (V.history vol.old)).bundle }
    ensures done { IsTrue (V.told vol.old) → OnOk result (current (V.history vol.new)
        ≡ change Bundle (λ f. settled (f.now ++ group_records tiles.now))
        (current (V.history vol.old))) }
    ensures changes { Changes V.told V.history V.faults (CountsFaults result)
        KeepsFront vol.old vol.new }
{
    let mut at = end;
    for i in 0..tiles.len() {
        let tile = tiles.bytes(i);
        let size = (tile.len() as u32).to_le_bytes();
        vol.write(VolFile::Bundle, at, &size)?;
        vol.write(VolFile::Bundle, at + 4, tile)?;
        at += 4 + tile.len() as u64;
    }
    vol.sync(VolFile::Bundle)
}
