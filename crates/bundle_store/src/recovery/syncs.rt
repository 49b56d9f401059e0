//! The syncs of a recovery, and the bundle cut to nothing.

ghost use Rattle.std.specs.Prelude.{◌≡◌, [], IsTrue, OnOk};
ghost use Rattle.outside_io.specs.declared.volume.VolFile.TheVariants.{Bundle};
ghost use Rattle.outside_io.specs.volume.Disk.{IsSettled, change, settled};
ghost use Rattle.outside_io.specs.streams.Faults.{CountsFaults};
ghost use Rattle.outside_io.specs.volume.History.{During, contents, current};
ghost use Rattle.bundle_store.specs.Recover.{synced_disk};
ghost use Rattle.bundle_store.specs.inside.Parts.{EachWholeOrNone, KeepsJournal, Narrows};
ghost use Rattle.bundle_store.specs.Told.{Changes};

use outside_io::{Failed, VolFile, Volume};

/// Syncs both files, the journal first.
pub(crate) fn sync_both<V: Volume>(vol: &mut V) -> Result<(), Failed>
    ensures done { IsTrue (V.told vol.old) → OnOk result (current (V.history vol.new)
        ≡ synced_disk (current (V.history vol.old))) }
    ensures changes { Changes V.told V.history V.faults (CountsFaults result)
        Narrows vol.old vol.new }
{
    vol.sync(VolFile::Journal)?;
    vol.sync(VolFile::Bundle)
}

/// Cuts the bundle to nothing, and syncs it.
pub(crate) fn wipe<V: Volume>(vol: &mut V) -> Result<(), Failed>
    requires { IsTrue (V.told vol.old) → IsSettled (current (V.history vol.old)).bundle }
    ensures done { IsTrue (V.told vol.old) → OnOk result (current (V.history vol.new)
        ≡ change Bundle (λ _. settled []) (current (V.history vol.old))) }
    ensures bytes { IsTrue (V.told vol.old) → During (EachWholeOrNone (contents Bundle
        (V.history vol.old))) (V.history vol.old) (V.history vol.new) }
    ensures changes { Changes V.told V.history V.faults (CountsFaults result)
        KeepsJournal vol.old vol.new }
{
    vol.cut(VolFile::Bundle, 0)?;
    vol.sync(VolFile::Bundle)
}
