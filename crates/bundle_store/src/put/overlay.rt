//! The header and the entries of a put, written over the bundle.

ghost use Rattle.std.specs.Prelude.{◌≡◌, ◌≤◌, length, IsTrue, OnOk};
ghost use Rattle.outside_io.specs.declared.volume.VolFile.TheVariants.{Bundle};
ghost use Rattle.outside_io.specs.volume.Disk.{IsSettled, change, settled};
ghost use Rattle.outside_io.specs.streams.Faults.{CountsFaults};
ghost use Rattle.outside_io.specs.volume.History.{contents, current};
ghost use Rattle.bundle_index.specs.Sizes.{index_end};
ghost use Rattle.bundle_store.specs.GroupPuts.{with_entries};
ghost use Rattle.bundle_store.specs.inside.Grouped.{KeepsUnderAll};
ghost use Rattle.side_journal.specs.Groups.{AreNew};
ghost use Rattle.bundle_store.specs.Told.{Changes};

use crate::spelling::spell_entry;
use bundle_index::{BundleHeader, entry_place};
use outside_io::{Failed, VolFile, Volume};
use side_journal::Group;

/// Writes the header at the front and each entry at its place, in their order, and syncs the
/// bundle.
pub(crate) fn write_all_over<V: Volume>(
    vol: &mut V,
    header: &BundleHeader,
    group: &Group,
) -> Result<(), Failed>
    requires new { AreNew group.now }
    requires long { IsTrue (V.told vol.old) → index_end ≤ length (contents Bundle
        (V.history vol.old)) }
    requires settled { IsTrue (V.told vol.old) → IsSettled (current (V.history vol.old)).bundle }
    ensures done { IsTrue (V.told vol.old) → OnOk result (current (V.history vol.new)
        ≡ change Bundle (λ f. settled (with_entries header.now group.now f.now))
        (current (V.history vol.old))) }
    ensures changes { Changes V.told V.history V.faults (CountsFaults result)
        (KeepsUnderAll header.now group.now) vol.old vol.new }
{
    let front = header.bytes();
    vol.write(VolFile::Bundle, 0, &front)?;
    for i in 0..group.len() {
        let (slot, entry) = group.at(i);
        let place = entry_place(slot);
        let word = spell_entry(entry);
        vol.write(VolFile::Bundle, place, &word)?;
    }
    vol.sync(VolFile::Bundle)
}
