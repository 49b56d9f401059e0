//! What a crash left is made whole by the journal.

ghost use Rattle.std.specs.Prelude.{◌≡◌, ◌⊎◌, ◌∷◌, [], drop, length, IsTrue, IfErr, IfOk, OnOk};
ghost use Rattle.outside_io.specs.declared.volume.VolFile.TheVariants.{Bundle, Journal};
ghost use Rattle.outside_io.specs.volume.Disk.{IsQuiet, settled};
ghost use Rattle.outside_io.specs.streams.Faults.{CountsFaults};
ghost use Rattle.outside_io.specs.volume.History.{During, contents, current};
ghost use Rattle.side_journal.specs.Groups.{AreNew};
ghost use Rattle.side_journal.specs.Says.{IsOpen, SaysBuild};
ghost use Rattle.bundle_store.specs.Causes.{CountsDevice};
ghost use Rattle.bundle_store.specs.inside.Grouped.{SaysThese};
ghost use Rattle.bundle_store.specs.inside.Parts.{EachKeeps, EachMidway, EachWholeOrNone};
ghost use Rattle.bundle_store.specs.Images.{EachImage};
ghost use Rattle.bundle_store.specs.Recover.{EachBundleMidway, EachKeptOrOnTheWay, EachOnTheWay, EachStandsForOneOf, IsRecovered, Leaves, LeavesJournal, OnBadJournal, OnClosed, RecoverFails, RecoverySays, synced_disk};
ghost use Rattle.bundle_store.specs.Tiles.{no_tiles};
ghost use Rattle.bundle_store.specs.Told.{Changes, Told};
ghost use Rattle.bundle_store.specs.inside.Finishing.{Finishes};

mod syncs;

use crate::StoreFault;
use crate::put::steps::{group_of_one, redo};
use bundle_index::BundleHeader;
use outside_io::{Failed, VolFile, Volume};
use side_journal::{Body, Group, JournalState, close_gate, read_journal};
use syncs::{sync_both, wipe};

/// What recovery has done.
#[derive(Clone, Copy, Debug, PartialEq, Eq)]
pub enum Recovery {
    /// Nothing: the journal did not count.
    Closed,
    /// The journal's tiles were put.
    Applied,
    /// A bundle that was being built is empty again.
    Emptied,
}

/// Empties a bundle that was being built, and closes the journal.
fn empty<V: Volume>(vol: &mut V) -> Result<(), Failed>
    requires quiet { IsTrue (V.told vol.old) → IsQuiet (current (V.history vol.old)) }
    requires opened { IsTrue (V.told vol.old) → IsOpen (contents Journal (V.history vol.old)) }
    requires says { IsTrue (V.told vol.old) → SaysBuild (contents Journal (V.history vol.old)) }
    ensures done { IsTrue (V.told vol.old) → OnOk result (current (V.history vol.new) ≡ record {
      bundle = settled [];
      journal = settled (0 ∷ drop 1 (contents Journal (V.history vol.old)));
    }) }
    ensures bytes { IsTrue (V.told vol.old) → During (EachWholeOrNone (contents Bundle
        (V.history vol.old))) (V.history vol.old) (V.history vol.new) }
    ensures files { IsTrue (V.told vol.old) →
        During (EachOnTheWay (contents Bundle (V.history vol.old)) (contents Journal
        (V.history vol.old))) (V.history vol.old) (V.history vol.new) }
    ensures changes { Changes V.told V.history V.faults (CountsFaults result)
        (λ _. EachImage (λ map. map ≡ no_tiles)) vol.old vol.new }
{
    wipe(vol)?;
    close_gate(vol)
}

/// Puts the tiles of an open journal, unless the bundle is too short for them: `place` is where the
/// journal has the bundle's new length.
fn finish_group<V: Volume>(
    vol: &mut V,
    header: &BundleHeader,
    group: &Group,
    size: u64,
    place: u64,
) -> Result<Recovery, StoreFault>
    requires new { AreNew group.now }
    requires header { length header.now ≡ 64 }
    requires place { (place ≡ 16) ⊎ (place ≡ 24) }
    requires quiet { IsTrue (V.told vol.old) → IsQuiet (current (V.history vol.old)) }
    requires opened { IsTrue (V.told vol.old) → IsOpen (contents Journal (V.history vol.old)) }
    requires says { IsTrue (V.told vol.old) →
        SaysThese (contents Journal (V.history vol.old)) group.now header.now size place }
    ensures bytes { IsTrue (V.told vol.old) →
        During (EachMidway (contents Bundle (V.history vol.old)) (contents Journal
        (V.history vol.old))) (V.history vol.old) (V.history vol.new) }
    ensures files { IsTrue (V.told vol.old) →
        During (EachOnTheWay (contents Bundle (V.history vol.old)) (contents Journal
        (V.history vol.old))) (V.history vol.old) (V.history vol.new) }
    ensures finishes { Finishes V.told V.history result vol.old vol.new }
    ensures changes { Changes V.told V.history V.faults (CountsDevice result)
        (λ old. EachKeeps old.bundle.now old.journal.now) vol.old vol.new }
{
    if vol.len(VolFile::Bundle)? < size {
        return Err(StoreFault::BadJournal { place, found: size });
    }
    redo(vol, header, group)?;
    Ok(Recovery::Applied)
}

/// Does what the journal says, nothing being pending.
fn finish<V: Volume>(vol: &mut V) -> Result<Recovery, StoreFault>
    requires quiet { IsTrue (V.told vol.old) → IsQuiet (current (V.history vol.old)) }
    ensures bytes { IsTrue (V.told vol.old) →
        During (EachMidway (contents Bundle (V.history vol.old)) (contents Journal
        (V.history vol.old))) (V.history vol.old) (V.history vol.new) }
    ensures files { IsTrue (V.told vol.old) →
        During (EachOnTheWay (contents Bundle (V.history vol.old)) (contents Journal
        (V.history vol.old))) (V.history vol.old) (V.history vol.new) }
    ensures finishes { Finishes V.told V.history result vol.old vol.new }
    ensures changes { Changes V.told V.history V.faults (CountsDevice result)
        (λ old. EachKeeps old.bundle.now old.journal.now) vol.old vol.new }
{
    let state = read_journal(vol)?;
    match &state {
        JournalState::Closed => Ok(Recovery::Closed),
        JournalState::Bad { place, found } => Err(StoreFault::BadJournal {
            place: *place,
            found: *found,
        }),
        JournalState::Open(body) => match body {
            Body::Tile {
                slot,
                entry,
                length,
                header,
            } => finish_group(vol, header, &group_of_one(*slot, *entry), *length, 24),
            Body::Group {
                group,
                length,
                header,
            } => finish_group(vol, header, group, *length, 16),
            Body::Build => {
                empty(vol)?;
                Ok(Recovery::Emptied)
            }
        },
    }
}

/// Makes whole what a crash left. It may itself be cut off by a crash.
pub fn recover<V: Volume>(vol: &mut V) -> Result<Recovery, StoreFault>
    ensures says { IsTrue (V.told vol.old) → RecoverySays (contents Bundle (V.history vol.old))
        (contents Journal (V.history vol.old)) result }
    ensures images { IsTrue (V.told vol.old) →
        During (EachStandsForOneOf (current (V.history vol.old))) (V.history vol.old)
        (V.history vol.new) }
    ensures bytes { IsTrue (V.told vol.old) →
        During (EachBundleMidway (current (V.history vol.old))) (V.history vol.old)
        (V.history vol.new) }
    ensures files { IsTrue (V.told vol.old) →
        During (EachKeptOrOnTheWay (current (V.history vol.old))) (V.history vol.old)
        (V.history vol.new) }
    ensures done { IsTrue (V.told vol.old) →
        OnOk result (IsRecovered (contents Bundle (V.history vol.old)) (contents Journal
        (V.history vol.old)) (current (V.history vol.new))) }
    ensures leaves { IsTrue (V.told vol.old) → IfOk result (λ r. Leaves (contents Bundle
        (V.history vol.old)) (contents Journal (V.history vol.old)) r
        (contents Bundle (V.history vol.new))) }
    ensures journal { IsTrue (V.told vol.old) → IfOk result (λ r. LeavesJournal
        (contents Journal (V.history vol.old)) r (contents Journal (V.history vol.new))) }
    ensures closed { IsTrue (V.told vol.old) → OnClosed result (current (V.history vol.new)
        ≡ synced_disk (current (V.history vol.old))) }
    ensures answers { IfErr result (λ f. RecoverFails f) }
    ensures refused { IsTrue (V.told vol.old) → OnBadJournal result (current (V.history vol.new)
        ≡ synced_disk (current (V.history vol.old))) }
    ensures told { Told V.told V.faults (CountsDevice result) vol.old vol.new }
{
    sync_both(vol)?;
    finish(vol)
}
