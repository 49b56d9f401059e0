//! The steps of a put: the records behind the bundle's end, the journal, and the header and the
//! entries over the bundle.

ghost use Rattle.std.specs.Prelude.{◌≡◌, ◌⊎◌, ◌+◌, ◌^◌, ◌∷◌, ◌++◌, ◌≤◌, ℕ, [], drop, length, IsTrue, OnOk};
ghost use Rattle.outside_io.specs.declared.volume.VolFile.TheVariants.{Bundle, Journal};
ghost use Rattle.outside_io.specs.volume.Disk.{IsQuiet, settled};
ghost use Rattle.outside_io.specs.streams.Faults.{CountsFaults};
ghost use Rattle.outside_io.specs.volume.History.{During, contents, current};
ghost use Rattle.bundle_index.specs.Sizes.{index_end};
ghost use Rattle.side_journal.specs.Bodies.{IsWritten, body_bytes};
ghost use Rattle.side_journal.specs.Groups.{AreNew};
ghost use Rattle.bundle_store.specs.Build.{EachFits};
ghost use Rattle.side_journal.specs.Says.{IsOpen, IsWhole};
ghost use Rattle.bundle_store.specs.GroupPuts.{group_records, with_entries};
ghost use Rattle.bundle_store.specs.inside.Grouped.{AreUnderWay, EachUnderAll, IsOfGroup, SaysThese};
ghost use Rattle.bundle_store.specs.LaidOver.{size_in, with_body};
ghost use Rattle.bundle_store.specs.Images.{EachImage};
ghost use Rattle.bundle_store.specs.Recover.{EachOnTheWay};
ghost use Rattle.bundle_store.specs.Tiles.{IsBundle, IsReadable, tiles};
ghost use Rattle.bundle_store.specs.inside.Parts.{IsIdle};
ghost use Rattle.bundle_store.specs.Told.{Changes};

use super::append::append_records;
use super::overlay::write_all_over;
use crate::updates::Updates;
use bundle_index::{BundleHeader, Entry, Slot};
use outside_io::{Failed, Volume};
use side_journal::{Body, Group, arm, close_gate, open_gate, prepare};

/// The entry of one slot.
pub(crate) fn group_of_one(slot: Slot, entry: Entry) -> Group
    ensures { result ≡ (slot, entry) ∷ [] }
{
    let mut group = Group::new();
    group.push(slot, entry);
    group
}

/// Lays the header and the entries of an open journal over the bundle, and closes the journal.
pub(crate) fn redo<V: Volume>(
    vol: &mut V,
    header: &BundleHeader,
    group: &Group,
) -> Result<(), Failed>
    requires new { AreNew group.now }
    requires header { length header.now ≡ 64 }
    requires long { IsTrue (V.told vol.old) → index_end ≤ length (contents Bundle
        (V.history vol.old)) }
    requires quiet { IsTrue (V.told vol.old) → IsQuiet (current (V.history vol.old)) }
    requires opened { IsTrue (V.told vol.old) → IsOpen (contents Journal (V.history vol.old)) }
    ensures done { IsTrue (V.told vol.old) → OnOk result (current (V.history vol.new) ≡ record {
      bundle = settled (with_entries header.now group.now (contents Bundle (V.history vol.old)));
      journal = settled (0 ∷ drop 1 (contents Journal (V.history vol.old)));
    }) }
    ensures bytes { IsTrue (V.told vol.old) → During (EachUnderAll header.now group.now
        (contents Bundle (V.history vol.old))) (V.history vol.old) (V.history vol.new) }
    ensures files { IsTrue (V.told vol.old) → (size place : ℕ)
        → SaysThese (contents Journal (V.history vol.old)) group.now header.now size place
        → size ≤ length (contents Bundle (V.history vol.old))
        → During (EachOnTheWay (contents Bundle (V.history vol.old)) (contents Journal
        (V.history vol.old))) (V.history vol.old) (V.history vol.new) }
    ensures changes { Changes V.told V.history V.faults (CountsFaults result)
        (λ old d. AreUnderWay old.bundle.now old.journal.now group.now header.now
        → EachImage (λ map. map ≡ tiles (with_entries header.now group.now old.bundle.now)) d)
        vol.old vol.new }
{
    write_all_over(vol, header, group)?;
    close_gate(vol)
}

/// Opens the gate, lays the header and the entries over the bundle, and closes the gate.
fn apply<V: Volume>(vol: &mut V, header: &BundleHeader, group: &Group) -> Result<(), Failed>
    requires new { AreNew group.now }
    requires header { length header.now ≡ 64 }
    requires long { IsTrue (V.told vol.old) → index_end ≤ length (contents Bundle
        (V.history vol.old)) }
    requires whole { IsTrue (V.told vol.old) →
        IsWhole (length (contents Journal (V.history vol.old))) }
    requires quiet { IsTrue (V.told vol.old) → IsQuiet (current (V.history vol.old)) }
    ensures done { IsTrue (V.told vol.old) → OnOk result (current (V.history vol.new) ≡ record {
      bundle = settled (with_entries header.now group.now (contents Bundle (V.history vol.old)));
      journal = settled (0 ∷ drop 1 (contents Journal (V.history vol.old)));
    }) }
    ensures changes { Changes V.told V.history V.faults (CountsFaults result)
        (λ old d. IsReadable old.bundle.now →
        AreUnderWay old.bundle.now old.journal.now group.now header.now
        → EachImage (λ map. (map ≡ tiles old.bundle.now) ⊎
        (map ≡ tiles (with_entries header.now group.now old.bundle.now))) d) vol.old vol.new }
{
    open_gate(vol)?;
    redo(vol, header, group)
}

/// Writes the tiles' records behind the bundle's end, and the body into the closed journal. The
/// bundle's tiles stay.
fn stage<V: Volume>(vol: &mut V, end: u64, updates: &Updates, body: &Body) -> Result<(), Failed>
    requires fit { EachFits updates.now }
    requires room { end + length (group_records updates.now) ≤ 2 ^ 40 }
    requires body { IsWritten body.now }
    requires end { IsTrue (V.told vol.old) → end ≡ length (contents Bundle (V.history vol.old)) }
    requires idle { IsTrue (V.told vol.old) → IsIdle (current (V.history vol.old)) }
    ensures done { IsTrue (V.told vol.old) → OnOk result (current (V.history vol.new) ≡ record {
      bundle = settled (contents Bundle (V.history vol.old) ++ group_records updates.now);
      journal = settled (0 ∷ body_bytes body.now);
    }) }
    ensures changes { Changes V.told V.history V.faults (CountsFaults result)
        (λ old d. IsBundle old.bundle.now → EachImage (λ map. map ≡ tiles old.bundle.now) d)
        vol.old vol.new }
{
    append_records(vol, end, updates)?;
    prepare(vol)?;
    arm(vol, body)
}

/// Puts what the body says, behind whose gate it stands.
pub(crate) fn apply_body<V: Volume>(vol: &mut V, body: &Body) -> Result<(), Failed>
    requires body { IsOfGroup body.now }
    requires long { IsTrue (V.told vol.old) → index_end ≤ length (contents Bundle
        (V.history vol.old)) }
    requires within { IsTrue (V.told vol.old) → size_in body.now ≤ length (contents Bundle
        (V.history vol.old)) }
    requires least { IsTrue (V.told vol.old) → index_end ≤ size_in body.now }
    requires holds { IsTrue (V.told vol.old) →
        contents Journal (V.history vol.old) ≡ 0 ∷ body_bytes body.now }
    requires quiet { IsTrue (V.told vol.old) → IsQuiet (current (V.history vol.old)) }
    ensures done { IsTrue (V.told vol.old) → OnOk result (current (V.history vol.new) ≡ record {
      bundle = settled (with_body body.now (contents Bundle (V.history vol.old)));
      journal = settled (0 ∷ body_bytes body.now);
    }) }
    ensures changes { Changes V.told V.history V.faults (CountsFaults result)
        (λ old d. IsReadable old.bundle.now → IsReadable (with_body body.now old.bundle.now)
        → EachImage (λ map. (map ≡ tiles old.bundle.now) ⊎
        (map ≡ tiles (with_body body.now old.bundle.now))) d) vol.old vol.new }
{
    match body {
        Body::Group { group, header, .. } => apply(vol, header, group),
        _ => Ok(()),
    }
}

/// Puts the tiles on a bundle of `end` bytes, by the body that names their entries and the bundle's
/// new header.
pub(crate) fn commit<V: Volume>(
    vol: &mut V,
    end: u64,
    updates: &Updates,
    body: &Body,
) -> Result<(), Failed>
    requires fit { EachFits updates.now }
    requires room { end + length (group_records updates.now) ≤ 2 ^ 40 }
    requires body { IsOfGroup body.now }
    requires names { size_in body.now ≡ end + length (group_records updates.now) }
    requires least { IsTrue (V.told vol.old) → index_end ≤ end }
    requires end { IsTrue (V.told vol.old) → end ≡ length (contents Bundle (V.history vol.old)) }
    requires idle { IsTrue (V.told vol.old) → IsIdle (current (V.history vol.old)) }
    ensures done { IsTrue (V.told vol.old) → OnOk result (current (V.history vol.new) ≡ record {
      bundle = settled (with_body body.now (contents Bundle (V.history vol.old)
          ++ group_records updates.now));
      journal = settled (0 ∷ body_bytes body.now);
    }) }
    ensures changes { Changes V.told V.history V.faults (CountsFaults result)
        (λ old d. IsBundle old.bundle.now →
        IsReadable (with_body body.now (old.bundle.now ++ group_records updates.now))
        → EachImage (λ map. (map ≡ tiles old.bundle.now) ⊎ (map ≡ tiles
        (with_body body.now (old.bundle.now ++ group_records updates.now)))) d) vol.old vol.new }
{
    stage(vol, end, updates, body)?;
    apply_body(vol, body)
}
