//! The check of a bundle: each entry, and the number in front of each tile.

ghost use Rattle.std.specs.Prelude.{◌≡◌, ◌+◌, ◌^◌, ◌<◌, ◌≤◌, ◌==◌, if◌then◌else◌, None, length, IsTrue, IfOk};
ghost use Rattle.outside_io.specs.declared.volume.VolFile.TheVariants.{Bundle};
ghost use Rattle.outside_io.specs.streams.Faults.{CountsFaults};
ghost use Rattle.outside_io.specs.volume.History.{contents};
ghost use Rattle.bundle_index.specs.Sizes.{slot_count};
ghost use Rattle.bundle_store.specs.Ahead.{IsAheadOf};
ghost use Rattle.bundle_store.specs.Check.{Reports};
ghost use Rattle.bundle_store.specs.Kept.{Keeps};
ghost use Rattle.bundle_store.specs.inside.Checking.{IsSmall, NextReport, Sees};
ghost use Rattle.bundle_store.specs.Told.{OnlyReads};

mod words;

use crate::front::Front;
use bundle_index::{INDEX_END, SLOT_COUNT, Slot};
use outside_io::{Failed, Volume};
use words::Words;

/// What a check of a bundle has found.
#[derive(Clone, Copy, Debug, PartialEq, Eq)]
pub struct CheckReport {
    /// How many slots have a tile.
    pub tiles: u32,
    /// How many bytes these tiles have.
    pub bytes: u64,
    /// How many of their entries are bad.
    pub bad: u32,
    /// The first of these slots.
    pub first_bad: Option<Slot>,
}

/// The place of the first tile: behind the header, the index and the tile's own size.
const FIRST_TILE: u64 = INDEX_END + 4;

/// What a check sees of a slot.
#[derive(Clone, Copy)]
struct Look {
    /// How many bytes its tile has; 0 for none.
    size: u32,
    /// Whether its entry is bad.
    bad: bool,
}

/// Looks at the slot of this number, in a bundle of `len` bytes.
fn look_at<V: Volume>(
    vol: &mut V,
    front: &Front,
    number: u16,
    len: u64,
    words: &mut Words,
) -> Result<Look, Failed>
    requires number { number < slot_count }
    requires keeps { IsTrue (V.told vol.old) → Keeps front.now (contents Bundle
        (V.history vol.old)) }
    requires len { IsTrue (V.told vol.old) → len ≡ length (contents Bundle (V.history vol.old)) }
    requires words { IsTrue (V.told vol.old) → IsAheadOf (contents Bundle (V.history vol.old))
        words.old }
    ensures sees { IsTrue (V.told vol.old) → IfOk result
        (λ l. Sees (contents Bundle (V.history vol.old)) number l) }
    ensures small { IfOk result (λ l. l.size < 2 ^ 24) }
    ensures words { IsTrue (V.told vol.old) → IsAheadOf (contents Bundle (V.history vol.old))
        words.new }
    ensures calls { (V.history vol.new).moment ≤ (V.history vol.old).moment + 1 }
    ensures needed { IfOk result (λ l. (V.history vol.new).moment
        ≤ (V.history vol.old).moment + (if l.size == 0 then 0 else 1)) }
    ensures reads { OnlyReads V.told V.history V.faults (CountsFaults result) vol.old vol.new }
{
    let entry = front.entry_of_number(number);
    let size = entry.size;
    if size == 0 {
        return Ok(Look { size, bad: false });
    }
    if entry.offset < FIRST_TILE || entry.offset + size as u64 > len {
        return Ok(Look { size, bad: true });
    }
    let stored = words.number_at(vol, front, number, entry.offset - 4)?;
    Ok(Look {
        size,
        bad: stored != size,
    })
}

/// The report with one slot more.
fn with_slot(report: &CheckReport, number: u16, size: u32, bad: bool) -> CheckReport
    requires number { number < slot_count }
    requires size { size < 2 ^ 24 }
    requires small { IsSmall number report.now }
    ensures next { NextReport number size bad report.now result }
    ensures small { IsSmall (number + 1) result }
{
    CheckReport {
        tiles: if size == 0 {
            report.tiles
        } else {
            report.tiles + 1
        },
        bytes: report.bytes + size as u64,
        bad: if bad { report.bad + 1 } else { report.bad },
        first_bad: if bad && report.first_bad.is_none() {
            Slot::of_number(number)
        } else {
            report.first_bad
        },
    }
}

/// The report of a bundle of `len` bytes, by its index, with one device call for each tile at most,
/// and fewer where tiles lie near to one another in the order of their slots.
pub(crate) fn check_index<V: Volume>(
    vol: &mut V,
    front: &Front,
    len: u64,
) -> Result<CheckReport, Failed>
    requires keeps { IsTrue (V.told vol.old) → Keeps front.now (contents Bundle
        (V.history vol.old)) }
    requires len { IsTrue (V.told vol.old) → len ≡ length (contents Bundle (V.history vol.old)) }
    ensures report { IsTrue (V.told vol.old) →
        IfOk result (λ r. Reports (contents Bundle (V.history vol.old)) slot_count r) }
    ensures calls { (V.history vol.new).moment ≤ (V.history vol.old).moment + slot_count }
    ensures needed { IfOk result (λ r.
        (V.history vol.new).moment ≤ (V.history vol.old).moment + r.tiles) }
    ensures reads { OnlyReads V.told V.history V.faults (CountsFaults result) vol.old vol.new }
{
    let mut all = CheckReport {
        tiles: 0,
        bytes: 0,
        bad: 0,
        first_bad: None,
    };
    let mut words = Words::none();
    for number in 0..SLOT_COUNT {
        let seen = look_at(vol, front, number, len, &mut words)?;
        all = with_slot(&all, number, seen.size, seen.bad);
    }
    Ok(all)
}
