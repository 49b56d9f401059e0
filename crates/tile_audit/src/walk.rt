//! All tiles of a bundle, slot by slot: a batch is read, judged and given, and then the next.

ghost use Rattle.std.specs.Prelude.{◌≡◌, ◌+◌, ◌<◌, ◌≤◌, Err, IfOk, IfSome, IsTrue, OnOk, length};
ghost use Rattle.outside_io.specs.declared.volume.VolFile.TheVariants.{Bundle};
ghost use Rattle.outside_io.specs.streams.Faults.{IsCause};
ghost use Rattle.outside_io.specs.volume.History.{contents};
ghost use Rattle.bundle_index.specs.Sizes.{slot_count};
ghost use Rattle.bundle_store.specs.Told.{OnlyReads};
ghost use Rattle.tile_audit.specs.Gave.{AuditGave};
ghost use Rattle.tile_audit.specs.Served.{Served};
ghost use Rattle.tile_audit.specs.inside.Waits.{CountsLook, HasLooked, IsLookedAt, MayWait};
ghost use Rattle.tile_audit.specs.inside.Walks.{AreWaiting, BatchGave, WalkGave};

use crate::batch::{Batch, Content, Waiting};
use crate::judging::judge_all;
use crate::lines::{lines_of, total_text};
use crate::records::is_bad_record;
use crate::stop::AuditStop;
use crate::totals::Totals;
use bundle_index::{SLOT_COUNT, Slot};
use bundle_store::{Session, StoreFault};
use outside_io::{Sink, Volume, give_all};
use std::alloc::{AllocError, Global};
use std::thread::Threads;
use tile_workers::Gate;

/// The bundle that is audited.
#[derive(Drop)]
pub struct OpenBundle<'a> {
    pub session: &'a Session,
    /// How many bytes it has.
    pub length: u64,
}

/// The workers that judge tiles. Nothing of what they tell depends on them.
#[derive(Drop)]
pub struct Workers<'a, R, G> {
    /// What makes their threads.
    pub rt: &'a R,
    pub alloc: Global,
    /// How many there are, from 1 to 64.
    pub count: usize,
    /// What a worker passes before it judges a tile.
    pub gate: &'a G,
    ghost some: { 1 ≤ count },
    ghost few: { count ≤ 64 },
}

/// Reads the slot's tile: the number in front of it, and then its bytes. None where it has none.
fn look<V: Volume>(
    bundle: &OpenBundle<'_>,
    vol: &mut V,
    slot: Slot,
) -> Result<Option<Waiting>, AllocError>
    requires served { Served V.told V.history bundle.now.session.now bundle.now.length vol.old }
    ensures looked { IsTrue (V.told vol.old) →
        IfOk result (λ found. IsLookedAt (contents Bundle (V.history vol.old)) slot found) }
    ensures may_wait { IfOk result
        (λ found. IfSome found (λ w. (w.slot ≡ slot) × MayWait w)) }
    ensures reads { OnlyReads V.told V.history V.faults (CountsLook result) vol.old vol.new }
{
    let entry = bundle.session.kept_entry(slot);
    if entry.size == 0 {
        return Ok(None);
    }
    let unread = Waiting {
        slot,
        entry,
        content: Content::Failed,
    };
    let Ok(bad_record) = is_bad_record(vol, entry, bundle.length) else {
        return Ok(Some(unread));
    };
    match bundle.session.get(vol, slot) {
        Ok(bytes) => Ok(Some(Waiting {
            slot,
            entry,
            content: Content::Tile { bytes, bad_record },
        })),
        Err(StoreFault::NoTile) => Ok(None),
        Err(StoreFault::Beyond { entry, got }) => Ok(Some(Waiting {
            slot,
            entry,
            content: Content::Beyond { got },
        })),
        Err(StoreFault::OutOfMemory) => Err(AllocError),
        Err(_) => Ok(Some(unread)),
    }
}

/// Reads the slot's tile, and lets it wait where it has one.
fn wait_for<V: Volume>(
    bundle: &OpenBundle<'_>,
    vol: &mut V,
    slot: Slot,
    batch: &mut Batch,
) -> Result<(), AllocError>
    requires served { Served V.told V.history bundle.now.session.now bundle.now.length vol.old }
    ensures looked { OnOk result (HasLooked (V.told vol.old) (contents Bundle (V.history vol.old))
        slot batch.old batch.new (V.faults vol.old) (V.faults vol.new)) }
    ensures reads { OnlyReads V.told V.history V.faults (λ old new. old ≤ new) vol.old vol.new }
{
    match look(bundle, vol, slot) {
        Ok(Some(tile)) => batch.push(tile),
        Ok(None) => Ok(()),
        Err(want) => Err(want),
    }
}

/// The slot that has this number.
fn slot_numbered(number: u16) -> Slot
    requires { number < slot_count }
    ensures { result ≡ number }
{
    match Slot::of_number(number) {
        Some(slot) => slot,
        None => unreachable!(),
    }
}

/// Reads the tiles of a batch from this slot on, and answers the number of the slot behind them.
fn fill<V: Volume>(
    alloc: Global,
    bundle: &OpenBundle<'_>,
    vol: &mut V,
    workers: usize,
    from: u16,
) -> Result<(Batch, u16), AllocError>
    requires workers { workers ≤ 64 }
    requires from { from < slot_count }
    requires served { Served V.told V.history bundle.now.session.now bundle.now.length vol.old }
    ensures waiting { IfOk result (λ filled. AreWaiting (V.told vol.old)
        (contents Bundle (V.history vol.old)) from filled.1 filled.0
        (V.faults vol.old) (V.faults vol.new)) }
    ensures further { IfOk result (λ filled. (from < filled.1) × (filled.1 ≤ slot_count)) }
    ensures reads { OnlyReads V.told V.history V.faults (λ old new. old ≤ new) vol.old vol.new }
{
    let mut batch = Batch::new(alloc);
    let mut number = from;
    while number < SLOT_COUNT && !batch.is_full(workers) {
        wait_for(bundle, vol, slot_numbered(number), &mut batch)?;
        number += 1;
    }
    Ok((batch, number))
}

/// Judges the tiles of a batch, gives their lines and counts them.
fn give_batch<R: Threads + Sync, K: Sink, G: Gate>(
    workers: &Workers<'_, R, G>,
    batch: &Batch,
    out: &mut K,
    all: bool,
    totals: &mut Totals,
) -> Result<(), AuditStop>
    requires { totals.old.tiles + length batch.now ≤ 16384 }
    ensures gave { BatchGave all batch.now result totals.old totals.new
        (K.held out.old) (K.held out.new) }
    ensures output_failed { IsCause (result ≡ Err AuditStop.Output) (K.faults out.old)
        (K.faults out.new) }
{
    let tiles = batch.as_slice();
    let Ok(told) = judge_all(
        workers.rt,
        workers.alloc,
        tiles,
        0,
        workers.count,
        workers.gate,
    ) else {
        return Err(AuditStop::OutOfMemory);
    };
    let Ok(lines) = lines_of(workers.alloc, told.as_slice(), all) else {
        return Err(AuditStop::OutOfMemory);
    };
    *totals = totals.with_tiles(told.as_slice());
    match give_all(out, lines.as_slice()) {
        Ok(()) => Ok(()),
        Err(_) => Err(AuditStop::Output),
    }
}

/// Gives the lines of the tiles of all slots, and answers the totals.
fn give_tiles<R: Threads + Sync, V: Volume, K: Sink, G: Gate>(
    workers: &Workers<'_, R, G>,
    bundle: &OpenBundle<'_>,
    vol: &mut V,
    out: &mut K,
    all: bool,
) -> Result<Totals, AuditStop>
    requires served { Served V.told V.history bundle.now.session.now bundle.now.length vol.old }
    ensures gave { WalkGave (V.told vol.old) (contents Bundle (V.history vol.old)) all result
        (V.faults vol.old) (V.faults vol.new) (K.held out.old) (K.held out.new) }
    ensures output_failed { IsCause (result ≡ Err AuditStop.Output) (K.faults out.old)
        (K.faults out.new) }
    ensures reads { OnlyReads V.told V.history V.faults (λ old new. old ≤ new) vol.old vol.new }
{
    let mut totals = Totals::none();
    let mut next = 0;
    while next < SLOT_COUNT {
        let Ok((batch, behind)) = fill(workers.alloc, bundle, vol, workers.count, next) else {
            return Err(AuditStop::OutOfMemory);
        };
        match give_batch(workers, &batch, out, all, &mut totals) {
            Ok(()) => next = behind,
            Err(stop) => return Err(stop),
        }
    }
    Ok(totals)
}

/// Audits the bundle that the session serves: reads each of its tiles and judges it, gives the line
/// of each that is neither whole nor summed, or where `all` is said of each, by slot, and then the
/// totals, which it answers.
///
/// Each tile is read and judged once, and the volume is read in the order of the slots. A tile that
/// the volume fails to read is told as such, and the audit goes on; where the volume's count of
/// faults did not rise, and does not stand at its end, there is none. Tiles wait in batches, up to
/// 16 for each worker, 2^24 bytes or 2^24 values, each of which so many workers judge. Whichever
/// their number and whatever the gate does, the answer is the same, but for want of memory. A
/// worker calls `gate.pass(at)` before it judges tile number `at` of its batch. The volume is read,
/// and nothing is written to it.
pub fn audit_all<R: Threads + Sync, V: Volume, K: Sink, G: Gate>(
    workers: &Workers<'_, R, G>,
    bundle: &OpenBundle<'_>,
    vol: &mut V,
    out: &mut K,
    all: bool,
) -> Result<Totals, AuditStop>
    requires served { Served V.told V.history bundle.now.session.now bundle.now.length vol.old }
    ensures gave { AuditGave (V.told vol.old) (contents Bundle (V.history vol.old)) all result
        (V.faults vol.old) (V.faults vol.new) (K.held out.old) (K.held out.new) }
    ensures output_failed { IsCause (result ≡ Err AuditStop.Output) (K.faults out.old)
        (K.faults out.new) }
    ensures reads { OnlyReads V.told V.history V.faults (λ old new. old ≤ new) vol.old vol.new }
{
    let totals = match give_tiles(workers, bundle, vol, out, all) {
        Ok(totals) => totals,
        Err(stop) => return Err(stop),
    };
    match give_all(out, total_text(&totals).as_slice()) {
        Ok(()) => Ok(totals),
        Err(_) => Err(AuditStop::Output),
    }
}
