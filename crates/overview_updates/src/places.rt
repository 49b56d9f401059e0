//! Coarse places, one after the other: 64 rows of 64.

ghost use Rattle.std.specs.Prelude.{◌≡◌, ◌+◌, ◌/◌, ◌%◌, ◌<◌, ◌≤◌, ℕ, Bool, Err, IfErr, IfOk, List, OnOk, length};
ghost use Rattle.outside_io.specs.declared.volume.VolFile.TheVariants.{Bundle};
ghost use Rattle.outside_io.specs.streams.Faults.{IsCause};
ghost use Rattle.outside_io.specs.volume.History.{contents};
ghost use Rattle.overview_updates.specs.Overview.{coarse_slot, place_of};
ghost use Rattle.overview_updates.specs.inside.Fours.{AreHalves, IsHalfAt, IsRound};
ghost use Rattle.overview_updates.specs.inside.Reads.{CanRead};
ghost use Rattle.overview_updates.specs.inside.SoFar.{AreWaiting, IsFilled, IsToldAtOnce};
ghost use Rattle.bundle_store.specs.Told.{OnlyReads};

use crate::asked::Asked;
use crate::halves::{Half, halve};
use crate::quarters::{Four, Quarter, ROW_PLACES, read_four};
use crate::reading::Reading;
use crate::stop::OverviewStop;
use bundle_index::Slot;
use outside_io::Volume;
use std::alloc::Global;
use std::thread::Threads;
use tile_updates::Batch;
use tile_workers::{Gate, Machine};

/// How many coarse places a bundle has.
pub(crate) const MOST_PLACES: u16 = 4096;

/// From how many bytes on the tiles of a round are as many as are kept.
const MANY_BYTES: usize = 16777216;

/// Halves that wait, and the number of the place behind them.
#[derive(Drop)]
pub(crate) struct Waiting {
    pub(crate) batch: Batch,
    pub(crate) place: u16,
}

/// What follows the halves that wait.
#[derive(Clone, Copy)]
pub(crate) enum Next {
    /// Places that were not looked at, or none.
    More,
    /// A coarse tile that is refused so as it is read.
    Refused(OverviewStop),
}

/// The slot of the coarse tile of a place in the coarser bundle.
fn coarse_slot_of(quarter: u8, place: u16) -> Slot
    requires quarter { quarter < 4 }
    requires place { place < 4096 }
    ensures { result ≡ coarse_slot quarter (place_of place).0 (place_of place).1 }
{
    let row = (place / ROW_PLACES) as u8;
    let col = (place % ROW_PLACES) as u8;
    match Slot::of(64 * (quarter / 2) + row, 64 * (quarter % 2) + col) {
        Some(slot) => slot,
        None => unreachable!(),
    }
}

/// How many bytes of the tiles of a coarse place were read.
fn bytes_of(four: &Four) -> usize {
    let mut sum = 0_usize;
    for quarter in four.quarters.iter() {
        if let Quarter::Tile(bytes) = quarter {
            sum = sum.saturating_add(bytes.len());
        }
    }
    sum
}

/// Reads the tiles of the next coarse places: until as many of these have one as there are workers,
/// or the tiles have many bytes.
fn read_round<V: Volume>(
    alloc: Global,
    reading: &mut Reading<'_>,
    vol: &mut V,
    workers: usize,
    place: u16,
) -> Result<Vec<Four>, OverviewStop>
    requires place { place < 4096 }
    requires some { 0 < workers }
    requires reading { CanRead V.told V.history reading.old vol.old }
    ensures reading { OnOk result (CanRead V.told V.history reading.new vol.new) }
    ensures some { IfOk result (λ fours. 0 < length fours.items) }
    ensures within { IfOk result (λ fours. place + length fours.items ≤ 4096) }
    ensures round { IfOk result (λ fours. IsRound (V.told vol.old)
        (contents Bundle (V.history vol.old)) place fours.items) }
    ensures at_once { IfErr result (λ stop. IsToldAtOnce stop) }
    ensures reads { OnlyReads V.told V.history V.faults
        (IsCause (result ≡ Err OverviewStop.Volume)) vol.old vol.new }
{
    let mut fours = Vec::new(alloc);
    let mut at = place;
    let mut some = 0;
    let mut bytes = 0_usize;
    while at < MOST_PLACES && some < workers && bytes < MANY_BYTES {
        let four = match read_four(reading, vol, at) {
            Ok(four) => four,
            Err(stop) => return Err(stop),
        };
        let more = bytes_of(&four);
        match fours.push(four) {
            Ok(()) => {}
            Err(_) => return Err(OverviewStop::OutOfMemory),
        }
        if more > 0 {
            some += 1;
        }
        bytes = bytes.saturating_add(more);
        at += 1;
    }
    Ok(fours)
}

/// Lets the half of the next place wait, if it has one.
fn wait_half(asked: &Asked, half: Half, waiting: &mut Waiting) -> Result<Next, OverviewStop>
    requires place { waiting.old.place < 4096 }
    requires few { length waiting.old.batch ≤ waiting.old.place }
    ensures waits { (told : Bool) (bundle : List ℕ) (from : ℕ)
        → AreWaiting told bundle asked.now.quarter asked.now.coding.version from waiting.old
        → IsHalfAt told bundle asked.now.coding.version waiting.old.place half
        → IfOk result (λ next. IsFilled told bundle asked.now.quarter asked.now.coding.version from
        waiting.new next) }
    ensures forth { IfOk result (λ next. next ≡ Next.More
        → waiting.new.place ≡ waiting.old.place + 1) }
    ensures few { IfOk result (λ next. next ≡ Next.More
        → length waiting.new.batch ≤ waiting.new.place) }
    ensures memory { IfErr result (λ stop. stop ≡ OverviewStop.OutOfMemory) }
{
    let bands = match half {
        Half::Nothing => {
            waiting.place += 1;
            return Ok(Next::More);
        }
        Half::Refused(stop) => return Ok(Next::Refused(stop)),
        Half::Coarse(bands) => bands,
    };
    let slot = coarse_slot_of(asked.quarter, waiting.place);
    match waiting.batch.push(slot, bands) {
        Ok(()) => {
            waiting.place += 1;
            Ok(Next::More)
        }
        Err(_) => Err(OverviewStop::OutOfMemory),
    }
}

/// Lets the halves of the next places wait, up to the first that is refused.
fn wait_halves(
    asked: &Asked,
    halves: Vec<Half>,
    waiting: &mut Waiting,
) -> Result<Next, OverviewStop>
    requires some { 0 < length halves.items }
    requires within { waiting.old.place + length halves.items ≤ 4096 }
    requires few { length waiting.old.batch ≤ waiting.old.place }
    ensures waits { (told : Bool) (bundle : List ℕ) (from : ℕ)
        → AreWaiting told bundle asked.now.quarter asked.now.coding.version from waiting.old
        → AreHalves told bundle asked.now.coding.version waiting.old.place halves.items
        → IfOk result (λ next. IsFilled told bundle asked.now.quarter asked.now.coding.version from
        waiting.new next) }
    ensures forth { IfOk result (λ next. next ≡ Next.More
        → waiting.old.place < waiting.new.place) }
    ensures memory { IfErr result (λ stop. stop ≡ OverviewStop.OutOfMemory) }
{
    for half in halves {
        match wait_half(asked, half, waiting) {
            Ok(Next::More) => {}
            Ok(Next::Refused(stop)) => return Ok(Next::Refused(stop)),
            Err(stop) => return Err(stop),
        }
    }
    Ok(Next::More)
}

/// Reads the tiles of the next coarse places, and lets their halves wait, which the workers make.
fn wait_round<R: Threads + Sync, V: Volume, G: Gate>(
    machine: &Machine<'_, R, G>,
    reading: &mut Reading<'_>,
    vol: &mut V,
    asked: &Asked,
    waiting: &mut Waiting,
) -> Result<Next, OverviewStop>
    requires place { waiting.old.place < 4096 }
    requires few { length waiting.old.batch ≤ waiting.old.place }
    requires reading { CanRead V.told V.history reading.old vol.old }
    ensures reading { OnOk result (CanRead V.told V.history reading.new vol.new) }
    ensures waits { (from : ℕ) → AreWaiting (V.told vol.old)
        (contents Bundle (V.history vol.old)) asked.now.quarter asked.now.coding.version from
        waiting.old → IfOk result (λ next. IsFilled (V.told vol.old)
        (contents Bundle (V.history vol.old)) asked.now.quarter asked.now.coding.version from
        waiting.new next) }
    ensures forth { IfOk result (λ next. next ≡ Next.More
        → waiting.old.place < waiting.new.place) }
    ensures at_once { IfErr result (λ stop. IsToldAtOnce stop) }
    ensures reads { OnlyReads V.told V.history V.faults
        (IsCause (result ≡ Err OverviewStop.Volume)) vol.old vol.new }
{
    let workers = asked.coding.workers;
    let version = asked.coding.version;
    let fours = match read_round(machine.alloc, reading, vol, workers, waiting.place) {
        Ok(fours) => fours,
        Err(stop) => return Err(stop),
    };
    let halves = match halve(
        machine.rt,
        machine.alloc,
        fours.as_slice(),
        version,
        workers,
    ) {
        Ok(halves) => halves,
        Err(_) => return Err(OverviewStop::OutOfMemory),
    };
    wait_halves(asked, halves, waiting)
}

/// Reads the coarse tiles of a batch from this place on.
pub(crate) fn fill<R: Threads + Sync, V: Volume, G: Gate>(
    machine: &Machine<'_, R, G>,
    reading: &mut Reading<'_>,
    vol: &mut V,
    asked: &Asked,
    place: u16,
) -> Result<(Waiting, Next), OverviewStop>
    requires place { place < 4096 }
    requires reading { CanRead V.told V.history reading.old vol.old }
    ensures reading { OnOk result (CanRead V.told V.history reading.new vol.new) }
    ensures ok { IfOk result (λ r. IsFilled (V.told vol.old)
        (contents Bundle (V.history vol.old)) asked.now.quarter asked.now.coding.version place
        r.0 r.1) }
    ensures at_once { IfErr result (λ stop. IsToldAtOnce stop) }
    ensures reads { OnlyReads V.told V.history V.faults
        (IsCause (result ≡ Err OverviewStop.Volume)) vol.old vol.new }
{
    let mut waiting = Waiting {
        batch: Batch::new(machine.alloc),
        place,
    };
    while waiting.place < MOST_PLACES && !waiting.batch.is_full(asked.coding.workers) {
        match wait_round(machine, reading, vol, asked, &mut waiting) {
            Ok(Next::More) => {}
            Ok(Next::Refused(stop)) => return Ok((waiting, Next::Refused(stop))),
            Err(stop) => return Err(stop),
        }
    }
    Ok((waiting, Next::More))
}
