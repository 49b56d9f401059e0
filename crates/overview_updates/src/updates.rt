//! The updates of an overview, batch by batch.

ghost use Rattle.std.specs.Prelude.{◌≡◌, ◌<◌, ◌≤◌, Err, IfErr, IfOk, IsTrue, OnOk, length};
ghost use Rattle.outside_io.specs.declared.volume.VolFile.TheVariants.{Bundle};
ghost use Rattle.outside_io.specs.streams.Faults.{IsCause};
ghost use Rattle.outside_io.specs.volume.History.{contents};
ghost use Rattle.bundle_store.specs.Build.{EachFits};
ghost use Rattle.tile_updates.specs.Updates.{AreEncoded};
ghost use Rattle.overview_updates.specs.Stops.{OverviewFails, TellsStop};
ghost use Rattle.overview_updates.specs.Updates.{IsEncodedOverview, IsOverviewUpdates};
ghost use Rattle.overview_updates.specs.inside.Reads.{CanRead};
ghost use Rattle.overview_updates.specs.inside.SoFar.{IsSoFar};
ghost use Rattle.bundle_store.specs.Told.{OnlyReads};
ghost use Rattle.bundle_store.specs.Serving.{Serving};

use crate::asked::Asked;
use crate::places::{MOST_PLACES, Next, Waiting, fill};
use crate::reading::Reading;
use crate::stop::{OverviewStop, overview_stop};
use bundle_store::{Session, TileRec};
use outside_io::Volume;
use std::alloc::Global;
use std::thread::Threads;
use tile_updates::{UpdateList, encode_batch};
use tile_workers::{Gate, Machine};

/// What was made of the coarse tiles of the first places.
#[derive(Drop)]
struct SoFar {
    list: UpdateList,
    /// How many places that were.
    place: u16,
}

/// Reads a batch, encodes it and adds its updates. What is refused as it is read comes behind the
/// tiles before it.
fn add_batch<R: Threads + Sync, V: Volume, G: Gate>(
    rt: &R,
    alloc: Global,
    reading: &mut Reading<'_>,
    vol: &mut V,
    asked: &Asked,
    gate: &G,
    done: &mut SoFar,
) -> Result<(), OverviewStop>
    requires place { done.old.place < 4096 }
    requires few { length done.old.list ≤ done.old.place }
    requires reading { CanRead V.told V.history reading.old vol.old }
    ensures reading { OnOk result (CanRead V.told V.history reading.new vol.new) }
    ensures ok { IsSoFar (V.told vol.old) (contents Bundle (V.history vol.old))
        asked.now.quarter asked.now.coding.version asked.now.coding.step done.old
        → OnOk result (IsSoFar (V.told vol.old) (contents Bundle (V.history vol.old))
        asked.now.quarter asked.now.coding.version asked.now.coding.step done.new) }
    ensures grows { OnOk result (done.old.place < done.new.place) }
    ensures within { OnOk result (done.new.place ≤ 4096) }
    ensures few { OnOk result (length done.new.list ≤ done.new.place) }
    ensures refused { IsSoFar (V.told vol.old) (contents Bundle (V.history vol.old))
        asked.now.quarter asked.now.coding.version asked.now.coding.step done.old
        → IsTrue (V.told vol.old) → IfErr result (λ stop. TellsStop
        (contents Bundle (V.history vol.old)) asked.now.quarter asked.now.coding.version
        asked.now.coding.step stop) }
    ensures answers { IfErr result (λ stop. OverviewFails stop) }
    ensures reads { OnlyReads V.told V.history V.faults
        (IsCause (result ≡ Err OverviewStop.Volume)) vol.old vol.new }
{
    let machine = Machine { rt, alloc, gate };
    let (waiting, next) = match fill(&machine, reading, vol, asked, done.place) {
        Ok(filled) => filled,
        Err(stop) => return Err(stop),
    };
    let Waiting { batch, place } = waiting;
    match encode_batch(rt, alloc, batch, asked.coding, gate, &mut done.list) {
        Ok(()) => done.place = place,
        Err(stop) => return Err(overview_stop(stop)),
    }
    match next {
        Next::More => Ok(()),
        Next::Refused(stop) => Err(stop),
    }
}

/// Reads the bundle that the session serves, and gives the updates of its overview, in the order of
/// their slots: for each coarse place of which one of the four tiles is there, the slot of the
/// quarter that is asked for, and the blobs of half of the four, in this version and with this
/// step. Where a coarse tile is refused, nothing behind it is told.
///
/// Each tile is read and decoded once. The tiles of as many coarse places as there are workers, or
/// of 2^24 bytes, are read together, and decoded and halved by so many workers. Coarse tiles wait
/// in batches: while there are fewer than 16 for each worker, and fewer than 2^24 values, those of
/// such places more; and each batch is encoded by so many workers. Whichever their number and
/// whatever the gate does, the answer is the same, but for a volume that fails, which is told at
/// once, and for want of memory. The gate is that of `encode_tiles`, the tiles being numbered in
/// their batch.
///
/// One mosaic for each worker and one batch of bands are kept at a time, and all the blobs, which
/// have at most 2^30 bytes together; and 1 MiB for what is read at once of the bundle, as
/// `get_ahead` reads it. The volume is read, and nothing is written to it.
pub fn read_overview<R: Threads + Sync, V: Volume, G: Gate>(
    rt: &R,
    alloc: Global,
    session: &Session,
    vol: &mut V,
    asked: Asked,
    gate: &G,
) -> Result<Vec<TileRec>, OverviewStop>
    requires serving { Serving V.told V.history session.now vol.old }
    ensures ok { IsTrue (V.told vol.old) → IfOk result (λ updates. IsOverviewUpdates
        (contents Bundle (V.history vol.old)) asked.quarter asked.coding.version asked.coding.step
        updates.items) }
    ensures near { IsTrue (V.told vol.old) → IfOk result (λ updates. IsEncodedOverview
        (contents Bundle (V.history vol.old)) asked.quarter asked.coding.version asked.coding.step
        updates.items) }
    ensures encoded { IfOk result (λ updates. AreEncoded asked.coding.version asked.coding.step
        updates.items) }
    ensures few { IfOk result (λ updates. length updates.items ≤ 4096) }
    ensures fits { IfOk result (λ updates. EachFits updates.items) }
    ensures refused { IsTrue (V.told vol.old) → IfErr result (λ stop. TellsStop
        (contents Bundle (V.history vol.old)) asked.quarter asked.coding.version
        asked.coding.step stop) }
    ensures answers { IfErr result (λ stop. OverviewFails stop) }
    ensures reads { OnlyReads V.told V.history V.faults
        (IsCause (result ≡ Err OverviewStop.Volume)) vol.old vol.new }
{
    let mut reading = match Reading::new(alloc, session) {
        Ok(reading) => reading,
        Err(_) => return Err(OverviewStop::OutOfMemory),
    };
    let mut done = SoFar {
        list: UpdateList::new(alloc),
        place: 0,
    };
    while done.place < MOST_PLACES {
        match add_batch(rt, alloc, &mut reading, vol, &asked, gate, &mut done) {
            Ok(()) => {}
            Err(stop) => return Err(stop),
        }
    }
    Ok(done.list.into_vec())
}
