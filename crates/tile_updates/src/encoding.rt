//! A batch of tiles encoded, and their updates added.

ghost use Rattle.std.specs.Prelude.{◌≡◌, ◌++◌, All, IfErr, OnOk, map};
ghost use Rattle.lerc_encode.specs.Encoded.{AreEncodedOnce, BandsNeedV4};
ghost use Rattle.tile_updates.specs.Adding.{MayBeAdded, TellsBatchStop};
ghost use Rattle.tile_updates.specs.Updates.{tile_bytes, updates_of};

use crate::batch::Batch;
use crate::list::UpdateList;
use crate::stop::BatchStop;
use std::alloc::Global;
use std::thread::Threads;
use tile_workers::{Blobs, Coding, Gate, encode_tiles};

/// Adds the updates of a batch, whose tiles have these blobs, in their order, up to the first that
/// is refused.
///
/// After an error some of the updates are in the list.
pub(crate) fn add_blobs(
    batch: Batch,
    blobs: Blobs,
    coding: &Coding,
    list: &mut UpdateList,
) -> Result<(), BatchStop>
    requires flat { All (λ t. ¬ BandsNeedV4 coding.now.version t.bands) batch }
    requires blobs { blobs ≡ map (tile_bytes coding.now.version coding.now.step) batch }
    ensures added { OnOk result
        (list.new ≡ list.old ++ updates_of coding.now.version coding.now.step batch) }
    ensures passed { OnOk result
        (MayBeAdded coding.now.version coding.now.step list.old batch) }
    ensures refused { IfErr result
        (λ stop. TellsBatchStop coding.now.version coding.now.step list.old batch stop) }
{
    // for the proof: `len` ensures that the blobs so far are few bytes
    let _len = list.len();
    let Batch { slots, .. } = batch;
    let mut i = 0;
    let all = blobs.into_vec();
    for blob in all {
        if let Err(stop) = list.add(slots[i], blob) {
            return Err(stop);
        }
        i += 1;
    }
    Ok(())
}

/// Encodes the tiles of a batch, and adds their updates, in their order, up to
/// the first that is refused. The gate is that of `encode_tiles`, the tiles being numbered in the
/// batch.
///
/// After an error some of the updates are in the list.
pub fn encode_batch<R: Threads + Sync, G: Gate>(
    rt: &R,
    alloc: Global,
    batch: Batch,
    coding: Coding,
    gate: &G,
    list: &mut UpdateList,
) -> Result<(), BatchStop>
    requires flat { All (λ t. ¬ BandsNeedV4 coding.version t.bands) batch }
    ensures added { OnOk result
        (list.new ≡ list.old ++ updates_of coding.version coding.step batch) }
    ensures passed { OnOk result (MayBeAdded coding.version coding.step list.old batch) }
    ensures encoded { OnOk result
        (All (λ t. AreEncodedOnce (tile_bytes coding.version coding.step t) t.bands coding.step)
        batch) }
    ensures refused { IfErr result
        (λ stop. TellsBatchStop coding.version coding.step list.old batch stop) }
{
    match encode_tiles(rt, alloc, batch.tiles.as_slice(), coding, gate) {
        Ok(blobs) => add_blobs(batch, blobs, &coding, list),
        Err(_) => Err(BatchStop::OutOfMemory),
    }
}
