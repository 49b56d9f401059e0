//! Updates that were made.

ghost use Rattle.std.specs.Prelude.{◌≡◌, ◌^◌, ◌≤◌, ◌++◌, ◌∷◌, [], IfErr, OnOk, length};
ghost use Rattle.tile_updates.specs.Adding.{StopsAdding};
ghost use Rattle.tile_updates.specs.Updates.{kept_bytes};

use crate::stop::BatchStop;
use bundle_index::Slot;
use bundle_store::{GREATEST_TILE, TileRec};
use outside_io::Bytes;
use std::alloc::Global;
use std::marker::Model;

/// How many bytes all blobs may have together.
const MOST_KEPT: u64 = 1073741824;

/// A list of updates, whose blobs have at most 2^30 bytes together. Contracts see the list.
#[derive(Drop)]
pub struct UpdateList {
    updates: Vec<TileRec>,
    /// How many bytes the blobs have.
    kept: u64,
}

impl Model for UpdateList {
    ghost use Rattle.std.specs.Prelude.{◌≡◌, ◌^◌, ◌≤◌, List};
    ghost use Rattle.bundle_store.specs.declared.tile_rec.TileRec.{TileRec};
    ghost use Rattle.tile_updates.specs.Updates.{kept_bytes};

    ghost Value = { List TileRec };

    ghost view = { λ u. u.updates.items };

    ghost invariant = { λ u. (u.kept ≡ kept_bytes u.updates.items)
        × (kept_bytes u.updates.items ≤ 2 ^ 30) };
}

impl UpdateList {
    /// No update.
    pub fn new(alloc: Global) -> UpdateList
        ensures { result ≡ [] }
    {
        UpdateList {
            updates: Vec::new(alloc),
            kept: 0,
        }
    }

    /// How many updates there are.
    pub fn len(&self) -> usize
        ensures value { result ≡ length self.now }
        ensures small { kept_bytes self.now ≤ 2 ^ 30 }
    {
        self.updates.len()
    }

    /// The vector of the updates. It takes no memory.
    pub fn into_vec(self) -> Vec<TileRec>
        ensures { result.items ≡ self }
    {
        let UpdateList { updates, .. } = self;
        updates
    }

    /// Adds the update of a slot, whose tile has these blobs.
    pub(crate) fn add(&mut self, slot: Slot, blobs: Bytes) -> Result<(), BatchStop>
        ensures added { OnOk result (self.new
            ≡ self.old ++ record { slot = slot; bytes = blobs } ∷ []) }
        ensures small { OnOk result (length blobs ≤ 16777215) }
        ensures kept { OnOk result (kept_bytes self.new ≤ 2 ^ 30) }
        ensures refused { IfErr result (λ stop.
            StopsAdding self.old (record { slot = slot; bytes = blobs }) stop) }
    {
        let at = self.updates.len() as u64;
        let len = blobs.len() as u64;
        if blobs.len() > GREATEST_TILE {
            return Err(BatchStop::TileTooLarge { at, len });
        }
        if self.kept + len > MOST_KEPT {
            return Err(BatchStop::KeptTooMuch { at });
        }
        if self.updates.push(TileRec { slot, bytes: blobs }).is_err() {
            return Err(BatchStop::OutOfMemory);
        }
        self.kept += len;
        Ok(())
    }
}
