//! Tiles that wait to be encoded together.

ghost use Rattle.std.specs.Prelude.{◌≡◌, ◌⊎◌, ◌↔◌, ◌*◌, ◌<◌, ◌≤◌, ◌++◌, ◌∷◌, [], IsTrue, OnErr, OnOk, length};
ghost use Rattle.tile_updates.specs.Tiles.{values_in, values_of};

use bundle_index::Slot;
use raster_values::Bands;
use std::alloc::{AllocError, Global};
use std::marker::Model;

/// How many tiles of a batch there are for each worker at most.
const TILES_EACH: usize = 16;

/// From how many values on a batch is full.
const MANY_VALUES: u64 = 16777216;

/// Tiles that wait to be encoded. Contracts see the list of the tiles.
#[derive(Drop)]
pub struct Batch {
    pub(crate) slots: Vec<Slot>,
    pub(crate) tiles: Vec<Bands>,
    /// How many values they have.
    values: u64,
}

impl Model for Batch {
    ghost use Rattle.std.specs.Prelude.{List};
    ghost use Rattle.tile_stream.specs.declared.tile.Tile.{Tile};
    ghost use Rattle.tile_updates.specs.Tiles.{tiles_of};
    ghost use Rattle.tile_updates.specs.inside.Counts.{AreCounted};

    ghost Value = { List Tile };

    ghost view = { λ b. tiles_of b.slots.items b.tiles.items };

    ghost invariant = { λ b. AreCounted b.slots.items b.tiles.items b.values };
}

/// How many values bands have.
fn count_values(bands: &Bands) -> u64
    ensures value { result ≡ values_in bands.now }
    ensures few { result ≤ 16777216 }
{
    let count = bands.len() as u64;
    let first = bands.at(0);
    count * (first.rows() as u64 * first.cols() as u64 * first.depth() as u64)
}

/// Whether a batch of so many tiles and values is full.
fn are_many(count: usize, values: u64, workers: usize) -> bool
    requires { workers ≤ 64 }
    ensures { IsTrue result ↔ ((16 * workers ≤ count) ⊎ (16777216 ≤ values)) }
{
    count >= TILES_EACH * workers || values >= MANY_VALUES
}

impl Batch {
    /// No tile.
    pub fn new(alloc: Global) -> Batch
        ensures { result ≡ [] }
    {
        Batch {
            slots: Vec::new(alloc),
            tiles: Vec::new(alloc),
            values: 0,
        }
    }

    /// How many tiles there are.
    pub fn len(&self) -> usize
        ensures { result ≡ length self.now }
    {
        self.tiles.len()
    }

    /// Whether there are 16 tiles for each worker, or 2^24 values, so that no tile more is to wait.
    pub fn is_full(&self, workers: usize) -> bool
        requires workers { workers ≤ 64 }
        ensures { IsTrue result
            ↔ ((16 * workers ≤ length self.now) ⊎ (16777216 ≤ values_of self.now)) }
    {
        are_many(self.tiles.len(), self.values, workers)
    }

    /// One tile more behind the others. Where there is no memory for it nothing changes, and it is
    /// dropped.
    pub fn push(&mut self, slot: Slot, bands: Bands) -> Result<(), AllocError>
        requires { length self.old < 1048576 }
        ensures ok { OnOk result (self.new
            ≡ self.old ++ record { slot = slot; bands = bands } ∷ []) }
        ensures kept { OnErr result (self.new ≡ self.old) }
    {
        let values = count_values(&bands);
        self.slots.push(slot)?;
        match self.tiles.push(bands) {
            Ok(()) => {}
            Err(_) => {
                self.slots.pop();
                return Err(AllocError);
            }
        }
        self.values += values;
        Ok(())
    }
}
