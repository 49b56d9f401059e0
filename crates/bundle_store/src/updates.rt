//! The tiles of one put: one that is lent by its bytes, or a list of records.

ghost use Rattle.std.specs.Prelude.{◌≡◌, ◌<◌, ◌∷◌, [], length, IfErr, OnOk};
ghost use Rattle.bundle_store.specs.Build.{EachFits, bytes_at, slot_at};
ghost use Rattle.bundle_store.specs.inside.Table.{TilesFail};

use crate::{StoreFault, TileRec};
use bundle_index::Slot;
use std::marker::Model;

/// How many bytes a tile has at most.
pub const GREATEST_TILE: usize = 16777215;

/// One tile, or those of a list.
#[derive(Clone, Copy)]
enum Tiles<'a> {
    One(Slot, &'a [u8]),
    All(&'a [TileRec]),
}

/// The tiles of one put, in their order. Contracts see the list of them.
#[derive(Drop)]
pub(crate) struct Updates<'a> {
    tiles: Tiles<'a>,
}

impl<'a> Model for Updates<'a> {
    ghost use Rattle.std.specs.Prelude.{List};
    ghost use Rattle.bundle_store.specs.declared.tile_rec.TileRec.{TileRec};
    ghost use Rattle.bundle_store.specs.inside.Listed.{listed};

    ghost Value = { List TileRec };

    ghost view = { λ u. listed u.tiles };
}

/// The slot of the record of a number.
fn slot_of(tiles: &[TileRec], i: usize) -> Slot
    requires { i < length tiles.now }
    ensures { result ≡ slot_at tiles.now i }
{
    tiles[i].slot
}

/// The bytes of the record of a number.
fn bytes_of(tiles: &[TileRec], i: usize) -> &[u8]
    requires { i < length tiles.now }
    ensures { result.now ≡ bytes_at tiles.now i }
{
    tiles[i].bytes.as_slice()
}

impl<'a> Updates<'a> {
    /// One tile for a slot.
    pub(crate) fn one(slot: Slot, tile: &'a [u8]) -> Updates<'a>
        ensures { result ≡ record { slot = slot; bytes = tile.now } ∷ [] }
    {
        Updates {
            tiles: Tiles::One(slot, tile),
        }
    }

    /// The tiles of a list.
    pub(crate) fn all(tiles: &'a [TileRec]) -> Updates<'a>
        ensures { result ≡ tiles.now }
    {
        Updates {
            tiles: Tiles::All(tiles),
        }
    }

    /// How many there are.
    pub(crate) fn len(&self) -> usize
        ensures { result ≡ length self.now }
    {
        match self.tiles {
            Tiles::One(_, _) => 1,
            Tiles::All(tiles) => tiles.len(),
        }
    }

    /// The slot of the tile of a number.
    pub(crate) fn slot(&self, i: usize) -> Slot
        requires { i < length self.now }
        ensures { result ≡ slot_at self.now i }
    {
        match self.tiles {
            Tiles::One(slot, _) => slot,
            Tiles::All(tiles) => slot_of(tiles, i),
        }
    }

    /// The bytes of the tile of a number.
    pub(crate) fn bytes(&self, i: usize) -> &'a [u8]
        requires { i < length self.now }
        ensures { result.now ≡ bytes_at self.now i }
    {
        match self.tiles {
            Tiles::One(_, bytes) => bytes,
            Tiles::All(tiles) => bytes_of(tiles, i),
        }
    }
}

/// The first tile that is empty or too large.
pub(crate) fn check_tiles(tiles: &Updates) -> Result<(), StoreFault>
    ensures fits { OnOk result (EachFits tiles.now) }
    ensures answers { IfErr result (λ f. TilesFail tiles.now f) }
{
    for at in 0..tiles.len() {
        let len = tiles.bytes(at).len();
        if len == 0 {
            return Err(StoreFault::EmptyTile { at: at as u64 });
        }
        if len > GREATEST_TILE {
            return Err(StoreFault::TileTooLarge {
                at: at as u64,
                len: len as u64,
            });
        }
    }
    Ok(())
}
