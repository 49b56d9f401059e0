//! How much a bundle holds that is built of some tiles.

ghost use Rattle.std.specs.Prelude.{◌≡◌, length, IfOk};
ghost use Rattle.bundle_index.specs.Sizes.{slot_count};
ghost use Rattle.bundle_store.specs.Build.{EachFits, last_tiles};
ghost use Rattle.bundle_store.specs.Built.{filled};
ghost use Rattle.bundle_store.specs.Layout.{layout};

use crate::TileRec;
use crate::table::{count_tiles, measure, number_tiles};
use bundle_index::INDEX_END;
use std::alloc::{AllocError, Global};

/// How much a new bundle holds.
#[derive(Clone, Copy, Debug, PartialEq, Eq)]
pub struct BuiltSize {
    /// How many slots have a tile.
    pub tiles: u32,
    /// How many bytes the bundle has.
    pub len: u64,
}

/// How much the bundle holds that `Session::build` makes of these tiles. Want of memory is its only
/// error.
pub fn built_size(alloc: Global, tiles: &[TileRec]) -> Result<BuiltSize, AllocError>
    requires { EachFits tiles.now }
    ensures tiles { IfOk result (λ s. s.tiles ≡ filled (last_tiles tiles.now) slot_count) }
    ensures len { IfOk result (λ s. s.len ≡ length (layout (last_tiles tiles.now))) }
{
    let table = number_tiles(alloc, tiles)?;
    let (_, records) = measure(tiles, table.as_slice());
    Ok(BuiltSize {
        tiles: count_tiles(tiles, table.as_slice()),
        len: INDEX_END + records,
    })
}
