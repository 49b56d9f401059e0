//! Tiles and slots of rows.

ghost use Rattle.std.specs.Prelude.{IsTrue};
ghost use Rattle.bundle_store.specs.Build.{EachFits};

use bundle_index::Slot;
use bundle_store::TileRec;
use case_rows::{CaseStop, Row};
use outside_io::Bytes;
use std::alloc::Global;

/// The most bytes of a tile.
const MOST: usize = 16_777_215;

/// The slot of a row and a column, which are words of decimal digits.
fn slot(row: &[u8], col: &[u8]) -> Option<Slot> {
    let row = str::from_utf8(row).ok()?.parse::<u8>().ok()?;
    let col = str::from_utf8(col).ok()?.parse::<u8>().ok()?;
    Slot::of(row, col)
}

/// The slot of two words.
pub(crate) fn slot_of(row: &Row, at: usize) -> Result<Slot, CaseStop> {
    match row.given.get(at..) {
        Some([first, second, ..]) => slot(first, second).ok_or(CaseStop::BadRow),
        _ => Err(CaseStop::BadRow),
    }
}

/// The tiles of the words from one on: a row, a column and the bytes of each.
pub(crate) fn tiles_of(alloc: Global, row: &Row, at: usize) -> Result<Vec<TileRec>, CaseStop> {
    let mut tiles = Vec::new(alloc);
    let Some(words) = row.given.get(at..) else {
        return Err(CaseStop::BadRow);
    };
    for words in words.chunks(3) {
        let [first, second, bytes] = words else {
            return Err(CaseStop::BadRow);
        };
        let slot = slot(first, second).ok_or(CaseStop::BadRow)?;
        let bytes = Bytes::of(alloc, bytes)?;
        tiles.push(TileRec { slot, bytes })?;
    }
    Ok(tiles)
}

/// Whether a bundle can hold each of the tiles.
pub(crate) fn are_fit(tiles: &[TileRec]) -> bool
    ensures { IsTrue result → EachFits tiles.now }
{
    for i in 0..tiles.len() {
        let len = tiles[i].bytes.len();
        if len == 0 || len > MOST {
            return false;
        }
    }
    true
}
