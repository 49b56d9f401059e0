//! How many tiles there is room for.

ghost use Rattle.std.specs.Prelude.{◌≡◌, ◌+◌, ◌^◌, ◌<◌, ◌≤◌, length, take};
ghost use Rattle.bundle_store.specs.Build.{EachFits};
ghost use Rattle.bundle_store.specs.Fitting.{IsFitting};
ghost use Rattle.bundle_store.specs.GroupPuts.{group_records};

use crate::TileRec;
use crate::updates::Updates;

/// The greatest length of a bundle.
pub const GREATEST_LENGTH: u64 = 1099511627776;

/// How many of the first `most` tiles there is room for behind `len` bytes, one behind the other,
/// and the length that they leave.
pub(crate) fn fitting_tiles(len: u64, tiles: &Updates, most: usize) -> (usize, u64)
    requires fit { EachFits tiles.now }
    requires most { most ≤ length tiles.now }
    ensures fits { IsFitting len tiles.now most result.0 }
    ensures end { result.1 ≡ len + length (group_records (take result.0 tiles.now)) }
    ensures room { 0 < result.0 → result.1 ≤ 2 ^ 40 }
{
    let mut end = len;
    for i in 0..most {
        // for the proof: `number` ensures that there is such a slot
        let _number = tiles.slot(i).number();
        let size = tiles.bytes(i).len() as u64;
        if end > GREATEST_LENGTH - 4 - size {
            return (i, end);
        }
        end += 4 + size;
    }
    (most, end)
}

/// How many of the first `most` tiles there is room for behind `len` bytes, one behind the other.
pub fn count_fitting(len: u64, tiles: &[TileRec], most: usize) -> usize
    requires fit { EachFits tiles.now }
    requires most { most ≤ length tiles.now }
    ensures { IsFitting len tiles.now most result }
{
    fitting_tiles(len, &Updates::all(tiles), most).0
}
