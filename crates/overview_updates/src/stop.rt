//! Why a bundle has no overview.

ghost use Rattle.std.specs.Prelude.{◌≡◌};
ghost use Rattle.overview_updates.specs.inside.StopOf.{stop_of};

use bundle_index::{Entry, Slot};
use lerc_grammar::BandsFault;
use tile_updates::BatchStop;

/// Why a bundle has no overview. The refusals of a coarse tile stand in the order in which they are
/// looked for, those of one of its four tiles first. The slots are those of tiles of the bundle
/// that is read; coarse tiles are numbered in the order of the overview, from 0.
#[derive(Clone, Copy, Debug, PartialEq, Eq)]
pub enum OverviewStop {
    /// The entry of the tile in this slot names bytes beyond the bundle's end, of which `got` are
    /// there.
    Beyond { slot: Slot, entry: Entry, got: u64 },
    /// The tile in this slot is not the blobs of bands: its first fault.
    BadTile { slot: Slot, fault: BandsFault },
    /// The tile in this slot has another number of bands, another type or another shape than the
    /// first of its four.
    Unlike { slot: Slot },
    /// The tile in this slot, the first of its four, has more than one depth, which version 3 has
    /// no place for.
    DepthNeedsV4 { slot: Slot },
    /// The blobs of coarse tile number `at` have so many bytes together, more than 16,777,215.
    TileTooLarge { at: u64, len: u64 },
    /// The blobs up to those of coarse tile number `at` have more than 2^30 bytes together.
    KeptTooMuch { at: u64 },
    /// The volume failed.
    Volume,
    /// There is no memory for what is read at once, a tile, its bands, a mosaic, a blob or the list
    /// of updates.
    OutOfMemory,
}

/// The stop of an overview whose batch stops so.
pub(crate) fn overview_stop(stop: BatchStop) -> OverviewStop
    ensures { result ≡ stop_of stop }
{
    match stop {
        BatchStop::TileTooLarge { at, len } => OverviewStop::TileTooLarge { at, len },
        BatchStop::KeptTooMuch { at } => OverviewStop::KeptTooMuch { at },
        BatchStop::OutOfMemory => OverviewStop::OutOfMemory,
    }
}
