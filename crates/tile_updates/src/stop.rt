//! Why an input, or a batch of it, gives no updates.

ghost use Rattle.std.specs.Prelude.{◌≡◌};
ghost use Rattle.tile_updates.specs.inside.StopOf.{stop_of};

use tile_stream::TileFault;

/// Why an input of tiles gives no updates. The refusals of a tile stand in the order in which they
/// are looked for.
#[derive(Clone, Copy, Debug, PartialEq, Eq)]
pub enum StreamStop {
    /// A byte follows 1,048,576 whole tiles.
    TooManyTiles,
    /// The mark, the slot or the grid of a tile is wrong, at a place of the input.
    Fault(TileFault),
    /// A tile has more than one depth, which version 3 has no place for. The place of the input is
    /// that of the number of depths in the tile's grid.
    DepthNeedsV4 { place: u64 },
    /// The blobs of the bands of tile number `at` have so many bytes together, more than
    /// 16,777,215.
    TileTooLarge { at: u64, len: u64 },
    /// The blobs up to those of tile number `at` have more than 2^30 bytes together.
    KeptTooMuch { at: u64 },
    /// The source failed.
    Source,
    /// There is no memory for bands, a blob or the list of updates.
    OutOfMemory,
}

/// Why the tiles of a batch give no updates. The tiles are numbered behind the updates that were
/// made before.
#[derive(Clone, Copy, Debug, PartialEq, Eq)]
pub enum BatchStop {
    /// The blobs of the bands of tile number `at` have so many bytes together, more than
    /// 16,777,215.
    TileTooLarge { at: u64, len: u64 },
    /// The blobs up to those of tile number `at` have more than 2^30 bytes together.
    KeptTooMuch { at: u64 },
    /// There is no memory for a blob or the list of updates.
    OutOfMemory,
}

/// The stop of an input whose batch stops so.
pub(crate) fn stream_stop(stop: BatchStop) -> StreamStop
    ensures { result ≡ stop_of stop }
{
    match stop {
        BatchStop::TileTooLarge { at, len } => StreamStop::TileTooLarge { at, len },
        BatchStop::KeptTooMuch { at } => StreamStop::KeptTooMuch { at },
        BatchStop::OutOfMemory => StreamStop::OutOfMemory,
    }
}
