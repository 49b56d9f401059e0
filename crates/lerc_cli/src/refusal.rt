//! The program's own reasons for a stop, beside those of any program.

ghost use Rattle.std.specs.Prelude.{◌≡◌};
ghost use Rattle.lerc_cli.specs.inside.Opening.{of_store};

use lerc_header::BlobReason;
use opened_bundle::StoreRefusal;
use program_ends::Stop;
use raster_grids::GridReason;

/// Why an input is refused.
#[derive(Clone, Copy)]
pub enum Reason {
    /// It is not the whole blobs of one to 16 bands.
    Blob(BlobReason),
    /// A blob behind the first has other rows, columns or depths than the first, or another type.
    BadBand,
    /// It does not begin with a grid.
    Grid(GridReason),
    /// A byte stands behind the grid.
    Leftover,
    /// The grid has more than one depth, which version 3 has no place for.
    DepthNeedsV4,
    /// A tile of the input does not begin with its mark.
    BadTileMark,
    /// A tile of the input names a row or a column above 127.
    BadSlot,
}

/// A reason, and the place in the input where it stands.
#[derive(Clone, Copy)]
pub struct Fault {
    pub reason: Reason,
    pub place: u64,
}

/// Why the tiles of an input are not put, whatever the bundle is.
#[derive(Clone, Copy)]
pub enum StreamRefusal {
    /// The blob of this tile of the input, counted from 0, has more bytes than a tile may have.
    TileTooLarge { at: u64, len: u64 },
    /// The input has more than 1,048,576 tiles.
    TooManyTiles,
    /// The blobs up to this tile of the input have more than 2^30 bytes together.
    KeptTooMuch { at: u64 },
}

/// Why the program refuses what it was given.
#[derive(Clone, Copy)]
pub enum Refusal {
    /// The input, or the tile asked for, is not what the command reads. Its status is 2.
    Input(Fault),
    /// The store refuses. Its status is 7, as that of the next.
    Store(StoreRefusal),
    /// The input has tiles that the store does not take.
    Stream(StreamRefusal),
}

/// A stop of the opened bundle, as one of the program.
pub(crate) fn store_stop(stop: Stop<StoreRefusal>) -> Stop<Refusal>
    ensures { result ≡ of_store stop }
{
    match stop {
        Stop::Usage => Stop::Usage,
        Stop::Source => Stop::Source,
        Stop::Output => Stop::Output,
        Stop::Volume => Stop::Volume,
        Stop::OutOfMemory => Stop::OutOfMemory,
        Stop::Refused(refusal) => Stop::Refused(Refusal::Store(refusal)),
    }
}
