//! Why bytes are no ASCII grid, or no `LGA1`, and at which place.

ghost use Rattle.std.specs.Prelude.{◌≡◌};

use outside_io::Failed;
use raster_grids::GridReason;

/// Why bytes are no ASCII grid, or no `LGA1`.
#[derive(Clone, Copy, Debug, PartialEq, Eq)]
pub enum AsciiReason {
    /// The input ends too early.
    Truncated,
    /// A word that begins with a letter and is no keyword.
    BadKey,
    /// A quantity that stands a second time.
    Repeated,
    /// A required quantity is not there.
    Missing,
    /// A corner or cell text that is none.
    BadText,
    /// A token that is no number, or in `LGA1` a nodata value of more than ten digits.
    BadNumber,
    /// A number of rows or columns below 1.
    BadSize,
    /// More than 2^24 numbers.
    TooLarge,
    /// A number that is neither the nodata value nor one of the type.
    OutOfRange,
    /// A token behind the last number, or in `LGA1` a byte behind its end.
    Leftover,
    /// The first four bytes are not `LGA1`.
    BadMagic,
    /// The flags are above 3.
    BadFlags,
    /// A valid value equal to the nodata value.
    Collision,
    /// The grid's depth is not 1.
    DepthNot1,
    /// The text has a byte at 2^30, and nothing was wrong before it.
    TooLong,
    /// A fault of the grid.
    Grid(GridReason),
}

/// What is wrong first, and where.
#[derive(Clone, Copy, Debug, PartialEq, Eq)]
pub struct AsciiFault {
    pub reason: AsciiReason,
    pub place: u64,
}

/// Why no grid was read.
#[derive(Clone, Copy, Debug, PartialEq, Eq)]
pub enum AsciiStop {
    /// The input is none: its first fault.
    Fault(AsciiFault),
    /// The source failed.
    Source,
    /// There is no memory for the grid.
    OutOfMemory,
}

impl From<Failed> for AsciiStop {
    ghost use Rattle.ascii_grid.specs.declared.fault.AsciiStop.TheVariants.{Source};

    ghost from_gives = { λ _ e. e ≡ Source };

    fn from(_: Failed) -> AsciiStop {
        AsciiStop::Source
    }
}

/// The stop of a fault at a place.
pub(crate) fn stop(reason: AsciiReason, place: u64) -> AsciiStop
    ensures { result ≡ AsciiStop.Fault (record { reason = reason; place = place }) }
{
    AsciiStop::Fault(AsciiFault { reason, place })
}
