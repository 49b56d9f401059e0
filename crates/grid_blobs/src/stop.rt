//! Why an input has no blobs.

ghost use Rattle.std.specs.Prelude.{◌≡◌};
ghost use Rattle.grid_blobs.specs.Stops.{grid_stop_of};

use raster_grids::{GridReason, GridStop};

/// What is wrong with an input that is to be one grid.
#[derive(Clone, Copy, Debug, PartialEq, Eq)]
pub enum InputReason {
    /// It does not begin with a grid.
    Grid(GridReason),
    /// A byte stands behind the grid.
    Leftover,
    /// The grid has more than one depth, which version 3 has no place for.
    DepthNeedsV4,
}

/// A reason, and the place in the input where it stands.
#[derive(Clone, Copy, Debug, PartialEq, Eq)]
pub struct InputFault {
    pub reason: InputReason,
    pub place: u64,
}

/// Why no blobs were made.
#[derive(Clone, Copy, Debug, PartialEq, Eq)]
pub enum InputStop {
    /// The input is refused.
    Fault(InputFault),
    /// The source failed.
    Source,
    /// Memory was refused.
    OutOfMemory,
}

/// Why no grid was read.
pub(crate) fn grid_stop(stop: GridStop) -> InputStop
    ensures { result ≡ grid_stop_of stop }
{
    match stop {
        GridStop::Fault(fault) => InputStop::Fault(InputFault {
            reason: InputReason::Grid(fault.reason),
            place: fault.place,
        }),
        GridStop::Source => InputStop::Source,
        GridStop::OutOfMemory => InputStop::OutOfMemory,
    }
}
