//! Why packing refuses.

ghost use Rattle.std.specs.Prelude.{◌≡◌};
ghost use Rattle.bundle_pack.specs.Refusals.{source_fault_of, target_fault_of, tile_fault_of};

use bundle_index::Slot;
use bundle_store::StoreFault;

/// Why packing refuses.
#[derive(Clone, Copy, Debug, PartialEq, Eq)]
pub enum PackFault {
    /// The source of this number, counted from 0, refuses. For a tile beyond the bundle's end,
    /// and only for that, the slot of the tile.
    Source {
        at: usize,
        slot: Option<Slot>,
        fault: StoreFault,
    },
    /// The target refuses.
    Target(StoreFault),
    /// The chosen tiles have this many bytes together, and that is more than 2^30.
    KeptTooMuch {
        len: u64,
    },
    /// Memory was refused.
    OutOfMemory,
}

/// The fault of a source that is opened.
pub(crate) fn source_fault(at: usize, fault: StoreFault) -> PackFault
    ensures { result ≡ source_fault_of at fault }
{
    match fault {
        StoreFault::OutOfMemory => PackFault::OutOfMemory,
        other => PackFault::Source {
            at,
            slot: None,
            fault: other,
        },
    }
}

/// The fault of a source of which a tile is read.
pub(crate) fn tile_fault(at: usize, slot: Slot, fault: StoreFault) -> PackFault
    ensures { result ≡ tile_fault_of at slot fault }
{
    match fault {
        StoreFault::OutOfMemory => PackFault::OutOfMemory,
        StoreFault::Beyond { entry, got } => PackFault::Source {
            at,
            slot: Some(slot),
            fault: StoreFault::Beyond { entry, got },
        },
        other => PackFault::Source {
            at,
            slot: None,
            fault: other,
        },
    }
}

/// The fault of the target.
pub(crate) fn target_fault(fault: StoreFault) -> PackFault
    ensures { result ≡ target_fault_of fault }
{
    match fault {
        StoreFault::OutOfMemory => PackFault::OutOfMemory,
        other => PackFault::Target(other),
    }
}
