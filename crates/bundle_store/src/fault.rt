//! Why a call of the store refuses.

use bundle_index::Entry;
use outside_io::Failed;
use std::alloc::AllocError;

/// Why a call of the store refuses.
#[derive(Clone, Copy, Debug, PartialEq, Eq)]
pub enum StoreFault {
    /// The volume failed.
    Device,
    /// The file is no bundle: the place of the first test that fails, and the number found there.
    /// For a length both are the length.
    BadBundle { place: u64, found: u64 },
    /// The journal counts, and a test of it fails.
    BadJournal { place: u64, found: u64 },
    /// The slot has no tile.
    NoTile,
    /// The entry names bytes beyond the file's end, of which `got` are there.
    Beyond { entry: Entry, got: u64 },
    /// A tile of more than 16,777,215 bytes: its number in the list, and its length.
    TileTooLarge { at: u64, len: u64 },
    /// A tile of no bytes: its number in the list.
    EmptyTile { at: u64 },
    /// The bundle of `len` bytes has no room for the tile.
    Full { len: u64 },
    /// The file to be built has bytes.
    NotEmpty { len: u64 },
    /// Memory was refused.
    OutOfMemory,
    /// An earlier put or build of this session answered Device.
    Stopped,
}

impl From<Failed> for StoreFault {
    ghost use Rattle.std.specs.Prelude.{◌≡◌};
    ghost use Rattle.bundle_store.specs.declared.fault.StoreFault.TheVariants.{Device};

    ghost from_gives = { λ _ e. e ≡ Device };

    fn from(_: Failed) -> StoreFault {
        StoreFault::Device
    }
}

impl From<AllocError> for StoreFault {
    ghost use Rattle.std.specs.Prelude.{◌≡◌};
    ghost use Rattle.bundle_store.specs.declared.fault.StoreFault.TheVariants.{OutOfMemory};

    ghost from_gives = { λ _ e. e ≡ OutOfMemory };

    fn from(_: AllocError) -> StoreFault {
        StoreFault::OutOfMemory
    }
}
