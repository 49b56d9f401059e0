//! What an audit tells of a tile.

use crate::judged::Judged;
use bundle_index::{Entry, Slot};

/// What an audit finds of the tile of a slot.
#[derive(Clone, Copy, Debug, PartialEq, Eq)]
pub enum Finding {
    /// The machine did not read it.
    Failed,
    /// The entry names bytes beyond the bundle's end, of which `got` are there.
    Beyond {
        got: u64,
    },
    /// It was read.
    Read {
        /// The verdict on its bytes.
        judged: Judged,
        /// The checksum of its bytes from 14 on.
        sum: u32,
        /// Whether its entry is bad: the tile begins in front of the place of the first one, or the
        /// number in front of it is not its size.
        bad_record: bool,
    },
}

/// A tile of the bundle, as it is told.
#[derive(Clone, Copy, Debug, PartialEq, Eq)]
pub struct AuditedTile {
    pub slot: Slot,
    /// Its entry in the index.
    pub entry: Entry,
    pub finding: Finding,
}
