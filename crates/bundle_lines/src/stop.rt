//! Why puts end before the last.

/// Why puts end before the last.
#[derive(Clone, Copy, Debug, PartialEq, Eq)]
pub enum PutStop {
    /// The output failed.
    Output,
    /// The volume failed.
    Volume,
    /// The bundle of `len` bytes has no room for the next tile.
    Full { len: u64 },
}

/// Why a build has no line.
#[derive(Clone, Copy, Debug, PartialEq, Eq)]
pub enum BuildStop {
    /// The output failed. The bundle is built.
    Output,
    /// The volume failed.
    Volume,
    /// The bundle has `len` bytes and is not empty.
    NotEmpty { len: u64 },
    /// Memory was refused.
    OutOfMemory,
}

/// Why lines end before the last.
#[derive(Clone, Copy, Debug, PartialEq, Eq)]
pub enum LineStop {
    /// The output failed.
    Output,
    /// The volume failed.
    Volume,
}
