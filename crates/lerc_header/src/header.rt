//! What the header of a blob says.

ghost use Rattle.std.specs.Prelude.{◌≡◌, ◌<◌, ◌↔◌, IsTrue, pos};
ghost use Rattle.lerc_header.specs.declared.header.Version.{Version};
ghost use Rattle.lerc_header.specs.declared.header.Version.TheVariants.{V3};
ghost use Rattle.lerc_header.specs.Head.{head_length, version_number, shift};

use raster_cells::PixelType;

/// The version of a blob's layout.
#[derive(Clone, Copy, Debug, PartialEq, Eq)]
pub enum Version {
    V3,
    V4,
}

impl Version {
    /// The version that a number names: 3 or 4.
    pub fn of_number(number: i64) -> Option<Version>
        ensures { (version : Version) → (result ≡ Some version)
            ↔ (number ≡ pos (version_number version)) }
    {
        match number {
            3 => Some(Version::V3),
            4 => Some(Version::V4),
            _ => None,
        }
    }

    /// The number of the version.
    pub fn number(self) -> u32
        ensures { result ≡ version_number self }
    {
        match self {
            Version::V3 => 3,
            Version::V4 => 4,
        }
    }

    /// How many bytes a header of this version takes.
    pub fn head_length(self) -> usize
        ensures { result ≡ head_length self }
    {
        match self {
            Version::V3 => 62,
            Version::V4 => 66,
        }
    }

    /// How much further on than in version 3 the fields behind the columns stand.
    pub(crate) fn shift(self) -> usize
        ensures { result ≡ shift self }
    {
        match self {
            Version::V3 => 0,
            Version::V4 => 4,
        }
    }
}

/// Whether the version has no place for so many depths.
pub fn needs_v4(version: Version, depth: u32) -> bool
    ensures { IsTrue result ↔ ((version ≡ V3) × (1 < depth)) }
{
    match version {
        Version::V3 => depth > 1,
        Version::V4 => false,
    }
}

/// What the header of a blob says.
#[derive(Clone, Copy, Debug, PartialEq, Eq)]
pub struct Header {
    pub version: Version,
    /// The checksum that the header holds, of the blob's bytes from 14 on.
    pub checksum: u32,
    /// How many rows, columns and depths the raster has; at most 2 ^ 24 values. Version 3 has
    /// depth 1.
    pub rows: u32,
    pub cols: u32,
    pub depth: u32,
    /// How many pixels are valid.
    pub valid: u32,
    /// The side of the square blocks that the raster is cut into, in pixels.
    pub side: u32,
    /// How many bytes the blob has, at most 2 ^ 27.
    pub size: u32,
    /// The type of the values.
    pub kind: PixelType,
    /// Twice the greatest error of a value: 1, or an even number from 2 to 2 ^ 33 - 2.
    pub step: u64,
    /// The least and the greatest value, both 0 where no pixel is valid.
    pub least: i64,
    pub greatest: i64,
}
