//! What is told of the bytes of a tile.

ghost use Rattle.std.specs.Prelude.{◌*◌, ◌≤◌};

use lerc_grammar::BandsFault;
use raster_cells::PixelType;

/// What is told of the bands of a tile that is whole.
#[derive(Clone, Copy, Debug, PartialEq, Eq)]
pub struct Shape {
    /// The type of their values.
    pub kind: PixelType,
    pub rows: u32,
    pub cols: u32,
    pub depth: u32,
    /// How many bands there are.
    pub bands: u32,
    /// How many pixels are valid, in all of them together.
    pub valid: u64,
    ghost few: { rows * cols * bands ≤ 16777216 },
}

/// The verdict on the bytes of a tile.
#[derive(Clone, Copy, Debug, PartialEq, Eq)]
pub enum Judged {
    /// They are the blobs of bands.
    Whole(Shape),
    /// They are blobs of floating-point numbers, of which the checksums alone are looked at.
    Summed,
    /// They are of another format.
    Foreign,
    /// They are a blob of another version.
    Unread,
    /// They are none of these: what is wrong first.
    Damaged(BandsFault),
}
