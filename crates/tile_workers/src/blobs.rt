//! The blobs of tiles.

ghost use Rattle.std.specs.Prelude.{◌≡◌, ◌<◌, [], length, get_or};

use outside_io::Bytes;
use std::marker::Model;

/// The blobs of tiles, in the tiles' order: of each tile those of its bands, one behind the other.
/// Contracts see the list of these bytes.
#[derive(Drop)]
pub struct Blobs {
    blobs: Vec<Bytes>,
}

impl Model for Blobs {
    ghost use Rattle.std.specs.Prelude.{ℕ, List};

    ghost Value = { List (List ℕ) };

    ghost view = { λ b. b.blobs.items };
}

impl Blobs {
    /// The blobs of the vector. It takes no memory.
    pub(crate) fn from_vec(blobs: Vec<Bytes>) -> Blobs
        ensures { result ≡ blobs.items }
    {
        Blobs { blobs }
    }

    /// The vector of the blobs. It takes no memory.
    pub fn into_vec(self) -> Vec<Bytes>
        ensures { result.items ≡ self }
    {
        let Blobs { blobs } = self;
        blobs
    }

    /// How many tiles the blobs are of.
    pub fn len(&self) -> usize
        ensures { result ≡ length self.now }
    {
        self.blobs.len()
    }

    /// The blobs of tile number i, counted from 0.
    pub fn at(&self, i: usize) -> &[u8]
        requires { i < length self.now }
        ensures { result.now ≡ get_or self.now i [] }
    {
        self.blobs[i].as_slice()
    }
}
