//! Blobs that are kept.

ghost use Rattle.std.specs.Prelude.{◌≡◌, ◌<◌, [], ◌∷◌, ◌++◌, OnOk, OnErr, Some, length, slice_get};

use std::alloc::{AllocError, Global};
use std::marker::Model;

/// The bytes of a tile's blobs, in their order. A contract sees the list of these.
#[derive(Drop)]
pub struct KeptBlobs {
    blobs: Vec<Vec<u8>>,
}

impl Model for KeptBlobs {
    ghost use Rattle.std.specs.Prelude.{ℕ, List};

    ghost Value = { List (List ℕ) };

    ghost use Rattle.std.specs.Prelude.{map};

    ghost view = { λ a. map (λ v. v.items) a.blobs.items };
}

impl KeptBlobs {
    /// No blobs.
    pub(crate) fn new(alloc: Global) -> KeptBlobs
        ensures { result ≡ [] }
    {
        KeptBlobs {
            blobs: Vec::new(alloc),
        }
    }

    /// One blob more behind the others.
    pub(crate) fn push(&mut self, blob: Vec<u8>) -> Result<(), AllocError>
        ensures ok { OnOk result (self.new ≡ self.old ++ blob.items ∷ []) }
        ensures kept { OnErr result (self.new ≡ self.old) }
    {
        self.blobs.push(blob)?;
        Ok(())
    }

    /// How many blobs there are.
    pub fn len(&self) -> usize
        ensures { result ≡ length self.now }
    {
        self.blobs.len()
    }

    /// The bytes of the blob with number i, counted from 0.
    pub fn at(&self, i: usize) -> &[u8]
        requires { i < length self.now }
        ensures { slice_get self.now i ≡ Some result.now }
    {
        &self.blobs[i]
    }
}
