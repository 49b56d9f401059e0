//! Tiles that were read, and wait for their verdicts together.

ghost use Rattle.std.specs.Prelude.{◌≡◌, ◌<◌, ◌≤◌, ◌++◌, ◌∷◌, [], IsTrue, OnErr, OnOk, length};

use bundle_index::{Entry, Slot};
use lerc_header::read_header;
use outside_io::Bytes;
use std::alloc::{AllocError, Global};
use std::marker::Model;

/// How many tiles of a batch there are for each worker at most.
const TILES_EACH: usize = 16;

/// From how many bytes of tiles on, or from how many values that their headers declare, a batch is
/// full.
const MANY: u64 = 16777216;

/// How many blobs a tile has at most.
const MOST_BLOBS: usize = 16;

/// What was read of a tile.
#[derive(Drop)]
pub(crate) enum Content {
    /// Nothing: the machine did not read it.
    Failed,
    /// So many bytes, fewer than its entry names.
    Beyond { got: u64 },
    /// All its bytes; and its entry is bad, or not.
    Tile { bytes: Bytes, bad_record: bool },
}

/// A tile that waits for its verdict. What was not read waits among the others.
#[derive(Drop)]
pub(crate) struct Waiting {
    pub(crate) slot: Slot,
    pub(crate) entry: Entry,
    pub(crate) content: Content,
}

/// Tiles that wait. Contracts see the list of them.
#[derive(Drop)]
pub(crate) struct Batch {
    tiles: Vec<Waiting>,
    /// How many bytes they have.
    bytes: u64,
    /// How many values their headers declare.
    values: u64,
}

impl Model for Batch {
    ghost use Rattle.std.specs.Prelude.{List};
    ghost use Rattle.tile_audit.specs.declared.batch.Waiting.{Waiting};

    ghost Value = { List Waiting };

    ghost view = { λ b. b.tiles.items };
}

/// How many values the headers of a tile's blobs declare, from one to the next, as far as the
/// decoder goes. It is a measure of the memory that the tile takes.
fn declared_values(bytes: &[u8]) -> u64 {
    let mut values = 0u64;
    let mut at = 0;
    for _ in 0..MOST_BLOBS {
        if at >= bytes.len() {
            return values;
        }
        match read_header(&bytes[at..]) {
            Ok(header) => {
                let pixels = u64::from(header.rows * header.cols);
                values = values.saturating_add(pixels.saturating_mul(header.depth.into()));
                at = at.saturating_add(header.size as usize);
            }
            Err(_) => return values,
        }
    }
    values
}

impl Batch {
    /// No tile.
    pub(crate) fn new(alloc: Global) -> Batch
        ensures { result ≡ [] }
    {
        Batch {
            tiles: Vec::new(alloc),
            bytes: 0,
            values: 0,
        }
    }

    /// The tiles.
    pub(crate) fn as_slice(&self) -> &[Waiting]
        ensures { result.now ≡ self.now }
    {
        self.tiles.as_slice()
    }

    /// Whether no tile more is to wait: there are 16 for each worker, or many bytes or values.
    pub(crate) fn is_full(&self, workers: usize) -> bool
        requires { workers ≤ 64 }
        ensures { IsTrue result → 0 < length self.now }
    {
        !self.tiles.is_empty()
            && (self.tiles.len() >= TILES_EACH * workers
                || self.bytes >= MANY
                || self.values >= MANY)
    }

    /// One tile more behind the others.
    pub(crate) fn push(&mut self, tile: Waiting) -> Result<(), AllocError>
        ensures ok { OnOk result (self.new ≡ self.old ++ tile ∷ []) }
        ensures kept { OnErr result (self.new ≡ self.old) }
    {
        let (bytes, values) = match &tile.content {
            Content::Tile { bytes, .. } => {
                (bytes.len() as u64, declared_values(bytes.as_slice()))
            }
            _ => (0, 0),
        };
        self.tiles.push(tile)?;
        self.bytes = self.bytes.saturating_add(bytes);
        self.values = self.values.saturating_add(values);
        Ok(())
    }
}
