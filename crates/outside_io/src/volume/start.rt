//! The bytes with which a volume in memory begins.

ghost use Rattle.std.specs.Prelude.{◌≡◌, ◌+◌, ◌-◌, ◌^◌, ◌<◌, ◌++◌, ◌∷◌, [], ℕ, IfOk, OnOk, length, replicate, slice_index};
ghost use Rattle.outside_io.specs.volume.Pieces.{pieces_of};
ghost use Rattle.outside_io.specs.volume.Sparse.{AllEndBy, as_byte, byte_at, byte_over};

use crate::Bytes;
use std::alloc::{AllocError, Global};
use std::marker::Model;

/// Bytes and the place in a file where they stand.
#[derive(Drop)]
pub struct Piece {
    /// The place of the first byte, from 0.
    pub at: u64,
    /// The bytes.
    pub bytes: Bytes,
}

/// What a file in memory holds at first: pieces, later ones over earlier ones, and zeros
/// elsewhere. So a long file needs memory for its pieces alone. Contracts see a length and a list
/// of pieces.
#[derive(Drop)]
pub struct Start {
    len: u64,
    pieces: Vec<Piece>,
}

impl Model for Start {
    ghost use Rattle.outside_io.specs.volume.Sparse.{SparseFile};
    ghost use Rattle.outside_io.specs.volume.Pieces.{pieces_of};

    ghost Value = { SparseFile };

    ghost view = { λ s. record { len = s.len; pieces = pieces_of s.pieces.items } };
}

impl Start {
    /// A file of `len` bytes. Each piece ends at `len` or before it. It takes no memory.
    pub fn new(len: u64, pieces: Vec<Piece>) -> Start
        requires { AllEndBy len (pieces_of pieces.items) }
        ensures { result ≡ record { len = len; pieces = pieces_of pieces.items } }
    {
        Start { len, pieces }
    }

    /// As `new`; of pieces that pass the end only what stands before it counts.
    pub(crate) fn crop(len: u64, pieces: Vec<Piece>) -> Start
        ensures { result ≡ record { len = len; pieces = pieces_of pieces.items } }
    {
        Start { len, pieces }
    }

    /// The length.
    pub(crate) fn len(&self) -> u64
        ensures { result ≡ self.now.len }
    {
        self.len
    }

    /// A copy of the pieces.
    pub(crate) fn copy_pieces(&self, alloc: Global) -> Result<Vec<Piece>, AllocError>
        ensures { IfOk result (λ v. pieces_of v.items ≡ self.now.pieces) }
    {
        copy_of(alloc, &self.pieces)
    }

    /// Fills the buffer with the bytes from `at` on. It costs the pieces and the buffer, not the
    /// file.
    pub(crate) fn read(&self, at: u64, buf: &mut [u8])
        requires { at + length buf.old < 2 ^ 64 }
        ensures { (k : ℕ) → k < length buf.old → slice_index buf.new k
            ≡ as_byte (byte_at self.now.pieces (at + k) 0) }
    {
        buf.fill(0);
        pieces_over(&self.pieces, at, buf);
    }

    /// Lays the other pieces over these, and the byte `fill` over all from `from` on.
    pub(crate) fn tear(
        &mut self,
        alloc: Global,
        mut pieces: Vec<Piece>,
        from: u64,
        fill: u8,
    ) -> Result<(), AllocError>
        ensures { OnOk result (self.new ≡ record {
          len = self.old.len;
          pieces = (self.old.pieces ++ pieces_of pieces.items) ++
              (from, replicate (self.old.len - from) fill) ∷ [];
        }) }
    {
        let bytes = fill_bytes(alloc, fill, self.len.saturating_sub(from) as usize)?;
        self.pieces.append(&mut pieces)?;
        self.pieces.push(Piece { at: from, bytes })?;
        Ok(())
    }
}

/// So many times the one byte.
pub(crate) fn fill_bytes(alloc: Global, fill: u8, count: usize) -> Result<Bytes, AllocError>
    ensures { IfOk result (λ b. b ≡ replicate count fill) }
{
    let bytes = vec![in alloc; fill; count]?;
    Bytes::of(alloc, bytes.as_slice())
}

// Lays the pieces over a buffer that stands from `at` on.
fn pieces_over(pieces: &[Piece], at: u64, buf: &mut [u8])
    requires { at + length buf.old < 2 ^ 64 }
    ensures { (k : ℕ) → k < length buf.old → slice_index buf.new k
        ≡ byte_at (pieces_of pieces.now) (at + k) (slice_index buf.old k) }
{
    for piece in pieces {
        lay_over(buf, at, piece.at, piece.bytes.as_slice());
    }
}

/// Lays the bytes that stand from `place` on over a buffer that stands from `at` on.
pub(crate) fn lay_over(buf: &mut [u8], at: u64, place: u64, bytes: &[u8])
    requires { at + length buf.old < 2 ^ 64 }
    ensures { (k : ℕ) → k < length buf.old → slice_index buf.new k
        ≡ byte_over place bytes.now (at + k) (slice_index buf.old k) }
{
    let low = at.max(place);
    let high = (at + buf.len() as u64).min(place.saturating_add(bytes.len() as u64));
    if low < high {
        let to = (low - at) as usize;
        let from = (low - place) as usize;
        let count = (high - low) as usize;
        buf[to..to + count].copy_from_slice(&bytes[from..from + count]);
    }
}

// A copy of the pieces.
fn copy_of(alloc: Global, pieces: &[Piece]) -> Result<Vec<Piece>, AllocError>
    ensures { IfOk result (λ v. pieces_of v.items ≡ pieces_of pieces.now) }
{
    let mut copy = Vec::new(alloc);
    for piece in pieces {
        copy.push(Piece {
            at: piece.at,
            bytes: Bytes::of(alloc, piece.bytes.as_slice())?,
        })?;
    }
    Ok(copy)
}
