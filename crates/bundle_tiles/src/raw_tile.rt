//! The next tile of a stream.

ghost use Rattle.std.specs.Prelude.{◌≡◌, ◌+◌, ◌^◌, ◌<◌, ◌≤◌, IfOk, IfErr, OnErr, MatchResult, length};
ghost use Rattle.raster_grids.specs.Taken.{TookBytes, TookSome};
ghost use Rattle.bundle_tiles.specs.RawTile.{CountsRawStop, IsRawHead, IsRawSize, IsToldRaw, TookRaw, mark_faults, size_in};
ghost use Rattle.bundle_tiles.specs.inside.Pieces.{IsToldBody};

use bundle_index::Slot;
use bundle_store::{GREATEST_TILE, TileRec};
use byteorder::{ByteOrder, LittleEndian};
use outside_io::{Bytes, Failed, Source, take_all};
use std::alloc::Global;

/// How many bytes stand in front of a tile's own.
pub(crate) const HEAD: usize = 7;

/// What the bytes in front of a tile say.
#[derive(Clone, Copy, Debug, PartialEq, Eq)]
pub struct RawHead {
    pub slot: Slot,
    /// How many bytes the tile has, from 1 to 16,777,215.
    pub size: u32,
}

/// Why bytes do not begin with a tile.
#[derive(Clone, Copy, Debug, PartialEq, Eq)]
pub enum RawReason {
    /// The first byte is not `R`.
    BadTileMark,
    /// The row is above 127.
    BadRow,
    /// The column is above 127.
    BadCol,
    /// The bytes end within the tile.
    Truncated,
    /// The size is 0, or above 16,777,215.
    BadSize,
}

/// What is wrong first in bytes that do not begin with a tile, and where.
#[derive(Clone, Copy, Debug, PartialEq, Eq)]
pub struct RawFault {
    pub reason: RawReason,
    pub place: u64,
}

/// Why no tile was read.
#[derive(Clone, Copy, Debug, PartialEq, Eq)]
pub enum RawStop {
    /// The bytes do not begin with a tile.
    Fault(RawFault),
    /// The source failed.
    Source,
    /// There is no memory for the tile.
    OutOfMemory,
}

/// A fault at a place.
fn fault(reason: RawReason, place: usize) -> RawFault
    ensures reason { result.reason ≡ reason }
    ensures place { result.place ≡ place }
{
    RawFault {
        reason,
        place: place as u64,
    }
}

/// The slot and the size that whole bytes in front of a tile say, of which the row is such.
fn sized(head: &[u8], slot: Slot) -> Result<RawHead, RawFault>
    requires long { length head.now ≡ 7 }
    ensures size { IfOk result (λ h. IsRawSize h.size) }
    ensures ok { IfOk result (λ h. (h.slot ≡ slot) × (h.size ≡ size_in head.now)) }
    ensures err { IfErr result (λ f. (¬ IsRawSize (size_in head.now))
        × (f.reason ≡ RawReason.BadSize) × (f.place ≡ 3)) }
{
    let size = LittleEndian::read_u32(&head[3..]);
    if size == 0 || size as usize > GREATEST_TILE {
        return Err(fault(RawReason::BadSize, 3));
    }
    Ok(RawHead { slot, size })
}

/// What the bytes in front of a tile say, of which seven are needed.
fn head_of(head: &[u8]) -> Result<RawHead, RawFault>
    requires { length head.now ≤ 7 }
    ensures { MatchResult result (λ h. IsRawHead head.now h)
        (λ f. mark_faults head.now f.place f.reason × (f.place ≤ 7)) }
{
    let cut = fault(RawReason::Truncated, head.len());
    if head.is_empty() {
        return Err(cut);
    }
    if head[0] != b'R' {
        return Err(fault(RawReason::BadTileMark, 0));
    }
    if head.len() < 2 {
        return Err(cut);
    }
    if head[1] > 127 {
        return Err(fault(RawReason::BadRow, 1));
    }
    if head.len() < 3 {
        return Err(cut);
    }
    let Some(slot) = Slot::of(head[1], head[2]) else {
        return Err(fault(RawReason::BadCol, 2));
    };
    if head.len() < HEAD {
        return Err(cut);
    }
    sized(head, slot)
}

/// Takes a tile's own bytes, so many, which begin at the place `at` of the input.
fn take_body<S: Source>(alloc: Global, src: &mut S, size: u32, at: u64) -> Result<Bytes, RawStop>
    requires size { IsRawSize size }
    requires at { at + 16777215 < 2 ^ 64 }
    ensures size { IfOk result (λ bytes. length bytes ≡ size) }
    ensures ok { IfOk result (λ bytes. TookBytes (S.left src.old) (S.left src.new) bytes) }
    ensures cut { IfErr result (λ stop. IsToldBody (S.left src.old) at size stop) }
    ensures some { OnErr result (TookSome (S.left src.old) (S.left src.new)) }
    ensures counted { CountsRawStop result (S.faults src.old) (S.faults src.new) }
{
    let size = size as usize;
    let mut bytes = Vec::new(alloc);
    match bytes.resize(size, 0) {
        Ok(()) => {}
        Err(_) => return Err(RawStop::OutOfMemory),
    }
    let taken = match take_all(src, bytes.as_mut_slice()) {
        Ok(taken) => taken,
        Err(Failed) => return Err(RawStop::Source),
    };
    if taken < size {
        return Err(RawStop::Fault(RawFault {
            reason: RawReason::Truncated,
            place: at + taken as u64,
        }));
    }
    Ok(Bytes::from_vec(bytes))
}

/// Takes the next tile, which begins at the place `at` of the input. None where no byte is left.
/// Its bytes are taken as they are, whatever they are. Only they take memory.
pub fn next_raw<S: Source>(alloc: Global, src: &mut S, at: u64) -> Result<Option<TileRec>, RawStop>
    requires { at < 2 ^ 63 }
    ensures ok { IfOk result (λ found. TookRaw (S.left src.old) (S.left src.new) found) }
    ensures fault { IfErr result (λ stop. IsToldRaw (S.left src.old) at stop) }
    ensures some { OnErr result (TookSome (S.left src.old) (S.left src.new)) }
    ensures counted { CountsRawStop result (S.faults src.old) (S.faults src.new) }
{
    let mut head = [0; HEAD];
    let taken = match take_all(src, &mut head) {
        Ok(taken) => taken,
        Err(Failed) => return Err(RawStop::Source),
    };
    if taken == 0 {
        return Ok(None);
    }
    let said = match head_of(&head[..taken]) {
        Ok(said) => said,
        Err(fault) => return Err(RawStop::Fault(RawFault {
            reason: fault.reason,
            place: at + fault.place,
        })),
    };
    match take_body(alloc, src, said.size, at + 7) {
        Ok(bytes) => Ok(Some(TileRec {
            slot: said.slot,
            bytes,
        })),
        Err(stop) => Err(stop),
    }
}
