//! Blobs that are decoded: in pieces of any length and into a caller's arrays, behind another
//! blob, cut at each length, and in outline.

use crate::answers::{Answer, read_of, tell_answer};
use crate::fixtures::tell_fault;
use crate::over;
use case_rows::{CaseStop, Row, Told};
use lerc_decode::{DecodeFault, Decoder};
use lerc_grammar::outline;
use lerc_header::{BlobFault, BlobReason};
use raster_values::Raster;
use std::alloc::Global;

/// What a decoder answers that was fed these bytes in pieces of so many, behind that raster.
fn feed_in(
    alloc: Global,
    before: Option<&Raster>,
    bytes: &[u8],
    piece: usize,
) -> Result<Result<Raster, BlobFault>, CaseStop> {
    if piece == 0 {
        return Err(CaseStop::BadRow);
    }
    let mut decoder = match before {
        Some(raster) => Decoder::after(alloc, raster)?,
        None => Decoder::new(alloc),
    };
    for part in bytes.chunks(piece) {
        decoder.feed(part);
    }
    match decoder.finish() {
        Ok(raster) => Ok(Ok(raster)),
        Err(DecodeFault::Blob(fault)) => Ok(Err(fault)),
        Err(DecodeFault::OutOfMemory) => Err(CaseStop::OutOfMemory),
    }
}

/// What the bytes are then, in pieces of so many, or at once where that is 0.
fn answer_in(
    alloc: Global,
    before: Option<&Raster>,
    bytes: &[u8],
    piece: usize,
) -> Result<Answer, CaseStop> {
    let piece = if piece == 0 {
        bytes.len().max(1)
    } else {
        piece
    };
    match feed_in(alloc, before, bytes, piece)? {
        Ok(raster) => Ok(Ok(read_of(alloc, &raster)?)),
        Err(fault) => Ok(Err(fault)),
    }
}

/// What the bytes are at once. Tells what they are in pieces of 1 and of 7, if that is something
/// else.
fn feed_whole(
    alloc: Global,
    before: Option<&Raster>,
    bytes: &[u8],
    told: &mut Told,
) -> Result<Answer, CaseStop> {
    let first = answer_in(alloc, before, bytes, 0)?;
    for piece in [1, 7] {
        let other = answer_in(alloc, before, bytes, piece)?;
        if other != first {
            told.word(piece)?;
            tell_answer(&other, told)?;
        }
    }
    Ok(first)
}

/// The same, and tells whether the bytes fill arrays with something else.
pub(crate) fn answer_of(alloc: Global, bytes: &[u8], told: &mut Told) -> Result<Answer, CaseStop> {
    let first = feed_whole(alloc, None, bytes, told)?;
    if !over::agree(alloc, bytes, &first)? {
        told.word("arrays")?;
    }
    Ok(first)
}

/// Tells what a blob is, behind the raster of another one where there is a second word.
fn tell_reads(alloc: Global, row: &Row, told: &mut Told) -> Result<(), CaseStop> {
    let bytes = row.bytes(0)?;
    let answer = if row.given.len() == 1 {
        answer_of(alloc, bytes, told)?
    } else {
        match feed_in(alloc, None, row.bytes(1)?, 64)? {
            Ok(before) => feed_whole(alloc, Some(&before), bytes, told)?,
            Err(_) => return Err(CaseStop::BadRow),
        }
    };
    tell_answer(&answer, told)
}

/// Tells at how many of the shorter lengths the blob is truncated at that length, in pieces of any
/// length and for arrays.
fn tell_cuts(alloc: Global, bytes: &[u8], told: &mut Told) -> Result<(), CaseStop> {
    let mut count = 0u32;
    for length in 0..bytes.len() {
        let cut = BlobFault {
            reason: BlobReason::Truncated,
            place: length as u64,
        };
        if answer_of(alloc, &bytes[..length], told)? == Err(cut) {
            count = count.saturating_add(1);
        }
    }
    told.word(count)
}

/// Tells the forms of a blob's mask and image and its size, behind a raster of so many valid pixels
/// where the word is no empty one.
fn tell_outline(row: &Row, told: &mut Told) -> Result<(), CaseStop> {
    let before = if row.bytes(1)?.is_empty() {
        None
    } else {
        Some(row.number::<u32>(1)?)
    };
    match outline(row.bytes(0)?, before) {
        Ok(outline) => {
            told.fact(outline.mask)?;
            told.fact(outline.image)?;
            told.word(outline.header.size)
        }
        Err(fault) => tell_fault(fault, told),
    }
}

/// `reads`, `cuts`, `over` and `outline`.
pub(crate) fn call(alloc: Global, row: &Row, told: &mut Told) -> Result<(), CaseStop> {
    match row.call.as_slice() {
        b"reads" => tell_reads(alloc, row, told),
        b"cuts" => tell_cuts(alloc, row.bytes(0)?, told),
        b"over" => over::tell(alloc, row, told),
        b"outline" => tell_outline(row, told),
        _ => Err(CaseStop::BadRow),
    }
}
