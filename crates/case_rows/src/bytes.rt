//! What a word stands for.
//!
//! A word is pieces that `+` joins. A piece is `x` and hex digits, a text between quotes, in which
//! `\n`, `\r`, `\t`, `\0`, `\\` and `\xHH` stand for bytes, `$` and a name, or any other text as it
//! is. Behind it may stand `[A..B]`, by which it is cut, A and B left out for its ends, `[A:W]`, by
//! which the bytes of W, in hex or by name, are written over it from A on, and last `*N`, by which
//! it stands N times.

use crate::names::Names;
use crate::parts::parts_of;
use crate::stop::CaseStop;
use std::alloc::Global;

/// The most bytes that a word stands for.
const MOST: usize = 67_108_864;

/// The number that a text is.
pub(crate) fn size_of_text(text: &[u8]) -> Result<usize, CaseStop> {
    match str::from_utf8(text) {
        Ok(digits) => digits.parse::<usize>().map_err(|_| CaseStop::BadRow),
        Err(_) => Err(CaseStop::BadRow),
    }
}

/// The bytes of a text between quotes.
fn unescaped(alloc: Global, text: &[u8]) -> Result<Vec<u8>, CaseStop> {
    let mut bytes = Vec::new(alloc);
    let mut rest = text.iter();
    while let Some(byte) = rest.next() {
        if *byte != b'\\' {
            bytes.push(*byte)?;
            continue;
        }
        match rest.next() {
            Some(b'n') => bytes.push(b'\n')?,
            Some(b'r') => bytes.push(b'\r')?,
            Some(b't') => bytes.push(b'\t')?,
            Some(b'0') => bytes.push(0)?,
            Some(b'\\') => bytes.push(b'\\')?,
            Some(b'x') => {
                let (high, low) = (rest.next(), rest.next());
                bytes.push(byte_of(high, low)?)?;
            }
            _ => return Err(CaseStop::BadRow),
        }
    }
    Ok(bytes)
}

/// The byte of two hex digits.
fn byte_of(high: Option<&u8>, low: Option<&u8>) -> Result<u8, CaseStop> {
    let (Some(high), Some(low)) = (high, low) else {
        return Err(CaseStop::BadRow);
    };
    let mut byte = [0];
    match hex::decode_to_slice([*high, *low].as_slice(), &mut byte) {
        Ok(()) => Ok(byte[0]),
        Err(_) => Err(CaseStop::BadRow),
    }
}

/// The bytes of a piece without what stands behind it.
fn base_of(alloc: Global, names: &Names, base: &[u8]) -> Result<Vec<u8>, CaseStop> {
    match base {
        [b'x', digits @ ..] => hex::decode(alloc, digits).map_err(|_| CaseStop::BadRow),
        [b'$', name @ ..] => Ok(names.find(name)?.to_vec(alloc)?),
        [b'\'', text @ .., b'\''] => unescaped(alloc, text),
        _ => Ok(base.to_vec(alloc)?),
    }
}

/// The bytes with others written over them from a place on.
fn overwritten(mut bytes: Vec<u8>, at: usize, over: &[u8]) -> Result<Vec<u8>, CaseStop> {
    match at.checked_add(over.len()) {
        Some(end) if end <= bytes.len() => {
            bytes[at..end].copy_from_slice(over);
            Ok(bytes)
        }
        _ => Err(CaseStop::BadRow),
    }
}

/// The bytes from one place to another. A place that is left out is an end of them.
fn cut(alloc: Global, bytes: &[u8], from: &[u8], to: &[u8]) -> Result<Vec<u8>, CaseStop> {
    let from = if from.is_empty() {
        0
    } else {
        size_of_text(from)?
    };
    let to = if to.is_empty() {
        bytes.len()
    } else {
        size_of_text(to)?
    };
    match bytes.get(from..to) {
        Some(part) => Ok(part.to_vec(alloc)?),
        None => Err(CaseStop::BadRow),
    }
}

/// The bytes with what stands in brackets behind them, without the first bracket, done to them.
fn edited(alloc: Global, names: &Names, bytes: Vec<u8>, edit: &[u8]) -> Result<Vec<u8>, CaseStop> {
    let [inside @ .., b']'] = edit else {
        return Err(CaseStop::BadRow);
    };
    match parts_of(alloc, inside, b':')?.as_slice() {
        [at, over] => overwritten(bytes, size_of_text(at)?, &base_of(alloc, names, over)?),
        _ => match parts_of(alloc, inside, b'.')?.as_slice() {
            [from, _, to] => cut(alloc, &bytes, from, to),
            _ => Err(CaseStop::BadRow),
        },
    }
}

/// The bytes of a piece that stands once.
fn core_of(alloc: Global, names: &Names, core: &[u8]) -> Result<Vec<u8>, CaseStop> {
    let parts = parts_of(alloc, core, b'[')?;
    let Some((base, edits)) = parts.split_first() else {
        return Err(CaseStop::BadRow);
    };
    let mut bytes = base_of(alloc, names, base)?;
    for edit in edits {
        bytes = edited(alloc, names, bytes, edit)?;
    }
    Ok(bytes)
}

/// The bytes so many times.
fn repeated(alloc: Global, bytes: &[u8], times: usize) -> Result<Vec<u8>, CaseStop> {
    match bytes.len().checked_mul(times) {
        Some(size) if size <= MOST => Ok(bytes.repeat(alloc, times)?),
        _ => Err(CaseStop::BadRow),
    }
}

/// The bytes of a piece.
fn piece_of(alloc: Global, names: &Names, piece: &[u8]) -> Result<Vec<u8>, CaseStop> {
    match parts_of(alloc, piece, b'*')?.as_slice() {
        [core] => core_of(alloc, names, core),
        [core, times] => repeated(alloc, &core_of(alloc, names, core)?, size_of_text(times)?),
        _ => Err(CaseStop::BadRow),
    }
}

/// The bytes that a word stands for.
pub(crate) fn bytes_of(alloc: Global, names: &Names, word: &[u8]) -> Result<Vec<u8>, CaseStop> {
    let mut bytes = Vec::new(alloc);
    for piece in &parts_of(alloc, word, b'+')? {
        bytes.extend_from_slice(&piece_of(alloc, names, piece)?)?;
    }
    Ok(bytes)
}
