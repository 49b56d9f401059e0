//! A text in parts, between which separators stand. Inside quotes stands none.

use std::alloc::{AllocError, Global};
use std::mem;

/// The parts of the text between these separators. A separator between two quotes is none.
pub(crate) fn parts_of(
    alloc: Global,
    text: &[u8],
    separator: u8,
) -> Result<Vec<Vec<u8>>, AllocError> {
    let mut list = Vec::new(alloc);
    let mut part = Vec::new(alloc);
    let mut is_quoted = false;
    for byte in text {
        is_quoted ^= *byte == b'\'';
        if *byte == separator && !is_quoted {
            list.push(mem::replace(&mut part, Vec::new(alloc)))?;
        } else {
            part.push(*byte)?;
        }
    }
    list.push(part)?;
    Ok(list)
}
