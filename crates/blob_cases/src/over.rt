//! Blobs decoded into a caller's arrays, which hold other bytes before.

use crate::answers::Answer;
use case_rows::{CaseStop, Row, Told};
use lerc_decode::{OverFault, decode_over};
use lerc_header::read_header;
use std::alloc::Global;

/// What was answered, and what the arrays hold then.
#[derive(Drop)]
struct Over {
    answer: Result<usize, OverFault>,
    values: Vec<u8>,
    mask: Vec<u8>,
}

/// How many bytes of values and of a mask the header of the bytes asks for, and none where there
/// is no header.
fn lengths(bytes: &[u8]) -> (usize, usize) {
    match read_header(bytes) {
        Ok(header) => {
            let pixels = (header.rows as usize).wrapping_mul(header.cols as usize);
            let values = pixels.wrapping_mul(header.depth as usize);
            let size = values.wrapping_mul(header.kind.bytes());
            (size, pixels.div_ceil(8))
        }
        Err(_) => (0, 0),
    }
}

/// The bytes are decoded into arrays that have so many bytes more than the header asks for, or
/// fewer.
fn decode(
    alloc: Global,
    bytes: &[u8],
    more_values: isize,
    more_mask: isize,
) -> Result<Over, CaseStop> {
    let (values, mask) = lengths(bytes);
    let mut values = vec![in alloc; 0xa5u8; values.wrapping_add_signed(more_values)]?;
    let mut mask = vec![in alloc; 0xa5u8; mask.wrapping_add_signed(more_mask)]?;
    let answer = decode_over(bytes, &mut values, &mut mask);
    Ok(Over {
        answer,
        values,
        mask,
    })
}

/// Whether the bytes, decoded into arrays, give what they are, or have this fault.
pub(crate) fn agree(alloc: Global, bytes: &[u8], whole: &Answer) -> Result<bool, CaseStop> {
    let over = decode(alloc, bytes, 0, 0)?;
    match whole {
        Err(fault) => Ok(over.answer == Err(OverFault::Blob(*fault))),
        Ok(read) => Ok(
            over.answer == Ok(bytes.len()) && over.values == read.cells && over.mask == read.mask,
        ),
    }
}

/// Tells what is answered where arrays have so many bytes of values and of a mask more than the
/// header asks for, or fewer, and what they hold then.
pub(crate) fn tell(alloc: Global, row: &Row, told: &mut Told) -> Result<(), CaseStop> {
    let (more_values, more_mask) = (row.number::<isize>(1)?, row.number::<isize>(2)?);
    let over = decode(alloc, row.bytes(0)?, more_values, more_mask)?;
    told.fact(over.answer)?;
    told.bytes(&over.values)?;
    told.bytes(&over.mask)
}
