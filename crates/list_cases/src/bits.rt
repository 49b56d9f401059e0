//! Stuffed numbers, over `bit_stuff`.

use bit_stuff::{stuff, stuffed_len, unstuff, unstuff_front};
use case_rows::{CaseStop, Row, Told};
use std::alloc::Global;

/// Calls what stands behind `bits.`
pub(crate) fn call(alloc: Global, row: &Row, told: &mut Told) -> Result<(), CaseStop> {
    match row.call.as_slice() {
        b"len" => len(row, told),
        b"fields" => {
            let values = fields(alloc, row, told)?;
            told.list(&values)
        }
        b"digest" => {
            let values = fields(alloc, row, told)?;
            told.word(digest(&values))
        }
        _ => Err(CaseStop::BadRow),
    }
}

/// One number for a list, to compare long lists by.
fn digest(values: &[u32]) -> u32 {
    let mut all = 0u32;
    for v in values {
        all = all.wrapping_mul(31).wrapping_add(*v).wrapping_add(1);
    }
    all
}

/// `len WIDTH COUNT`: how many bytes so many fields of the width take.
fn len(row: &Row, told: &mut Told) -> Result<(), CaseStop> {
    let (width, count) = (row.number::<u32>(0)?, row.number::<usize>(1)?);
    if width > 31 || count > 16777216 {
        return Err(CaseStop::BadRow);
    }
    told.word(stuffed_len(count, width))
}

/// The bits of the last byte above so many bits of fields.
fn spare_bits(used: usize) -> u8 {
    [0x00, 0xfe, 0xfc, 0xf8, 0xf0, 0xe0, 0xc0, 0x80][used % 8]
}

/// Sets the spare bits of the last byte.
fn set_spare(bytes: &mut [u8], spare: u8) {
    if let Some(last) = bytes.last_mut() {
        *last |= spare;
    }
}

/// Clears the spare bits of the last byte.
fn clear_spare(bytes: &mut [u8], spare: u8) {
    if let Some(last) = bytes.last_mut() {
        *last &= !spare;
    }
}

/// `fields WIDTH COUNT BYTES`: so many fields that stand in front of the bytes. With no other bytes
/// behind them and every spare bit set the same ones are read, and they are written with the spare
/// bits clear; else it is told what is read or written.
fn fields(alloc: Global, row: &Row, told: &mut Told) -> Result<Vec<u32>, CaseStop> {
    let (width, count) = (row.number::<u32>(0)?, row.size(1, 1024)?);
    let bytes = row.bytes(2)?;
    if width > 31 || count > 1024 || bytes.len() < stuffed_len(count, width) {
        return Err(CaseStop::BadRow);
    }
    let mut values = vec![in alloc; 77u32; count]?;
    unstuff_front(bytes, width, &mut values);
    let spare = spare_bits(count * width as usize);
    let mut front = bytes[..stuffed_len(count, width)].to_vec(alloc)?;
    set_spare(&mut front, spare);
    let mut again = vec![in alloc; 77u32; count]?;
    unstuff(&front, width, &mut again);
    if again != values {
        told.list(&again)?;
    }
    let mut written = vec![in alloc; 77u8; front.len()]?;
    stuff(&values, width, &mut written);
    clear_spare(&mut front, spare);
    if written != front {
        told.bytes(&written)?;
    }
    Ok(values)
}
