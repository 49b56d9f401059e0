//! Runs of masks, over `mask_runs`.

use case_rows::{CaseStop, Row, Told};
use mask_runs::{read_runs, runs_len, runs_len_with, write_runs, write_runs_with};
use std::alloc::Global;

/// The length of the longest mask.
const MOST: usize = 100_000;

/// Calls what stands behind `mask.`
pub(crate) fn call(alloc: Global, row: &Row, told: &mut Told) -> Result<(), CaseStop> {
    match row.call.as_slice() {
        b"read" => read(alloc, row, told),
        b"write" => {
            let runs = chosen(alloc, row.bytes(0)?, told)?;
            told.bytes(&runs)
        }
        b"write_with" => write_with(alloc, row, told),
        b"long" => {
            let runs = chosen(alloc, &long_mask(alloc)?, told)?;
            told.word(runs.len())?;
            told.word(hash(&runs))
        }
        _ => Err(CaseStop::BadRow),
    }
}

/// `read LENGTH BYTES`: the mask of so many bytes whose runs the bytes are, or the place of their
/// fault.
fn read(alloc: Global, row: &Row, told: &mut Told) -> Result<(), CaseStop> {
    let mut mask = vec![in alloc; 0x55u8; row.size(0, MOST)?]?;
    match read_runs(row.bytes(1)?, &mut mask) {
        Ok(()) => told.bytes(&mask),
        Err(fault) => {
            told.word("fault")?;
            told.word(fault.at)
        }
    }
}

/// The chosen runs of a mask, which are read back as it; else it is told what is read.
fn chosen(alloc: Global, mask: &[u8], told: &mut Told) -> Result<Vec<u8>, CaseStop> {
    if mask.len() > MOST {
        return Err(CaseStop::BadRow);
    }
    let mut runs = vec![in alloc; 77u8; runs_len(mask)]?;
    write_runs(mask, &mut runs);
    let mut back = vec![in alloc; 0x55u8; mask.len()]?;
    if read_runs(&runs, &mut back) != Ok(()) || back.as_slice() != mask {
        told.bytes(&back)?;
    }
    Ok(runs)
}

/// `write_with MASK LAST`: the chosen runs of the mask with another last byte.
fn write_with(alloc: Global, row: &Row, told: &mut Told) -> Result<(), CaseStop> {
    let (mask, last) = (row.bytes(0)?, row.number::<u8>(1)?);
    if mask.len() > MOST {
        return Err(CaseStop::BadRow);
    }
    let mut runs = vec![in alloc; 77u8; runs_len_with(mask, last)]?;
    write_runs_with(mask, last, &mut runs);
    told.bytes(&runs)
}

/// The byte of a mask of many literals and repeats: 40,000 bytes in which no two neighbours are
/// equal, 40,000 equal bytes, and 20,000 bytes that change ever faster.
fn byte_at(k: u32) -> u8 {
    let square = u64::from(k) * u64::from(k);
    match k {
        0..40_000 => (k % 3) as u8,
        40_000..80_000 => 9,
        _ => (square / 3000 % 7) as u8,
    }
}

/// The mask of these bytes.
fn long_mask(alloc: Global) -> Result<Vec<u8>, CaseStop> {
    let mut mask = Vec::new(alloc);
    for k in 0..100_000 {
        mask.push(byte_at(k))?;
    }
    Ok(mask)
}

/// One number for bytes, to compare long ones by.
fn hash(bytes: &[u8]) -> u64 {
    let mut sum = 0u64;
    for byte in bytes {
        sum = (sum % 1_000_003 * 31 + u64::from(*byte)) % 1_000_003;
    }
    sum
}
