//! Headers, checksums and steps.

use crate::fixtures::tell_fault;
use case_rows::{CaseStop, Row, Told};
use lerc_header::{BlobFault, BlobReason, Step, checksum, read_header, write_header};

/// `read`, `cuts`, `write` and `sum` of the bytes given, and `step` of an error.
pub(crate) fn call(row: &Row, told: &mut Told) -> Result<(), CaseStop> {
    match row.call.as_slice() {
        b"read" => read(row.bytes(0)?, told),
        b"cuts" => tell_cuts(row.bytes(0)?, told),
        b"write" => write(row.bytes(0)?, told),
        b"sum" => told.bytes(&checksum(row.bytes(0)?).to_be_bytes()),
        b"step" => told.word(Step::of(row.number::<u32>(0)?).get()),
        _ => Err(CaseStop::BadRow),
    }
}

/// Tells the header with which the bytes begin, or what is wrong with it first.
fn read(bytes: &[u8], told: &mut Told) -> Result<(), CaseStop> {
    match read_header(bytes) {
        Ok(header) => told.fact(header),
        Err(fault) => tell_fault(fault, told),
    }
}

/// Tells at how many of the shorter lengths the bytes are truncated at that length.
fn tell_cuts(bytes: &[u8], told: &mut Told) -> Result<(), CaseStop> {
    let mut count = 0u32;
    for length in 0..bytes.len() {
        let cut = BlobFault {
            reason: BlobReason::Truncated,
            place: length as u64,
        };
        if read_header(&bytes[..length]) == Err(cut) {
            count = count.saturating_add(1);
        }
    }
    told.word(count)
}

/// Tells how long the header is that the bytes begin with, and what it is written over.
fn write(bytes: &[u8], told: &mut Told) -> Result<(), CaseStop> {
    let Ok(header) = read_header(bytes) else {
        return Err(CaseStop::BadRow);
    };
    let mut out = [0xee; 66];
    told.word(write_header(&header, &mut out))?;
    told.bytes(&out)
}
