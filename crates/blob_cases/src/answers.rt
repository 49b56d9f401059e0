//! What a blob is, or what is wrong with it first, and how that is told.

use crate::fixtures::tell_fault;
use case_rows::{CaseStop, Told};
use lerc_header::BlobFault;
use raster_values::{PixelType, Raster};
use std::alloc::Global;

/// What a blob is: a type, a shape, the mask and the bytes of the values of all pixels.
#[derive(PartialEq, Drop)]
pub(crate) struct Read {
    pub(crate) kind: PixelType,
    pub(crate) rows: u32,
    pub(crate) cols: u32,
    pub(crate) depth: u32,
    pub(crate) mask: Vec<u8>,
    pub(crate) cells: Vec<u8>,
}

/// What a blob is, or what is wrong with it first.
pub(crate) type Answer = Result<Read, BlobFault>;

/// What a raster is.
pub(crate) fn read_of(alloc: Global, raster: &Raster) -> Result<Read, CaseStop> {
    let (rows, cols) = (raster.rows(), raster.cols());
    let pixels = rows as usize * cols as usize;
    let mut mask = vec![in alloc; 1u8; (pixels + 7) / 8]?;
    raster.mask_bytes(&mut mask);
    Ok(Read {
        kind: raster.kind(),
        rows,
        cols,
        depth: raster.depth(),
        mask,
        cells: raster.cells().to_vec(alloc)?,
    })
}

/// Tells what a raster is.
pub(crate) fn tell_read(read: &Read, told: &mut Told) -> Result<(), CaseStop> {
    told.fact(read.kind)?;
    told.word(read.rows)?;
    told.word(read.cols)?;
    told.word(read.depth)?;
    told.bytes(&read.mask)?;
    told.bytes(&read.cells)
}

/// Tells what a blob is, or the reason and the place of the fault.
pub(crate) fn tell_answer(answer: &Answer, told: &mut Told) -> Result<(), CaseStop> {
    match answer {
        Ok(read) => tell_read(read, told),
        Err(fault) => tell_fault(*fault, told),
    }
}
