//! Blobs of rasters whose pixels are all alike, laid without the raster.

ghost use Rattle.std.specs.Prelude.{IsTrue, IfSome};
ghost use Rattle.raster_cells.specs.PixelType.{InRange};

use crate::fixtures::{blob_of, kind_at, tell_laid, version_at};
use case_rows::{CaseStop, Row, Told};
use lerc_encode::{AlikeRaster, encode_alike_over};
use lerc_header::Step;
use raster_values::{PixelType, Raster, is_shape};
use std::alloc::Global;

/// What a row gives: the type is its first word, the shape stands from the third one on, and the
/// value or an empty word is the seventh.
fn alike_in(row: &Row) -> Result<AlikeRaster, CaseStop> {
    let value = if row.bytes(6)?.is_empty() {
        None
    } else {
        Some(row.number::<i64>(6)?)
    };
    let kind = kind_at(row, 0)?;
    let (rows, cols, depth) = (row.number(2)?, row.number(3)?, row.number(4)?);
    if !is_shape(rows, cols, depth) || !is_of_kind(kind, value) {
        return Err(CaseStop::BadRow);
    }
    Ok(AlikeRaster {
        kind,
        rows,
        cols,
        depth,
        value,
    })
}

/// Whether the value is one of the type, where there is one.
fn is_of_kind(kind: PixelType, value: Option<i64>) -> bool
    ensures { IsTrue result → IfSome value (InRange kind) }
{
    match value {
        Some(value) => kind.least() <= value && value <= kind.greatest(),
        None => true,
    }
}

/// Gives each pixel of a raster a value, or makes none valid. One pixel is valid before.
fn fill(raster: &mut Raster, value: Option<i64>) -> Result<(), CaseStop> {
    if raster.rows() == 0 || raster.cols() == 0 {
        return Err(CaseStop::BadRow);
    }
    raster.mark(0, 0, true);
    let kind = raster.kind();
    match value {
        Some(value) if kind.least() <= value && value <= kind.greatest() => raster.fill(value),
        Some(_) => return Err(CaseStop::BadRow),
        None => raster.mark(0, 0, false),
    }
    Ok(())
}

/// The raster, with arrays of its own.
fn raster_of(alloc: Global, alike: AlikeRaster) -> Result<Raster, CaseStop> {
    let made = Raster::new(alloc, alike.kind, alike.rows, alike.cols, alike.depth);
    let Ok(mut raster) = made else {
        return Err(CaseStop::BadRow);
    };
    fill(&mut raster, alike.value)?;
    Ok(raster)
}

/// Tells the answer over these bytes, what they are then, and whether the raster has another blob
/// than they begin with.
pub(crate) fn tell_alike(alloc: Global, row: &Row, told: &mut Told) -> Result<(), CaseStop> {
    let (version, step) = (version_at(row, 1)?, Step::of(row.number(5)?));
    let alike = alike_in(row)?;
    let mut room = row.bytes(7)?.to_vec(alloc)?;
    let answer = encode_alike_over(alike, version, step, &mut room);
    if let Ok(size) = &answer {
        let wanted = blob_of(alloc, &raster_of(alloc, alike)?, version, step)?;
        if !matches!(&wanted, Ok(blob) if room.get(..*size) == Some(blob.as_slice())) {
            told.word("differs")?;
        }
    }
    tell_laid(answer, told)?;
    told.bytes(&room)
}
