//! Blobs that encoders choose for a raster in arrays, and for one with arrays of its own; and what
//! they are decoded to.

ghost use Rattle.std.specs.Prelude.{◌≡◌, ◌*◌, IfSome};

use crate::alike;
use crate::answers::{Read, read_of, tell_answer};
use crate::arrays::{Arrays, arrays_in};
use crate::fixtures::{blob_of, kind_at, tell_laid, version_at};
use crate::reading::{self, answer_of};
use case_rows::{CaseStop, Row, Told};
use lerc_encode::{EncodeFault, LayFault, encode_view, encode_view_over};
use lerc_header::{Step, Version};
use raster_values::{Raster, ShapeFault, is_shape};
use std::alloc::Global;

/// The answer where the blob of the raster in the arrays is laid over these bytes.
fn lay_over(
    alloc: Global,
    arrays: &Arrays<'_>,
    version: Version,
    step: Step,
    room: &mut [u8],
) -> Result<Result<usize, LayFault>, CaseStop> {
    let view = arrays.view()?;
    Ok(encode_view_over(alloc, &view, version, step, room))
}

/// Whether the blob of the raster in the arrays is this one.
fn has_blob(
    alloc: Global,
    arrays: &Arrays<'_>,
    version: Version,
    step: Step,
    blob: &[u8],
) -> Result<bool, CaseStop> {
    let view = arrays.view()?;
    match encode_view(alloc, &view, version, step) {
        Ok(found) => Ok(found.as_slice() == blob),
        Err(_) => Ok(false),
    }
}

/// Whether this blob is laid over the front of nines, which are left behind it.
fn is_laid(
    alloc: Global,
    arrays: &Arrays<'_>,
    version: Version,
    step: Step,
    blob: &[u8],
) -> Result<bool, CaseStop> {
    let nines = [9u8; 4];
    let wanted = [blob, &nines].concat(alloc)?;
    let mut room = vec![in alloc; 9u8; wanted.len()]?;
    let laid = lay_over(alloc, arrays, version, step, &mut room)?;
    Ok(matches!(&laid, Ok(size) if *size == blob.len()) && room == wanted)
}

/// Tells a blob, and of one of more than 300 bytes how many it has and its checksum.
pub(crate) fn tell_blob(blob: &[u8], told: &mut Told) -> Result<(), CaseStop> {
    match blob.get(10..14) {
        Some(sum) if blob.len() > 300 => {
            told.word(blob.len())?;
            told.bytes(sum)
        }
        _ => told.bytes(blob),
    }
}

/// Tells what the blob is where that is not what was wanted, and the values that it has where there
/// is an error.
fn tell_kept(
    alloc: Global,
    blob: &[u8],
    mut wanted: Read,
    error: u32,
    told: &mut Told,
) -> Result<(), CaseStop> {
    let answer = answer_of(alloc, blob, told)?;
    if error > 0 {
        if let Ok(read) = &answer {
            told.bytes(&read.cells)?;
            wanted.cells = read.cells.to_vec(alloc)?;
        }
    }
    if answer != Ok(wanted) {
        told.word("differs")?;
        tell_answer(&answer, told)?;
    }
    Ok(())
}

/// How many bytes the values of a shape take.
fn cells_size(rows: u32, cols: u32, depth: u32, bytes: usize) -> Option<usize>
    ensures { IfSome result (λ size. size ≡ rows * cols * depth * bytes) }
{
    (rows as usize)
        .checked_mul(cols as usize)?
        .checked_mul(depth as usize)?
        .checked_mul(bytes)
}

/// Tells the fault of a shape that is none: of that of values where these are as many.
fn tell_shape(alloc: Global, row: &Row, told: &mut Told) -> Result<(), CaseStop> {
    let (kind, cells) = (kind_at(row, 0)?, row.bytes(7)?);
    let (rows, cols, depth) = (row.number(2)?, row.number(3)?, row.number(4)?);
    let made = match cells_size(rows, cols, depth, kind.bytes()) {
        Some(size) if size == cells.len() => {
            Raster::from_cells(alloc, kind, rows, cols, depth, cells)
        }
        _ => Raster::new(alloc, kind, rows, cols, depth),
    };
    match made {
        Ok(_) => Err(CaseStop::BadRow),
        Err(fault) => told.word(fault),
    }
}

/// Tells the blob of a raster: once, if it is the same for the raster in arrays; and what it is
/// decoded to, if that is not the raster.
fn tell_both(alloc: Global, row: &Row, told: &mut Told) -> Result<(), CaseStop> {
    if !is_shape(row.number(2)?, row.number(3)?, row.number(4)?) {
        return tell_shape(alloc, row, told);
    }
    let (version, error) = (version_at(row, 1)?, row.number::<u32>(5)?);
    let step = Step::of(error);
    let arrays = arrays_in(row)?;
    let raster = arrays.raster(alloc)?;
    let blob = match blob_of(alloc, &raster, version, step)? {
        Ok(blob) => blob,
        Err(fault) => return told.word(fault),
    };
    tell_blob(&blob, told)?;
    if !is_laid(alloc, &arrays, version, step, &blob)? {
        told.word("lent")?;
    }
    tell_kept(alloc, &blob, read_of(alloc, &raster)?, error, told)
}

/// Tells the answer where the same blob is laid over these bytes, what they are then, and whether
/// the raster in arrays has another blob than they begin with.
fn tell_lay(alloc: Global, row: &Row, told: &mut Told) -> Result<(), CaseStop> {
    let (version, step) = (version_at(row, 1)?, Step::of(row.number(5)?));
    let arrays = arrays_in(row)?;
    let raster = arrays.raster(alloc)?;
    let mut room = row.bytes(8)?.to_vec(alloc)?;
    let laid = encode_view_over(alloc, &raster, version, step, &mut room);
    if let Ok(size) = &laid {
        let Some(blob) = room.get(..*size) else {
            return Err(CaseStop::BadRow);
        };
        if !has_blob(alloc, &arrays, version, step, blob)? {
            told.word("differs")?;
        }
    }
    tell_laid(laid, told)?;
    told.bytes(&room)
}

/// Tells the texts of the faults of encoders and of shapes.
fn tell_texts(told: &mut Told) -> Result<(), CaseStop> {
    told.word(EncodeFault::DepthNeedsV4)?;
    told.word(EncodeFault::OutOfMemory)?;
    told.word(ShapeFault::BadSize)?;
    told.word(ShapeFault::TooLarge)?;
    told.word(ShapeFault::OutOfMemory)
}

/// `both`, `lay` and `texts`, and `alike` of rasters whose pixels are all alike.
pub(crate) fn call(alloc: Global, row: &Row, told: &mut Told) -> Result<(), CaseStop> {
    match row.call.as_slice() {
        b"both" => tell_both(alloc, row, told),
        b"lay" => tell_lay(alloc, row, told),
        b"alike" => alike::tell_alike(alloc, row, told),
        b"texts" => tell_texts(told),
        _ => reading::call(alloc, row, told),
    }
}
