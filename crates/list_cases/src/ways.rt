//! Symbols of a raster of bytes that are given piece by piece, over `delta_mode`.

ghost use Rattle.std.specs.Prelude.{IfOk};
ghost use Rattle.delta_mode.specs.PlainStates.{IsOnPlain};
ghost use Rattle.delta_mode.specs.EncodeStates.{IsOn};

use case_rows::{CaseStop, Row, Told};
use delta_mode::{EncodeState, PlainState, first_plain, first_state, next_deltas, next_plain};
use raster_values::{PixelType, Raster, is_shape};
use std::alloc::Global;

/// Calls what stands behind `way.` Each call is given the numbers of rows, columns and depths, the
/// bytes of the pixels in order, the numbers of the pixels that are not valid, and the lengths of
/// the rooms that are filled in turn. It tells the symbols that each room gets, how far it came,
/// and how many symbols were given.
pub(crate) fn call(alloc: Global, row: &Row, told: &mut Told) -> Result<(), CaseStop> {
    let raster = raster_of(alloc, row)?;
    let rooms = row.numbers::<usize>(alloc, 5)?;
    match row.call.as_slice() {
        b"deltas" => deltas(alloc, &raster, &rooms, told),
        b"plain" => plain(alloc, &raster, &rooms, told),
        _ => Err(CaseStop::BadRow),
    }
}

/// The raster that a row gives.
fn raster_of(alloc: Global, row: &Row) -> Result<Raster, CaseStop> {
    let (rows, cols, depth) = (row.number(0)?, row.number(1)?, row.number(2)?);
    let bytes = row.bytes(3)?;
    if !is_shape(rows, cols, depth)
        || bytes.len() != rows as usize * cols as usize * depth as usize
    {
        return Err(CaseStop::BadRow);
    }
    let mut raster = Raster::from_cells(alloc, PixelType::U8, rows, cols, depth, bytes).map_err(
        |_| CaseStop::BadRow,
    )?;
    for place in row.numbers::<u32>(alloc, 4)? {
        let (row, col) = (place / cols, place % cols);
        if row >= raster.rows() || col >= raster.cols() {
            return Err(CaseStop::BadRow);
        }
        raster.mark(row, col, false);
    }
    Ok(raster)
}

/// The next symbols of the differences for which there is room.
fn next_of_deltas(
    raster: &Raster,
    state: EncodeState,
    out: &mut [u8],
    told: &mut Told,
) -> Result<EncodeState, CaseStop>
    requires { IsOn raster.now state }
    ensures { IfOk result (λ next. IsOn raster.now next) }
{
    if raster.kind().bytes() != 1 || state.d >= raster.depth() || out.is_empty() {
        return Err(CaseStop::BadRow);
    }
    let next = next_deltas(raster, state, out);
    told.bytes(&out[..next.given - state.given])?;
    Ok(next)
}

/// The symbols of the differences, and the depth where they end.
fn deltas(
    alloc: Global,
    raster: &Raster,
    rooms: &[usize],
    told: &mut Told,
) -> Result<(), CaseStop> {
    // for the proof: `depth` ensures that the raster is a lawful one
    let _depth = raster.depth();
    let mut state = first_state();
    for room in rooms {
        let mut out = vec![in alloc; 0u8; *room]?;
        state = next_of_deltas(raster, state, &mut out, told)?;
    }
    told.word(state.d)?;
    told.word(state.given)
}

/// The next plain symbols for which there is room.
fn next_of_plain(
    raster: &Raster,
    state: PlainState,
    out: &mut [u8],
    told: &mut Told,
) -> Result<PlainState, CaseStop>
    requires { IsOnPlain raster.now state }
    ensures { IfOk result (λ next. IsOnPlain raster.now next) }
{
    let pixels = raster.rows() as usize * raster.cols() as usize;
    if raster.kind().bytes() != 1 || state.place >= pixels || out.len() < raster.depth() as usize {
        return Err(CaseStop::BadRow);
    }
    let next = next_plain(raster, state, out);
    told.bytes(&out[..next.given - state.given])?;
    Ok(next)
}

/// The plain symbols, and the number of the pixel where they end.
fn plain(alloc: Global, raster: &Raster, rooms: &[usize], told: &mut Told) -> Result<(), CaseStop> {
    let mut state = first_plain();
    for room in rooms {
        let mut out = vec![in alloc; 0u8; *room]?;
        state = next_of_plain(raster, state, &mut out, told)?;
    }
    told.word(state.place)?;
    told.word(state.given)
}
