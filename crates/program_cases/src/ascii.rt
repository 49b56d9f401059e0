//! ASCII grids: runs of `ascii_cli`, and texts read and written.

ghost use Rattle.std.specs.Prelude.{IfOk};
ghost use Rattle.ascii_grid.specs.Canon.{IsLawful};

use crate::runs::{sink_of, source_of, words_of};
use ascii_cli::run_ascii;
use ascii_grid::{AsciiGrid, AsciiStop};
use case_rows::{CaseStop, Row, Told};
use raster_values::PixelType;
use std::alloc::Global;

/// `run WORDS INPUT FAILING FAILING`
pub(crate) fn ascii_run(alloc: Global, row: &Row, told: &mut Told) -> Result<(), CaseStop> {
    let words = words_of(alloc, row, 0)?;
    let mut src = source_of(alloc, row.bytes(1)?, 7, &row.numbers(alloc, 2)?)?;
    let mut out = sink_of(alloc, 100, &row.numbers(alloc, 3)?)?;
    let mut err = sink_of(alloc, 100, &[])?;
    let status = run_ascii(alloc, &words, &mut src, &mut out, &mut err);
    told.word(status)?;
    told.bytes(out.held())?;
    told.bytes(err.held())
}

/// The type that a word names.
fn type_of(row: &Row, at: usize) -> Result<PixelType, CaseStop> {
    match row.bytes(at)? {
        b"i8" => Ok(PixelType::I8),
        b"u8" => Ok(PixelType::U8),
        b"i16" => Ok(PixelType::I16),
        _ => Err(CaseStop::BadRow),
    }
}

/// The grid of a text of numbers of a type, read in pieces of so many bytes.
fn grid_of(
    alloc: Global,
    row: &Row,
    piece: usize,
    failing: &[u8],
) -> Result<Result<AsciiGrid, AsciiStop>, CaseStop>
    ensures { IfOk result (λ answer. IfOk answer (λ g. IsLawful g)) }
{
    let mut src = source_of(alloc, row.bytes(0)?, piece, failing)?;
    Ok(ascii_grid::ascii_read(alloc, &mut src, type_of(row, 1)?))
}

/// The shape of a grid, how many pixels are valid and the first pixel's value, or why there is
/// none.
type Summary = Result<(u32, u32, u32, i64), AsciiStop>;

fn summary_of(answer: Result<AsciiGrid, AsciiStop>) -> Summary {
    let raster = answer?.raster;
    let value = raster.get(0, 0, 0);
    Ok((raster.rows(), raster.cols(), raster.valid_count(), value))
}

/// `read TEXT TYPE PIECES FAILING`
pub(crate) fn ascii_read(alloc: Global, row: &Row, told: &mut Told) -> Result<(), CaseStop> {
    let failing = row.numbers(alloc, 3)?;
    let mut last = None;
    for piece in &row.numbers(alloc, 2)? {
        let summary = summary_of(grid_of(alloc, row, *piece, &failing)?);
        if last != Some(summary) {
            told.fact(summary)?;
            last = Some(summary);
        }
    }
    Ok(())
}

/// `geo TEXT TYPE`
pub(crate) fn ascii_geo(alloc: Global, row: &Row, told: &mut Told) -> Result<(), CaseStop> {
    let Ok(grid) = grid_of(alloc, row, 5, &[])? else {
        return Err(CaseStop::BadRow);
    };
    told.bytes(grid.geo.x.as_slice())?;
    told.bytes(grid.geo.y.as_slice())?;
    told.bytes(grid.geo.cell.as_slice())?;
    told.word(grid.geo.nodata)?;
    told.fact((grid.geo.x_centre, grid.geo.y_centre))
}

/// `write TEXT TYPE PIECE FAILING`
pub(crate) fn ascii_write(alloc: Global, row: &Row, told: &mut Told) -> Result<(), CaseStop> {
    let mut sink = sink_of(alloc, row.number(2)?, &row.numbers(alloc, 3)?)?;
    let Ok(grid) = grid_of(alloc, row, 100, &[])? else {
        return Err(CaseStop::BadRow);
    };
    told.fact(ascii_grid::ascii_write(&grid, &mut sink))?;
    told.bytes(sink.held())
}
