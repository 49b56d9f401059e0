//! Half of four tiles.

ghost use Rattle.std.specs.Prelude.{◌<◌};

use crate::runs::{sink_of, source_of};
use case_rows::{CaseStop, Row, Told};
use overview_tiles::Mosaic;
use raster_grids::{bands_read, bands_write};
use raster_values::Bands;
use std::alloc::Global;

/// The bands of a grid.
fn tile_of(alloc: Global, grid: &[u8]) -> Result<Bands, CaseStop> {
    let mut src = source_of(alloc, grid, 1000, &[])?;
    bands_read(alloc, &mut src, 0).map_err(|_| CaseStop::BadRow)
}

/// Lays the tile of a grid into a quarter that has none. An empty grid is none.
fn lay(alloc: Global, mosaic: &mut Mosaic, quarter: u8, grid: &[u8]) -> Result<(), CaseStop>
    requires { quarter < 4 }
{
    if grid.is_empty() {
        return Ok(());
    }
    let tile = tile_of(alloc, grid)?;
    if mosaic.has(quarter) || !mosaic.takes(&tile) {
        return Err(CaseStop::BadRow);
    }
    mosaic.lay(quarter, &tile);
    if mosaic.has(quarter) {
        Ok(())
    } else {
        Err(CaseStop::BadRow)
    }
}

/// A mosaic of tiles like the first one that is there.
fn mosaic_like(alloc: Global, row: &Row) -> Result<Mosaic, CaseStop> {
    for grid in &row.given {
        if !grid.is_empty() {
            return Ok(Mosaic::new(alloc, &tile_of(alloc, grid)?)?);
        }
    }
    Err(CaseStop::BadRow)
}

/// `half GRID GRID GRID GRID`
pub(crate) fn half_of(alloc: Global, row: &Row, told: &mut Told) -> Result<(), CaseStop> {
    let mut mosaic = mosaic_like(alloc, row)?;
    for quarter in 0..4u8 {
        lay(alloc, &mut mosaic, quarter, row.bytes(quarter as usize)?)?;
    }
    let half = mosaic.half(alloc)?;
    let mut sink = sink_of(alloc, 1000, &[])?;
    if bands_write(&half, &mut sink).is_err() {
        return Err(CaseStop::BadRow);
    }
    told.bytes(sink.held())
}
