//! The grid, and what its raster may not have.

ghost use Rattle.std.specs.Prelude.{◌≡◌, ◌+◌, ◌*◌, ◌<◌, ◌≤◌, ◌^◌, ℕ, List, All, IfOk, IfErr, IfSome, IfNone, OnOk, FitsSigned, length};
ghost use Rattle.std.specs.Int.{w64};
ghost use Rattle.first_fault.specs.Faults.{ends, moved};
ghost use Rattle.outside_io.specs.streams.Source.{IsAtEnd};
ghost use Rattle.raster_grids.specs.ReadGrid.{IsGrid};
ghost use Rattle.raster_values.specs.Raster.{IsRaster};
ghost use Rattle.ascii_grid.specs.declared.fault.AsciiReason.{AsciiReason};
ghost use Rattle.ascii_grid.specs.Canon.{IsApart};
ghost use Rattle.ascii_grid.specs.Lga.{FirstSame, content_faults, grid_and_end_faults};
ghost use Rattle.ascii_grid.specs.inside.Fields.{Tells, grid_stop_of};
ghost use Rattle.ascii_grid.specs.Stopping.{CountsStop};

use crate::fault::{AsciiFault, AsciiReason, AsciiStop, stop};
use outside_io::{Source, take_all};
use raster_grids::{GridStop, grid_read, grid_size};
use raster_values::Raster;
use std::alloc::Global;

/// Why no grid was read, as a stop.
fn grid_stop(e: GridStop) -> AsciiStop
    ensures { result ≡ grid_stop_of e }
{
    match e {
        GridStop::Fault(fault) => stop(AsciiReason::Grid(fault.reason), fault.place),
        GridStop::Source => AsciiStop::Source,
        GridStop::OutOfMemory => AsciiStop::OutOfMemory,
    }
}

/// Asks for one byte more, which may not be there.
fn take_end<S: Source>(src: &mut S, at: u64) -> Result<(), AsciiStop>
    ensures end { OnOk result (IsAtEnd (S.left src.old) × IsAtEnd (S.left src.new)) }
    ensures err { IfErr result (λ e. Tells (ends AsciiReason.Leftover) (S.left src.old) at e) }
    ensures counted { CountsStop result (S.faults src.old) (S.faults src.new) }
{
    let mut byte = [0; 1];
    let n = take_all(src, &mut byte)?;
    if n > 0 {
        return Err(stop(AsciiReason::Leftover, at));
    }
    Ok(())
}

/// How many valid pixels stand before the first of which the value is nodata, where there is one.
fn first_same(raster: &Raster, nodata: i64) -> Option<u32>
    requires { raster.now.depth ≡ 1 }
    ensures found { IfSome result (λ n. FirstSame nodata raster.now.pixels n) }
    ensures few { IfSome result (λ n. n ≤ raster.now.rows * raster.now.cols) }
    ensures none { IfNone result (All (IsApart nodata) raster.now.pixels) }
{
    let cols = raster.cols();
    let count = raster.rows() * cols;
    let mut valid = 0;
    for k in 0..count {
        if raster.is_valid(k / cols, k % cols) {
            if raster.get(k / cols, k % cols, 0) == nodata {
                return Some(valid);
            }
            valid += 1;
        }
    }
    None
}

/// What is wrong first with the raster of a grid, where something is.
fn content_fault(raster: &Raster, nodata: i64, at: u64) -> Option<AsciiFault>
    requires { at < 2 ^ 60 }
    ensures found { IfSome result
        (λ f. moved at (content_faults nodata raster.now) f.place f.reason) }
    ensures none { IfNone result
        ((raster.now.depth ≡ 1) × All (IsApart nodata) raster.now.pixels) }
{
    if raster.depth() != 1 {
        return Some(AsciiFault {
            reason: AsciiReason::DepthNot1,
            place: at + 13,
        });
    }
    let valid = first_same(raster, nodata)?;
    let marks = 17 + raster.rows() as u64 * raster.cols() as u64;
    Some(AsciiFault {
        reason: AsciiReason::Collision,
        place: at + (marks + valid as u64 * raster.kind().bytes() as u64),
    })
}

/// Takes the grid, which is all that the source has left. Memory is wanted for the raster.
pub(super) fn take_raster<S: Source>(
    alloc: Global,
    src: &mut S,
    at: u64,
    nodata: i64,
) -> Result<Raster, AsciiStop>
    requires { at < 2 ^ 59 }
    ensures all { IfOk result (λ r. IfSome (S.left src.old) (λ bytes. IsGrid bytes r)) }
    ensures lawful { IfOk result (λ r. (r.depth ≡ 1) × All (IsApart nodata) r.pixels) }
    ensures end { OnOk result (IsAtEnd (S.left src.new)) }
    ensures err { IfErr result (λ e. Tells (grid_and_end_faults nodata) (S.left src.old) at e) }
    ensures counted { CountsStop result (S.faults src.old) (S.faults src.new) }
{
    let raster = match grid_read(alloc, src, at) {
        Ok(raster) => raster,
        Err(e) => return Err(grid_stop(e)),
    };
    take_end(src, at + grid_size(&raster))?;
    match content_fault(&raster, nodata, at) {
        Some(fault) => Err(AsciiStop::Fault(fault)),
        None => Ok(raster),
    }
}
