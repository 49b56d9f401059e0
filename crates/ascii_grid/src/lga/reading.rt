//! An `LGA1` is read to the end of its source.

ghost use Rattle.std.specs.Prelude.{IfOk, IfSome, OnOk};
ghost use Rattle.outside_io.specs.streams.Source.{IsAtEnd};
ghost use Rattle.ascii_grid.specs.Canon.{IsLawful};
ghost use Rattle.ascii_grid.specs.Lga.{LgaRead};
ghost use Rattle.ascii_grid.specs.Stopping.{CountsStop};

use super::contents::take_raster;
use super::fields::{take_flags, take_magic, take_nodata, take_text};
use crate::fault::AsciiStop;
use crate::grid::{AsciiGrid, Georef};
use outside_io::Source;
use std::alloc::Global;

/// Reads an `LGA1`, to the end of the source.
///
/// A fault is the first one of the bytes. Memory is wanted for three texts and for the raster, once
/// its head stands.
pub fn lga_read<S: Source>(alloc: Global, src: &mut S) -> Result<AsciiGrid, AsciiStop>
    ensures read { IfSome (S.left src.old) (λ bytes. LgaRead result bytes) }
    ensures lawful { IfOk result (λ g. IsLawful g) }
    ensures end { OnOk result (IsAtEnd (S.left src.new)) }
    ensures counted { CountsStop result (S.faults src.old) (S.faults src.new) }
{
    take_magic(src)?;
    let centres = take_flags(src)?;
    let x = take_text(alloc, src, 5)?;
    let at_y = 6 + x.len() as u64;
    let y = take_text(alloc, src, at_y)?;
    let at_cell = at_y + 1 + y.len() as u64;
    let cell = take_text(alloc, src, at_cell)?;
    let at_nodata = at_cell + 1 + cell.len() as u64;
    let nodata = take_nodata(src, at_nodata)?;
    let raster = take_raster(alloc, src, at_nodata + 8, nodata)?;
    let geo = Georef {
        x,
        x_centre: centres.x,
        y,
        y_centre: centres.y,
        cell,
        nodata,
    };
    Ok(AsciiGrid { geo, raster })
}
