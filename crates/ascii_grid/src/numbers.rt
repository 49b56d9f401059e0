//! The numbers of a grid are read into a raster.

ghost use Rattle.std.specs.Prelude.{◌≡◌, ◌*◌, ◌<◌, ◌≤◌, ◌∷◌, ◌++◌, ℕ, ℤ, List, [], length, MatchBool, OnOk, All};
ghost use Rattle.raster_cells.specs.PixelType.{InRange};
ghost use Rattle.raster_values.specs.Raster.{blank};
ghost use Rattle.ascii_grid.specs.Tokens.{TokenAt};
ghost use Rattle.ascii_grid.specs.Canon.{IsApart};
ghost use Rattle.ascii_grid.specs.inside.Cells.{Begun, CellTaken, CellsTaken};
ghost use Rattle.ascii_grid.specs.inside.Reading.{Left};
ghost use Rattle.ascii_grid.specs.Stopping.{CountsStop};

use crate::fault::{AsciiReason, AsciiStop, stop};
use crate::token::{Token, demand, next_token};
use crate::window::Window;
use crate::words::integer_of;
use outside_io::Source;
use raster_values::{PixelType, Raster};

/// Whether the number is one of the type.
#[inline]
fn is_of(kind: PixelType, number: i64) -> bool
    ensures { MatchBool result (InRange kind number) (¬ InRange kind number) }
{
    kind.least() <= number && number <= kind.greatest()
}

/// Takes a number as the pixel number k, which is invalid so far.
#[inline]
fn take_cell(raster: &mut Raster, k: u32, nodata: i64, token: &Token) -> Result<(), AsciiStop>
    requires place { k < raster.old.rows * raster.old.cols }
    requires depth { raster.old.depth ≡ 1 }
    ensures shape { raster.new ≡ record raster.old { pixels = raster.new.pixels } }
    ensures taken { CellTaken result nodata token.now raster.old raster.new k }
{
    let Some(number) = integer_of(token.bytes()) else {
        return Err(stop(AsciiReason::BadNumber, token.place()));
    };
    if number == nodata {
        return Ok(());
    }
    if !is_of(raster.kind(), number) {
        return Err(stop(AsciiReason::OutOfRange, token.place()));
    }
    let cols = raster.cols();
    let row = k / cols;
    let col = k % cols;
    raster.mark(row, col, true);
    raster.set(row, col, 0, number);
    Ok(())
}

/// Takes a number for each pixel of a raster of which none is valid, from the first one on, and
/// finds the end of the text behind them.
pub(crate) fn read_cells<S: Source>(
    src: &mut S,
    window: &mut Window,
    raster: &mut Raster,
    nodata: i64,
    first: Token,
) -> Result<(), AsciiStop>
    requires { raster.old ≡ blank raster.old.kind raster.old.rows raster.old.cols 1 }
    ensures read { (total : ℕ) (rest : List TokenAt)
        → (length first.bytes < 33 → Left (S.left src.old) window.old total rest)
        → CellsTaken result total nodata (first ∷ rest) raster.old raster.new }
    ensures apart { OnOk result (All (IsApart nodata) raster.new.pixels) }
    ensures shape { OnOk result (raster.new ≡ record raster.old { pixels = raster.new.pixels }) }
    ensures counted { CountsStop result (S.faults src.old) (S.faults src.new) }
{
    let count = raster.rows() * raster.cols();
    let mut token = first;
    let mut done = 0;
    loop {
        take_cell(raster, done, nodata, &token)?;
        done += 1;
        if done == count {
            break;
        }
        token = demand(src, window)?;
    }
    match next_token(src, window)? {
        Some(token) => Err(stop(AsciiReason::Leftover, token.place())),
        None => Ok(()),
    }
}
