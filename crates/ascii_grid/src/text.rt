//! The text of an ASCII grid is read, head and numbers.

ghost use Rattle.std.specs.Prelude.{◌≡◌, ℕ, pos, List, IfOk, IfErr, IfSome, Some, None, FitsSigned, IsTrue, ◌<◌, unsigned_abs};
ghost use Rattle.std.specs.Int.{w64};
ghost use Rattle.raster_values.specs.Raster.{blank};
ghost use Rattle.ascii_grid.specs.Head.{HasAll, Pair, Says, SaysNumber, SaysText};
ghost use Rattle.ascii_grid.specs.Canon.{IsLawful, IsLawfulGeo};
ghost use Rattle.ascii_grid.specs.Text.{AsciiRead, IsGeo, IsNodata};
ghost use Rattle.ascii_grid.specs.inside.Heads.{IsFair, Keeps, KeepsNumber, KeepsText, has_five};
ghost use Rattle.ascii_grid.specs.Stopping.{CountsStop};

use crate::fault::AsciiStop;
use crate::grid::{AsciiGrid, Georef};
use crate::head::{Head, read_head};
use crate::numbers::read_cells;
use crate::token::Token;
use crate::window::Window;
use outside_io::{Bytes, Source};
use raster_values::{PixelType, Raster};
use std::alloc::Global;

/// A copy of the bytes.
pub(crate) fn copy_bytes(alloc: Global, bytes: &[u8]) -> Result<Bytes, AsciiStop>
    ensures ok { IfOk result (λ copy. copy ≡ bytes.now) }
    ensures err { IfErr result (λ e. e ≡ AsciiStop.OutOfMemory) }
{
    match Bytes::of(alloc, bytes) {
        Ok(copy) => Ok(copy),
        Err(_) => Err(AsciiStop::OutOfMemory),
    }
}

/// A copy of the text of a head that has all.
fn copy_text(alloc: Global, text: &Option<Token>) -> Result<Bytes, AsciiStop>
    ensures ok { (ps : List Pair) (q : ℕ) → KeepsText text.now ps q → Says ps q
        → IfOk result (λ copy. SaysText ps q copy) }
    ensures copy { IfSome text.now (λ t. IfOk result (λ copy. copy ≡ t.bytes)) }
    ensures err { IfErr result (λ e. e ≡ AsciiStop.OutOfMemory) }
{
    match text {
        Some(token) => copy_bytes(alloc, token.bytes()),
        None => copy_bytes(alloc, b""),
    }
}

/// The number of an invalid pixel.
fn nodata_of(number: Option<i64>) -> i64
    ensures value { (ps : List Pair) → KeepsNumber number ps 5 → IsNodata ps result }
    ensures fits { FitsSigned w64 result }
    ensures small { IfSome number (λ n. unsigned_abs n < 10000000000)
        → unsigned_abs result < 10000000000 }
{
    match number {
        Some(number) => number,
        None => -9999,
    }
}

/// Where the grid lies.
fn georef(alloc: Global, head: &Head) -> Result<Georef, AsciiStop>
    ensures ok { (ps : List Pair) → Keeps head.now ps → HasAll ps
        → IfOk result (λ geo. IsGeo ps geo) }
    ensures fits { IfOk result (λ geo. FitsSigned w64 geo.nodata) }
    ensures lawful { IsFair head.now → IsTrue (has_five head.now)
        → IfOk result (λ geo. IsLawfulGeo geo) }
    ensures err { IfErr result (λ e. e ≡ AsciiStop.OutOfMemory) }
{
    let x = copy_text(alloc, &head.x)?;
    let y = copy_text(alloc, &head.y)?;
    let cell = copy_text(alloc, &head.cell)?;
    Ok(Georef {
        x,
        x_centre: head.x_centre,
        y,
        y_centre: head.y_centre,
        cell,
        nodata: nodata_of(head.nodata),
    })
}

fn size_of(number: Option<u64>) -> Option<u32>
    ensures { IfSome result (λ n. number ≡ Some n) }
{
    match number {
        Some(number) => match u32::try_from(number) {
            Ok(size) => Some(size),
            Err(_) => None,
        },
        None => None,
    }
}

/// The raster of a head, of which no pixel is valid. A head that has all has a shape of its own, so
/// only memory may be wanting.
fn blank_raster(alloc: Global, kind: PixelType, head: &Head) -> Result<Raster, AsciiStop>
    ensures blank { IfOk result (λ r. r ≡ blank kind r.rows r.cols 1) }
    ensures sizes { IfOk result
        (λ r. (head.now.rows ≡ Some r.rows) × (head.now.cols ≡ Some r.cols)) }
    ensures err { IfErr result (λ e. e ≡ AsciiStop.OutOfMemory) }
{
    let Some(rows) = size_of(head.rows) else {
        return Err(AsciiStop::OutOfMemory);
    };
    let Some(cols) = size_of(head.cols) else {
        return Err(AsciiStop::OutOfMemory);
    };
    match Raster::new(alloc, kind, rows, cols, 1) {
        Ok(raster) => Ok(raster),
        Err(_) => Err(AsciiStop::OutOfMemory),
    }
}

/// Reads a text of numbers of the type, to the end of the source.
///
/// A fault is the text's first one. Memory is wanted for the raster and three texts, once the head
/// stands.
pub fn ascii_read<S: Source>(
    alloc: Global,
    src: &mut S,
    kind: PixelType,
) -> Result<AsciiGrid, AsciiStop>
    ensures read { IfSome (S.left src.old) (λ text. AsciiRead result kind text) }
    ensures lawful { IfOk result (λ g. IsLawful g) }
    ensures counted { CountsStop result (S.faults src.old) (S.faults src.new) }
{
    let mut window = Window::new();
    let (head, first) = read_head(src, &mut window)?;
    let geo = georef(alloc, &head)?;
    let mut raster = blank_raster(alloc, kind, &head)?;
    read_cells(src, &mut window, &mut raster, geo.nodata, first)?;
    Ok(AsciiGrid { geo, raster })
}
