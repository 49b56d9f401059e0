//! The one text of a grid is written.

ghost use Rattle.std.specs.Prelude.{◌≡◌, ℕ, ◌+◌, ◌*◌, ◌<◌, ◌≤◌, ◌∷◌, ◌++◌, [], OnOk, OnErr, length, get_or, pos, None, FitsSigned, decimal};
ghost use Rattle.std.specs.Int.{w64};
ghost use Rattle.std.specs.Fmt.{signed_decimal};
ghost use Rattle.outside_io.specs.streams.Faults.{CountsFaults};
ghost use Rattle.outside_io.specs.streams.Sink.{Holds, HoldsPrefix};
ghost use Rattle.ascii_grid.specs.Head.{name_of};
ghost use Rattle.ascii_grid.specs.Canon.{IsLawful, canon, end_of, head_words, line, number_of, number_words, x_key, y_key};
ghost use Rattle.ascii_grid.specs.inside.Pages.{Adds};

use crate::grid::AsciiGrid;
use crate::page::Page;
use crate::words::Key;
use outside_io::{Failed, Sink};

/// The keyword as it is written.
fn name(key: Key) -> &'static [u8]
    ensures name { result.now ≡ name_of key }
    ensures short { length result.now ≤ 40 }
{
    match key {
        Key::Cols => b"ncols",
        Key::Rows => b"nrows",
        Key::XCorner => b"xllcorner",
        Key::XCenter => b"xllcenter",
        Key::YCorner => b"yllcorner",
        Key::YCenter => b"yllcenter",
        Key::Cell => b"cellsize",
        Key::Nodata => b"NODATA_value",
    }
}

/// The keyword of `x`.
fn x_name(centre: bool) -> Key
    ensures { result ≡ x_key centre }
{
    if centre { Key::XCenter } else { Key::XCorner }
}

/// The keyword of `y`.
fn y_name(centre: bool) -> Key
    ensures { result ≡ y_key centre }
{
    if centre { Key::YCenter } else { Key::YCorner }
}

/// Adds a line of a keyword and a text.
fn text_line<K: Sink>(page: &mut Page, sink: &mut K, key: Key, value: &[u8]) -> Result<(), Failed>
    requires { length value.now ≤ 40 }
    ensures adds { Adds K.held K.faults result sink.old sink.new page.old page.new
        (line key value.now) }
{
    page.word(sink, name(key), b' ')?;
    page.word(sink, value, b'\n')
}

/// Adds a line of a keyword and a number.
fn number_line<K: Sink>(page: &mut Page, sink: &mut K, key: Key, value: i64) -> Result<(), Failed>
    ensures adds { Adds K.held K.faults result sink.old sink.new page.old page.new
        (line key (signed_decimal value)) }
{
    page.word(sink, name(key), b' ')?;
    page.number(sink, value, b'\n')
}

/// Adds a line of a keyword and a size.
fn size_line<K: Sink>(page: &mut Page, sink: &mut K, key: Key, size: u32) -> Result<(), Failed>
    ensures adds { Adds K.held K.faults result sink.old sink.new page.old page.new
        (line key (decimal size)) }
{
    number_line(page, sink, key, i64::from(size))
}

/// Adds the six lines of the head.
fn write_head<K: Sink>(grid: &AsciiGrid, page: &mut Page, sink: &mut K) -> Result<(), Failed>
    requires { IsLawful grid.now }
    ensures adds { Adds K.held K.faults result sink.old sink.new page.old page.new
        (head_words grid.now) }
{
    let geo = &grid.geo;
    size_line(page, sink, Key::Cols, grid.raster.cols())?;
    size_line(page, sink, Key::Rows, grid.raster.rows())?;
    text_line(page, sink, x_name(geo.x_centre), geo.x.as_slice())?;
    text_line(page, sink, y_name(geo.y_centre), geo.y.as_slice())?;
    text_line(page, sink, Key::Cell, geo.cell.as_slice())?;
    number_line(page, sink, Key::Nodata, geo.nodata)
}

/// The number of the pixel number k.
#[inline]
fn number_at(grid: &AsciiGrid, cols: u32, k: u32) -> i64
    requires depth { grid.now.raster.depth ≡ 1 }
    requires cols { cols ≡ grid.now.raster.cols }
    requires place { k < grid.now.raster.rows * grid.now.raster.cols }
    ensures value { result ≡ number_of grid.now.geo.nodata (get_or grid.now.raster.pixels k None) }
    ensures fits { FitsSigned w64 result }
{
    let row = k / cols;
    let col = k % cols;
    if grid.raster.is_valid(row, col) {
        grid.raster.get(row, col, 0)
    } else {
        grid.geo.nodata
    }
}

/// The byte behind the number of the pixel number k.
#[inline]
fn end(cols: u32, k: u32) -> u8
    requires some { 0 < cols }
    requires below { k < 16777216 }
    ensures { result ≡ end_of cols k }
{
    if (k + 1) % cols == 0 { b'\n' } else { b' ' }
}

/// Adds the number of each pixel.
fn write_numbers<K: Sink>(grid: &AsciiGrid, page: &mut Page, sink: &mut K) -> Result<(), Failed>
    requires { grid.now.raster.depth ≡ 1 }
    ensures adds { Adds K.held K.faults result sink.old sink.new page.old page.new
        (number_words grid.now.geo.nodata grid.now.raster.cols 0 grid.now.raster.pixels) }
{
    let cols = grid.raster.cols();
    let count = grid.raster.rows() * cols;
    for k in 0..count {
        page.number(sink, number_at(grid, cols, k), end(cols, k))?;
    }
    Ok(())
}

/// Writes the one text of a grid, through a page of 4,096 bytes.
///
/// It takes no memory. After a failure the sink has taken a prefix of the text.
pub fn ascii_write<K: Sink>(grid: &AsciiGrid, sink: &mut K) -> Result<(), Failed>
    requires { IsLawful grid.now }
    ensures ok { OnOk result (Holds (K.held sink.old) (K.held sink.new) (canon grid.now)) }
    ensures err { OnErr result (HoldsPrefix (K.held sink.old) (K.held sink.new) (canon grid.now)) }
    ensures counted { CountsFaults result (K.faults sink.old) (K.faults sink.new) }
{
    let mut page = Page::new();
    write_head(grid, &mut page, sink)?;
    write_numbers(grid, &mut page, sink)?;
    page.give(sink)
}
