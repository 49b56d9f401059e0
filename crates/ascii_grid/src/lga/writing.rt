//! The `LGA1` of a grid is written.

ghost use Rattle.std.specs.Prelude.{◌≡◌, ◌≤◌, ◌∷◌, ◌++◌, [], OnOk, OnErr, codes, length};
ghost use Rattle.outside_io.specs.streams.Faults.{CountsFaults};
ghost use Rattle.outside_io.specs.streams.Sink.{Holds, HoldsPrefix};
ghost use Rattle.byteorder.specs.Endian.{little_bytes};
ghost use Rattle.raster_cells.specs.PixelType.{complement_of};
ghost use Rattle.ascii_grid.specs.Canon.{IsLawful};
ghost use Rattle.ascii_grid.specs.Lga.{flags_of, last_fields, lga_of, text_field};
ghost use Rattle.ascii_grid.specs.inside.Pages.{Gives};

use crate::grid::AsciiGrid;
use byteorder::{ByteOrder, LittleEndian};
use outside_io::{Failed, Sink, give_all};
use raster_grids::grid_write;

/// The flags of which text is that of a centre.
fn flags(x_centre: bool, y_centre: bool) -> u8
    ensures { result ≡ flags_of (record { x = x_centre; y = y_centre }) }
{
    u8::from(x_centre) + 2 * u8::from(y_centre)
}

/// Gives a text behind its length.
fn give_text<K: Sink>(sink: &mut K, text: &[u8]) -> Result<(), Failed>
    requires { length text.now ≤ 32 }
    ensures gives { Gives K.held K.faults result sink.old sink.new (text_field text.now) }
{
    give_all(sink, &[text.len() as u8])?;
    give_all(sink, text)
}

/// The bytes of the nodata value.
fn nodata_bytes(nodata: i64) -> [u8; 8]
    ensures { result ≡ little_bytes 8 (complement_of 8 nodata) }
{
    let mut bytes = [0; 8];
    LittleEndian::write_i64(&mut bytes, nodata);
    bytes
}

/// Gives nodata, and the grid.
fn give_last<K: Sink>(grid: &AsciiGrid, sink: &mut K) -> Result<(), Failed>
    requires { IsLawful grid.now }
    ensures gives { Gives K.held K.faults result sink.old sink.new (last_fields grid.now) }
{
    give_all(sink, &nodata_bytes(grid.geo.nodata))?;
    grid_write(&grid.raster, sink)
}

/// Writes the `LGA1` of a grid.
///
/// It takes no memory. After a failure the sink has taken a prefix of the bytes.
pub fn lga_write<K: Sink>(grid: &AsciiGrid, sink: &mut K) -> Result<(), Failed>
    requires { IsLawful grid.now }
    ensures ok { OnOk result (Holds (K.held sink.old) (K.held sink.new) (lga_of grid.now)) }
    ensures err { OnErr result
        (HoldsPrefix (K.held sink.old) (K.held sink.new) (lga_of grid.now)) }
    ensures counted { CountsFaults result (K.faults sink.old) (K.faults sink.new) }
{
    let geo = &grid.geo;
    give_all(sink, b"LGA1")?;
    give_all(sink, &[flags(geo.x_centre, geo.y_centre)])?;
    give_text(sink, geo.x.as_slice())?;
    give_text(sink, geo.y.as_slice())?;
    give_text(sink, geo.cell.as_slice())?;
    give_last(grid, sink)
}
