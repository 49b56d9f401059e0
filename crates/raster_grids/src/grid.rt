//! Grid files written.

ghost use Rattle.std.specs.Prelude.{◌≡◌, ◌-◌, ◌*◌, ◌<◌, ◌≤◌, length, OnOk, OnErr};
ghost use Rattle.byteorder.specs.Endian.{little_bytes};
ghost use Rattle.outside_io.specs.streams.Faults.{CountsFaults};
ghost use Rattle.outside_io.specs.streams.Sink.{Holds, HoldsPrefix};
ghost use Rattle.raster_values.specs.Raster.{values_of};
ghost use Rattle.raster_grids.specs.Grid.{head_of, band_of, grid_of, bands_grid_of};
ghost use Rattle.raster_cells.specs.Values.{values_bytes};
ghost use Rattle.raster_grids.specs.inside.Heads.{letters_with};
ghost use Rattle.raster_values.specs.View.{pixels_of};
ghost use Rattle.raster_cells.specs.MarkBytes.{mark_bytes};

use crate::PIECE;
use crate::waiting::Waiting;
use byteorder::{ByteOrder, LittleEndian};
use outside_io::{Failed, Sink, give_all};
use raster_cells::{Cells, Mask, PixelType};
use raster_values::{Bands, Raster};

/// Gives the raster's grid to the sink: `LGR1`, the type's code, rows, columns and depth, a byte 1
/// or 0 for each pixel, and the values of the valid pixels.
///
/// `Failed` comes only where the sink failed; it has then taken some first part of the grid. This
/// takes no memory.
pub fn grid_write<K: Sink>(raster: &Raster, sink: &mut K) -> Result<(), Failed>
    ensures ok { OnOk result (Holds (K.held sink.old) (K.held sink.new) (grid_of raster.now)) }
    ensures err { OnErr result
        (HoldsPrefix (K.held sink.old) (K.held sink.new) (grid_of raster.now)) }
    ensures counted { CountsFaults result (K.faults sink.old) (K.faults sink.new) }
{
    give_all(sink, &head(b'1', raster))?;
    give_band(raster, sink)
}

/// Gives the grid of the bands to the sink: that of the raster where there is one, else `LGR2`, the
/// type's code, rows, columns, depth and the number of bands, and then of each band a byte 1 or 0
/// for each pixel and the values of the valid pixels.
///
/// `Failed` comes only where the sink failed; it has then taken some first part of the grid. This
/// takes no memory.
pub fn bands_write<K: Sink>(bands: &Bands, sink: &mut K) -> Result<(), Failed>
    ensures ok { OnOk result
        (Holds (K.held sink.old) (K.held sink.new) (bands_grid_of bands.now)) }
    ensures err { OnErr result
        (HoldsPrefix (K.held sink.old) (K.held sink.new) (bands_grid_of bands.now)) }
    ensures counted { CountsFaults result (K.faults sink.old) (K.faults sink.new) }
{
    let count = bands.len();
    let first = bands.at(0);
    if count == 1 {
        return grid_write(first, sink);
    }
    give_all(sink, &head(b'2', first))?;
    give_all(sink, &count_bytes(count))?;
    for i in 0..count {
        give_band(bands.at(i), sink)?;
    }
    Ok(())
}

/// The 17 bytes before a raster's marks, or before the number of its bands: `LGR`, a letter that
/// tells the two apart, and what the raster says.
fn head(letter: u8, raster: &Raster) -> [u8; 17]
    ensures { result ≡ head_of (letters_with letter) raster.now.kind raster.now.rows
        raster.now.cols raster.now.depth }
{
    head_with(
        letter,
        raster.kind(),
        raster.rows(),
        raster.cols(),
        raster.depth(),
    )
}

/// The number of bands as four bytes.
fn count_bytes(count: usize) -> [u8; 4]
    requires { count ≤ 16 }
    ensures { result ≡ little_bytes 4 count }
{
    let mut number = [0; 4];
    LittleEndian::write_u32(&mut number, count as u32);
    number
}

/// The head with this letter, of this type and shape.
fn head_with(letter: u8, kind: PixelType, rows: u32, cols: u32, depth: u32) -> [u8; 17]
    ensures { result ≡ head_of (letters_with letter) kind rows cols depth }
{
    let mut head = [0; 17];
    head[..3].copy_from_slice(b"LGR");
    head[3] = letter;
    head[4] = kind.code();
    LittleEndian::write_u32(&mut head[5..], rows);
    LittleEndian::write_u32(&mut head[9..], cols);
    LittleEndian::write_u32(&mut head[13..], depth);
    head
}

/// Gives a raster's marks and values, which stand behind a head.
fn give_band<K: Sink>(raster: &Raster, sink: &mut K) -> Result<(), Failed>
    ensures ok { OnOk result (Holds (K.held sink.old) (K.held sink.new) (band_of raster.now)) }
    ensures err { OnErr result
        (HoldsPrefix (K.held sink.old) (K.held sink.new) (band_of raster.now)) }
    ensures counted { CountsFaults result (K.faults sink.old) (K.faults sink.new) }
{
    let marks = raster.mask();
    let samples = raster.samples();
    give_marks(marks, sink)?;
    give_values(raster.depth(), marks, samples, sink)
}

/// Gives a byte for each mark.
fn give_marks<K: Sink>(marks: &Mask, sink: &mut K) -> Result<(), Failed>
    ensures ok { OnOk result (Holds (K.held sink.old) (K.held sink.new) (mark_bytes marks.now)) }
    ensures err { OnErr result
        (HoldsPrefix (K.held sink.old) (K.held sink.new) (mark_bytes marks.now)) }
    ensures counted { CountsFaults result (K.faults sink.old) (K.faults sink.new) }
{
    let mut buffer = [0; PIECE];
    let mut at = 0;
    while at < marks.len() {
        let count = PIECE.min(marks.len() - at);
        marks.write_run(at, count, &mut buffer);
        give_all(sink, &buffer[..count])?;
        at += count;
    }
    Ok(())
}

/// Gives the values of the pixels that are marked, of which each has `depth`: the bytes of one run
/// of such pixels behind those of the other, in pieces.
fn give_values<K: Sink>(
    depth: u32,
    marks: &Mask,
    values: &Cells,
    sink: &mut K,
) -> Result<(), Failed>
    requires size { length values.now.values ≡ length marks.now * depth }
    requires few { length values.now.values ≤ 16777216 }
    ensures ok { OnOk result (Holds (K.held sink.old) (K.held sink.new)
        (values_bytes values.now.kind (values_of (pixels_of depth marks.now values.now.values)))) }
    ensures err { OnErr result (HoldsPrefix (K.held sink.old) (K.held sink.new)
        (values_bytes values.now.kind (values_of (pixels_of depth marks.now values.now.values)))) }
    ensures counted { CountsFaults result (K.faults sink.old) (K.faults sink.new) }
{
    let depth = depth as usize;
    let mut waiting = Waiting::new();
    let mut at = 0;
    while at < marks.len() {
        let run = marks.next_run(at, marks.len());
        let count = (run.end - run.start) * depth;
        waiting.give(sink, values.bytes_of_run(run.start * depth, count))?;
        at = run.end;
    }
    waiting.flush(sink)
}
