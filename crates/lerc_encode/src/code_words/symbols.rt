//! The symbols of a raster of bytes, counted and written piece by piece: they are nowhere kept.

ghost use Rattle.std.specs.Prelude.{◌≡◌, ◌*◌, ◌^◌, ◌<◌, ◌≤◌, ◌↔◌, All, IsTrue, length, slice_index};
ghost use Rattle.std.specs.Prelude.{sum};
ghost use Rattle.raster_values.specs.Raster.{IsRaster, valid_count};
ghost use Rattle.delta_mode.specs.Deltas.{plain};
ghost use Rattle.huff_codes.specs.Codes.{canonical_codes};
ghost use Rattle.huff_codes.specs.Written.{AreWritten, written_size};
ghost use Rattle.lerc_encode.specs.Codings.{counts_of};
ghost use Rattle.lerc_encode.specs.Images.{all_deltas};
ghost use Rattle.lerc_encode.specs.inside.Coded.{IsLying, symbols_of};

use crate::code_words::byte_view::ByteView;
use delta_mode::{first_plain, first_state, next_deltas, next_plain};
use huff_codes::{Lengths, SymbolCounter, SymbolWriter, count_symbols, write_symbols};
use raster_access::View;
use raster_values::PixelType;

/// Which symbols stand for the values.
#[derive(Clone, Copy)]
pub(crate) enum SymbolMode {
    /// Those of the differences, one depth behind the other.
    Deltas,
    /// Those of the values, pixel by pixel.
    Plain,
}

/// How many symbols of differences are made together, at most.
const DELTAS: usize = 4096;

/// How many plain symbols are made together, at most: at least as many as a pixel may have.
const PLAINS: usize = 65536;

/// Counts the symbols of the differences.
fn count_deltas<V: View>(bytes: &ByteView<V>) -> [u32; 256]
    ensures counts { result ≡ counts_of (all_deltas (V.pixels bytes.now.raster.now)) }
    ensures few { sum result ≤ 2 ^ 24 }
{
    let depth = bytes.raster.depth();
    let mut counter = SymbolCounter::new();
    let mut room = [0; DELTAS];
    let mut state = first_state();
    while state.d < depth {
        let next = next_deltas(bytes.raster, state, &mut room);
        counter.add(&room[..next.given - state.given]);
        state = next;
    }
    counter.counts()
}

/// Writes the words of the differences' symbols over all of `out`.
fn write_deltas<V: View>(bytes: &ByteView<V>, lengths: &Lengths, out: &mut [u8])
    requires room { length out.old
        ≡ written_size (canonical_codes lengths.now) (all_deltas (V.pixels bytes.now.raster.now)) }
    ensures { AreWritten (canonical_codes lengths.now) (all_deltas (V.pixels bytes.now.raster.now))
        out.new }
{
    let depth = bytes.raster.depth();
    let mut writer = SymbolWriter::new(lengths);
    let mut room = [0; DELTAS];
    let mut state = first_state();
    while state.d < depth {
        let next = next_deltas(bytes.raster, state, &mut room);
        writer.write(&room[..next.given - state.given], out);
        state = next;
    }
    writer.end(out);
}

/// Whether the plain symbols are the raster's bytes: all pixels are valid, and of u8.
fn is_lying<V: View>(raster: &V) -> bool
    ensures lies { IsTrue result ↔ IsLying (V.pixels raster.now) }
    ensures sound { IsRaster (V.pixels raster.now) }
{
    match raster.kind() {
        PixelType::U8 => raster.valid_count() == raster.rows() * raster.cols(),
        _ => false,
    }
}

/// Counts the plain symbols piece by piece.
fn count_plain_by_piece<V: View>(bytes: &ByteView<V>) -> [u32; 256]
    ensures counts { result ≡ counts_of (plain (V.pixels bytes.now.raster.now)) }
    ensures few { sum result ≤ 2 ^ 24 }
{
    let pixels = bytes.raster.rows() as usize * bytes.raster.cols() as usize;
    let mut counter = SymbolCounter::new();
    let mut room = [0; PLAINS];
    let mut state = first_plain();
    while state.place < pixels {
        let next = next_plain(bytes.raster, state, &mut room);
        counter.add(&room[..next.given - state.given]);
        state = next;
    }
    counter.counts()
}

/// Counts the plain symbols.
fn count_plain<V: View>(bytes: &ByteView<V>) -> [u32; 256]
    ensures counts { result ≡ counts_of (plain (V.pixels bytes.now.raster.now)) }
    ensures few { sum result ≤ 2 ^ 24 }
{
    if is_lying(bytes.raster) {
        count_symbols(bytes.raster.cells())
    } else {
        count_plain_by_piece(bytes)
    }
}

/// Writes the words of the plain symbols piece by piece over all of `out`.
fn write_plain_by_piece<V: View>(bytes: &ByteView<V>, lengths: &Lengths, out: &mut [u8])
    requires room { length out.old
        ≡ written_size (canonical_codes lengths.now) (plain (V.pixels bytes.now.raster.now)) }
    ensures { AreWritten (canonical_codes lengths.now) (plain (V.pixels bytes.now.raster.now))
        out.new }
{
    let pixels = bytes.raster.rows() as usize * bytes.raster.cols() as usize;
    let mut writer = SymbolWriter::new(lengths);
    let mut room = [0; PLAINS];
    let mut state = first_plain();
    while state.place < pixels {
        let next = next_plain(bytes.raster, state, &mut room);
        writer.write(&room[..next.given - state.given], out);
        state = next;
    }
    writer.end(out);
}

/// Writes the words of the plain symbols over all of `out`.
fn write_plain<V: View>(bytes: &ByteView<V>, lengths: &Lengths, out: &mut [u8])
    requires coded { All (λ s. 0 < slice_index lengths.now s)
        (plain (V.pixels bytes.now.raster.now)) }
    requires room { length out.old
        ≡ written_size (canonical_codes lengths.now) (plain (V.pixels bytes.now.raster.now)) }
    ensures { AreWritten (canonical_codes lengths.now) (plain (V.pixels bytes.now.raster.now))
        out.new }
{
    if is_lying(bytes.raster) {
        write_symbols(bytes.raster.cells(), lengths, out);
    } else {
        write_plain_by_piece(bytes, lengths, out);
    }
}

/// Counts the symbols of a mode.
pub(crate) fn count_mode<V: View>(mode: SymbolMode, bytes: &ByteView<V>) -> [u32; 256]
    ensures counts { result ≡ counts_of (symbols_of mode (V.pixels bytes.now.raster.now)) }
    ensures few { sum result ≤ 2 ^ 24 }
{
    match mode {
        SymbolMode::Deltas => count_deltas(bytes),
        SymbolMode::Plain => count_plain(bytes),
    }
}

/// Writes the words of a mode's symbols over all of `out`.
pub(crate) fn write_words<V: View>(
    mode: SymbolMode,
    bytes: &ByteView<V>,
    lengths: &Lengths,
    out: &mut [u8],
)
    requires coded { All (λ s. 0 < slice_index lengths.now s)
        (symbols_of mode (V.pixels bytes.now.raster.now)) }
    requires room { length out.old ≡ written_size (canonical_codes lengths.now)
        (symbols_of mode (V.pixels bytes.now.raster.now)) }
    ensures { AreWritten (canonical_codes lengths.now)
        (symbols_of mode (V.pixels bytes.now.raster.now)) out.new }
{
    match mode {
        SymbolMode::Deltas => write_deltas(bytes, lengths, out),
        SymbolMode::Plain => write_plain(bytes, lengths, out),
    }
}
