//! Writing code tables.

ghost use Rattle.std.specs.Prelude.{◌≡◌, ℕ, ◌+◌, ◌-◌, ◌*◌, ◌/◌, ◌%◌, ◌^◌, ◌≤◌, ◌<◌, ◌++◌, List};
ghost use Rattle.std.specs.Prelude.{length, take, drop, All, slice_index, map};
ghost use Rattle.std.specs.List.{range_with_len};
ghost use Rattle.bit_stuff.specs.Simple.{simple_bytes};
ghost use Rattle.huff_codes.specs.Codes.{AreLengths, canonical_codes};
ghost use Rattle.huff_codes.specs.Table.{IsTable, symbol_in, symbols_in, words_size};
ghost use Rattle.huff_codes.specs.Written.{AreTableWords, IsShortestRun, IsTableSize};
ghost use Rattle.huff_codes.specs.Written.{IsWrittenTable, run_lengths, table_head};
ghost use Rattle.huff_codes.specs.inside.Gaps.{IsGapBefore};

use crate::lengths::code_lengths::{Lengths, codes_of};
use crate::tables::table::{SymbolRange, bit_count};
use crate::words::writing::fill;
use bit_stuff::{simple_len, write_simple};
use byteorder::{ByteOrder, LittleEndian};

/// How many symbols right before symbol 0, counted modulo 256, have no length.
fn first_gap(lengths: &[u8; 256]) -> usize
    requires { AreLengths lengths.now }
    ensures low { result ≤ 255 }
    ensures gap { IsGapBefore lengths.now 0 result }
{
    for gap in 0..255 {
        if lengths[255 - gap] > 0 {
            return gap;
        }
    }
    255
}

/// How many symbols right before the next one have no length, from how many right before this one
/// have none.
fn next_gap(lengths: &[u8; 256], symbol: usize, gap: usize) -> usize
    requires below { symbol < 255 }
    requires low { gap ≤ 255 }
    requires gap { IsGapBefore lengths.now symbol gap }
    ensures low { result ≤ 255 }
    ensures gap { IsGapBefore lengths.now (symbol + 1) result }
{
    if lengths[symbol] > 0 { 0 } else { gap + 1 }
}

/// The shortest range of symbols that holds all which have a length; of several the one that begins
/// first. From a symbol on it takes all but those right before it that have none.
fn shortest_run(lengths: &[u8; 256]) -> SymbolRange
    requires { AreLengths lengths.now }
    ensures run { IsShortestRun lengths.now result }
    ensures some { 0 < result.count }
    ensures within { result.count ≤ 256 }
{
    let mut gap = first_gap(lengths);
    let mut best = SymbolRange {
        first: 0,
        count: 256 - gap,
    };
    for symbol in 0..255 {
        gap = next_gap(lengths, symbol, gap);
        let count = 256 - gap;
        if count < best.count {
            best = SymbolRange {
                first: symbol + 1,
                count,
            };
        }
    }
    best
}

/// The lengths of the symbols of a range, in order.
fn list_lengths(lengths: &[u8; 256], run: SymbolRange, out: &mut [u32])
    requires lengths { AreLengths lengths.now }
    requires room { length out.old ≡ run.count }
    requires first { run.first < 256 }
    requires within { run.count ≤ 256 }
    ensures is { out.new ≡ run_lengths lengths.now run }
    ensures low { All (λ l. l ≤ 32) out.new }
{
    for k in 0..out.len() {
        out[k] = u32::from(lengths[(run.first + k) % 256]);
    }
}

/// The symbols of a range, in order.
fn list_symbols(run: SymbolRange, out: &mut [u8])
    requires room { length out.old ≡ run.count }
    requires first { run.first < 256 }
    requires within { run.count ≤ 256 }
    ensures { out.new ≡ symbols_in run.first run.count }
{
    for k in 0..out.len() {
        out[k] = ((run.first + k) % 256) as u8;
    }
}

/// Writes the four numbers in front of a table.
fn write_table_head(run: SymbolRange, out: &mut [u8])
    requires room { length out.old ≡ 16 }
    requires first { run.first < 256 }
    requires within { run.count ≤ 256 }
    ensures { out.new ≡ table_head run }
{
    LittleEndian::write_u32(out, 4);
    LittleEndian::write_u32(&mut out[4..], 256);
    LittleEndian::write_u32(&mut out[8..], run.first as u32);
    LittleEndian::write_u32(&mut out[12..], (run.first + run.count) as u32);
}

/// Writes the words of the codes of a range.
fn write_codes(lengths: &Lengths, run: SymbolRange, out: &mut [u8])
    requires run { IsShortestRun lengths.now run }
    requires some { 0 < run.count }
    requires within { run.count ≤ 256 }
    requires room { length out.old ≡ words_size (run_lengths lengths.now run) }
    ensures { AreTableWords (canonical_codes lengths.now) (symbols_in run.first run.count) out.new }
{
    let mut list = [0; 256];
    let symbols = &mut list[..run.count];
    list_symbols(run, symbols);
    fill(&codes_of(lengths), symbols, out);
}

/// How many bytes `write_code_table` takes.
pub fn table_size(lengths: &Lengths) -> usize
    ensures size { IsTableSize lengths.now result }
    ensures few { result ≤ 2040 }
{
    let run = shortest_run(lengths.all());
    let mut list = [0; 256];
    let values = &mut list[..run.count];
    list_lengths(lengths.all(), run, values);
    16 + simple_len(values) + (bit_count(values) + 31) / 32 * 4
}

/// Writes the code table of the canonical codes of these lengths: version 4; the shortest range of
/// symbols that holds all which have a length, and of several the one that begins first; their
/// lengths as a simple list; and their codes, in words whose last bits are 0.
pub fn write_code_table(lengths: &Lengths, out: &mut [u8])
    requires { IsTableSize lengths.now (length out.old) }
    ensures written { IsWrittenTable lengths.now out.new }
    ensures table { IsTable out.new (canonical_codes lengths.now) }
{
    let run = shortest_run(lengths.all());
    let mut list = [0; 256];
    let values = &mut list[..run.count];
    list_lengths(lengths.all(), run, values);
    let end = 16 + simple_len(values);
    write_table_head(run, &mut out[..16]);
    write_simple(values, &mut out[16..end]);
    write_codes(lengths, run, &mut out[end..]);
}
