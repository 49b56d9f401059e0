//! Code tables and code words that are read, over `huff_codes`.

ghost use Rattle.std.specs.Prelude.{◌≡◌, length};
ghost use Rattle.huff_codes.specs.Readers.{IsReader, left_of};

use crate::code_writing::{counts, write};
use case_rows::{CaseStop, Row, Told};
use huff_codes::{CodeFault, Look, Prefixes, SymbolReader, read_symbols, read_table};
use std::alloc::Global;

/// Calls what stands behind `code.`
pub(crate) fn call(alloc: Global, row: &Row, told: &mut Told) -> Result<(), CaseStop> {
    match row.call.as_slice() {
        b"table" => table(row, told),
        b"symbols" => symbols(alloc, row, told),
        b"look" => look(row, told),
        b"write" => write(alloc, row, told),
        b"counts" => counts(row, told),
        _ => Err(CaseStop::BadRow),
    }
}

/// Tells the reason and the place of a fault.
fn tell_fault(fault: CodeFault, told: &mut Told) -> Result<(), CaseStop> {
    told.fact(fault.reason)?;
    told.word(fault.at)
}

/// `table BYTES`: how many bytes the table takes that stands in front, or its fault.
fn table(row: &Row, told: &mut Told) -> Result<(), CaseStop> {
    match read_table(row.bytes(0)?) {
        Ok((_, used)) => told.word(used),
        Err(fault) => tell_fault(fault, told),
    }
}

/// `look BYTE TABLE`: the symbol whose code stands in front of the bits of the byte, and how many
/// bits that has; or that the code is longer, or that there is none.
fn look(row: &Row, told: &mut Told) -> Result<(), CaseStop> {
    let (codes, byte) = match (read_table(row.bytes(1)?), row.bytes(0)?) {
        (Ok((codes, _)), [byte]) => (codes, *byte),
        _ => return Err(CaseStop::BadRow),
    };
    match Prefixes::of(&codes).look(byte) {
        Look::Symbol { symbol, length } => {
            told.word(symbol)?;
            told.word(length)
        }
        Look::Longer => told.word("longer"),
        Look::Nothing => told.word("nothing"),
    }
}

/// Reads symbols in pieces of 1, 5 and 64 and what is left; how many bytes their words take.
fn read_pieces(reader: &mut SymbolReader, out: &mut [u8]) -> Result<usize, CodeFault>
    requires reader { IsReader reader.old }
    requires left { left_of reader.old ≡ length out.old }
{
    let (one, six, seventy) = (out.len().min(1), out.len().min(6), out.len().min(70));
    reader.read(&mut out[..one])?;
    reader.read(&mut out[one..six])?;
    reader.read(&mut out[six..seventy])?;
    reader.read(&mut out[seventy..])?;
    reader.end()
}

/// Tells how many bytes the words take with so many in front, and the symbols; or the fault.
fn tell_symbols(
    front: usize,
    read: Result<usize, CodeFault>,
    symbols: &[u8],
    told: &mut Told,
) -> Result<(), CaseStop> {
    match read {
        Ok(used) => {
            told.word(front.wrapping_add(used))?;
            told.bytes(symbols)
        }
        Err(fault) => tell_fault(fault, told),
    }
}

/// `symbols COUNT BYTES`: how many bytes a table and the words of so many symbols behind it take,
/// and the symbols; or the fault of the words, its place counted from the first of these, or of the
/// table. Where they are others when they are read in pieces, it is told which.
fn symbols(alloc: Global, row: &Row, told: &mut Told) -> Result<(), CaseStop> {
    let count = row.size(0, 65536)?;
    let bytes = row.bytes(1)?;
    let (codes, used) = match read_table(bytes) {
        Ok(table) => table,
        Err(fault) => return tell_fault(fault, told),
    };
    if count > 65536 || used > bytes.len() {
        return Err(CaseStop::BadRow);
    }
    let words = &bytes[used..];
    let mut whole = vec![in alloc; 77u8; count]?;
    let read = read_symbols(words, &codes, &mut whole);
    let mut pieces = vec![in alloc; 77u8; count]?;
    let again = read_pieces(&mut SymbolReader::new(words, &codes, count), &mut pieces);
    if again != read || (read.is_ok() && pieces != whole) {
        tell_symbols(used, again, &pieces, told)?;
    }
    tell_symbols(used, read, &whole, told)
}
