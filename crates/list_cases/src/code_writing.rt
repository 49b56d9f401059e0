//! Code lengths, code tables and code words that are written, and symbols that are counted, over
//! `huff_codes`.

ghost use Rattle.std.specs.Prelude.{◌≡◌, sum};

use case_rows::{CaseStop, Row, Told};
use huff_codes::{
    Lengths, SymbolCounter, count_symbols, counted_len, have_lengths, symbols_len, table_size,
    write_code_table, write_symbols,
};
use std::alloc::Global;

/// The sum of the counts.
fn total(counts: &[u32; 256]) -> u64
    ensures { result ≡ sum counts.now }
{
    let mut total = 0;
    for count in counts {
        total += u64::from(*count);
    }
    total
}

/// The counts of as many symbols as are given, from symbol 0 on; of the others there is none.
fn counts_of(given: &[u32]) -> Result<[u32; 256], CaseStop> {
    let mut counts = [0u32; 256];
    if given.len() > 256 {
        return Err(CaseStop::BadRow);
    }
    counts[..given.len()].copy_from_slice(given);
    Ok(counts)
}

/// Tells the words of the symbols, or that one has no code. Where the counts of the symbols give
/// another length, it is told which.
fn tell_words(
    alloc: Global,
    symbols: &[u8],
    lengths: &Lengths,
    told: &mut Told,
) -> Result<(), CaseStop> {
    if symbols.len() > 65536 {
        return Err(CaseStop::BadRow);
    }
    if !have_lengths(symbols, lengths) {
        return told.word("uncoded");
    }
    let size = symbols_len(symbols, lengths);
    let counted = counted_len(&count_symbols(symbols), lengths);
    if counted != size {
        told.word(counted)?;
    }
    let mut words = vec![in alloc; 77u8; size]?;
    write_symbols(symbols, lengths, &mut words);
    told.bytes(&words)
}

/// `write COUNTS SYMBOLS`: the table of the codes that are chosen for the counts of the symbols
/// from 0 on, and the words of the symbols; or `none` where there are no such codes.
pub(crate) fn write(alloc: Global, row: &Row, told: &mut Told) -> Result<(), CaseStop> {
    let counts = counts_of(&row.numbers::<u32>(alloc, 0)?)?;
    if total(&counts) > 16777216 {
        return Err(CaseStop::BadRow);
    }
    let Some(lengths) = Lengths::of(&counts) else {
        return told.word("none");
    };
    let mut table = vec![in alloc; 77u8; table_size(&lengths)]?;
    write_code_table(&lengths, &mut table);
    told.bytes(&table)?;
    tell_words(alloc, row.bytes(1)?, &lengths, told)
}

/// `counts SYMBOLS SYMBOLS SYMBOLS`: the counts of the symbols that are given in three pieces.
/// Where the first piece has other counts when it is counted at once, it is told which.
pub(crate) fn counts(row: &Row, told: &mut Told) -> Result<(), CaseStop> {
    let (first, second, third) = (row.bytes(0)?, row.bytes(1)?, row.bytes(2)?);
    if first.len() > 65536 || second.len() > 65536 || third.len() > 65536 {
        return Err(CaseStop::BadRow);
    }
    let mut counter = SymbolCounter::new();
    counter.add(first);
    if counter.counts() != count_symbols(first) {
        told.list(&count_symbols(first))?;
    }
    counter.add(second);
    counter.add(third);
    told.list(&counter.counts())
}
