//! A table of symbols by the first eleven bits.

ghost use Rattle.std.specs.Prelude.{◌≡◌, ℕ, ◌+◌, ◌*◌, ◌≤◌, ◌<◌, ◌^◌, ◌%◌, List, Bool, All};
ghost use Rattle.std.specs.Prelude.{length};
ghost use Rattle.huff_codes.specs.Codes.{HasCode, code_at};
ghost use Rattle.huff_codes.specs.inside.Lookup.{AreEntries, IsEntry, IsShort};
ghost use Rattle.huff_codes.specs.inside.Spans.{IsLaid};
ghost use Rattle.huff_codes.specs.inside.Stored.{code_bits};

use crate::codes::{Code, Codes};

/// The symbols, two at most, whose codes stand in front of some bits, and how many bits they take.
#[derive(Clone, Copy)]
pub(crate) struct Entry {
    pub(crate) first: u8,
    pub(crate) second: u8,
    pub(crate) count: u8,
    pub(crate) length: u8,
}

/// Puts a symbol at all bits that its code stands in front of, if it has at most eleven bits.
fn put_symbol(entries: &mut [Entry; 2048], code: Code, symbol: u8)
    requires laid { IsLaid code }
    requires room { length entries.old ≡ 2048 }
    requires short { All IsShort entries.old }
    ensures room { length entries.new ≡ 2048 }
    ensures short { All IsShort entries.new }
    ensures are { (codes : List (List Bool)) → code_at codes symbol ≡ code_bits code
        → AreEntries codes entries.old → AreEntries codes entries.new }
{
    if code.length == 0 || code.length > 11 {
        return;
    }
    let entry = Entry {
        first: symbol,
        second: 0,
        count: 1,
        length: code.length as u8,
    };
    let from = (code.bits >> 21) as usize;
    for k in from..from + (1 << (11 - code.length)) {
        entries[k] = entry;
    }
}

/// The table of one symbol for each entry, where its code has at most eleven bits.
pub(crate) fn single_symbols(codes: &Codes) -> [Entry; 2048]
    ensures room { length result ≡ 2048 }
    ensures short { All IsShort result }
    ensures are { AreEntries codes.now result }
{
    let mut entries = no_entries();
    for s in 0..256 {
        put_symbol(&mut entries, codes.code(s), s as u8);
    }
    entries
}

/// Both entries in one, where two codes fit into the eleven bits; else the first.
fn join_entries(one: Entry, two: Entry) -> Entry
    requires one { IsShort one }
    requires two { IsShort two }
    ensures short { IsShort result }
    ensures is { (codes : List (List Bool)) (number : ℕ) → IsEntry codes number one
        → IsEntry codes (number * 2 ^ one.length % 2048) two → IsEntry codes number result }
{
    if one.count == 1 && two.count == 1 && one.length + two.length <= 11 {
        Entry {
            first: one.first,
            second: two.first,
            count: 2,
            length: one.length + two.length,
        }
    } else {
        one
    }
}

/// The table in which nothing is found.
pub(crate) fn no_entries() -> [Entry; 2048]
    ensures room { length result ≡ 2048 }
    ensures short { All IsShort result }
    ensures are { (codes : List (List Bool)) → AreEntries codes result }
{
    [Entry {
        first: 0,
        second: 0,
        count: 0,
        length: 0,
    }; 2048]
}

/// The table of the codes: two symbols for each entry where they fit.
pub(crate) fn entries_of(codes: &Codes) -> [Entry; 2048]
    ensures room { length result ≡ 2048 }
    ensures short { All IsShort result }
    ensures are { AreEntries codes.now result }
{
    let singles = single_symbols(codes);
    let mut entries = singles;
    for k in 0..2048 {
        let one = singles[k];
        entries[k] = join_entries(one, singles[(k << one.length) % 2048]);
    }
    entries
}
