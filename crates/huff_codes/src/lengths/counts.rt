//! How often symbols stand in a list, and how long their code words are by that alone.

ghost use Rattle.std.specs.Prelude.{◌≡◌, ℕ, ◌+◌, ◌*◌, ◌^◌, ◌≤◌, List, length, slice_index, sum};
ghost use Rattle.huff_codes.specs.Sums.{sum_below};
ghost use Rattle.huff_codes.specs.Codes.{canonical_codes};
ghost use Rattle.huff_codes.specs.Counts.{counts_of};
ghost use Rattle.huff_codes.specs.Written.{written_size};

use crate::lengths::code_lengths::Lengths;
use crate::lengths::symbol_counter::SymbolCounter;

/// How often each symbol stands among these.
pub fn count_symbols(symbols: &[u8]) -> [u32; 256]
    requires { length symbols.now ≤ 2 ^ 24 }
    ensures counts { result ≡ counts_of symbols.now }
    ensures sum { sum result ≡ length symbols.now }
{
    let mut counter = SymbolCounter::new();
    counter.add(symbols);
    counter.counts()
}

/// The sum of the lengths, each taken as often as its symbol is counted.
fn counted_bits(counts: &[u32; 256], lengths: &[u8; 256]) -> usize
    ensures { result ≡ sum_below 256
        (λ s. slice_index counts.now s * slice_index lengths.now s) }
{
    let mut bits = 0;
    for s in 0..256 {
        bits += counts[s] as usize * usize::from(lengths[s]);
    }
    bits
}

/// How many bytes `write_symbols` takes for symbols that stand so often, in whatever order: as
/// `symbols_len` says of the symbols themselves.
pub fn counted_len(counts: &[u32; 256], lengths: &Lengths) -> usize
    requires { sum counts.now ≤ 2 ^ 24 }
    ensures size { (symbols : List ℕ) → counts_of symbols ≡ counts.now
        → result ≡ written_size (canonical_codes lengths.now) symbols }
    ensures few { result ≤ 2 ^ 26 + 4 }
{
    (counted_bits(counts, lengths.all()) + 31) / 32 * 4 + 4
}
