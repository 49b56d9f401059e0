//! How often symbols stand in a list that comes piece by piece.

ghost use Rattle.std.specs.Prelude.{◌≡◌, ℕ, ◌+◌, ◌^◌, ◌<◌, ◌++◌, List, [], length, sum};
ghost use Rattle.huff_codes.specs.Counts.{counts_of};
ghost use Rattle.huff_codes.specs.inside.Tallied.{AreAdded, HasRoom, sums_of};

use std::marker::Model;

/// Four counts of each symbol, whose sum is meant.
#[derive(Drop)]
struct FourCounts {
    first: [u32; 256],
    second: [u32; 256],
    third: [u32; 256],
    fourth: [u32; 256],
}

/// Counts symbols that come piece by piece.
///
/// A contract sees it as the list of how often each of the 256 symbols stood in the pieces so far.
#[derive(Drop)]
pub struct SymbolCounter {
    four: FourCounts,
}

impl Model for SymbolCounter {
    ghost use Rattle.std.specs.Prelude.{List, ℕ};

    ghost Value = { List ℕ };

    ghost use Rattle.huff_codes.specs.inside.Tallied.{AreTables, sums_of};

    ghost view = { λ c. sums_of c.four.first c.four.second c.four.third c.four.fourth };

    ghost invariant = { λ c. AreTables c.four.first c.four.second c.four.third c.four.fourth };
}

/// Counts the symbols of four lists of one length. Each list has counts of its own, so that no sum
/// waits for the one before, as it would where neighbours are equal.
fn add_four(counts: &mut FourCounts, one: &[u8], two: &[u8], three: &[u8], four: &[u8])
    requires two { length two.now ≡ length one.now }
    requires three { length three.now ≡ length one.now }
    requires four { length four.now ≡ length one.now }
    requires first_room { HasRoom counts.old.first (length one.now) }
    requires second_room { HasRoom counts.old.second (length one.now) }
    requires third_room { HasRoom counts.old.third (length one.now) }
    requires fourth_room { HasRoom counts.old.fourth (length one.now) }
    ensures first { AreAdded one.now counts.old.first counts.new.first }
    ensures second { AreAdded two.now counts.old.second counts.new.second }
    ensures third { AreAdded three.now counts.old.third counts.new.third }
    ensures fourth { AreAdded four.now counts.old.fourth counts.new.fourth }
{
    for i in 0..one.len() {
        counts.first[usize::from(one[i])] += 1;
        counts.second[usize::from(two[i])] += 1;
        counts.third[usize::from(three[i])] += 1;
        counts.fourth[usize::from(four[i])] += 1;
    }
}

/// Counts the symbols of a list.
fn add_rest(counts: &mut [u32; 256], symbols: &[u8])
    requires { HasRoom counts.old (length symbols.now) }
    ensures { AreAdded symbols.now counts.old counts.new }
{
    for symbol in symbols {
        counts[usize::from(*symbol)] += 1;
    }
}

/// The sums of four counts of each symbol.
fn sum_four(four: &FourCounts) -> [u32; 256]
    requires { let sums = sums_of four.now.first four.now.second four.now.third four.now.fourth in
        sum sums < 2 ^ 32 }
    ensures { result ≡ sums_of four.now.first four.now.second four.now.third four.now.fourth }
{
    let mut counts = [0; 256];
    for s in 0..256 {
        counts[s] = four.first[s] + four.second[s] + four.third[s] + four.fourth[s];
    }
    counts
}

impl SymbolCounter {
    /// Of no symbols.
    pub fn new() -> SymbolCounter
        ensures counts { result ≡ counts_of [] }
        ensures sum { sum result ≡ 0 }
    {
        SymbolCounter {
            four: FourCounts {
                first: [0; 256],
                second: [0; 256],
                third: [0; 256],
                fourth: [0; 256],
            },
        }
    }

    /// Counts the symbols of a piece more.
    pub fn add(&mut self, symbols: &[u8])
        requires few { sum self.old + length symbols.now < 2 ^ 32 }
        ensures counts { (before : List ℕ) → self.old ≡ counts_of before
            → self.new ≡ counts_of (before ++ symbols.now) }
        ensures sum { sum self.new ≡ sum self.old + length symbols.now }
    {
        let n = symbols.len() / 4;
        add_four(
            &mut self.four,
            &symbols[..n],
            &symbols[n..2 * n],
            &symbols[2 * n..3 * n],
            &symbols[3 * n..4 * n],
        );
        add_rest(&mut self.four.first, &symbols[4 * n..]);
    }

    /// How often each symbol stood so far.
    pub fn counts(&self) -> [u32; 256]
        ensures { result ≡ self.now }
    {
        sum_four(&self.four)
    }
}
