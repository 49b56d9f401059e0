//! The words that ask for packing.

ghost use Rattle.std.specs.Prelude.{◌≡◌, ◌↔◌, ◌≤◌, ◌∷◌, [], IsTrue, codes};
ghost use Rattle.bundle_pack.specs.Words.{IsAsked};

use outside_io::Word;

/// What is told where the words, or the number of sources, ask for nothing.
pub const USAGE: &[u8] = b"usage: TARGET SOURCE, with 1 to 8 sources";

/// Whether this is the word `pack`.
fn is_pack_word(word: &Word) -> bool
    ensures { IsTrue result ↔ (word.now ≡ codes "pack") }
{
    word.as_slice() == b"pack".as_slice()
}

/// Whether the words are that one word.
fn say_pack(words: &[Word]) -> bool
    ensures { IsTrue result ↔ (words.now ≡ codes "pack" ∷ []) }
{
    match words {
        [word] => is_pack_word(word),
        _ => false,
    }
}

/// Whether so many sources can be packed: 1 to 8.
fn are_few(sources: usize) -> bool
    ensures { IsTrue result ↔ ((1 ≤ sources) × (sources ≤ 8)) }
{
    sources >= 1 && sources <= 8
}

/// Whether the words, beside so many sources, ask for packing: they are the one word `pack`, and
/// there are 1 to 8.
pub(crate) fn asks_to_pack(words: &[Word], sources: usize) -> bool
    ensures { IsTrue result ↔ IsAsked words.now sources }
{
    say_pack(words) && are_few(sources)
}
