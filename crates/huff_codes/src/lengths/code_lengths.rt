//! Code lengths, and the codes that they make.

ghost use Rattle.std.specs.Prelude.{◌≡◌, ℕ, ◌^◌, ◌≤◌, ◌<◌, slice_index, All, HoldsAt, EachIndex};
ghost use Rattle.std.specs.Prelude.{SomeIndex, List, Bool, length, IfSome, IsNone, ◌↔◌, ◌⊎◌, sum};
ghost use Rattle.std.specs.Bool.{MatchBool};
ghost use Rattle.huff_codes.specs.Sums.{sum_below};
ghost use Rattle.huff_codes.specs.Tree.{lengths_of, share, shares, used_count};
ghost use Rattle.huff_codes.specs.Codes.{AreLengths, canonical_codes};
ghost use Rattle.huff_codes.specs.inside.Spans.{IsLaid};
ghost use Rattle.huff_codes.specs.inside.Stored.{codes_held};
ghost use Rattle.huff_codes.specs.inside.Places.{IsCanonical, length_shares, place_of};

use crate::codes::{Code, Codes};
use crate::lengths::joining::all_lengths;
use std::marker::Model;

/// 256 code lengths: each is at most 32, and the sum of `2^(32 - length)` over those above 0 is
/// 2^32.
#[derive(Drop)]
pub struct Lengths {
    lengths: [u8; 256],
}

impl Model for Lengths {
    ghost use Rattle.std.specs.Prelude.{List, ℕ};

    ghost Value = { List ℕ };

    ghost use Rattle.huff_codes.specs.Codes.{AreLengths};

    ghost view = { λ l. l.lengths };

    ghost invariant = { λ l. AreLengths l.lengths };
}

/// How many counts are above 0.
fn count_used(counts: &[u32; 256]) -> u32
    ensures { result ≡ used_count counts.now }
{
    let mut n = 0;
    for count in counts {
        if *count > 0 {
            n += 1;
        }
    }
    n
}

/// Whether no length is above 32.
fn are_short(lengths: &[u8; 256]) -> bool
    ensures { MatchBool result (All (λ l. l ≤ 32) lengths.now)
        (SomeIndex lengths.now (λ s. 32 < slice_index lengths.now s)) }
{
    for l in lengths {
        if *l > 32 {
            return false;
        }
    }
    true
}

impl Lengths {
    /// The code lengths of these counts: one node for each symbol that is counted, of which the two
    /// least by weight and least symbol are joined until one is left; a symbol's length is the
    /// number of joins that it went through. `None` where fewer than two counts are above 0, or
    /// where a length would be above 32.
    pub fn of(counts: &[u32; 256]) -> Option<Lengths>
        requires sum { sum counts.now ≤ 2 ^ 24 }
        ensures some { IfSome result (λ l. l ≡ lengths_of counts.now) }
        ensures none { IsNone result ↔ ((used_count counts.now < 2)
            ⊎ SomeIndex (lengths_of counts.now) (λ s. 32 < slice_index (lengths_of counts.now) s)) }
    {
        if count_used(counts) < 2 {
            return None;
        }
        let lengths = all_lengths(counts);
        if !are_short(&lengths) {
            return None;
        }
        Some(Lengths { lengths })
    }
}

impl Lengths {
    /// The 256 lengths.
    pub(crate) fn all(&self) -> &[u8; 256]
        ensures is { result.now ≡ self.now }
        ensures lengths { AreLengths self.now }
    {
        &self.lengths
    }
}

/// What a code of this length takes of all words.
fn share_of(length: u8) -> u64
    requires { length ≤ 32 }
    ensures value { result ≡ share length }
    ensures small { result ≤ 2 ^ 32 }
{
    if length == 0 { 0 } else { 1 << (32 - length) }
}

/// What all codes of each length take of all words.
fn shares_by_length(lengths: &[u8; 256]) -> [u64; 33]
    requires lengths { AreLengths lengths.now }
    ensures room { length result ≡ 33 }
    ensures small { (l : ℕ) → l < 33 → slice_index result l ≤ 2 ^ 40 }
    ensures shares { (l : ℕ) → l < 33 → slice_index result l ≡ length_shares lengths.now l }
{
    let mut shares = [0; 33];
    for s in 0..256 {
        let length = lengths[s];
        let at = usize::from(length);
        let share = share_of(length);
        shares[at] += share;
    }
    shares
}

/// Where the first code of each length begins: behind all shorter ones.
fn first_places(lengths: &[u8; 256]) -> [u64; 33]
    requires { AreLengths lengths.now }
    ensures room { length result ≡ 33 }
    ensures places { (l : ℕ) → l < 33 → slice_index result l ≡ place_of lengths.now 0 l }
{
    let shares = shares_by_length(lengths);
    let mut places = [0; 33];
    let mut place = 0;
    for l in 0..33 {
        places[l] = place;
        place += shares[l];
    }
    places
}

/// The codes, side by side: in the order of the symbols, each behind the last one of its length.
fn assign_codes(lengths: &[u8; 256], mut places: [u64; 33]) -> [Code; 256]
    requires lengths { AreLengths lengths.now }
    requires room { length places ≡ 33 }
    requires places { (l : ℕ) → l < 33 → slice_index places l ≡ place_of lengths.now 0 l }
    ensures room { length result ≡ 256 }
    ensures codes { EachIndex lengths.now (λ t. HoldsAt (IsCanonical lengths.now t) result t) }
{
    let mut codes = [Code { bits: 0, length: 0 }; 256];
    for s in 0..256 {
        let length = lengths[s];
        let at = usize::from(length);
        let place = places[at];
        codes[s] = Code {
            bits: place as u32,
            length: u32::from(length),
        };
        places[at] = place + share_of(length);
    }
    codes
}

/// The canonical codes, as they are held.
pub(crate) fn codes_of(lengths: &Lengths) -> [Code; 256]
    ensures room { length result ≡ 256 }
    ensures laid { All IsLaid result }
    ensures codes { codes_held result ≡ canonical_codes lengths.now }
    ensures lengths { AreLengths lengths.now }
{
    let places = first_places(&lengths.lengths);
    assign_codes(&lengths.lengths, places)
}

impl Codes {
    /// The canonical codes of these lengths: in order of length and symbol, the first is all zeros,
    /// and each next is the one before plus 1, with zeros appended up to its length.
    pub fn canonical(lengths: &Lengths) -> Codes
        ensures { result ≡ canonical_codes lengths.now }
    {
        let places = first_places(&lengths.lengths);
        Codes::held(assign_codes(&lengths.lengths, places))
    }
}
