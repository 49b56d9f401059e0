//! Sums of words by four lanes.

ghost use Rattle.std.specs.Prelude.{◌≡◌, ◌%◌, ◌^◌, ◌<◌, ◌≤◌, length, take, sum};
ghost use Rattle.lerc_header.specs.Checksum.{words, weighted};

use std::simd::{u8x8, u8x16, u32x4};

/// The words of the first eight bytes as lanes: the two bytes of each are swapped, and two zeros
/// follow, since a lane has its lowest byte first.
#[inline(always)]
fn four_words(bytes: &[u8]) -> u32x4
    requires room { 8 ≤ length bytes.now }
    ensures { result ≡ take 4 (words bytes.now) }
{
    let pairs: u8x16 = u8x8::from_slice(bytes).shuffle(
        u8x8::splat(0),
        [1, 0, 8, 8, 3, 2, 8, 8, 5, 4, 8, 8, 7, 6, 8, 8],
    );
    u32x4::from_le_bytes(pairs)
}

/// The weighted sum of four lanes.
#[inline(always)]
fn weighted_lanes(lanes: u32x4) -> u32
    requires four { length lanes ≡ 4 }
    requires fits { weighted lanes < 2 ^ 32 }
    ensures { result ≡ weighted lanes }
{
    let [a, b, c, d] = lanes.to_array();
    4 * a + 3 * b + 2 * c + d
}

/// The sum of the words of whole sixteens of bytes, and their weighted sum.
///
/// Each lane takes every fourth word. Before each word it adds up what it has, so that in the end
/// a word is there as often as words follow it in its lane: four times that, and what the word's
/// place among four adds, is the word's weight.
pub(crate) fn sums_of_eights(bytes: &[u8]) -> (u32, u32)
    requires short { length bytes.now ≤ 718 }
    requires eights { length bytes.now % 16 ≡ 0 }
    ensures sum { result.0 ≡ sum (words bytes.now) }
    ensures weighted { result.1 ≡ weighted (words bytes.now) }
    ensures small { (result.0 ≤ 23068320) × (result.1 ≤ 4071558480) }
{
    let mut sums = u32x4::splat(0);
    let mut earlier = u32x4::splat(0);
    for i in 0..bytes.len() / 16 {
        let between = sums.strict_add(four_words(&bytes[16 * i..]));
        earlier = earlier.strict_add(sums).strict_add(between);
        sums = between.strict_add(four_words(&bytes[16 * i + 8..]));
    }
    let weight = 4 * earlier.strict_reduce_sum() + weighted_lanes(sums);
    (sums.strict_reduce_sum(), weight)
}
