//! The checksum of a blob.

ghost use Rattle.std.specs.Prelude.{◌≡◌, ◌+◌, ◌*◌, ◌/◌, ◌<◌, ◌≤◌, length, drop, sum, slice_index};
ghost use Rattle.lerc_header.specs.Checksum.{words, weighted, folded, groups_of, sum_of};

use crate::lanes::sums_of_eights;

// The words of a group: no sum of 32 bits overflows within one.
const GROUP_WORDS: usize = 359;

/// The upper bits of a sum added to its lower 16.
fn fold(sum: u32) -> u32
    ensures value { result ≡ folded sum }
    ensures small { result ≤ 131070 }
{
    (sum & 0xffff) + (sum >> 16)
}

/// The word number `i`, the higher byte first.
fn word_at(bytes: &[u8], i: usize) -> u32
    requires { i < length bytes.now / 2 }
    ensures value { result ≡ slice_index (words bytes.now) i }
    ensures small { result ≤ 65535 }
{
    u32::from(bytes[2 * i]) * 256 + u32::from(bytes[2 * i + 1])
}

/// Both sums after at most seven words more.
fn add_words(bytes: &[u8], first: u32, second: u32) -> (u32, u32)
    requires short { length bytes.now ≤ 15 }
    requires first { first ≤ 23200000 }
    requires second { second ≤ 4118000000 }
    ensures first { result.0 ≡ first + sum (words bytes.now) }
    ensures second { result.1
        ≡ second + length (words bytes.now) * first + weighted (words bytes.now) }
{
    let mut sum1 = first;
    let mut sum2 = second;
    for i in 0..bytes.len() / 2 {
        sum1 += word_at(bytes, i);
        sum2 += sum1;
    }
    (sum1, sum2)
}

/// Both sums after the words of a group, not yet folded.
fn add_group(bytes: &[u8], first: u32, second: u32) -> (u32, u32)
    requires short { length bytes.now ≤ 718 }
    requires first { first ≤ 131070 }
    requires second { second ≤ 131070 }
    ensures first { result.0 ≡ first + sum (words bytes.now) }
    ensures second { result.1
        ≡ second + length (words bytes.now) * first + weighted (words bytes.now) }
{
    let (eights, rest) = bytes.split_at(bytes.len() / 16 * 16);
    let (total, weight) = sums_of_eights(eights);
    let count = (eights.len() / 2) as u32;
    add_words(rest, first + total, second + count * first + weight)
}

/// Both sums after all groups of words, each folded.
fn add_groups(bytes: &[u8]) -> (u32, u32)
    ensures first { result.0 ≡ (groups_of bytes.now).first }
    ensures second { result.1 ≡ (groups_of bytes.now).second }
    ensures small { (result.0 ≤ 131070) × (result.1 ≤ 131070) }
{
    let end = bytes.len() / 2 * 2;
    let mut sum1 = 65535;
    let mut sum2 = 65535;
    for g in 0..(bytes.len() / 2 + (GROUP_WORDS - 1)) / GROUP_WORDS {
        let at = g * (2 * GROUP_WORDS);
        let group = &bytes[at..end.min(at + 2 * GROUP_WORDS)];
        let sums = add_group(group, sum1, sum2);
        sum1 = fold(sums.0);
        sum2 = fold(sums.1);
    }
    (sum1, sum2)
}

/// The checksum of these bytes: Fletcher's sum of 32 bits over words of two bytes, the higher
/// first.
///
/// Two sums begin at 65535. For each word the first takes the word and the second takes the first.
/// After every 359 words, and after the last of a shorter group, each sum is folded: its upper
/// bits are added to its lower 16. An odd last byte counts as a word of the byte times 256, taken
/// after that. Then each sum is folded once more, and the second stands above the first. A blob's
/// own checksum is that of its bytes from 14 on, which follow the field itself. It takes no
/// memory, for bytes of any length.
pub fn checksum(bytes: &[u8]) -> u32
    ensures { result ≡ sum_of bytes.now }
{
    let (mut sum1, mut sum2) = add_groups(bytes);
    if bytes.len() % 2 != 0 {
        sum1 += u32::from(bytes[bytes.len() - 1]) * 256;
        sum2 += sum1;
    }
    (fold(sum2) << 16) | fold(sum1)
}

/// The checksum of a blob's bytes: of those from 14 on, which follow the field itself.
pub fn sum_behind(blob: &[u8]) -> u32
    requires { 14 ≤ length blob.now }
    ensures { result ≡ sum_of (drop 14 blob.now) }
{
    checksum(&blob[14..])
}
