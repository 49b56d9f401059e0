//! How many bits are 1.

ghost use Rattle.std.specs.Prelude.{◌≡◌, ◌+◌, ◌*◌, ◌%◌, ◌<◌, ◌≤◌, length};
ghost use Rattle.std.specs.List.{filter, range_with_len};
ghost use Rattle.raster_cells.specs.Masks.{mask_bit};
ghost use Rattle.raster_cells.specs.inside.Bits.{byte_bit};

use crate::marks::bits;

/// How many of `count` bits of a byte from `from` on are 1, the bits counted from the highest.
fn ones_within(byte: u8, from: usize, count: usize) -> usize
    requires above { 0 < count }
    requires within { from + count ≤ 8 }
    ensures { result ≡ length (filter (byte_bit byte) (range_with_len from count)) }
{
    let run = (byte >> (8 - from - count)) & (255u8 >> (8 - count));
    run.count_ones() as usize
}

/// How many bits of bytes are 1.
fn count_bytes(bytes: &[u8]) -> usize
    requires { length bytes.now ≤ 2097152 }
    ensures { result ≡ length (filter (mask_bit bytes.now)
        (range_with_len 0 (8 * length bytes.now))) }
{
    let mut n = 0;
    for byte in bytes {
        n += byte.count_ones() as usize;
    }
    n
}

/// How many of `count` bits from `from` on are 1, which all stand in one byte.
fn count_part(bytes: &[u8], from: usize, count: usize) -> usize
    requires within { from + count ≤ 8 * length bytes.now }
    requires one { from % 8 + count ≤ 8 }
    requires few { from + count ≤ 16777216 }
    ensures { result ≡ length (filter (mask_bit bytes.now) (range_with_len from count)) }
{
    if count == 0 {
        return 0;
    }
    ones_within(bytes[from / 8], from % 8, count)
}

/// How many of `count` bits from `from` on are 1: those of one word where they are few, else those
/// of the bytes that lie in them whole, and those before and behind these.
pub(crate) fn count_bits(bytes: &[u8], from: usize, count: usize) -> usize
    requires few { from + count ≤ 16777216 }
    requires within { from + count ≤ 8 * length bytes.now }
    ensures { result ≡ length (filter (mask_bit bytes.now) (range_with_len from count)) }
{
    if 0 < count && count <= 32 {
        return bits::word_from(bytes, from, count).count_ones() as usize;
    }
    let end = from + count;
    let first = from.div_ceil(8);
    let last = end / 8;
    if last < first {
        return count_part(bytes, from, count);
    }
    count_part(bytes, from, first * 8 - from)
        + count_bytes(&bytes[first..last])
        + count_part(bytes, last * 8, end - last * 8)
}
