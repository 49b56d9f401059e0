//! Writing numbers by eights, which are whole bytes.

ghost use Rattle.std.specs.Prelude.{◌≡◌, ◌+◌, ◌*◌, ◌^◌, ◌<◌, ◌≤◌, length, take, All};
ghost use Rattle.bit_stuff.specs.Stuffed.{number_of_bytes, number_of_values, stuffed_size};
ghost use Rattle.bit_stuff.specs.inside.Group.{IsGroup};

use byteorder::{ByteOrder, LittleEndian};

/// The two values from `i` on as one number.
#[inline(always)]
fn two(values: &[u32], i: usize, width: u32) -> u64
    requires width { width ≤ 31 }
    requires values { All (λ v. v < 2 ^ width) values.now }
    requires there { i + 2 ≤ length values.now }
    ensures { IsGroup width values.now i 2 result }
{
    u64::from(values[i]) + (u64::from(values[i + 1]) << width)
}

/// The four values from `i` on as one number.
#[inline(always)]
fn four(values: &[u32], i: usize, width: u32) -> u64
    requires width { width ≤ 16 }
    requires values { All (λ v. v < 2 ^ width) values.now }
    requires there { i + 4 ≤ length values.now }
    ensures { IsGroup width values.now i 4 result }
{
    two(values, i, width) + (two(values, i + 2, width) << (2 * width))
}

/// The eight values from `i` on, of at most 8 bits, as one number.
#[inline(always)]
fn eight(values: &[u32], i: usize, width: u32) -> u64
    requires width { width ≤ 8 }
    requires values { All (λ v. v < 2 ^ width) values.now }
    requires there { i + 8 ≤ length values.now }
    ensures { IsGroup width values.now i 8 result }
{
    four(values, i, width) + (four(values, i + 4, width) << (4 * width))
}

/// The eight values from `i` on as one number.
#[inline(always)]
fn wide_eight(values: &[u32], i: usize, width: u32) -> u128
    requires width { width ≤ 16 }
    requires values { All (λ v. v < 2 ^ width) values.now }
    requires there { i + 8 ≤ length values.now }
    ensures { IsGroup width values.now i 8 result }
{
    u128::from(four(values, i, width)) + (u128::from(four(values, i + 4, width)) << (4 * width))
}

/// The four values from `i` on as one number, also of more than 16 bits.
#[inline(always)]
fn wide_four(values: &[u32], i: usize, width: u32) -> u128
    requires width { width ≤ 31 }
    requires values { All (λ v. v < 2 ^ width) values.now }
    requires there { i + 4 ≤ length values.now }
    ensures { IsGroup width values.now i 4 result }
{
    u128::from(two(values, i, width)) + (u128::from(two(values, i + 2, width)) << (2 * width))
}

/// Writes a number as the `size` bytes from `at` on.
#[inline(always)]
fn put(number: u64, size: usize, at: usize, out: &mut [u8])
    requires some { 1 ≤ size }
    requires word { size ≤ 8 }
    requires room { at + size ≤ length out.old }
    requires fits { number < 2 ^ (8 * size) }
    ensures { number_of_bytes (take (at + size) out.new)
        ≡ number_of_bytes (take at out.old) + 2 ^ (8 * at) * number }
{
    LittleEndian::write_uint(&mut out[at..], number, size);
}

/// Writes a number as the `size` bytes from `at` on, eight or more.
#[inline(always)]
fn put_wide(number: u128, size: usize, at: usize, out: &mut [u8])
    requires word { 8 ≤ size }
    requires words { size ≤ 16 }
    requires room { at + size ≤ length out.old }
    requires fits { number < 2 ^ (8 * size) }
    ensures { number_of_bytes (take (at + size) out.new)
        ≡ number_of_bytes (take at out.old) + 2 ^ (8 * at) * number }
{
    put((number % 18446744073709551616) as u64, 8, at, out);
    if size > 8 {
        put(
            (number / 18446744073709551616) as u64,
            size - 8,
            at + 8,
            out,
        );
    }
}

/// Writes the eight values from `i` on, of more than 16 bits, by fours: the bits of the first four
/// that are no whole byte go with the second four.
#[inline(always)]
fn put_fours(values: &[u32], i: usize, width: u32, at: usize, out: &mut [u8])
    requires more { 16 < width }
    requires width { width ≤ 31 }
    requires values { All (λ v. v < 2 ^ width) values.now }
    requires there { i + 8 ≤ length values.now }
    requires room { at + width ≤ length out.old }
    requires place { 8 * at ≡ width * i }
    requires before { number_of_bytes (take at out.old)
        ≡ number_of_values width (take i values.now) }
    ensures { number_of_bytes (take (at + width) out.new)
        ≡ number_of_values width (take (i + 8) values.now) }
{
    let low = wide_four(values, i, width);
    let high = wide_four(values, i + 4, width);
    let size = width / 2;
    let bits = 8 * size;
    let rest = (low >> bits) + (high << (4 * width - bits));
    put_wide(low % (1 << bits), size as usize, at, out);
    put_wide(rest, (width - size) as usize, at + size as usize, out);
}

/// Writes the eight values from `i` on, which are `width` bytes, from byte `at` on.
#[inline(always)]
fn put_eight(values: &[u32], i: usize, width: u32, at: usize, out: &mut [u8])
    requires some { 0 < width }
    requires width { width ≤ 31 }
    requires values { All (λ v. v < 2 ^ width) values.now }
    requires there { i + 8 ≤ length values.now }
    requires room { at + width ≤ length out.old }
    requires place { 8 * at ≡ width * i }
    requires before { number_of_bytes (take at out.old)
        ≡ number_of_values width (take i values.now) }
    ensures { number_of_bytes (take (at + width) out.new)
        ≡ number_of_values width (take (i + 8) values.now) }
{
    if width <= 8 {
        put(eight(values, i, width), width as usize, at, out);
        return;
    }
    if width <= 16 {
        put_wide(wide_eight(values, i, width), width as usize, at, out);
        return;
    }
    put_fours(values, i, width, at, out);
}

/// Writes all values that are in whole eights; how many eights there are.
#[inline(always)]
fn stuff_eights(values: &[u32], width: u32, out: &mut [u8]) -> usize
    requires count { length values.now ≤ 2 ^ 24 }
    requires some { 0 < width }
    requires width { width ≤ 31 }
    requires values { All (λ v. v < 2 ^ width) values.now }
    requires size { length out.old ≡ stuffed_size (length values.now) width }
    ensures within { 8 * result ≤ length values.now }
    ensures number { number_of_bytes (take (width * result) out.new)
        ≡ number_of_values width (take (8 * result) values.now) }
{
    let eights = values.len() / 8;
    for k in 0..eights {
        put_eight(values, 8 * k, width, width as usize * k, out);
    }
    eights
}

/// Does what `stuff_eights` does, from width 17 on.
fn stuff_wide(values: &[u32], width: u32, out: &mut [u8]) -> usize
    requires count { length values.now ≤ 2 ^ 24 }
    requires some { 0 < width }
    requires width { width ≤ 31 }
    requires values { All (λ v. v < 2 ^ width) values.now }
    requires size { length out.old ≡ stuffed_size (length values.now) width }
    ensures within { 8 * result ≤ length values.now }
    ensures number { number_of_bytes (take (width * result) out.new)
        ≡ number_of_values width (take (8 * result) values.now) }
{
    match width {
        17 => stuff_eights(values, 17, out),
        18 => stuff_eights(values, 18, out),
        19 => stuff_eights(values, 19, out),
        20 => stuff_eights(values, 20, out),
        21 => stuff_eights(values, 21, out),
        22 => stuff_eights(values, 22, out),
        23 => stuff_eights(values, 23, out),
        24 => stuff_eights(values, 24, out),
        25 => stuff_eights(values, 25, out),
        26 => stuff_eights(values, 26, out),
        27 => stuff_eights(values, 27, out),
        28 => stuff_eights(values, 28, out),
        29 => stuff_eights(values, 29, out),
        30 => stuff_eights(values, 30, out),
        _ => stuff_eights(values, width, out),
    }
}

/// Does what `stuff_eights` does, and at width 0 nothing. The loop in it is made once for each
/// width, so that no shift is by a number that is not known before.
pub(crate) fn stuff_front(values: &[u32], width: u32, out: &mut [u8]) -> usize
    requires count { length values.now ≤ 2 ^ 24 }
    requires width { width ≤ 31 }
    requires values { All (λ v. v < 2 ^ width) values.now }
    requires size { length out.old ≡ stuffed_size (length values.now) width }
    ensures within { 8 * result ≤ length values.now }
    ensures number { number_of_bytes (take (width * result) out.new)
        ≡ number_of_values width (take (8 * result) values.now) }
{
    match width {
        0 => 0,
        1 => stuff_eights(values, 1, out),
        2 => stuff_eights(values, 2, out),
        3 => stuff_eights(values, 3, out),
        4 => stuff_eights(values, 4, out),
        5 => stuff_eights(values, 5, out),
        6 => stuff_eights(values, 6, out),
        7 => stuff_eights(values, 7, out),
        8 => stuff_eights(values, 8, out),
        9 => stuff_eights(values, 9, out),
        10 => stuff_eights(values, 10, out),
        11 => stuff_eights(values, 11, out),
        12 => stuff_eights(values, 12, out),
        13 => stuff_eights(values, 13, out),
        14 => stuff_eights(values, 14, out),
        15 => stuff_eights(values, 15, out),
        16 => stuff_eights(values, 16, out),
        _ => stuff_wide(values, width, out),
    }
}
