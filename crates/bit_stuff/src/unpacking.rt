//! Reading stuffed numbers.

ghost use Rattle.std.specs.Prelude.{◌≡◌, ◌+◌, ◌-◌, ◌*◌, ◌/◌, ◌%◌, ◌^◌, ◌<◌, ◌≤◌, ℕ, length, replicate, slice_index, take, All};
ghost use Rattle.bit_stuff.specs.Stuffed.{IsLeastHolding, IsStuffed, field_at, number_of_bytes, stuffed_size};

use byteorder::{ByteOrder, LittleEndian};
use std::simd::{u8x16, u32x4};

/// How many bytes `count` numbers of `width` bits take: the least whole number that is at least
/// `count * width / 8`.
pub fn stuffed_len(count: usize, width: u32) -> usize
    requires count { count ≤ 2 ^ 24 }
    requires width { width ≤ 31 }
    ensures value { result ≡ stuffed_size count width }
    ensures least { IsLeastHolding (count * width) result }
{
    (count * width as usize + 7) / 8
}

/// The `width` bits of a word from bit `shift` on.
#[inline(always)]
fn field(word: u64, shift: usize, width: u32) -> u32
    requires shift { shift < 64 }
    requires width { width ≤ 31 }
    ensures { result ≡ word / 2 ^ shift % 2 ^ width }
{
    ((word >> shift) & ((1 << width) - 1)) as u32
}

/// The `width` bits of the bytes' number from bit `shift` of byte `at` on, out of the eight bytes
/// there.
#[inline(always)]
fn bits_from(bytes: &[u8], at: usize, shift: usize, width: u32) -> u32
    requires whole { at + 8 ≤ length bytes.now }
    requires width { width ≤ 31 }
    requires shift { shift < 64 }
    requires word { shift + width ≤ 64 }
    ensures { result ≡ number_of_bytes bytes.now / 2 ^ (8 * at + shift) % 2 ^ width }
{
    field(LittleEndian::read_u64(&bytes[at..]), shift, width)
}

/// Field `i` of the bytes' number, out of eight bytes that hold it: those from its first bit on, or
/// the last eight.
#[inline(always)]
fn number_at(bytes: &[u8], width: u32, i: usize) -> u32
    requires width { width ≤ 31 }
    requires index { i < 2 ^ 24 }
    requires long { 8 ≤ length bytes.now }
    requires within { width * (i + 1) ≤ 8 * length bytes.now }
    ensures { result ≡ field_at width (number_of_bytes bytes.now) i }
{
    let place = width as usize * i;
    let at = (place / 8).min(bytes.len() - 8);
    bits_from(bytes, at, place - 8 * at, width)
}

/// Where the bytes of four lanes stand, of which each begins `width` bits behind the one before
/// it, the first in byte 0.
#[inline(always)]
fn places_of_lanes(phase: usize, width: u32) -> [u8; 16]
    requires width { width ≤ 25 }
    requires phase { phase < 8 }
    ensures { (i : ℕ) → i < 16 →
        slice_index result i ≡ (phase + width * (i / 4)) / 8 + i % 4 }
{
    let mut places = [0; 16];
    for i in 0..16 {
        places[i] = ((phase + width as usize * (i / 4)) / 8 + i % 4) as u8;
    }
    places
}

/// By what each of four lanes is multiplied, that its number ends where the lane does.
#[inline(always)]
fn powers_of_lanes(phase: usize, width: u32) -> [u32; 4]
    requires some { 0 < width }
    requires width { width ≤ 25 }
    requires phase { phase < 8 }
    ensures { (k : ℕ) → k < 4 →
        slice_index result k ≡ 2 ^ (32 - width - (phase + width * k) % 8) }
{
    let mut powers = [0; 4];
    for k in 0..4 {
        powers[k] = 1 << (32 - width as usize - (phase + width as usize * k) % 8);
    }
    powers
}

/// The four numbers from bit `phase` of byte `at` on, which lie in the sixteen bytes there. A lane
/// takes the four bytes that hold its number; the product moves out what is above that, the shift
/// what is below.
#[inline(always)]
fn four_numbers(bytes: &[u8], at: usize, phase: usize, width: u32, down: u32x4) -> u32x4
    requires some { 0 < width }
    requires width { width ≤ 25 }
    requires phase { phase < 8 }
    requires whole { at + 16 ≤ length bytes.now }
    requires down { down ≡ replicate 4 (32 - width) }
    ensures four { length result ≡ 4 }
    ensures numbers { (k : ℕ) → k < 4 → slice_index result k
        ≡ number_of_bytes bytes.now / 2 ^ (8 * at + phase + width * k) % 2 ^ width }
{
    let places = u8x16::from_array(places_of_lanes(phase, width));
    let powers = u32x4::from_array(powers_of_lanes(phase, width));
    let parts = u8x16::from_slice(&bytes[at..]).swizzle_dyn(places);
    (u32x4::from_le_bytes(parts) * powers) >> down
}

/// Reads numbers of at most 25 bits by eights, which are `width` bytes each, as far as the sixteen
/// bytes from the middle of an eight on are there; how many it has read. `down` is by how much a
/// lane is moved down: where the compiler knew it, it would take the product apart into shifts,
/// one for each lane.
#[inline(always)]
fn unstuff_eights(bytes: &[u8], width: u32, down: u32x4, out: &mut [u32]) -> usize
    requires count { length out.old ≤ 2 ^ 24 }
    requires some { 0 < width }
    requires width { width ≤ 25 }
    requires down { down ≡ replicate 4 (32 - width) }
    ensures within { result ≤ length out.old }
    ensures read { (k : ℕ) → k < result →
        slice_index out.new k ≡ field_at width (number_of_bytes bytes.now) k }
{
    let half = 4 * width as usize;
    let mut at = 0;
    let mut done = 0;
    while done + 8 <= out.len() && at + half / 8 + 16 <= bytes.len() {
        let low = four_numbers(bytes, at, 0, width, down);
        low.copy_to_slice(&mut out[done..]);
        let high = four_numbers(bytes, at + half / 8, half % 8, width, down);
        high.copy_to_slice(&mut out[done + 4..]);
        at += width as usize;
        done += 8;
    }
    done
}

/// Reads the eight numbers behind the first `done`, which begin at byte `at`, one by one.
#[inline(always)]
fn unstuff_wide_eight(bytes: &[u8], width: u32, at: usize, out: &mut [u32], done: usize)
    requires width { width ≤ 31 }
    requires room { done + 8 ≤ length out.old }
    requires place { 8 * at ≡ width * done }
    requires whole { at + width + 8 ≤ length bytes.now }
    requires read { (k : ℕ) → k < done →
        slice_index out.old k ≡ field_at width (number_of_bytes bytes.now) k }
    ensures { (k : ℕ) → k < done + 8 →
        slice_index out.new k ≡ field_at width (number_of_bytes bytes.now) k }
{
    for k in 0..8 {
        let place = width as usize * k;
        out[done + k] = bits_from(bytes, at + place / 8, place % 8, width);
    }
}

/// Reads numbers of any width by eights, as far as eight more bytes follow; how many it has read.
fn unstuff_wide_eights(bytes: &[u8], width: u32, out: &mut [u32]) -> usize
    requires count { length out.old ≤ 2 ^ 24 }
    requires width { width ≤ 31 }
    ensures within { result ≤ length out.old }
    ensures read { (k : ℕ) → k < result →
        slice_index out.new k ≡ field_at width (number_of_bytes bytes.now) k }
{
    let mut at = 0;
    let mut done = 0;
    while done + 8 <= out.len() && at + width as usize + 8 <= bytes.len() {
        unstuff_wide_eight(bytes, width, at, out, done);
        at += width as usize;
        done += 8;
    }
    done
}

/// Reads numbers by eights, as far as it can; how many it has read. The loop by lanes is made once
/// for each width, so that no place is reckoned in it.
fn unstuff_by_width(bytes: &[u8], width: u32, out: &mut [u32]) -> usize
    requires count { length out.old ≤ 2 ^ 24 }
    requires width { width ≤ 31 }
    ensures within { result ≤ length out.old }
    ensures read { (k : ℕ) → k < result →
        slice_index out.new k ≡ field_at width (number_of_bytes bytes.now) k }
{
    let down = u32x4::splat(32 - width);
    match width {
        1 => unstuff_eights(bytes, 1, down, out),
        2 => unstuff_eights(bytes, 2, down, out),
        3 => unstuff_eights(bytes, 3, down, out),
        4 => unstuff_eights(bytes, 4, down, out),
        5 => unstuff_eights(bytes, 5, down, out),
        6 => unstuff_eights(bytes, 6, down, out),
        7 => unstuff_eights(bytes, 7, down, out),
        8 => unstuff_eights(bytes, 8, down, out),
        9 => unstuff_eights(bytes, 9, down, out),
        10 => unstuff_eights(bytes, 10, down, out),
        11 => unstuff_eights(bytes, 11, down, out),
        12 => unstuff_eights(bytes, 12, down, out),
        13 => unstuff_eights(bytes, 13, down, out),
        14 => unstuff_eights(bytes, 14, down, out),
        15 => unstuff_eights(bytes, 15, down, out),
        16 => unstuff_eights(bytes, 16, down, out),
        17 => unstuff_eights(bytes, 17, down, out),
        18 => unstuff_eights(bytes, 18, down, out),
        19 => unstuff_eights(bytes, 19, down, out),
        20 => unstuff_eights(bytes, 20, down, out),
        21 => unstuff_eights(bytes, 21, down, out),
        22 => unstuff_eights(bytes, 22, down, out),
        23 => unstuff_eights(bytes, 23, down, out),
        24 => unstuff_eights(bytes, 24, down, out),
        25 => unstuff_eights(bytes, 25, down, out),
        _ => unstuff_wide_eights(bytes, width, out),
    }
}

/// Reads the numbers of eight bytes or more.
fn unstuff_long(bytes: &[u8], width: u32, out: &mut [u32])
    requires count { length out.old ≤ 2 ^ 24 }
    requires width { width ≤ 31 }
    requires long { 8 ≤ length bytes.now }
    requires size { stuffed_size (length out.old) width ≤ length bytes.now }
    ensures { (k : ℕ) → k < length out.old →
        slice_index out.new k ≡ field_at width (number_of_bytes bytes.now) k }
{
    let done = unstuff_by_width(bytes, width, out);
    for i in done..out.len() {
        out[i] = number_at(bytes, width, i);
    }
}

/// Reads the numbers of fewer than eight bytes, which are one word.
fn unstuff_short(bytes: &[u8], width: u32, out: &mut [u32])
    requires width { width ≤ 31 }
    requires some { 0 < width }
    requires there { 0 < length bytes.now }
    requires short { length bytes.now < 8 }
    requires size { stuffed_size (length out.old) width ≤ length bytes.now }
    ensures { (k : ℕ) → k < length out.old →
        slice_index out.new k ≡ field_at width (number_of_bytes bytes.now) k }
{
    let word = LittleEndian::read_uint(bytes, bytes.len());
    for (i, value) in out.iter_mut().enumerate() {
        *value = field(word, width as usize * i, width);
    }
}

/// Reads as many numbers of `width` bits as `out` has from the front of the bytes, as `unstuff`
/// does from bytes that are just theirs. What follows them changes nothing; but where sixteen
/// bytes or more follow, it is faster.
pub fn unstuff_front(bytes: &[u8], width: u32, out: &mut [u32])
    requires count { length out.old ≤ 2 ^ 24 }
    requires width { width ≤ 31 }
    requires size { stuffed_size (length out.old) width ≤ length bytes.now }
    ensures stuffed { IsStuffed (take (stuffed_size (length out.old) width) bytes.now) width
        out.new }
    ensures below { All (λ v. v < 2 ^ width) out.new }
{
    if width == 0 || bytes.is_empty() {
        out.fill(0);
    } else if bytes.len() < 8 {
        unstuff_short(bytes, width, out);
    } else {
        unstuff_long(bytes, width, out);
    }
}

/// Reads as many numbers of `width` bits as `out` has: number `i` is field `i` of the bytes' one
/// large number, lowest byte first. Spare bits above the last field are not looked at; at width 0
/// there are no bytes, and all numbers are 0.
pub fn unstuff(bytes: &[u8], width: u32, out: &mut [u32])
    requires count { length out.old ≤ 2 ^ 24 }
    requires width { width ≤ 31 }
    requires size { length bytes.now ≡ stuffed_size (length out.old) width }
    ensures stuffed { IsStuffed bytes.now width out.new }
    ensures below { All (λ v. v < 2 ^ width) out.new }
{
    unstuff_front(bytes, width, out);
}
