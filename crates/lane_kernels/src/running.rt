//! Running sums of bytes, modulo 256.

ghost use Rattle.std.specs.Prelude.{◌≡◌, ℕ, ◌+◌, ◌-◌, ◌*◌, ◌%◌, ◌<◌, ◌≤◌, length, get_or, slice_index, sum, take, drop};
ghost use Rattle.lane_kernels.specs.Running.{AreRunning};
ghost use Rattle.lane_kernels.specs.inside.Moved.{AreWindows, IsMoved};

use std::simd::prelude::*;

/// The lanes moved up by one, with zeros below them.
#[inline(always)]
fn up_one(lanes: u8x16) -> u8x16
    ensures len { length result ≡ 16 }
    ensures moved { IsMoved 1 lanes result }
{
    u8x16::splat(0).shuffle(
        lanes,
        [
            15, 16, 17, 18, 19, 20, 21, 22, 23, 24, 25, 26, 27, 28, 29, 30,
        ],
    )
}

/// The lanes moved up by two, with zeros below them.
#[inline(always)]
fn up_two(lanes: u8x16) -> u8x16
    ensures len { length result ≡ 16 }
    ensures moved { IsMoved 2 lanes result }
{
    u8x16::splat(0).shuffle(
        lanes,
        [
            14, 15, 16, 17, 18, 19, 20, 21, 22, 23, 24, 25, 26, 27, 28, 29,
        ],
    )
}

/// The lanes moved up by four, with zeros below them.
#[inline(always)]
fn up_four(lanes: u8x16) -> u8x16
    ensures len { length result ≡ 16 }
    ensures moved { IsMoved 4 lanes result }
{
    u8x16::splat(0).shuffle(
        lanes,
        [
            12, 13, 14, 15, 16, 17, 18, 19, 20, 21, 22, 23, 24, 25, 26, 27,
        ],
    )
}

/// The lanes moved up by eight, with zeros below them.
#[inline(always)]
fn up_eight(lanes: u8x16) -> u8x16
    ensures len { length result ≡ 16 }
    ensures moved { IsMoved 8 lanes result }
{
    u8x16::splat(0).shuffle(
        lanes,
        [8, 9, 10, 11, 12, 13, 14, 15, 16, 17, 18, 19, 20, 21, 22, 23],
    )
}

/// The sums of two lanes each, modulo 256.
#[inline(always)]
fn add_lanes(lanes: u8x16, others: u8x16) -> u8x16
    ensures len { length result ≡ 16 }
    ensures lanes { (i : ℕ) → i < 16
        → slice_index result i ≡ (slice_index lanes i + slice_index others i) % 256 }
{
    lanes + others
}

/// In each lane the sum of the lanes up to it, modulo 256.
#[inline(always)]
fn sums_of(lanes: u8x16) -> u8x16
    ensures len { length result ≡ 16 }
    ensures sums { (i : ℕ) → i < 16 → slice_index result i ≡ sum (take (i + 1) lanes) % 256 }
{
    let two = add_lanes(lanes, up_one(lanes));
    let four = add_lanes(two, up_two(two));
    let eight = add_lanes(four, up_four(four));
    add_lanes(eight, up_eight(eight))
}

/// Puts in place of each of sixteen bytes from a place on the sum of those up to it and of the byte
/// before them, modulo 256.
#[inline(always)]
fn sum_sixteen(before: u8, at: usize, bytes: &mut [u8])
    requires room { at + 16 ≤ length bytes.old }
    ensures sums { (i : ℕ) → i < 16 → get_or bytes.new (at + i) 0
        ≡ (before + sum (take (i + 1) (take 16 (drop at bytes.old)))) % 256 }
    ensures rest { (k : ℕ) → (at ≤ k → k < at + 16 → ⊥)
        → get_or bytes.new k 0 ≡ get_or bytes.old k 0 }
{
    let lanes = u8x16::from_slice(&bytes[at..]);
    let sums = add_lanes(sums_of(lanes), u8x16::splat(before));
    sums.copy_to_slice(&mut bytes[at..]);
}

/// Puts in place of each byte its sum with the one before it, modulo 256; before the first one
/// stands this.
pub fn running_sums(first: u8, bytes: &mut [u8])
    ensures { AreRunning first bytes.old bytes.new }
{
    let mut before = first;
    let mut at = 0;
    while bytes.len() - at >= 16 {
        sum_sixteen(before, at, bytes);
        before = bytes[at + 15];
        at += 16;
    }
    while at < bytes.len() {
        before = before.wrapping_add(bytes[at]);
        bytes[at] = before;
        at += 1;
    }
}
