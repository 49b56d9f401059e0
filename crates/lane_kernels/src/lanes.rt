// Eight lanes of numbers of 64 bits.

ghost use Rattle.std.specs.Prelude.{◌≡◌, ◌≤◌, ◌+ℤ◌, ◌*ℤ◌, All, FitsSigned, length, map, take};
ghost use Rattle.std.specs.Int.{int_max, int_min, w64};
ghost use lib.Lanes.{zip2};
ghost use Rattle.lane_kernels.specs.inside.Lanes.{AreLanes};

use std::simd::i64x8;

/// The first eight values as lanes. They are read one by one, since of a number that is read so it
/// is known that it has 64 bits.
#[inline(always)]
pub(crate) fn eight_of(values: &[i64]) -> i64x8
    requires room { 8 ≤ length values.now }
    ensures same { result ≡ take 8 values.now }
    ensures lanes { AreLanes result }
{
    i64x8::from_array([
        values[0], values[1], values[2], values[3], values[4], values[5], values[6], values[7],
    ])
}

/// In each lane the smaller of two.
#[inline(always)]
pub(crate) fn lower(kept: i64x8, next: i64x8) -> i64x8
    requires kept { AreLanes kept }
    requires next { AreLanes next }
    ensures least { result ≡ zip2 int_min kept next }
    ensures lanes { AreLanes result }
{
    kept.simd_min(next)
}

/// In each lane the greater of two.
#[inline(always)]
pub(crate) fn higher(kept: i64x8, next: i64x8) -> i64x8
    requires kept { AreLanes kept }
    requires next { AreLanes next }
    ensures greatest { result ≡ zip2 int_max kept next }
    ensures lanes { AreLanes result }
{
    kept.simd_max(next)
}

/// In each lane the smaller of its number and of this one.
#[inline(always)]
pub(crate) fn at_most(lanes: i64x8, most: i64) -> i64x8
    requires lanes { AreLanes lanes }
    ensures values { result ≡ map (λ v. int_min v most) lanes }
    ensures lanes { AreLanes result }
{
    lanes.simd_min(i64x8::splat(most))
}

/// Each lane times a number.
#[inline(always)]
pub(crate) fn times(lanes: i64x8, by: i64) -> i64x8
    requires lanes { AreLanes lanes }
    requires fit { All (λ v. FitsSigned w64 (v *ℤ by)) lanes }
    ensures values { result ≡ map (λ v. v *ℤ by) lanes }
    ensures lanes { AreLanes result }
{
    lanes.strict_mul(i64x8::splat(by))
}

/// Each lane and a number more.
#[inline(always)]
pub(crate) fn plus(lanes: i64x8, by: i64) -> i64x8
    requires lanes { AreLanes lanes }
    requires fit { All (λ v. FitsSigned w64 (v +ℤ by)) lanes }
    ensures values { result ≡ map (λ v. v +ℤ by) lanes }
    ensures lanes { AreLanes result }
{
    lanes.strict_add(i64x8::splat(by))
}
