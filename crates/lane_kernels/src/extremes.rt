ghost use Rattle.std.specs.Prelude.{◌≡◌, ◌%◌, ℤ, [], ◌↔◌, IsNone, fold, length};
ghost use Rattle.std.specs.Int.{int_max, int_min};
ghost use Rattle.lane_kernels.specs.Kernels.{IsLeast, IsGreatest};

use crate::lanes::{eight_of, higher, lower};
use std::simd::i64x8;

/// The least and the greatest of the values, in this order; None exactly where there are none.
pub fn range(values: &[i64]) -> Option<(i64, i64)>
    ensures found { (least greatest : ℤ) → (result ≡ Some (least, greatest))
        ↔ (IsLeast values.now least × IsGreatest values.now greatest) }
    ensures empty { IsNone result ↔ (values.now ≡ []) }
{
    let first = *values.first()?;
    let whole = values.len() / 8 * 8;
    let (eights, rest) = values.split_at(whole);
    let (least, greatest) = ends_of_eights(first, eights);
    Some((least_from(least, rest), greatest_from(greatest, rest)))
}

/// The least and the greatest of a number and of whole eights of values: in each of eight lanes
/// those of every eighth value, and of the lanes at the end.
fn ends_of_eights(first: i64, values: &[i64]) -> (i64, i64)
    requires eights { length values.now % 8 ≡ 0 }
    ensures least { result.0 ≡ fold int_min first values.now }
    ensures greatest { result.1 ≡ fold int_max first values.now }
{
    if values.is_empty() {
        return (first, first);
    }
    let (mut low, mut high) = (i64x8::splat(first), i64x8::splat(first));
    let mut at = 0;
    while at < values.len() {
        let next = eight_of(&values[at..]);
        low = lower(low, next);
        high = higher(high, next);
        at += 8;
    }
    (
        least_from(first, &low.to_array()),
        greatest_from(first, &high.to_array()),
    )
}

/// The least of a number and of the values.
fn least_from(first: i64, values: &[i64]) -> i64
    ensures { result ≡ fold int_min first values.now }
{
    let mut least = first;
    for value in values {
        least = least.min(*value);
    }
    least
}

/// The greatest of a number and of the values.
fn greatest_from(first: i64, values: &[i64]) -> i64
    ensures { result ≡ fold int_max first values.now }
{
    let mut greatest = first;
    for value in values {
        greatest = greatest.max(*value);
    }
    greatest
}
