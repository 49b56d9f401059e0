//! A sum of values, and the mean of one to four.

ghost use Rattle.std.specs.Prelude.{◌≡◌, ◌<◌, ◌≤◌, ◌≤ℤ◌, ◌*◌, ◌*ℤ◌, ◌+ℤ◌, ℕ, ℤ, pos, nat_lt, if◌then◌else◌};
ghost use Rattle.overview_tiles.specs.Half.{mean_of};
ghost use Rattle.overview_tiles.specs.inside.Comes.{IsWithin};

/// A sum of values of a type.
pub(crate) trait Sum: Copy {
    /// The number that it is.
    ghost number: { Self → ℤ };

    /// How far from 0 a value may be.
    ghost reach: { ℕ };

    /// The sum with another one, of one value or two.
    fn plus(self, more: i64) -> Self
        requires within { IsWithin (2048 * reach) (number self) }
        requires small { IsWithin (2 * reach) more }
        ensures { number result ≡ number self +ℤ more };

    /// The mean of one to four values with this sum, rounded to the nearest whole number, and up
    /// where two are as near.
    fn mean(self, count: u8) -> i64
        requires some { 1 ≤ count }
        requires few { count ≤ 4 }
        requires within { IsWithin (4 * reach) (number self) }
        ensures value { result ≡ mean_of (number self) (pos count) }
        ensures least { (least : ℤ) → (pos count *ℤ least) ≤ℤ number self → least ≤ℤ result }
        ensures greatest { (greatest : ℤ) → number self ≤ℤ (pos count *ℤ greatest)
            → result ≤ℤ greatest };
}

impl Sum for i32 {
    ghost number = { λ sum. sum };

    ghost reach = { 65536 };

    #[inline(always)]
    fn plus(self, more: i64) -> i32 {
        self + more as i32
    }

    // The divisors are written out, since a division by a number that is not known is slow.
    #[inline(always)]
    fn mean(self, count: u8) -> i64 {
        match count {
            1 => i64::from(self),
            2 => i64::from((self + 1).div_euclid(2)),
            3 => i64::from((2 * self + 3).div_euclid(6)),
            _ => i64::from((self + 2).div_euclid(4)),
        }
    }
}

impl Sum for i64 {
    ghost number = { λ sum. sum };

    ghost reach = { 4294967296 };

    #[inline(always)]
    fn plus(self, more: i64) -> i64 {
        self + more
    }

    #[inline(always)]
    fn mean(self, count: u8) -> i64 {
        match count {
            1 => self,
            2 => (self + 1).div_euclid(2),
            3 => (2 * self + 3).div_euclid(6),
            _ => (self + 2).div_euclid(4),
        }
    }
}

/// The mean of so many values, and 0 of none.
#[inline(always)]
pub(crate) fn mean_or_zero<S: Sum>(sum: S, count: u8) -> i64
    requires few { count ≤ 4 }
    requires within { 0 < count → IsWithin (4 * S.reach) (S.number sum) }
    ensures value { result
        ≡ (if nat_lt 0 count then mean_of (S.number sum) (pos count) else pos 0) }
    ensures least { (least : ℤ) → least ≤ℤ pos 0
        → (0 < count → (pos count *ℤ least) ≤ℤ S.number sum) → least ≤ℤ result }
    ensures greatest { (greatest : ℤ) → pos 0 ≤ℤ greatest
        → (0 < count → S.number sum ≤ℤ (pos count *ℤ greatest)) → result ≤ℤ greatest }
{
    if count > 0 { sum.mean(count) } else { 0 }
}
