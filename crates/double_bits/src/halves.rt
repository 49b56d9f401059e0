//! Doubles that are read as twice their value, and written so.

ghost use Rattle.std.specs.Prelude.{◌≡◌, ℕ, ℤ, pos, ◌+◌, ◌*◌, ◌<◌, ◌≤◌, ◌^◌, ◌↔◌, unsigned_abs, IsNone, IfSome};
ghost use Rattle.double_bits.specs.Bits.{half_bits, magnitude_bits};
ghost use Rattle.double_bits.specs.Halves.{HalfDouble};
ghost use Rattle.double_bits.specs.inside.Magnitude.{IsMagnitude};

// The exponents of 0.5, the least normal half, and of the numbers from 2 ^ 32 up to 2 ^ 33.
const LEAST_EXPONENT: u64 = 1022;

const GREATEST_EXPONENT: u64 = 1055;

// The leading bit of a normal number, which stands above its fraction.
const LEADING_BIT: u64 = 4503599627370496;

// The exponent of a number whose double has its highest bit at place 0, which is 0.5.
const HALF_EXPONENT: u64 = 1022;

// The sign bit alone.
const SIGN_BIT: u64 = 9223372036854775808;

/// Twice the absolute value of a double with this exponent and fraction.
fn magnitude(exponent: u64, fraction: u64) -> Option<u64>
    requires { fraction < 2 ^ 52 }
    ensures exact { (a : ℕ) → (result ≡ Some a) ↔ IsMagnitude exponent fraction a }
    ensures small { IfSome result (λ a. a < 2 ^ 34) }
{
    if exponent == 0 {
        return if fraction == 0 { Some(0) } else { None };
    }
    if exponent < LEAST_EXPONENT || exponent > GREATEST_EXPONENT {
        return None;
    }
    let whole = LEADING_BIT + fraction;
    let shift = 1074 - exponent;
    let magnitude = whole >> shift;
    if magnitude << shift != whole {
        return None;
    }
    Some(magnitude)
}

/// Twice the value of the double with these bits, where the value is a whole number or a half and
/// its absolute value is below 2 ^ 33; else `None`.
///
/// The bits are those of an IEEE 754 binary64 number: bit 63 the sign, bits 52 to 62 the exponent
/// with the bias 1023, bits 0 to 51 the fraction. Both zeros give 0. Subnormal numbers, infinities
/// and NaN give `None`. It takes no memory.
pub fn halves_of(bits: u64) -> Option<i64>
    ensures exact { (h : ℤ) → (result ≡ Some h) ↔ HalfDouble bits h }
    ensures none { IsNone result ↔ ((h : ℤ) → ¬ HalfDouble bits h) }
{
    let a = magnitude((bits >> 52) % 2048, bits % LEADING_BIT)? as i64;
    Some(if bits >> 63 == 0 { a } else { -a })
}

/// The bits of the double that is half of a number, but for the sign.
fn bits_of_magnitude(twice: u64) -> u64
    requires { twice < 2 ^ 34 }
    ensures { result ≡ magnitude_bits twice }
{
    if twice == 0 {
        return 0;
    }
    let top = 63 - u64::from(twice.leading_zeros());
    let fraction = (twice << (52 - top)) - LEADING_BIT;
    ((HALF_EXPONENT + top) << 52) + fraction
}

/// The bits of the double whose value is half of this number: the bits that `halves_of` reads as
/// it.
///
/// The number is below 2 ^ 34 in absolute value. 0 is written as +0; for every other number no
/// other bits have this value. It takes no memory.
pub fn bits_of(halves: i64) -> u64
    requires { unsigned_abs halves < 2 ^ 34 }
    ensures exact { HalfDouble result halves }
    ensures zero { halves ≡ pos 0 → result ≡ 0 }
    ensures value { result ≡ half_bits halves }
{
    let bits = bits_of_magnitude(halves.unsigned_abs());
    if halves < 0 { SIGN_BIT + bits } else { bits }
}
