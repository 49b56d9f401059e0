//! Laws of the definitions, for the crates above. Each function does nothing: its contract is the
//! law.

ghost use Rattle.std.specs.Prelude.{◌≡◌, ◌<◌, ◌^◌, ◌⊎◌, ℕ, ℤ, pos, unsigned_abs};
ghost use Rattle.double_bits.specs.Bits.{half_bits};
ghost use Rattle.double_bits.specs.Halves.{HalfDouble};

/// Bits have one number at most that is twice their value.
pub fn bits_have_one_half()
    ensures { (bits : ℕ) (g h : ℤ) → HalfDouble bits g → HalfDouble bits h → g ≡ h }
{}

/// Bits have such a number, or they have none: which of the two is decided.
pub fn bits_have_a_half_or_none()
    ensures { (bits : ℕ) → ((h : ℤ) × HalfDouble bits h) ⊎ ((h : ℤ) → ¬ HalfDouble bits h) }
{}

/// Such a number is below 2 ^ 34 in absolute value.
pub fn halves_are_small()
    ensures { (bits : ℕ) (h : ℤ) → HalfDouble bits h → unsigned_abs h < 2 ^ 34 }
{}

/// Each number below 2 ^ 34 in absolute value is twice the value of the bits that are written for
/// it.
pub fn a_half_has_its_bits()
    ensures stands { (h : ℤ) → unsigned_abs h < 2 ^ 34 → HalfDouble (half_bits h) h }
    ensures fits { (h : ℤ) → unsigned_abs h < 2 ^ 34 → half_bits h < 2 ^ 64 }
    ensures zero { half_bits (pos 0) ≡ 0 }
{}

/// A number other than 0 is twice the value of no other 64 bits.
pub fn halves_have_one_double()
    ensures { (bits : ℕ) (h : ℤ) →
        bits < 2 ^ 64 → ¬ (h ≡ pos 0) → HalfDouble bits h → bits ≡ half_bits h }
{}
