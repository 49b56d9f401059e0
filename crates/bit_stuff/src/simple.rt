//! Lists in the simple form.

ghost use Rattle.std.specs.Prelude.{◌≡◌, ◌+◌, ◌^◌, ◌<◌, ◌≤◌, ℕ, length, All};
ghost use Rattle.bit_stuff.specs.Simple.{IsSimpleList, binary_digits};
ghost use Rattle.bit_stuff.specs.Simple.{greatest_number, simple_bytes, width_of};

use crate::heads::{head_len, write_head};
use crate::packing::stuff;
use crate::unpacking::stuffed_len;

/// The greatest of the values, or 0 where there is none.
fn greatest_of(values: &[u32]) -> u32
    ensures { result ≡ greatest_number values.now }
{
    let mut most = 0;
    for v in values {
        if *v > most {
            most = *v;
        }
    }
    most
}

/// How many binary digits a number has: 0 has none.
pub fn digit_count(n: u32) -> u32
    ensures value { result ≡ binary_digits n }
    ensures least { (k : ℕ) → n < 2 ^ k → result ≤ k }
{
    32 - n.leading_zeros()
}

/// The chosen width of a list: as many bits as its greatest value has binary digits, 0 where all
/// values are 0 or there is none.
pub fn list_width(values: &[u32]) -> u32
    ensures value { result ≡ width_of values.now }
    ensures holds { All (λ v. v < 2 ^ result) values.now }
    ensures least { (k : ℕ) → All (λ v. v < 2 ^ k) values.now → result ≤ k }
{
    digit_count(greatest_of(values))
}

/// How many bytes `write_simple` takes for the values.
pub fn simple_len(values: &[u32]) -> usize
    requires count { length values.now ≤ 1024 }
    requires values { All (λ v. v < 2 ^ 31) values.now }
    ensures { result ≡ length (simple_bytes values.now) }
{
    head_len(values.len() as u32) + stuffed_len(values.len(), list_width(values))
}

/// Writes the values as the chosen list in the simple form: the width is the number of binary
/// digits of the greatest value, the count takes one byte up to 255, two up to 65,535 and else
/// four, and spare bits are 0.
pub fn write_simple(values: &[u32], out: &mut [u8])
    requires count { length values.now ≤ 1024 }
    requires values { All (λ v. v < 2 ^ 31) values.now }
    requires room { length out.old ≡ length (simple_bytes values.now) }
    ensures bytes { out.new ≡ simple_bytes values.now }
    ensures list { IsSimpleList out.new values.now }
{
    let width = list_width(values);
    let used = write_head(width, false, values.len() as u32, out);
    stuff(values, width, &mut out[used..]);
}
