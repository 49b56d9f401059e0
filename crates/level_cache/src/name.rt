//! The names of bundles.

ghost use Rattle.std.specs.Prelude.{◌≡◌, ◌+◌, ◌-◌, ◌^◌, ◌<◌, ◌≤◌, ◌++◌, ◌∷◌, [], All, ℕ, List, length};
ghost use Rattle.level_cache.specs.Names.{IsHexDigit, IsName, digit_value};
ghost use Rattle.level_cache.specs.inside.Digits.{AddsDigits, AddsHex};

use crate::Base;
use arrayvec::ArrayVec;
use std::marker::Model;

/// The greatest number of bytes of a name.
const ROOM: usize = 25;

/// The name of a bundle, at most 25 bytes. Contracts see the list of its bytes.
#[derive(Drop)]
pub struct Name {
    bytes: ArrayVec<u8, ROOM>,
}

impl Model for Name {
    ghost use Rattle.std.specs.Prelude.{ℕ, List};

    ghost Value = { List ℕ };

    ghost view = { λ n. n.bytes.items };
}

impl Name {
    /// The bytes.
    pub fn as_slice(&self) -> &[u8]
        ensures { result.now ≡ self.now }
    {
        self.bytes.as_slice()
    }

    fn new() -> Name
        ensures { result ≡ [] }
    {
        Name {
            bytes: ArrayVec::new(),
        }
    }

    // Adds bytes behind what is there.
    fn text(&mut self, text: &[u8])
        requires { length self.old + length text.now ≤ 25 }
        ensures bytes { self.new ≡ self.old ++ text.now }
        ensures longer { length self.new ≡ length self.old + length text.now }
    {
        match self.bytes.try_extend_from_slice(text) {
            Ok(()) => {}
            Err(_) => unreachable!(),
        }
    }

    // Adds so many hexadecimal digits of a number, from 1 to 8.
    fn digits(&mut self, n: u32, count: usize)
        requires some { 1 ≤ count }
        requires most { count ≤ 8 }
        requires fits { n < 16 ^ count }
        requires room { length self.old + count ≤ 25 }
        ensures added { AddsDigits n count self.old self.new }
        ensures longer { length self.new ≡ length self.old + count }
    {
        if count > 1 {
            self.digits(n / 16, count - 1);
        }
        self.text(&[digit((n % 16) as u8)]);
    }

    // Adds a number in hexadecimal digits, four or more.
    fn hex(&mut self, n: u32)
        requires { length self.old + 8 ≤ 25 }
        ensures added { AddsHex n self.old self.new }
        ensures longer { length self.new ≤ length self.old + 8 }
    {
        self.digits(n, digits_of(n));
    }
}

/// The hexadecimal digit of a number below 16.
fn digit(n: u8) -> u8
    requires { n < 16 }
    ensures digit { IsHexDigit result }
    ensures value { digit_value result ≡ n }
{
    if n < 10 { b'0' + n } else { b'a' + (n - 10) }
}

/// How many digits a number has, four at least.
fn digits_of(n: u32) -> usize
    ensures least { 4 ≤ result }
    ensures most { result ≤ 8 }
    ensures fits { n < 16 ^ result }
    ensures leading { 4 < result → 16 ^ (result - 1) ≤ n }
{
    if n < 0x1_0000 {
        4
    } else if n < 0x10_0000 {
        5
    } else if n < 0x100_0000 {
        6
    } else if n < 0x1000_0000 {
        7
    } else {
        8
    }
}

/// The name of the base's bundle: `R`, its first row, `C`, its first column, both in four or more
/// lower-case hexadecimal digits, and `.bundle`. It takes no memory.
pub fn bundle_name(base: Base) -> Name
    ensures named { IsName base result }
    ensures short { length result ≤ 25 }
{
    let mut name = Name::new();
    name.text(b"R");
    name.hex(base.row());
    name.text(b"C");
    name.hex(base.col());
    name.text(b".bundle");
    name
}
