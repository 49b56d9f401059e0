//! Code words written in pairs.

ghost use Rattle.std.specs.Prelude.{◌≡◌, ℕ, ◌+◌, ◌-◌, ◌*◌, ◌/◌, ◌%◌, ◌^◌, ◌≤◌, ◌<◌, ◌++◌, List, Bool};
ghost use Rattle.std.specs.Prelude.{length, take, All};
ghost use Rattle.huff_codes.specs.Bits.{bits_of};
ghost use Rattle.huff_codes.specs.Words.{joined_codes};
ghost use Rattle.huff_codes.specs.inside.Begun.{AreNumbers, numbered_codes};
ghost use Rattle.huff_codes.specs.inside.Filling.{IsLoose, IsNumbered};
ghost use Rattle.huff_codes.specs.inside.Spans.{IsLaid};
ghost use Rattle.huff_codes.specs.inside.Stored.{code_bits, codes_held};

use crate::codes::Code;
use crate::words::writing::{Pending, put_word};

/// A code as a number: its bits are the lowest ones, as many as its length says.
#[derive(Clone, Copy)]
pub(crate) struct CodeNumber {
    pub(crate) number: u32,
    pub(crate) length: u32,
}

/// A code as a number.
fn number_of(code: Code) -> CodeNumber
    requires { IsLaid code }
    ensures { IsNumbered (code_bits code) result }
{
    CodeNumber {
        number: (u64::from(code.bits) >> (32 - code.length)) as u32,
        length: code.length,
    }
}

/// The codes as numbers.
pub(crate) fn numbers_of(codes: &[Code; 256]) -> [CodeNumber; 256]
    requires size { length codes.now ≡ 256 }
    requires laid { All IsLaid codes.now }
    ensures numbers { AreNumbers result }
    ensures codes { numbered_codes result ≡ codes_held codes.now }
{
    let mut numbers = [CodeNumber {
        number: 0,
        length: 0,
    }; 256];
    for s in 0..256 {
        numbers[s] = number_of(codes[s]);
    }
    numbers
}

/// Two codes as one number, which a word holds.
#[inline(always)]
fn join_numbers(one: CodeNumber, two: CodeNumber) -> CodeNumber
    requires short { one.length + two.length ≤ 32 }
    requires one { one.number < 2 ^ one.length }
    requires two { two.number < 2 ^ two.length }
    ensures length { result.length ≡ one.length + two.length }
    ensures small { result.number < 2 ^ result.length }
    ensures bits { bits_of result.length result.number
        ≡ bits_of one.length one.number ++ bits_of two.length two.number }
{
    CodeNumber {
        number: ((u64::from(one.number) << two.length) + u64::from(two.number)) as u32,
        length: one.length + two.length,
    }
}

/// The 32 bits of a number above the lowest ones.
#[inline(always)]
fn word_above(held: u64, count: u32) -> u32
    requires { count < 32 }
    ensures { result ≡ held / 2 ^ count % 2 ^ 32 }
{
    ((held >> count) % 4294967296) as u32
}

/// The bits of a number, and behind them those of a code; the highest ones may be lost.
#[inline(always)]
fn append_code(held: u64, code: CodeNumber) -> u64
    requires low { code.length ≤ 32 }
    requires small { code.number < 2 ^ code.length }
    ensures { result ≡ held % 2 ^ (64 - code.length) * 2 ^ code.length + code.number }
{
    (held << code.length) + u64::from(code.number)
}

/// Appends the bits of a code. A word is written each time, and counts only where it is whole: to
/// test that would cost more.
#[inline(always)]
fn push(pending: Pending, code: CodeNumber, out: &mut [u8]) -> Pending
    requires low { code.length ≤ 32 }
    requires small { code.number < 2 ^ code.length }
    requires room { pending.at + 4 ≤ length out.old }
    ensures bits { 8 * result.at + result.count ≡ 8 * pending.at + pending.count + code.length }
    ensures pending { (bits : List Bool)
        → IsLoose bits out.old pending.held pending.count pending.at
        → IsLoose (bits ++ bits_of code.length code.number)
        out.new result.held result.count result.at }
{
    let count = pending.count + code.length;
    let held = append_code(pending.held, code);
    put_word(out, pending.at, word_above(held, count % 32));
    Pending {
        held,
        count: count % 32,
        at: pending.at + (count / 32) as usize * 4,
    }
}

/// Appends the bits of two codes.
#[inline(always)]
fn push_pair(pending: Pending, one: CodeNumber, two: CodeNumber, out: &mut [u8]) -> Pending
    requires one_low { one.length ≤ 32 }
    requires one_small { one.number < 2 ^ one.length }
    requires two_low { two.length ≤ 32 }
    requires two_small { two.number < 2 ^ two.length }
    requires room { 8 * pending.at + pending.count + one.length + 32 ≤ 8 * length out.old }
    ensures bits { 8 * result.at + result.count
        ≡ 8 * pending.at + pending.count + one.length + two.length }
    ensures pending { (bits : List Bool)
        → IsLoose bits out.old pending.held pending.count pending.at
        → IsLoose (bits ++ (bits_of one.length one.number ++ bits_of two.length two.number))
        out.new result.held result.count result.at }
{
    if one.length + two.length <= 32 {
        return push(pending, join_numbers(one, two), out);
    }
    let between = push(pending, one, out);
    push(between, two, out)
}

/// Appends the bits of the last symbol's code, where their number is odd.
fn push_last(
    numbers: &[CodeNumber; 256],
    pending: Pending,
    symbols: &[u8],
    out: &mut [u8],
) -> Pending
    requires numbers { AreNumbers numbers.now }
    requires room { pending.at + 4 ≤ length out.old }
    ensures pending { (bits : List Bool)
        → IsLoose
        (bits ++ joined_codes (numbered_codes numbers.now)
        (take (2 * (length symbols.now / 2)) symbols.now))
        out.old pending.held pending.count pending.at
        → IsLoose (bits ++ joined_codes (numbered_codes numbers.now) symbols.now)
        out.new result.held result.count result.at }
{
    if symbols.len() % 2 == 0 {
        return pending;
    }
    push(
        pending,
        numbers[usize::from(symbols[symbols.len() - 1])],
        out,
    )
}

/// Appends the bits of the symbols' codes. Behind the whole words there has to be room for one that
/// is not.
pub(crate) fn write_pairs(
    numbers: &[CodeNumber; 256],
    pending: Pending,
    symbols: &[u8],
    out: &mut [u8],
) -> Pending
    requires numbers { AreNumbers numbers.now }
    requires room { 8 * pending.at + pending.count
        + length (joined_codes (numbered_codes numbers.now) symbols.now) + 32
        ≤ 8 * length out.old }
    ensures pending { (bits : List Bool)
        → IsLoose bits out.old pending.held pending.count pending.at
        → IsLoose (bits ++ joined_codes (numbered_codes numbers.now) symbols.now)
        out.new result.held result.count result.at }
{
    let mut current = pending;
    for k in 0..symbols.len() / 2 {
        let one = numbers[usize::from(symbols[2 * k])];
        let two = numbers[usize::from(symbols[2 * k + 1])];
        current = push_pair(current, one, two, out);
    }
    push_last(numbers, current, symbols, out)
}
