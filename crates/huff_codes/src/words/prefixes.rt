//! A table of what the first eight bits of code words tell.

ghost use Rattle.std.specs.Prelude.{◌≡◌, ℕ, ◌<◌, ◌≤◌, List, Bool, length, get_or, MatchOption, ⊤};
ghost use Rattle.std.specs.Prelude.{IfSome};
ghost use Rattle.huff_codes.specs.Codes.{IsPrefixFree, code_at};
ghost use Rattle.huff_codes.specs.Prefixes.{ArePrefixes};
ghost use Rattle.huff_codes.specs.Words.{IsStuck};
ghost use Rattle.huff_codes.specs.declared.words.prefixes.Look.TheVariants.{Nothing};
ghost use Rattle.huff_codes.specs.inside.Noted.{IsNoted};
ghost use Rattle.huff_codes.specs.inside.Reading.{IsNext};
ghost use Rattle.huff_codes.specs.inside.Spans.{IsLaid};
ghost use Rattle.huff_codes.specs.inside.Stored.{IsAhead, code_bits};

use crate::codes::{Ahead, Code, Codes};
use std::marker::Model;

/// What the next eight bits tell.
#[derive(Clone, Copy, Debug, PartialEq, Eq)]
pub enum Look {
    /// The code of a symbol stands in front of them.
    Symbol {
        /// The symbol.
        symbol: u8,
        /// How many bits its code has.
        length: u32,
    },
    /// A code of more than eight bits begins with them.
    Longer,
    /// Neither: no code begins so.
    Nothing,
}

/// For each byte what its eight bits tell, the highest first. A contract sees the list of the 256
/// looks.
#[derive(Drop)]
pub struct Prefixes {
    looks: [Look; 256],
}

impl Model for Prefixes {
    ghost use Rattle.std.specs.Prelude.{◌≡◌, List, length};
    ghost use Rattle.huff_codes.specs.declared.words.prefixes.Look.{Look};

    ghost Value = { List Look };

    ghost view = { λ p. p.looks };

    ghost invariant = { λ p. length p.looks ≡ 256 };
}

/// Notes what the code of a symbol tells: at all bytes that it stands in front of, or at the one
/// with which it begins.
fn put_look(looks: &mut [Look; 256], code: Code, symbol: u8)
    requires laid { IsLaid code }
    requires room { length looks.old ≡ 256 }
    ensures room { length looks.new ≡ 256 }
    ensures told { (codes : List (List Bool)) → IsPrefixFree codes
        → code_at codes symbol ≡ code_bits code → (b : ℕ) → b < 256
        → IsNoted codes symbol b (get_or looks.old b Nothing) (get_or looks.new b Nothing) }
{
    if code.length == 0 {
        return;
    }
    let from = (code.bits >> 24) as usize;
    if code.length > 8 {
        looks[from] = Look::Longer;
        return;
    }
    let look = Look::Symbol {
        symbol,
        length: code.length,
    };
    looks[from..from + (1 << (8 - code.length))].fill(look);
}

impl Prefixes {
    /// The table of the codes.
    pub fn of(codes: &Codes) -> Prefixes
        ensures { ArePrefixes codes.now result }
    {
        // for the proof: `know` ensures what always holds of codes
        codes.know();
        let mut looks = [Look::Nothing; 256];
        for s in 0..256 {
            put_look(&mut looks, codes.code(s), s as u8);
        }
        Prefixes { looks }
    }

    /// What the eight bits of a byte tell.
    pub fn look(&self, byte: u8) -> Look
        ensures { result ≡ get_or self.now byte Nothing }
    {
        self.looks[usize::from(byte)]
    }
}

/// The symbol whose code stands in front of the next eight bits, where the table tells one, and how
/// many bits that takes.
#[inline(always)]
fn short_symbol(prefixes: &Prefixes, next: Ahead) -> Option<(u8, u32)>
    ensures found { (codes : List (List Bool)) (left : List Bool) → ArePrefixes codes prefixes.now
        → IsAhead next left → IfSome result (λ r. IsNext codes left r.0 r.1) }
    ensures short { (codes : List (List Bool)) → ArePrefixes codes prefixes.now
        → IfSome result (λ r. r.1 ≤ 8) }
{
    if next.count < 8 {
        return None;
    }
    match prefixes.look((next.word >> 24) as u8) {
        Look::Symbol { symbol, length } => Some((symbol, length)),
        Look::Longer | Look::Nothing => None,
    }
}

/// The symbol whose code the next bits begin with, and how many bits that takes: by the table, and
/// where it tells none, by the codes.
pub(crate) fn symbol_ahead(codes: &Codes, prefixes: &Prefixes, next: Ahead) -> Option<(u8, u32)>
    requires { ArePrefixes codes.now prefixes.now }
    ensures found { (left : List Bool) → IsAhead next left
        → MatchOption result (IsStuck codes.now left) (λ r. IsNext codes.now left r.0 r.1) }
    ensures short { MatchOption result ⊤ (λ r. r.1 ≤ 32) }
{
    match short_symbol(prefixes, next) {
        Some(found) => Some(found),
        None => codes.next(next),
    }
}
