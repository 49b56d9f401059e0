//! Tokens: the words of a text between blanks.

ghost use Rattle.std.specs.Prelude.{◌≡◌, ◌↔◌, ℕ, ◌+◌, ◌<◌, ◌≤◌, ◌∷◌, ◌++◌, [], List, IsTrue, IfOk, IfErr, OnOk, length, true};
ghost use Rattle.ascii_grid.specs.inside.Reading.{Ahead, Left};
ghost use Rattle.ascii_grid.specs.inside.Steps.{Demanded, NextTaken, Skipped, WordTaken};
ghost use Rattle.ascii_grid.specs.Stopping.{CountsStop};
ghost use Rattle.ascii_grid.specs.Tokens.{TokenAt, is_blank, limit};

use crate::fault::{AsciiReason, AsciiStop, stop};
use crate::window::Window;
use outside_io::Source;
use std::marker::Model;

/// How many bytes of a token are looked at.
const ROOM: usize = 33;

/// A token: its place, and its bytes, or the first 33 of more. Contracts see both.
#[derive(Drop)]
pub(crate) struct Token {
    bytes: [u8; ROOM],
    len: usize,
    place: u64,
}

impl Model for Token {
    ghost use Rattle.std.specs.Prelude.{take, ◌≤◌};
    ghost use Rattle.ascii_grid.specs.Tokens.{TokenAt};

    ghost Value = { TokenAt };

    ghost view = { λ t. record { place = t.place; bytes = take t.len t.bytes } };

    ghost invariant = { λ t. t.len ≤ 33 };
}

impl Token {
    /// A token of which no byte is known.
    fn at(place: u64) -> Token
        ensures { result ≡ record { place = place; bytes = [] } }
    {
        Token {
            bytes: [0; ROOM],
            len: 0,
            place,
        }
    }

    /// Where the token begins.
    pub(crate) fn place(&self) -> u64
        ensures { result ≡ self.now.place }
    {
        self.place
    }

    /// The bytes.
    #[inline]
    pub(crate) fn bytes(&self) -> &[u8]
        ensures value { result.now ≡ self.now.bytes }
        ensures few { length result.now ≤ 33 }
    {
        &self.bytes[..self.len]
    }

    /// How many bytes there are.
    #[inline]
    fn len(&self) -> usize
        ensures { result ≡ length self.now.bytes }
    {
        self.len
    }

    /// One byte more.
    #[inline]
    fn push(&mut self, byte: u8)
        requires { length self.old.bytes < 33 }
        ensures { self.new
            ≡ record { place = self.old.place; bytes = self.old.bytes ++ byte ∷ [] } }
    {
        self.bytes[self.len] = byte;
        self.len += 1;
    }
}

/// Whether the byte stands between tokens.
#[inline]
fn is_blank(byte: u8) -> bool
    ensures { result ≡ is_blank byte }
{
    byte == b' ' || byte == b'\t' || byte == b'\r' || byte == b'\n'
}

/// Goes past blanks, and answers whether a token begins behind them.
fn skip_blanks<S: Source>(src: &mut S, window: &mut Window) -> Result<bool, AsciiStop>
    ensures skipped { (text : List ℕ) → Ahead (S.left src.old) window.old text
        → Skipped result (S.left src.new) window.new window.old.place text }
    ensures counted { CountsStop result (S.faults src.old) (S.faults src.new) }
{
    loop {
        let byte = match window.peek(src)? {
            Some(byte) => byte,
            None => return Ok(false),
        };
        if !is_blank(byte) {
            return Ok(true);
        }
        window.step();
    }
}

/// Takes the bytes of a token, 33 at most.
fn take_dark<S: Source>(
    src: &mut S,
    window: &mut Window,
    token: &mut Token,
) -> Result<(), AsciiStop>
    requires none { token.old.bytes ≡ [] }
    requires within { window.old.place ≤ limit }
    ensures place { token.new.place ≡ token.old.place }
    ensures taken { (text : List ℕ) → Ahead (S.left src.old) window.old text
        → WordTaken result (S.left src.new) window.new window.old.place text token.new.bytes }
    ensures counted { CountsStop result (S.faults src.old) (S.faults src.new) }
{
    while token.len() < ROOM {
        match window.peek(src)? {
            Some(byte) if !is_blank(byte) => {
                token.push(byte);
                window.step();
            }
            _ => return Ok(()),
        }
    }
    Ok(())
}

/// The next token. None where the text has none.
pub(crate) fn next_token<S: Source>(
    src: &mut S,
    window: &mut Window,
) -> Result<Option<Token>, AsciiStop>
    ensures next { (total : ℕ) (tokens : List TokenAt)
        → Left (S.left src.old) window.old total tokens
        → NextTaken result (S.left src.new) window.new total tokens }
    ensures counted { CountsStop result (S.faults src.old) (S.faults src.new) }
{
    if !skip_blanks(src, window)? {
        return Ok(None);
    }
    let mut token = Token::at(window.place());
    take_dark(src, window, &mut token)?;
    Ok(Some(token))
}

/// The next token, where the text owes one.
pub(crate) fn demand<S: Source>(src: &mut S, window: &mut Window) -> Result<Token, AsciiStop>
    ensures next { (total : ℕ) (tokens : List TokenAt)
        → Left (S.left src.old) window.old total tokens
        → Demanded result (S.left src.new) window.new total tokens }
    ensures counted { CountsStop result (S.faults src.old) (S.faults src.new) }
{
    match next_token(src, window)? {
        Some(token) => Ok(token),
        None => Err(stop(AsciiReason::Truncated, window.place())),
    }
}
