//! A window over a source: its bytes one by one, with their places.

ghost use Rattle.std.specs.Prelude.{◌≡◌, ℕ, ◌+◌, ◌<◌, ◌≤◌, ◌∷◌, ◌++◌, [], List, Option, IfOk, IfErr, IfSome, IfNone, OnOk, Some, None, Ok, length};
ghost use Rattle.ascii_grid.specs.inside.Reading.{Ahead};
ghost use Rattle.ascii_grid.specs.Stopping.{CountsStop};
ghost use Rattle.ascii_grid.specs.inside.Stops.{IsTooLong};
ghost use Rattle.ascii_grid.specs.Tokens.{limit};

use crate::fault::{AsciiReason, AsciiStop, stop};
use outside_io::Source;
use std::marker::Model;

/// How many bytes are taken from a source at once.
const PIECE: usize = 4096;

/// A text has no byte at this place.
const LIMIT: u64 = 1073741824;

/// Bytes of a text that were taken from its source and not looked at, and the place of the first.
#[derive(Drop)]
pub(crate) struct Window {
    buffer: [u8; PIECE],
    at: usize,
    end: usize,
    place: u64,
}

impl Model for Window {
    ghost use Rattle.std.specs.Prelude.{◌≤◌, take, drop};
    ghost use Rattle.ascii_grid.specs.inside.Reading.{Held};

    ghost Value = { Held };

    ghost view = { λ w. record { bytes = drop w.at (take w.end w.buffer); place = w.place } };

    ghost invariant = { λ w. (w.at ≤ w.end) × ((w.end ≤ 4096) × (w.place ≤ 1073741824)) };
}

impl Window {
    /// The window at the beginning of a text.
    pub(crate) fn new() -> Window
        ensures { result ≡ record { bytes = []; place = 0 } }
    {
        Window {
            buffer: [0; PIECE],
            at: 0,
            end: 0,
            place: 0,
        }
    }

    /// The place of the next byte.
    #[inline]
    pub(crate) fn place(&self) -> u64
        ensures value { result ≡ self.now.place }
        ensures within { result ≤ limit }
    {
        self.place
    }

    /// Takes bytes from the source where none is held. None is held then where the text ends.
    fn fill<S: Source>(&mut self, src: &mut S) -> Result<(), AsciiStop>
        ensures place { self.new.place ≡ self.old.place }
        ensures ahead { (bytes : List ℕ) → Ahead (S.left src.old) self.old bytes
            → OnOk result (Ahead (S.left src.new) self.new bytes
            × (self.new.bytes ≡ [] → bytes ≡ [])) }
        ensures only { IfErr result (λ e. e ≡ AsciiStop.Source) }
        ensures counted { CountsStop result (S.faults src.old) (S.faults src.new) }
    {
        if self.at == self.end {
            let n = src.take(&mut self.buffer)?;
            self.at = 0;
            self.end = n;
        }
        Ok(())
    }

    /// The next byte, which stays the next one. None where the text ends.
    #[inline]
    pub(crate) fn peek<S: Source>(&mut self, src: &mut S) -> Result<Option<u8>, AsciiStop>
        ensures place { self.new.place ≡ self.old.place }
        ensures within { OnOk result (self.new.place ≤ limit) }
        ensures ahead { (bytes : List ℕ) → Ahead (S.left src.old) self.old bytes
            → OnOk result (Ahead (S.left src.new) self.new bytes) }
        ensures byte { IfOk result (λ found. IfSome found (λ byte. (self.new.place < limit)
            × ((rest : List ℕ) × (self.new.bytes ≡ byte ∷ rest)))) }
        ensures end { (bytes : List ℕ) → Ahead (S.left src.old) self.old bytes
            → IfOk result (λ found. IfNone found (bytes ≡ [])) }
        ensures long { (bytes : List ℕ) → Ahead (S.left src.old) self.old bytes
            → IfErr result (λ e. IsTooLong e (self.old.place ≡ limit) bytes) }
        ensures counted { CountsStop result (S.faults src.old) (S.faults src.new) }
    {
        self.fill(src)?;
        if self.at == self.end {
            return Ok(None);
        }
        if self.place == LIMIT {
            return Err(stop(AsciiReason::TooLong, LIMIT));
        }
        Ok(Some(self.buffer[self.at]))
    }

    /// Goes past the next byte.
    #[inline]
    pub(crate) fn step(&mut self)
        requires some { 0 < length self.old.bytes }
        requires below { self.old.place < limit }
        ensures place { self.new.place ≡ self.old.place + 1 }
        ensures bytes { (byte : ℕ) (rest : List ℕ) → self.old.bytes ≡ byte ∷ rest
            → self.new.bytes ≡ rest }
    {
        self.at += 1;
        self.place += 1;
    }
}
