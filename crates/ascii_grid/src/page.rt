//! Bytes that wait to be given to a sink, a page of them at once.

ghost use Rattle.std.specs.Prelude.{◌≡◌, ◌+◌, ◌<◌, ◌≤◌, ◌∷◌, ◌++◌, [], OnOk, OnErr, length, FitsSigned};
ghost use Rattle.std.specs.Int.{w64};
ghost use Rattle.std.specs.Fmt.{signed_decimal};
ghost use Rattle.outside_io.specs.streams.Faults.{CountsFaults};
ghost use Rattle.outside_io.specs.streams.Sink.{Holds, HoldsPrefix};
ghost use Rattle.ascii_grid.specs.inside.Pages.{Adds, Gives, Waits};

use outside_io::{Failed, Sink, give_all};
use std::marker::Model;

/// How many bytes are given to a sink at once.
const PIECE: usize = 4096;

/// Bytes that wait to be given to a sink. Contracts see the list of them.
#[derive(Drop)]
pub(crate) struct Page {
    bytes: [u8; PIECE],
    len: usize,
}

impl Model for Page {
    ghost use Rattle.std.specs.Prelude.{ℕ, List, take, ◌≤◌};

    ghost Value = { List ℕ };

    ghost view = { λ p. take p.len p.bytes };

    ghost invariant = { λ p. p.len ≤ 4096 };
}

impl Page {
    /// An empty page.
    pub(crate) fn new() -> Page
        ensures { result ≡ [] }
    {
        Page {
            bytes: [0; PIECE],
            len: 0,
        }
    }

    /// How many bytes wait.
    #[inline]
    fn len(&self) -> usize
        ensures value { result ≡ length self.now }
        ensures within { result ≤ 4096 }
    {
        self.len
    }

    /// Adds bytes, for which there is room.
    #[inline]
    fn put(&mut self, bytes: &[u8])
        requires { length self.old + length bytes.now ≤ 4096 }
        ensures { self.new ≡ self.old ++ bytes.now }
    {
        let end = self.len + bytes.len();
        self.bytes[self.len..end].copy_from_slice(bytes);
        self.len = end;
    }

    /// Adds a byte, for which there is room.
    #[inline]
    fn push(&mut self, byte: u8)
        requires { length self.old < 4096 }
        ensures { self.new ≡ self.old ++ byte ∷ [] }
    {
        self.bytes[self.len] = byte;
        self.len += 1;
    }

    /// Gives the bytes that wait.
    pub(crate) fn give<K: Sink>(&mut self, sink: &mut K) -> Result<(), Failed>
        ensures gives { Gives K.held K.faults result sink.old sink.new self.old }
        ensures none { OnOk result (self.new ≡ []) }
    {
        give_all(sink, &self.bytes[..self.len])?;
        self.len = 0;
        Ok(())
    }

    /// Gives the bytes that wait where there is no room for so many more.
    #[inline]
    fn make_room<K: Sink>(&mut self, sink: &mut K, more: usize) -> Result<(), Failed>
        requires { more ≤ 4096 }
        ensures ok { OnOk result (Waits (K.held sink.old) (K.held sink.new) self.old self.new []) }
        ensures room { OnOk result (length self.new + more ≤ 4096) }
        ensures err { OnErr result (HoldsPrefix (K.held sink.old) (K.held sink.new) self.old) }
        ensures counted { CountsFaults result (K.faults sink.old) (K.faults sink.new) }
    {
        if self.len() + more > PIECE {
            self.give(sink)?;
        }
        Ok(())
    }

    /// Adds a word and the byte behind it.
    #[inline]
    pub(crate) fn word<K: Sink>(
        &mut self,
        sink: &mut K,
        word: &[u8],
        behind: u8,
    ) -> Result<(), Failed>
        requires { length word.now ≤ 40 }
        ensures adds { Adds K.held K.faults result sink.old sink.new self.old self.new
            (record { bytes = word.now; behind = behind } ∷ []) }
    {
        self.make_room(sink, word.len() + 1)?;
        self.put(word);
        self.push(behind);
        Ok(())
    }

    /// Adds a number and the byte behind it.
    #[inline]
    pub(crate) fn number<K: Sink>(
        &mut self,
        sink: &mut K,
        number: i64,
        behind: u8,
    ) -> Result<(), Failed>
        ensures adds { Adds K.held K.faults result sink.old sink.new self.old self.new
            (record { bytes = signed_decimal number; behind = behind } ∷ []) }
    {
        let mut digits = itoa::Buffer::new();
        self.word(sink, digits.format(number).as_bytes(), behind)
    }
}
