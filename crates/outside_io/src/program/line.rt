//! Lines of output, of a fixed greatest length.

ghost use Rattle.std.specs.Prelude.{◌≡◌, ◌+◌, ◌≤◌, ◌++◌, [], length};
ghost use Rattle.outside_io.specs.program.Line.{GivesLine, and_number};

use crate::{Sink, give_all};
use std::marker::Model;

/// The greatest number of bytes of a line.
const ROOM: usize = 192;

/// A line of text, made without taking memory: at most 192 bytes. Contracts see the list of its
/// bytes.
#[derive(Drop)]
pub struct Line {
    bytes: [u8; ROOM],
    len: usize,
}

impl Model for Line {
    ghost use Rattle.std.specs.Prelude.{ℕ, List, take, ◌≤◌};

    ghost Value = { List ℕ };

    ghost view = { λ l. take l.len l.bytes };

    ghost invariant = { λ l. l.len ≤ 192 };
}

impl Line {
    /// The empty line.
    pub fn new() -> Line
        ensures { result ≡ [] }
    {
        Line {
            bytes: [0; ROOM],
            len: 0,
        }
    }

    /// The bytes.
    pub fn as_slice(&self) -> &[u8]
        ensures { result.now ≡ self.now }
    {
        &self.bytes[..self.len]
    }

    /// Adds text behind what is there.
    pub fn text(&mut self, text: &[u8])
        requires { length self.old + length text.now ≤ 192 }
        ensures bytes { self.new ≡ self.old ++ text.now }
        ensures longer { length self.new ≡ length self.old + length text.now }
    {
        let end = self.len + text.len();
        self.bytes[self.len..end].copy_from_slice(text);
        self.len = end;
    }

    /// Adds a blank and a number in decimal digits, which are 21 bytes at most.
    pub fn number(&mut self, n: u64)
        requires { length self.old + 21 ≤ 192 }
        ensures bytes { self.new ≡ self.old ++ and_number n }
        ensures longer { length self.new ≤ length self.old + 21 }
    {
        let mut digits = itoa::Buffer::new();
        self.text(b" ");
        self.text(digits.format(n).as_bytes());
    }
}

/// Gives a line of which nobody is told whether the sink takes it, as the line that says why a
/// program ends.
pub fn give_line<K: Sink>(sink: &mut K, line: &Line)
    ensures { GivesLine (K.held sink.old) (K.held sink.new) (K.faults sink.old)
        (K.faults sink.new) line.now }
{
    let _ = give_all(sink, line.as_slice());
}
