//! Bytes that wait to be given to a sink, so that a call of it gives many.

ghost use Rattle.std.specs.Prelude.{◌≡◌, ◌+◌, ◌-◌, ◌≤◌, ◌++◌, [], OnOk, OnErr, length, min, take};
ghost use Rattle.outside_io.specs.streams.Faults.{CountsFaults};
ghost use Rattle.outside_io.specs.streams.Sink.{Holds, HoldsPrefix};
ghost use Rattle.raster_grids.specs.inside.Pack.{Sends};

use crate::PIECE;
use outside_io::{Failed, Sink, give_all};
use std::marker::Model;

/// Bytes that wait to be given to a sink. A contract sees their list.
#[derive(Drop)]
pub struct Waiting {
    buffer: [u8; PIECE],
    count: usize,
}

impl Model for Waiting {
    ghost use Rattle.std.specs.Prelude.{ℕ, List, take, ◌≤◌};

    ghost Value = { List ℕ };

    ghost view = { λ w. take w.count w.buffer };

    ghost invariant = { λ w. w.count ≤ 65536 };
}

impl Waiting {
    /// None.
    pub fn new() -> Waiting
        ensures { result ≡ [] }
    {
        Waiting {
            buffer: [0; PIECE],
            count: 0,
        }
    }

    /// Puts the first of these bytes behind those that wait, as many as have room, and answers how
    /// many.
    fn put(&mut self, bytes: &[u8]) -> usize
        ensures count { result ≡ min (65536 - length self.old) (length bytes.now) }
        ensures bytes { self.new ≡ self.old ++ take result bytes.now }
    {
        let n = bytes.len().min(PIECE - self.count);
        let end = self.count + n;
        self.buffer[self.count..end].copy_from_slice(&bytes[..n]);
        self.count = end;
        n
    }

    /// Gives all that waits.
    pub fn flush<K: Sink>(&mut self, sink: &mut K) -> Result<(), Failed>
        ensures ok { OnOk result (Holds (K.held sink.old) (K.held sink.new) self.old) }
        ensures none { OnOk result (self.new ≡ []) }
        ensures err { OnErr result (HoldsPrefix (K.held sink.old) (K.held sink.new) self.old) }
        ensures counted { CountsFaults result (K.faults sink.old) (K.faults sink.new) }
    {
        give_all(sink, &self.buffer[..self.count])?;
        self.count = 0;
        Ok(())
    }

    /// Gives these bytes behind those that wait, or lets them wait too. What no piece has room for
    /// is given straight from its place.
    pub fn give<K: Sink>(&mut self, sink: &mut K, bytes: &[u8]) -> Result<(), Failed>
        ensures ok { OnOk result (Sends (K.held sink.old) (K.held sink.new) self.new []
            (self.old ++ bytes.now)) }
        ensures err { OnErr result
            (HoldsPrefix (K.held sink.old) (K.held sink.new) (self.old ++ bytes.now)) }
        ensures counted { CountsFaults result (K.faults sink.old) (K.faults sink.new) }
    {
        let n = self.put(bytes);
        if n == bytes.len() {
            return Ok(());
        }
        self.flush(sink)?;
        let rest = &bytes[n..];
        if rest.len() >= PIECE {
            return give_all(sink, rest);
        }
        let _ = self.put(rest);
        Ok(())
    }
}
