//! A source over bytes in memory.

ghost use Rattle.std.specs.Prelude.{◌≡◌, ◌<◌, ◌≤◌, ◌↔◌, Some, Ok, IfOk, OnErr, IsErr, length, drop, min, Contains};
ghost use Rattle.outside_io.specs.streams.Faults.{CountsFaults};
ghost use Rattle.outside_io.specs.streams.Source.{Takes};
ghost use Rattle.outside_io.specs.streams.Memory.{after_take, after_failed_take};

use super::bytes::Bytes;
use super::failed::Failed;
use super::source::Source;
use std::marker::Model;

/// A source over bytes in memory. It gives them in pieces of a greatest size, and fails at the
/// calls that it was told.
///
/// Its calls of `take` are numbered from 0. A call with an empty buffer has no number.
#[derive(Drop)]
pub struct MemSource {
    bytes: Bytes,
    at: usize,
    piece: usize,
    failing: Bytes,
    call: u64,
    faults: u64,
}

impl Model for MemSource {
    ghost use Rattle.std.specs.Prelude.{◌≤◌, ◌<◌, drop, length};
    ghost use Rattle.outside_io.specs.streams.Memory.{SourceState};

    ghost Value = { SourceState };

    ghost view = { λ s. record {
      left = drop s.at s.bytes;
      piece = s.piece;
      failing = s.failing;
      call = s.call;
      faults = s.faults;
    } };

    ghost invariant = { λ s. (s.at ≤ length s.bytes) × (0 < s.piece) };
}

impl MemSource {
    /// A source of these bytes, of which a call takes at most `piece`. The call with number k
    /// fails exactly where k is one of the bytes `failing`.
    pub fn new(bytes: Bytes, piece: usize, failing: Bytes) -> MemSource
        requires { 0 < piece }
        ensures { result ≡ record {
          left = bytes;
          piece = piece;
          failing = failing;
          call = 0;
          faults = 0;
        } }
    {
        MemSource {
            bytes,
            at: 0,
            piece,
            failing,
            call: 0,
            faults: 0,
        }
    }
}

impl Source for MemSource {
    ghost left = { λ s. Some s.left };

    ghost faults = { λ s. s.faults };

    fn take(&mut self, buf: &mut [u8]) -> Result<usize, Failed>
        // What every source owes.
        ensures within { IfOk result (λ n. n ≤ length buf.new) }
        ensures bytes { Takes (Some self.old.left) (Some self.new.left) result buf.new }
        ensures empty { length buf.old ≡ 0 → result ≡ Ok 0 }
        ensures unchanged { length buf.old ≡ 0 → self.new ≡ self.old }
        ensures counted { CountsFaults result self.old.faults self.new.faults }

        // When it fails and how much it takes.
        ensures fails { IsErr result
            ↔ ((0 < length buf.old) × Contains self.old.failing self.old.call) }
        ensures amount { IfOk result (λ n. n ≡ min (min self.old.piece (length self.old.left))
            (length buf.old)) }

        // What stands after it. The buffer changes in front alone.
        ensures rest { IfOk result (λ n. drop n buf.new ≡ drop n buf.old) }
        ensures after_ok { IfOk result (λ n. 0 < length buf.old
            → self.new ≡ after_take self.old n) }
        ensures same_buffer { OnErr result (buf.new ≡ buf.old) }
        ensures after_err { OnErr result (self.new ≡ after_failed_take self.old) }
    {
        if buf.is_empty() {
            return Ok(0);
        }
        let fails = self.failing.contains(self.call);
        self.call = self.call.saturating_add(1);
        if fails {
            self.faults = self.faults.saturating_add(1);
            return Err(Failed);
        }
        let rest = self.bytes.len() - self.at;
        let n = self.piece.min(rest).min(buf.len());
        buf[..n].copy_from_slice(&self.bytes.as_slice()[self.at..self.at + n]);
        self.at += n;
        Ok(n)
    }
}
