//! A sink in memory.

ghost use Rattle.std.specs.Prelude.{◌≡◌, ◌<◌, ◌≤◌, ◌⊎◌, ◌↔◌, [], Some, IfOk, OnErr, IsErr, length, min, Contains};
ghost use Rattle.outside_io.specs.streams.Faults.{CountsFaults};
ghost use Rattle.outside_io.specs.streams.Sink.{Gives};
ghost use Rattle.outside_io.specs.streams.Memory.{after_give, after_failed_give};

use super::bytes::Bytes;
use super::failed::Failed;
use super::sink::Sink;
use std::alloc::{AllocError, Global};
use std::marker::Model;

/// A sink in memory. It takes bytes in pieces of a greatest size, and fails at the calls that it
/// was told and where no byte is free. All its memory is taken when it is made, and no call of
/// `give` takes any.
///
/// Its calls of `give` are numbered from 0, those with no bytes too.
#[derive(Drop)]
pub struct MemSink {
    held: Vec<u8>,
    piece: usize,
    failing: Bytes,
    room: usize,
    call: u64,
    faults: u64,
}

impl Model for MemSink {
    ghost use Rattle.std.specs.Prelude.{◌≤◌, ◌<◌, ◌-◌, vec_len, vec_capacity};
    ghost use Rattle.outside_io.specs.streams.Memory.{SinkState};

    ghost Value = { SinkState };

    ghost view = { λ s. record {
      held = s.held.items;
      piece = s.piece;
      failing = s.failing;
      free = s.room - vec_len s.held;
      call = s.call;
      faults = s.faults;
    } };

    ghost invariant = { λ s. (0 < s.piece) × ((vec_len s.held ≤ s.room)
        × (s.room ≤ vec_capacity s.held)) };
}

impl MemSink {
    /// An empty sink with room for `room` bytes, of which a call takes at most `piece`. The call
    /// with number k fails exactly where k is one of the bytes `failing`, or where its bytes are
    /// not empty and no byte is free. Want of memory is its only error.
    pub fn new(
        alloc: Global,
        piece: usize,
        failing: Bytes,
        room: usize,
    ) -> Result<MemSink, AllocError>
        requires { 0 < piece }
        ensures { IfOk result (λ s. s ≡ record {
          held = [];
          piece = piece;
          failing = failing;
          free = room;
          call = 0;
          faults = 0;
        }) }
    {
        Ok(MemSink {
            held: Vec::with_capacity(alloc, room)?,
            piece,
            failing,
            room,
            call: 0,
            faults: 0,
        })
    }

    /// The bytes taken so far.
    pub fn held(&self) -> &[u8]
        ensures { result.now ≡ self.now.held }
    {
        self.held.as_slice()
    }
}

impl Sink for MemSink {
    ghost held = { λ s. Some s.held };

    ghost faults = { λ s. s.faults };

    fn give(&mut self, bytes: &[u8]) -> Result<usize, Failed>
        // What every sink owes.
        ensures within { IfOk result (λ n. n ≤ length bytes.now) }
        ensures some { IfOk result (λ n. 0 < length bytes.now → 0 < n) }
        ensures bytes { Gives (Some self.old.held) (Some self.new.held) result bytes.now }
        ensures counted { CountsFaults result self.old.faults self.new.faults }

        // When it fails and how much it takes.
        ensures fails { IsErr result ↔
            (Contains self.old.failing self.old.call
            ⊎ ((0 < length bytes.now) × (self.old.free ≡ 0))) }
        ensures amount { IfOk result (λ n. n ≡ min (min self.old.piece self.old.free)
            (length bytes.now)) }

        // What stands after it.
        ensures after_ok { IfOk result (λ n. self.new ≡ after_give self.old bytes.now n) }
        ensures after_err { OnErr result (self.new ≡ after_failed_give self.old) }
    {
        let fails = self.failing.contains(self.call);
        self.call = self.call.saturating_add(1);
        let free = self.room - self.held.len();
        let n = self.piece.min(free).min(bytes.len());
        if fails || (!bytes.is_empty() && free == 0) {
            self.faults = self.faults.saturating_add(1);
            return Err(Failed);
        }
        match self.held.extend_from_slice(&bytes[..n]) {
            Ok(()) => Ok(n),
            Err(_) => unreachable!(),
        }
    }
}
