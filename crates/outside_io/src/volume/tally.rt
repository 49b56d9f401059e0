//! The clock and the count of faults of a volume that tells nothing.

ghost use Rattle.std.specs.Prelude.{◌≡◌, ◌+◌, ◌-◌, ◌^◌, ◌<◌, ◌↔◌, IsTrue, IsSome, IsOk, IsErr, Some, None, IfOk, OnErr};
ghost use Rattle.outside_io.specs.volume.Blind.{after_failure, blind_history, unused};
ghost use Rattle.outside_io.specs.streams.Faults.{CountsFaults};
ghost use Rattle.outside_io.specs.volume.History.{Ticks};

use crate::Failed;
use std::marker::Model;

/// The clock and the count of faults of a volume that tells nothing.
#[derive(Drop)]
pub struct Tally {
    clock: u64,
    failures: u64,
}

impl Model for Tally {
    ghost use Rattle.outside_io.specs.volume.Blind.{Blind};

    ghost Value = { Blind };

    ghost view = { λ t. record { moment = t.clock; faults = t.failures } };
}

impl Tally {
    /// Both begin at 0.
    pub fn new() -> Tally
        ensures { result ≡ unused }
    {
        Tally {
            clock: 0,
            failures: 0,
        }
    }

    /// The clock.
    pub fn moment(&self) -> u64
        ensures { result ≡ self.now.moment }
    {
        self.clock
    }

    /// How many calls have failed, up to 2^64 - 1.
    pub fn faults(&self) -> u64
        ensures { result ≡ self.now.faults }
    {
        self.failures
    }

    /// Whether the clock can go on.
    pub fn has_time(&self) -> bool
        ensures { IsTrue result ↔ (self.now.moment < 2 ^ 64 - 1) }
    {
        self.clock < u64::MAX
    }

    /// Ends a call that has its answer, or has failed: None. At the clock's end it fails in any
    /// case.
    pub fn end<T: Drop>(&mut self, answer: Option<T>) -> Result<T, Failed>
        ensures answer { IfOk result (λ x. answer ≡ Some x) }
        ensures fails { answer ≡ None → IsErr result }
        ensures failed { OnErr result (self.new ≡ after_failure self.old) }
        ensures succeeds { IsSome answer → self.old.moment < 2 ^ 64 - 1 → IsOk result }
        ensures time { Ticks (blind_history self.old) (blind_history self.new) result }
        ensures counted { CountsFaults result self.old.faults self.new.faults }
    {
        let has_time = self.has_time();
        self.clock = self.clock.saturating_add(1);
        match answer {
            Some(answer) if has_time => Ok(answer),
            _ => {
                self.failures = self.failures.saturating_add(1);
                Err(Failed)
            }
        }
    }
}
