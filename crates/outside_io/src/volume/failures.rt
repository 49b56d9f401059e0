//! The clock and the count of faults of two files of the machine, and why a call on them failed.

ghost use Rattle.std.specs.Prelude.{◌≡◌, ◌-◌, ◌^◌, ◌<◌, ◌↔◌, IsSome, IsOk, IsErr, Ok, IfOk, OnErr};
ghost use Rattle.outside_io.specs.volume.Blind.{after_failure, blind_history, unused};
ghost use Rattle.outside_io.specs.streams.Faults.{CountsFaults};
ghost use Rattle.outside_io.specs.volume.History.{Ticks};

use super::VolFile;
use super::tally::Tally;
use crate::Failed;
use std::io;

/// Why a call on two files of the machine failed.
#[derive(Clone, Copy)]
pub struct Failure {
    /// The file that it is about.
    pub file: VolFile,
    /// What the machine says.
    pub error: io::Error,
}

/// The clock and the count of faults, and why the first of the calls failed that did.
#[derive(Drop)]
pub struct Failures {
    pub tally: Tally,
    first: Option<Failure>,
    ghost kept: { IsSome first ↔ 0 < tally.faults },
}

/// Why a call at the clock's end fails.
pub fn no_time(file: VolFile) -> Failure
    ensures { result.file ≡ file }
{
    Failure {
        file,
        error: io::Error::other("no call is left"),
    }
}

impl Failures {
    /// The clock and the count begin at 0: none has failed.
    pub fn none() -> Failures
        ensures { result.tally ≡ unused }
    {
        Failures {
            tally: Tally::new(),
            first: None,
        }
    }

    /// Why the first call failed, where one has.
    pub fn first(&self) -> Option<Failure>
        ensures { IsSome result ↔ 0 < self.now.tally.faults }
    {
        self.first
    }

    /// Ends a call on this file, which has its answer or has failed. At the clock's end it fails in
    /// any case.
    pub fn end<T: Drop>(&mut self, file: VolFile, answer: Result<T, Failure>) -> Result<T, Failed>
        ensures answer { IfOk result (λ x. answer ≡ Ok x) }
        ensures fails { IsErr answer → IsErr result }
        ensures failed { OnErr result (self.new.tally ≡ after_failure self.old.tally) }
        ensures succeeds { IsOk answer → self.old.tally.moment < 2 ^ 64 - 1 → IsOk result }
        ensures time { Ticks (blind_history self.old.tally) (blind_history self.new.tally) result }
        ensures counted { CountsFaults result self.old.tally.faults self.new.tally.faults }
    {
        let (answer, failure) = match answer {
            Ok(answer) => (Some(answer), no_time(file)),
            Err(failure) => (None, failure),
        };
        let ended = self.tally.end(answer);
        if ended.is_err() && self.first.is_none() {
            self.first = Some(failure);
        }
        ended
    }
}
