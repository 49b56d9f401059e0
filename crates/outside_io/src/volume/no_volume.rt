//! The volume that fails at every call.

ghost use Rattle.std.specs.Prelude.{◌≡◌};
ghost use Rattle.outside_io.specs.volume.Blind.{FailsOnce, unused};

use super::tally::Tally;
use crate::{Failed, VolFile, Volume};
use std::marker::Model;

/// The volume that fails at every call, and tells nothing. Each failure takes a moment and is
/// counted, both up to 2^64 - 1.
#[derive(Drop)]
pub struct NoVolume {
    tally: Tally,
}

impl Model for NoVolume {
    ghost use Rattle.outside_io.specs.volume.Blind.{Blind};

    ghost Value = { Blind };

    ghost view = { λ v. v.tally };
}

impl NoVolume {
    /// The clock and the count of faults begin at 0.
    pub fn new() -> NoVolume
        ensures { result ≡ unused }
    {
        NoVolume {
            tally: Tally::new(),
        }
    }
}

impl Volume for NoVolume {
    ghost use Rattle.std.specs.Prelude.{false};
    ghost use Rattle.outside_io.specs.volume.Blind.{blind_history};
    ghost use Rattle.outside_io.specs.Present.{nothing_told};

    ghost told = { λ _. false };

    ghost history = { blind_history };

    ghost faults = { λ v. v.faults };

    ghost present = { λ _ h. nothing_told h };

    fn len(&mut self, _file: VolFile) -> Result<u64, Failed>
        ensures fails { FailsOnce result self.old self.new }
    {
        self.tally.end::<u64>(None)
    }

    fn read(&mut self, _file: VolFile, _at: u64, _buf: &mut [u8]) -> Result<usize, Failed>
        ensures same_buffer { _buf.new ≡ _buf.old }
        ensures fails { FailsOnce result self.old self.new }
    {
        self.tally.end::<usize>(None)
    }

    fn write(&mut self, _file: VolFile, _at: u64, _bytes: &[u8]) -> Result<(), Failed>
        ensures fails { FailsOnce result self.old self.new }
    {
        self.tally.end(None)
    }

    fn cut(&mut self, _file: VolFile, _len: u64) -> Result<(), Failed>
        ensures fails { FailsOnce result self.old self.new }
    {
        self.tally.end(None)
    }

    fn sync(&mut self, _file: VolFile) -> Result<(), Failed>
        ensures fails { FailsOnce result self.old self.new }
    {
        self.tally.end(None)
    }

    fn moment(&self) -> u64 {
        self.tally.moment()
    }
}
