//! Calls that fail, and act.

ghost use Rattle.std.specs.Prelude.{◌≡◌, ◌+◌, ◌^◌, ◌≤◌, true, Ok, length, IfOk, IsErr};
ghost use Rattle.outside_io.specs.streams.Faults.{CountsFaults};
ghost use Rattle.outside_io.specs.volume.Disk.{FailedWrite, Struck, wrote};
ghost use Rattle.outside_io.specs.volume.History.{Ticks, contents, current};
ghost use Rattle.rough_volume.specs.State.{rough_history};

use outside_io::{Failed, MemVolume, Pick, VolFile, Volume};
use std::alloc::{AllocError, Global};
use std::marker::Model;

/// A call that fails, and has acted.
#[derive(Clone, Copy, Debug, PartialEq, Eq)]
pub struct Rough {
    /// The number of the call, from 0.
    pub number: u64,
    /// Of a write, so many of its first bytes have landed. A cut or a sync was done.
    pub lands: usize,
    /// In the place of the others stands this byte.
    pub rest: u8,
}

/// A volume in memory of which some calls fail and have acted. It tells its files. Its calls are
/// those of the volume that it keeps, which is to fail at none of these itself.
#[derive(Drop)]
pub struct RoughVolume {
    inner: MemVolume,
    rough: Vec<Rough>,
    room: Vec<u8>,
    faults: u64,
}

impl Model for RoughVolume {
    ghost use Rattle.rough_volume.specs.State.{RoughState};

    ghost Value = { RoughState };

    ghost view = { λ v. record { inner = v.inner; faults = v.faults } };
}

impl RoughVolume {
    /// The volume over this one, of which these calls are rough. A write of more bytes than `room`
    /// has lands whole. It takes no memory.
    pub fn new(inner: MemVolume, rough: Vec<Rough>, room: Vec<u8>) -> RoughVolume
        ensures inner { result.inner ≡ inner }
        ensures faults { result.faults ≡ 0 }
    {
        RoughVolume {
            inner,
            rough,
            room,
            faults: 0,
        }
    }

    /// How many calls have failed, 2^64 - 1 at most.
    pub fn faults(&self) -> u64
        ensures { result ≡ self.now.faults }
    {
        self.faults
    }

    /// One image of that moment, which is not later than the clock, as a volume in memory.
    pub fn crash(&self, alloc: Global, moment: u64, pick: Pick) -> Result<MemVolume, AllocError>
        requires { moment ≤ (rough_history self.now).moment }
    {
        self.inner.crash(alloc, moment, pick)
    }

    /// How the next call fails, if it does.
    fn next_rough(&self) -> Option<Rough> {
        let number = self.inner.moment();
        for rough in &self.rough {
            if rough.number == number {
                return Some(*rough);
            }
        }
        None
    }

    /// Ends a call that the inner volume has answered so.
    fn end<T: Drop>(&mut self, fails: bool, answer: Result<T, Failed>) -> Result<T, Failed>
        ensures inner { self.new.inner ≡ self.old.inner }
        ensures ok { IfOk result (λ x. answer ≡ Ok x) }
        ensures fails { fails ≡ true → IsErr result }
        ensures counted { CountsFaults result self.old.faults self.new.faults }
    {
        match answer {
            Ok(value) if !fails => Ok(value),
            _ => {
                self.faults = self.faults.saturating_add(1);
                Err(Failed)
            }
        }
    }

    /// A write that fails, and has landed in part.
    fn write_in_part(
        &mut self,
        file: VolFile,
        at: u64,
        bytes: &[u8],
        rough: Rough,
    ) -> Result<(), Failed>
        requires within { at ≤ length (contents file (rough_history self.old)) }
        requires end { at + length bytes.now ≤ 2 ^ 62 }
        ensures err { IsErr result }
        ensures failed { FailedWrite file at bytes.now (current (rough_history self.old))
            (current (rough_history self.new)) }
        ensures crash { Struck file (wrote at bytes.now) (current (rough_history self.old))
            (current (rough_history self.new)) }
        ensures time { Ticks (rough_history self.old) (rough_history self.new) result }
        ensures counted { CountsFaults result self.old.faults self.new.faults }
    {
        let count = bytes.len();
        if count > self.room.len() {
            let answer = self.inner.write(file, at, bytes);
            return self.end(true, answer);
        }
        let part = &mut self.room[..count];
        land(part, bytes, rough);
        let answer = self.inner.write(file, at, part);
        self.end(true, answer)
    }
}

/// Lays the first bytes that land over the part, and the other byte over the rest of it.
fn land(part: &mut [u8], bytes: &[u8], rough: Rough)
    requires { length part.old ≡ length bytes.now }
    ensures { length part.new ≡ length bytes.now }
{
    let lands = bytes.len().min(rough.lands);
    part.fill(rough.rest);
    part[..lands].copy_from_slice(&bytes[..lands]);
}

impl Volume for RoughVolume {
    ghost use Rattle.std.specs.Prelude.{true};
    ghost use Rattle.outside_io.specs.Present.{present_recorded};

    ghost told = { λ _. true };

    ghost history = { rough_history };

    ghost faults = { λ v. v.faults };

    ghost present = { λ v _. present_recorded v.inner };

    fn len(&mut self, file: VolFile) -> Result<u64, Failed> {
        let fails = self.next_rough().is_some();
        let answer = self.inner.len(file);
        self.end(fails, answer)
    }

    fn read(&mut self, file: VolFile, at: u64, buf: &mut [u8]) -> Result<usize, Failed> {
        let fails = self.next_rough().is_some();
        let answer = self.inner.read(file, at, buf);
        self.end(fails, answer)
    }

    fn write(&mut self, file: VolFile, at: u64, bytes: &[u8]) -> Result<(), Failed> {
        match self.next_rough() {
            Some(rough) => self.write_in_part(file, at, bytes, rough),
            None => {
                let answer = self.inner.write(file, at, bytes);
                self.end(false, answer)
            }
        }
    }

    fn cut(&mut self, file: VolFile, len: u64) -> Result<(), Failed> {
        let fails = self.next_rough().is_some();
        let answer = self.inner.cut(file, len);
        self.end(fails, answer)
    }

    fn sync(&mut self, file: VolFile) -> Result<(), Failed> {
        let fails = self.next_rough().is_some();
        let answer = self.inner.sync(file);
        self.end(fails, answer)
    }

    fn moment(&self) -> u64 {
        self.inner.moment()
    }
}
