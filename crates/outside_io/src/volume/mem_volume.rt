//! A volume in memory, which fails at the calls that it is told.

ghost use Rattle.std.specs.Prelude.{◌≡◌, ◌↔◌, ℕ, ◌+◌, ◌-◌, ◌^◌, ◌<◌, ◌≤◌, [], None, min, length, IsTrue, IfOk, IsErr, IsSomeAnd, OnOk, OnErr, Contains};
ghost use Rattle.outside_io.specs.declared.volume.VolFile.TheVariants.{Bundle, Journal};
ghost use Rattle.outside_io.specs.volume.Disk.{FailedCut, FailedWrite, IsDiskImage, IsQuiet, Struck, change, file_of, shortened, synced, wrote};
ghost use Rattle.outside_io.specs.streams.Faults.{CountsFaults, one_more};
ghost use Rattle.outside_io.specs.volume.History.{ReadsAt, Ticks, contents, current};
ghost use Rattle.outside_io.specs.volume.Pick.{IsPicked};
ghost use Rattle.outside_io.specs.volume.Recorded.{KeepsRecord, MustFail, MustFailToWrite, first_record, history_of, disk_after, sum_written};
ghost use Rattle.outside_io.specs.inside.Effects.{Fits, EndsWithin};
ghost use Rattle.outside_io.specs.volume.Sparse.{sparse_bytes};

use super::call_log::{Ask, Call, append, len_after, replay_over};
use super::image::{Pick, image};
use crate::{Failed, Start, VolFile, Volume};
use std::alloc::{AllocError, Global};
use std::marker::Model;

/// A volume in memory, which keeps a record of its calls, so that it answers for every moment. It
/// tells its contents. Its device calls are numbered from 0, and the clock is the number of the
/// next one. No device call takes memory.
#[derive(Drop)]
pub struct MemVolume {
    bundle: Start,
    journal: Start,
    bundle_len: u64,
    journal_len: u64,
    log: Vec<Call>,
    written: Vec<u8>,
    clock: u64,
    faults: u64,
    failing: Vec<u64>,
    stop: Option<u64>,
    calls: usize,
    room: usize,
}

impl Model for MemVolume {
    ghost use Rattle.outside_io.specs.volume.Recorded.{Recorded};

    ghost Value = { Recorded };

    ghost use Rattle.outside_io.specs.inside.MemVolume.{recorded, IsKept};

    ghost view = { recorded };

    ghost invariant = { IsKept };
}

impl MemVolume {
    /// A volume whose files hold `bundle` and `journal`, with nothing pending on them. A call
    /// fails exactly where its number is in `failing`, or not below `stop` or `calls`, or where it
    /// is a write after which more than `room` bytes would have been written. All its memory is
    /// taken here; want of it is the only error.
    pub fn new(
        alloc: Global,
        bundle: Start,
        journal: Start,
        failing: Vec<u64>,
        stop: Option<u64>,
        calls: usize,
        room: usize,
    ) -> Result<MemVolume, AllocError>
        ensures { IfOk result
            (λ v. v ≡ first_record bundle journal failing.items stop calls room) }
    {
        let log = Vec::with_capacity(alloc, calls)?;
        let written = Vec::with_capacity(alloc, room)?;
        let bundle_len = bundle.len();
        let journal_len = journal.len();
        Ok(MemVolume {
            bundle,
            journal,
            bundle_len,
            journal_len,
            log,
            written,
            clock: 0,
            faults: 0,
            failing,
            stop,
            calls,
            room,
        })
    }

    /// One image of that moment, which is not later than the clock, as a new volume that reads as
    /// this image, with nothing pending. It has the same `calls` and `room`, and nothing that makes
    /// it fail before them. Want of memory is the only error.
    pub fn crash(&self, alloc: Global, moment: u64, pick: Pick) -> Result<MemVolume, AllocError>
        requires { moment ≤ self.now.clock }
        ensures first_record { IfOk result (λ v. v
            ≡ first_record v.bundle v.journal [] None self.now.calls self.now.room) }
        ensures bundle { IfOk result (λ v. IsPicked pick
            ((history_of self.now).disk_at moment).bundle (sparse_bytes v.bundle)) }
        ensures journal { IfOk result (λ v. IsPicked pick
            ((history_of self.now).disk_at moment).journal (sparse_bytes v.journal)) }
        ensures image { IfOk result (λ v. IsDiskImage ((history_of self.now).disk_at moment)
            (sparse_bytes v.bundle) (sparse_bytes v.journal)) }
        ensures reads { IfOk result (λ v. (contents Bundle (history_of v) ≡ sparse_bytes v.bundle)
            × (contents Journal (history_of v) ≡ sparse_bytes v.journal)) }
        ensures quiet { IfOk result (λ v. IsQuiet (current (history_of v))) }
    {
        let bundle = self.pick_image(alloc, VolFile::Bundle, moment, pick)?;
        let journal = self.pick_image(alloc, VolFile::Journal, moment, pick)?;
        MemVolume::new(
            alloc,
            bundle,
            journal,
            Vec::new(alloc),
            None,
            self.calls,
            self.room,
        )
    }

    /// How many of its calls have failed, up to 2^64 - 1.
    pub fn faults(&self) -> u64
        ensures { result ≡ self.now.faults }
    {
        self.faults
    }

    // One image of that file at that moment.
    fn pick_image(
        &self,
        alloc: Global,
        file: VolFile,
        moment: u64,
        pick: Pick,
    ) -> Result<Start, AllocError>
        requires { moment ≤ self.now.clock }
        ensures { IfOk result (λ s. IsPicked pick (file_of file
            ((history_of self.now).disk_at moment)) (sparse_bytes s)) }
    {
        let upto = self.log.len().min(moment as usize);
        let start = match file {
            VolFile::Bundle => &self.bundle,
            VolFile::Journal => &self.journal,
        };
        image(alloc, start, &self.log[..upto], &self.written, file, pick)
    }

    // Whether the next call has to fail, whatever it is.
    fn must_fail(&self) -> bool
        ensures { IsTrue result ↔ MustFail self.now }
    {
        let number = self.clock;
        if is_named(&self.failing, number) || is_reached(self.stop, number) {
            return true;
        }
        self.calls as u64 <= number || number == u64::MAX
    }

    // Whether so many more bytes can be written.
    fn has_room(&self, more: usize) -> bool
        ensures exact { IsTrue result ↔ (sum_written self.now.effects + more ≤ self.now.room) }
        ensures none { more ≡ 0 → IsTrue result }
    {
        more <= self.room - self.written.len()
    }

    // Takes the moment of a call that fails.
    fn fail(&mut self) -> Result<(), Failed>
        ensures err { IsErr result }
        ensures disk { current (history_of self.new) ≡ current (history_of self.old) }
        ensures time { Ticks (history_of self.old) (history_of self.new) result }
        ensures counted { CountsFaults result self.old.faults self.new.faults }
        ensures kept { self.new ≡ record self.old {
          effects = self.new.effects;
          clock = self.new.clock;
          faults = self.new.faults;
        } }
        ensures written { sum_written self.new.effects ≡ sum_written self.old.effects }
        ensures one_fault { self.new.faults ≡ one_more self.old.faults }
    {
        self.faults = self.faults.saturating_add(1);
        if self.clock >= self.calls as u64 {
            self.clock = self.clock.saturating_add(1);
            return Err(Failed);
        }
        append(&mut self.log, &mut self.written, Ask::Look, &[]);
        self.clock += 1;
        Err(Failed)
    }

    // Notes a call that must not fail.
    fn note(&mut self, ask: Ask, bytes: &[u8])
        requires passes { MustFail self.old → ⊥ }
        requires space { sum_written self.old.effects + length bytes.now ≤ self.old.room }
        requires fits { Fits ask (current (history_of self.old)) }
        requires end { EndsWithin ask (length bytes.now) }
        ensures disk { current (history_of self.new)
            ≡ disk_after ask bytes.now (current (history_of self.old)) }
        ensures time { self.new.clock ≡ self.old.clock + 1 }
        ensures room { self.old.clock < 2 ^ 64 - 1 }
        ensures past { (t : ℕ) → t ≤ self.old.clock
            → (history_of self.new).disk_at t ≡ (history_of self.old).disk_at t }
        ensures kept { self.new ≡ record self.old {
          effects = self.new.effects;
          clock = self.new.clock;
        } }
        ensures written { sum_written self.new.effects
            ≡ sum_written self.old.effects + length bytes.now }
    {
        append(&mut self.log, &mut self.written, ask, bytes);
        self.clock += 1;
        self.bundle_len = len_after(VolFile::Bundle, ask, self.bundle_len, bytes.len());
        self.journal_len = len_after(VolFile::Journal, ask, self.journal_len, bytes.len());
    }

    // Does a call, or fails.
    fn call(&mut self, ask: Ask, bytes: &[u8]) -> Result<(), Failed>
        requires fits { Fits ask (current (history_of self.old)) }
        requires end { EndsWithin ask (length bytes.now) }
        ensures ok { OnOk result (current (history_of self.new)
            ≡ disk_after ask bytes.now (current (history_of self.old))) }
        ensures err { OnErr result (current (history_of self.new)
            ≡ current (history_of self.old)) }
        ensures time { Ticks (history_of self.old) (history_of self.new) result }
        ensures counted { CountsFaults result self.old.faults self.new.faults }
        ensures fails { IsErr result ↔ MustFailToWrite self.old (length bytes.now) }
        ensures fails_alone { length bytes.now ≡ 0 → IsErr result ↔ MustFail self.old }
        ensures keeps { KeepsRecord self.old self.new (length bytes.now) result }
    {
        if self.must_fail() || !self.has_room(bytes.len()) {
            return self.fail();
        }
        self.note(ask, bytes);
        Ok(())
    }

    // The file's length.
    fn held_len(&self, file: VolFile) -> u64
        ensures { result ≡ length (contents file (history_of self.now)) }
    {
        match file {
            VolFile::Bundle => self.bundle_len,
            VolFile::Journal => self.journal_len,
        }
    }

    // The bytes from `at` on, as many as there are, in front of the buffer.
    fn give(&self, file: VolFile, at: u64, buf: &mut [u8]) -> usize
        ensures count { result ≤ length buf.old }
        ensures bytes { ReadsAt (contents file (history_of self.now)) at result buf.old buf.new }
    {
        let count = self.held_len(file).saturating_sub(at).min(buf.len() as u64) as usize;
        let part = &mut buf[..count];
        match file {
            VolFile::Bundle => self.bundle.read(at, part),
            VolFile::Journal => self.journal.read(at, part),
        }
        replay_over(&self.log, &self.written, file, at, part);
        count
    }
}

// Whether the number is in the list.
fn is_named(failing: &[u64], number: u64) -> bool
    ensures { IsTrue result ↔ Contains failing.now number }
{
    failing.contains(&number)
}

// Whether the number is not below the stop.
fn is_reached(stop: Option<u64>, number: u64) -> bool
    ensures { IsTrue result ↔ IsSomeAnd stop (λ from. from ≤ number) }
{
    match stop {
        Some(from) => from <= number,
        None => false,
    }
}

impl Volume for MemVolume {
    ghost use Rattle.std.specs.Prelude.{true};
    ghost use Rattle.outside_io.specs.Present.{present_recorded};

    ghost told = { λ _. true };

    ghost history = { history_of };

    ghost faults = { λ v. v.faults };

    ghost present = { λ v _. present_recorded v };

    fn len(&mut self, file: VolFile) -> Result<u64, Failed>
        ensures answer { IfOk result (λ n. n ≡ length (contents file (history_of self.old))) }
        ensures disk { current (history_of self.new) ≡ current (history_of self.old) }
        ensures time { Ticks (history_of self.old) (history_of self.new) result }
        ensures counted { CountsFaults result self.old.faults self.new.faults }
        ensures fails { IsErr result ↔ MustFail self.old }
        ensures keeps { KeepsRecord self.old self.new 0 result }
    {
        self.call(Ask::Look, &[])?;
        Ok(self.held_len(file))
    }

    fn read(&mut self, file: VolFile, at: u64, buf: &mut [u8]) -> Result<usize, Failed>
        ensures bound { IfOk result (λ n. n ≤ length buf.old) }
        ensures answer { IfOk result (λ n. ReadsAt
            (contents file (history_of self.old)) at n buf.old buf.new) }
        ensures disk { current (history_of self.new) ≡ current (history_of self.old) }
        ensures time { Ticks (history_of self.old) (history_of self.new) result }
        ensures counted { CountsFaults result self.old.faults self.new.faults }
        ensures fails { IsErr result ↔ MustFail self.old }
        ensures keeps { KeepsRecord self.old self.new 0 result }
    {
        self.call(Ask::Look, &[])?;
        Ok(self.give(file, at, buf))
    }

    fn write(&mut self, file: VolFile, at: u64, bytes: &[u8]) -> Result<(), Failed>
        requires within { at ≤ length (contents file (history_of self.old)) }
        requires end { at + length bytes.now ≤ 2 ^ 62 }
        ensures ok { OnOk result (current (history_of self.new)
            ≡ change file (wrote at bytes.now) (current (history_of self.old))) }
        ensures err { OnErr result (current (history_of self.new)
            ≡ current (history_of self.old)) }
        ensures crash { Struck file (wrote at bytes.now) (current (history_of self.old))
            (current (history_of self.new)) }
        ensures time { Ticks (history_of self.old) (history_of self.new) result }
        ensures counted { CountsFaults result self.old.faults self.new.faults }
        ensures fails { IsErr result ↔ MustFailToWrite self.old (length bytes.now) }
        ensures keeps { KeepsRecord self.old self.new (length bytes.now) result }
    {
        self.call(Ask::Write(file, at), bytes)
    }

    fn cut(&mut self, file: VolFile, len: u64) -> Result<(), Failed>
        requires { len ≤ length (contents file (history_of self.old)) }
        ensures ok { OnOk result (current (history_of self.new)
            ≡ change file (shortened len) (current (history_of self.old))) }
        ensures err { OnErr result (current (history_of self.new)
            ≡ current (history_of self.old)) }
        ensures crash { Struck file (shortened len) (current (history_of self.old))
            (current (history_of self.new)) }
        ensures time { Ticks (history_of self.old) (history_of self.new) result }
        ensures counted { CountsFaults result self.old.faults self.new.faults }
        ensures fails { IsErr result ↔ MustFail self.old }
        ensures keeps { KeepsRecord self.old self.new 0 result }
    {
        self.call(Ask::Cut(file, len), &[])
    }

    fn sync(&mut self, file: VolFile) -> Result<(), Failed>
        ensures ok { OnOk result (current (history_of self.new)
            ≡ change file synced (current (history_of self.old))) }
        ensures err { OnErr result (current (history_of self.new)
            ≡ current (history_of self.old)) }
        ensures crash { Struck file (λ f. f) (current (history_of self.old))
            (current (history_of self.new)) }
        ensures time { Ticks (history_of self.old) (history_of self.new) result }
        ensures counted { CountsFaults result self.old.faults self.new.faults }
        ensures fails { IsErr result ↔ MustFail self.old }
        ensures keeps { KeepsRecord self.old self.new 0 result }
    {
        self.call(Ask::Sync(file), &[])
    }

    fn moment(&self) -> u64 {
        self.clock
    }
}
