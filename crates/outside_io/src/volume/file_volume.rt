//! Two files of the machine as a volume.

ghost use Rattle.std.specs.Prelude.{◌≡◌, ◌<◌, ◌≤◌, ◌↔◌, length, IfOk, IsSome, Ok};
ghost use Rattle.outside_io.specs.volume.Blind.{unused};

use super::backing::Backing;
use super::failures::{Failure, Failures, no_time};
use super::tally::Tally;
use super::{VolFile, Volume};
use crate::Failed;
use std::io;
use std::marker::Model;
use std::rt::Files;

/// Two files of the machine as a volume. It tells nothing of what they hold.
///
/// Each file is opened at the first call that needs it, and made at its first write. A write behind
/// the first byte of one of them makes the other one, too, where there is none: so no record is
/// written beside a journal that cannot be made, and no journal tells of a bundle that cannot. A
/// file that may not be written is opened for reading; while one of the two is open so, each write
/// and each cut of either of them is a failure. A file that is not there has the length 0, and a
/// sync of it or a cut of it to 0 is Ok; but where its name is a link that leads to no file, as one
/// to a disk that is away, each call is a failure.
///
/// A sync puts the file's own data and length on the disk; the first sync of each file that is
/// there puts the names in its folder there, too, where the machine lets a folder be opened and
/// synced: in the folder of the file that is opened, where the path is a link. A sync of a file
/// that was made here is a failure where its folder may not be read. A sync that a file system does
/// not know is Ok where that may not be written.
///
/// Behind a failed sync of a file that is there a machine may keep in memory what is not on the
/// disk, read it as if it were, and answer Ok to the next sync. So each later write, cut and sync
/// of that file is a failure; its length is told and it is read. A volume that is made anew of the
/// same paths is not told of this.
///
/// A read or write that was interrupted is made again by this crate or by std, and an open, a cut
/// or a sync by std; no machine interrupts a seek, which is made once. Whatever the machine
/// refuses, memory too, is a failure, and failures count up to 2^64 - 1.
#[derive(Drop)]
pub struct FileVolume<R: Files + Drop> {
    machine: Pair<R>,
    failures: Failures,
}

impl<R: Files + Drop> Model for FileVolume<R> {
    ghost use Rattle.outside_io.specs.volume.Blind.{Blind};

    ghost Value = { Blind };

    ghost view = { λ v. v.failures.tally };
}

impl<R: Files + Drop> FileVolume<R> {
    /// The volume of the two files with these paths. It opens nothing yet. The clock and the count
    /// of faults begin at 0.
    pub fn new(files: R, path: String, journal: String) -> FileVolume<R>
        ensures { result ≡ unused }
    {
        FileVolume {
            machine: Pair {
                files,
                bundle: Backing::new(path),
                journal: Backing::new(journal),
            },
            failures: Failures::none(),
        }
    }

    /// Why the first of its calls failed that did: there is a reason exactly where one has failed.
    pub fn failure(&self) -> Option<Failure>
        ensures { IsSome result ↔ 0 < self.now.faults }
    {
        self.failures.first()
    }

    /// The path of this file.
    pub fn path(&self, file: VolFile) -> &str {
        match file {
            VolFile::Bundle => self.machine.bundle.path(),
            VolFile::Journal => self.machine.journal.path(),
        }
    }

    /// Whether a sync of one of its files has failed, so that each later write, cut and sync of
    /// that file is a failure.
    pub fn is_lost(&self) -> bool {
        self.machine.bundle.is_lost() || self.machine.journal.is_lost()
    }

    /// How many of its calls have failed, up to 2^64 - 1.
    pub fn faults(&self) -> u64
        ensures { result ≡ self.now.faults }
    {
        self.failures.tally.faults()
    }
}

// What the machine answers about this file.
fn about<T: Drop>(file: VolFile, answer: io::Result<T>) -> Result<T, Failure>
    ensures { IfOk result (λ x. answer ≡ Ok x) }
{
    match answer {
        Ok(answer) => Ok(answer),
        Err(error) => Err(Failure { file, error }),
    }
}

// The two files of the machine.
#[derive(Drop)]
struct Pair<R: Files + Drop> {
    files: R,
    bundle: Backing<R>,
    journal: Backing<R>,
}

impl<R: Files + Drop> Pair<R> {
    // The one place that says which file of the machine stands behind a file of the volume. At the
    // clock's end both are left alone.
    fn of(&mut self, tally: &Tally, file: VolFile) -> Result<(&mut Backing<R>, &R), Failure> {
        if !tally.has_time() {
            return Err(no_time(file));
        }
        match file {
            VolFile::Bundle => Ok((&mut self.bundle, &self.files)),
            VolFile::Journal => Ok((&mut self.journal, &self.files)),
        }
    }

    // The same to be changed: nothing is where one of the two may only be read.
    fn to_change(
        &mut self,
        tally: &Tally,
        file: VolFile,
    ) -> Result<(&mut Backing<R>, &R), Failure> {
        about(VolFile::Bundle, self.bundle.to_change())?;
        about(VolFile::Journal, self.journal.to_change())?;
        self.of(tally, file)
    }

    fn len(&mut self, tally: &Tally, file: VolFile) -> Result<u64, Failure> {
        let (backing, files) = self.of(tally, file)?;
        about(file, backing.len(files))
    }

    fn read(
        &mut self,
        tally: &Tally,
        file: VolFile,
        at: u64,
        buf: &mut [u8],
    ) -> Result<usize, Failure>
        ensures { IfOk result (λ n. n ≤ length buf.old) }
    {
        let (backing, files) = self.of(tally, file)?;
        about(file, backing.read(files, at, buf))
    }

    fn write(
        &mut self,
        tally: &Tally,
        file: VolFile,
        at: u64,
        bytes: &[u8],
    ) -> Result<(), Failure> {
        if at > 0 {
            self.make(tally, VolFile::Journal)?;
            self.make(tally, VolFile::Bundle)?;
        }
        let (backing, files) = self.to_change(tally, file)?;
        about(file, backing.write(files, at, bytes))
    }

    // The file is there: it is made where there was none.
    fn make(&mut self, tally: &Tally, file: VolFile) -> Result<(), Failure> {
        let (backing, files) = self.to_change(tally, file)?;
        about(file, backing.make(files))
    }

    fn cut(&mut self, tally: &Tally, file: VolFile, len: u64) -> Result<(), Failure> {
        let (backing, files) = self.to_change(tally, file)?;
        about(file, backing.cut(files, len))
    }

    fn sync(&mut self, tally: &Tally, file: VolFile) -> Result<(), Failure> {
        let (backing, files) = self.of(tally, file)?;
        about(file, backing.sync(files))
    }
}

impl<R: Files + Drop> Volume for FileVolume<R> {
    ghost use Rattle.std.specs.Prelude.{false};
    ghost use Rattle.outside_io.specs.volume.Blind.{blind_history};
    ghost use Rattle.outside_io.specs.Present.{nothing_told};

    ghost told = { λ _. false };

    ghost history = { blind_history };

    ghost faults = { λ v. v.faults };

    ghost present = { λ _ h. nothing_told h };

    fn len(&mut self, file: VolFile) -> Result<u64, Failed> {
        let answer = self.machine.len(&self.failures.tally, file);
        self.failures.end(file, answer)
    }

    fn read(&mut self, file: VolFile, at: u64, buf: &mut [u8]) -> Result<usize, Failed> {
        let answer = self.machine.read(&self.failures.tally, file, at, buf);
        self.failures.end(file, answer)
    }

    fn write(&mut self, file: VolFile, at: u64, bytes: &[u8]) -> Result<(), Failed> {
        let answer = self.machine.write(&self.failures.tally, file, at, bytes);
        self.failures.end(file, answer)
    }

    fn cut(&mut self, file: VolFile, len: u64) -> Result<(), Failed> {
        let answer = self.machine.cut(&self.failures.tally, file, len);
        self.failures.end(file, answer)
    }

    fn sync(&mut self, file: VolFile) -> Result<(), Failed> {
        let answer = self.machine.sync(&self.failures.tally, file);
        self.failures.end(file, answer)
    }

    fn moment(&self) -> u64 {
        self.failures.tally.moment()
    }
}
