//! A shelf of files of the machine.

ghost use Rattle.std.specs.Prelude.{◌≡◌, ◌<◌, ◌-◌, ◌^◌, IfOk, IfSome, None, OnErr, Some};
ghost use Rattle.outside_io.specs.streams.Faults.{CountsFaults};
ghost use Rattle.outside_io.specs.volume.Blind.{unused};
ghost use Rattle.level_cache.specs.Folder.{unused_shelf};
ghost use Rattle.level_cache.specs.Shelf.{IsOut, RaisesSecond};

use crate::{Base, Shelf, bundle_name};
use outside_io::{Failed, FileVolume};
use std::marker::Model;
use std::rt::Files;
use std::str::from_utf8;

/// The bundles of one folder of the machine, by their names, each with its journal beside it, whose
/// name has `.jnl` behind the bundle's. It tells nothing of them.
///
/// A take makes a volume of both files, of which none is opened before it is needed. The one that
/// is given back last is kept to the next give, and so are its files, where they were opened. The
/// names in the folder are put on the disk by the first sync of a volume, as those of any volume of
/// files. Memory that is refused for a path is a failure of the shelf, and so is each take behind a
/// give of a volume of which a sync has failed: another volume of its files would not know of that.
/// Nothing else is.
#[derive(Drop)]
pub struct FileShelf<R: Files + Copy + Drop> {
    files: R,
    folder: String,
    lent: Option<Base>,
    faults: u64,
    volume_faults: u64,
    // A volume was given back of which a sync had failed.
    is_lost: bool,
    // The volume that was given back last.
    last: Option<FileVolume<R>>,
}

impl<R: Files + Copy + Drop> Model for FileShelf<R> {
    ghost use Rattle.level_cache.specs.Folder.{FileState, taken_new};

    ghost Value = { FileState };

    ghost view = { λ s. record {
      out = taken_new s.lent;
      faults = s.faults;
      volume_faults = s.volume_faults;
      last = s.last;
    } };
}

impl<R: Files + Copy + Drop> FileShelf<R> {
    /// The shelf of the bundles in this folder. It opens nothing. Both counts begin at 0.
    pub fn new(files: R, folder: String) -> FileShelf<R>
        ensures { result ≡ unused_shelf }
    {
        FileShelf {
            files,
            folder,
            lent: None,
            faults: 0,
            volume_faults: 0,
            is_lost: false,
            last: None,
        }
    }

    /// The volume that was given back last, if one was. It tells why a call on it failed.
    pub fn into_last(self) -> Option<FileVolume<R>>
        ensures { result ≡ self.last }
    {
        self.last
    }

    // The path of the base's bundle. None where memory is refused.
    fn path(&self, base: Base) -> Option<String> {
        let name = bundle_name(base);
        let mut path = String::from_str(*self.folder.allocator(), self.folder.as_str()).ok()?;
        path.push_str("/").ok()?;
        path.push_str(from_utf8(name.as_slice()).ok()?).ok()?;
        Some(path)
    }

    // The volume of the base's two files. None where memory is refused, and behind a failed sync.
    fn volume(&self, base: Base) -> Option<FileVolume<R>>
        ensures { IfSome result (λ vol. vol ≡ unused) }
    {
        if self.is_lost {
            return None;
        }
        let bundle = self.path(base)?;
        let mut journal = self.path(base)?;
        journal.push_str(".jnl").ok()?;
        Some(FileVolume::new(self.files, bundle, journal))
    }
}

impl<R: Files + Copy + Drop> Shelf for FileShelf<R> {
    ghost use Rattle.std.specs.Prelude.{None, false};

    type Vol = FileVolume<R>;

    ghost told = { λ _. false };

    ghost volumes = { λ _ _. None };

    ghost out = { λ s. s.out };

    ghost faults = { λ s. s.faults };

    ghost volume_faults = { λ s. s.volume_faults };

    fn take(&mut self, base: Base) -> Result<FileVolume<R>, Failed>
        requires none_out { self.old.out ≡ None }
        ensures room { IfOk result (λ vol. vol.faults < 2 ^ 64 - 1) }
        ensures out { IfOk result (λ vol. self.new.out
            ≡ Some (record { base = base; faults = vol.faults })) }
        ensures none_out { OnErr result (self.new.out ≡ None) }
        ensures second { self.new.volume_faults ≡ self.old.volume_faults }
        ensures counted { CountsFaults result self.old.faults self.new.faults }
        ensures last { self.new.last ≡ self.old.last }
    {
        match self.volume(base) {
            Some(vol) => {
                self.lent = Some(base);
                Ok(vol)
            }
            None => {
                self.faults = self.faults.saturating_add(1);
                Err(Failed)
            }
        }
    }

    fn give(&mut self, base: Base, vol: FileVolume<R>) -> Result<(), Failed>
        requires out { IsOut self.old.out base vol.faults }
        ensures none_out { self.new.out ≡ None }
        ensures second { RaisesSecond self.old.out vol.faults self.old.volume_faults
            self.new.volume_faults }
        ensures counted { CountsFaults result self.old.faults self.new.faults }
        ensures last { self.new.last ≡ Some vol }
    {
        if vol.faults() > 0 {
            self.volume_faults = self.volume_faults.saturating_add(1);
        }
        if vol.is_lost() {
            self.is_lost = true;
        }
        self.lent = None;
        self.last = Some(vol);
        Ok(())
    }
}
