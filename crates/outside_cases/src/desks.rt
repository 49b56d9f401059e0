//! The two files of a machine that counts what it is asked for, as a volume.

use crate::desk::{Desk, Drawer, Fault, Folder, Machine, Place};
use case_rows::{CaseStop, Row, Told};
use outside_io::{FileVolume, VolFile, Volume, hold_numbers};
use std::alloc::Global;
use std::io::ErrorKind;
use std::rc::Rc;

/// The most bytes that a row reads.
const MOST: usize = 1000;

/// The file that a word names.
fn file_of(row: &Row, at: usize) -> Result<VolFile, CaseStop> {
    match row.text(at)? {
        "bundle" => Ok(VolFile::Bundle),
        "journal" => Ok(VolFile::Journal),
        _ => Err(CaseStop::BadRow),
    }
}

/// What the machine refuses, by the word that names it.
fn fault_of(row: &Row, at: usize) -> Result<Fault, CaseStop> {
    match row.text(at)? {
        "nothing" => Ok(Fault::Nothing),
        "open" => Ok(Fault::Open),
        "seek_start" => Ok(Fault::SeekStart),
        "seek_end" => Ok(Fault::SeekEnd),
        "read" => Ok(Fault::ReadMidway),
        "write" => Ok(Fault::WriteMidway),
        "cut" => Ok(Fault::Cut),
        "sync" => Ok(Fault::Sync),
        "no_sync" => Ok(Fault::NoSync),
        "open_folder" => Ok(Fault::OpenFolder),
        "open_root" => Ok(Fault::OpenRoot),
        "read_link" => Ok(Fault::ReadLink),
        "journal_link" => Ok(Fault::JournalLink),
        "sync_folder" => Ok(Fault::SyncFolder),
        "folder_calls" => Ok(Fault::FolderCalls),
        _ => Err(CaseStop::BadRow),
    }
}

/// What the machine answers where a file may not be written.
fn kind_of(row: &Row, at: usize) -> Result<ErrorKind, CaseStop> {
    match row.text(at)? {
        "denied" => Ok(ErrorKind::PermissionDenied),
        "read_only" => Ok(ErrorKind::ReadOnlyFilesystem),
        "busy" => Ok(ErrorKind::ResourceBusy),
        _ => Err(CaseStop::BadRow),
    }
}

/// Files of a length, or none where the word is empty, on a machine that refuses this.
fn desk_of(alloc: Global, row: &Row, len: usize, fault: usize) -> Result<Rc<Desk>, CaseStop> {
    let len = if row.bytes(len)?.is_empty() {
        None
    } else {
        Some(row.number(len)?)
    };
    match Rc::new(alloc, Desk::new(len, fault_of(row, fault)?)) {
        Ok(desk) => Ok(desk),
        Err(_) => Err(CaseStop::OutOfMemory),
    }
}

/// The machine of a desk.
fn machine_of(desk: &Rc<Desk>) -> Result<Machine, CaseStop> {
    match desk.clone() {
        Ok(desk) => Ok(Machine { desk }),
        Err(_) => Err(CaseStop::OutOfMemory),
    }
}

/// Tells what was asked of a file or of a folder.
fn tell_counts(drawer: &Drawer, told: &mut Told) -> Result<(), CaseStop> {
    let counts = drawer.counts.get();
    told.list(&[
        counts.opens,
        counts.reads,
        counts.writes,
        counts.cuts,
        counts.syncs,
    ])
}

/// A machine and the volume of its two files.
#[derive(Drop)]
pub(crate) struct Open {
    desk: Rc<Desk>,
    vol: FileVolume<Machine>,
}

impl Open {
    /// `desk LEN FAULT PATH`
    pub(crate) fn new(alloc: Global, row: &Row) -> Result<Open, CaseStop> {
        let desk = desk_of(alloc, row, 0, 1)?;
        let bundle = String::from_str(alloc, row.text(2)?)?;
        let journal = String::from_str(alloc, "shelf/b.jnl")?;
        let vol = FileVolume::new(machine_of(&desk)?, bundle, journal);
        Ok(Open { desk, vol })
    }

    /// `fault FAULT`
    pub(crate) fn set_fault(&self, row: &Row) -> Result<(), CaseStop> {
        self.desk.fault.set(fault_of(row, 0)?);
        Ok(())
    }

    /// `refuse FILE KIND`
    pub(crate) fn refuse(&self, row: &Row) -> Result<(), CaseStop> {
        let drawer = self.desk.drawer(Place::File(file_of(row, 0)?));
        drawer.refusal.set(Some(kind_of(row, 1)?));
        Ok(())
    }

    /// `read FILE AT COUNT`
    pub(crate) fn read(
        &mut self,
        alloc: Global,
        row: &Row,
        told: &mut Told,
    ) -> Result<(), CaseStop> {
        let (file, at) = (file_of(row, 0)?, row.number(1)?);
        let mut buf = vec![in alloc; b'.'; row.size(2, MOST)?]?;
        told.fact(self.vol.read(file, at, buf.as_mut_slice()))?;
        told.bytes(&buf)
    }

    /// `write FILE AT BYTES`
    pub(crate) fn write(&mut self, row: &Row, told: &mut Told) -> Result<(), CaseStop> {
        let (file, at, bytes): (VolFile, u64, &[u8]) = (
            file_of(row, 0)?,
            row.number(1)?,
            row.bytes(2)?,
        );
        if at > 1 << 50 || bytes.len() > MOST {
            return Err(CaseStop::BadRow);
        }
        told.fact(self.vol.write(file, at, bytes))
    }

    /// `length FILE`, `cut FILE LEN` and `sync FILE`
    pub(crate) fn length(&mut self, row: &Row, told: &mut Told) -> Result<(), CaseStop> {
        told.fact(self.vol.len(file_of(row, 0)?))
    }

    pub(crate) fn cut(&mut self, row: &Row, told: &mut Told) -> Result<(), CaseStop> {
        let (file, len) = (file_of(row, 0)?, row.number(1)?);
        told.fact(self.vol.cut(file, len))
    }

    pub(crate) fn sync(&mut self, row: &Row, told: &mut Told) -> Result<(), CaseStop> {
        told.fact(self.vol.sync(file_of(row, 0)?))
    }

    /// `seen FILE`
    pub(crate) fn seen(&self, row: &Row, told: &mut Told) -> Result<(), CaseStop> {
        let drawer = self.desk.drawer(Place::File(file_of(row, 0)?));
        told.fact(drawer.len.get())?;
        told.word(drawer.read_at.get())?;
        told.word(drawer.wrote_at.get())?;
        tell_counts(drawer, told)
    }

    /// `folder`
    pub(crate) fn folder(&self, told: &mut Told) -> Result<(), CaseStop> {
        told.word(self.desk.opened_folder())?;
        tell_counts(&self.desk.folder, told)
    }

    /// `lost`
    pub(crate) fn lost(&self, told: &mut Told) -> Result<(), CaseStop> {
        told.word(self.vol.is_lost())
    }

    /// `moment`
    pub(crate) fn moment(&self, told: &mut Told) -> Result<(), CaseStop> {
        told.word(self.vol.moment())
    }
}

/// `hold FAULT`
pub(crate) fn hold(alloc: Global, row: &Row, told: &mut Told) -> Result<(), CaseStop> {
    let desk = match Rc::new(alloc, Desk::new(None, fault_of(row, 0)?)) {
        Ok(desk) => desk,
        Err(_) => return Err(CaseStop::OutOfMemory),
    };
    let held = hold_numbers(&machine_of(&desk)?);
    told.word(held.is_some())?;
    told.word(desk.opened_folder())?;
    told.word(desk.folder.counts.get().opens)
}
