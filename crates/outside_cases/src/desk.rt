//! A machine of two files and the folder that names them. It counts what it is asked for, and
//! refuses what it is told.

use outside_io::VolFile;
use std::alloc::Allocator;
use std::cell::Cell;
use std::fs::{Metadata, OpenFile, OpenOptions};
use std::io;
use std::io::{ErrorKind, Read, Seek, SeekFrom, Write};
use std::path::PathBuf;
use std::rc::Rc;
use std::rt::Files;

/// What the machine refuses.
#[derive(Clone, Copy, PartialEq, Eq)]
pub(crate) enum Fault {
    Nothing,
    Open,
    SeekStart,
    SeekEnd,
    ReadMidway,
    WriteMidway,
    Cut,
    Sync,
    /// The files' system knows no sync.
    NoSync,
    OpenFolder,
    OpenRoot,
    ReadLink,
    /// The journal's name is a link that leads to no file.
    JournalLink,
    SyncFolder,
    FolderCalls,
}

/// What was asked of a file or a folder.
#[derive(Clone, Copy)]
pub(crate) struct Counts {
    pub(crate) opens: u32,
    pub(crate) reads: u32,
    pub(crate) writes: u32,
    pub(crate) cuts: u32,
    pub(crate) syncs: u32,
}

const NONE: Counts = Counts {
    opens: 0,
    reads: 0,
    writes: 0,
    cuts: 0,
    syncs: 0,
};

/// A file, or none, and what was asked of it. Each of its bytes is its letter.
#[derive(Drop)]
pub(crate) struct Drawer {
    pub(crate) letter: u8,
    pub(crate) len: Cell<Option<u64>>,
    pub(crate) counts: Cell<Counts>,
    /// What the machine answers where it is to be opened for writing.
    pub(crate) refusal: Cell<Option<ErrorKind>>,
    /// Where the last read and the last write began.
    pub(crate) read_at: Cell<u64>,
    pub(crate) wrote_at: Cell<u64>,
}

impl Drawer {
    fn new(letter: u8, len: Option<u64>) -> Drawer {
        Drawer {
            letter,
            len: Cell::new(len),
            counts: Cell::new(NONE),
            refusal: Cell::new(None),
            read_at: Cell::new(0),
            wrote_at: Cell::new(0),
        }
    }

    fn len(&self) -> u64 {
        self.len.get().unwrap_or(0)
    }

    // The file is made or emptied where that is asked.
    fn open(&self, how: &OpenOptions, fault: Fault) -> io::Result<()> {
        let mut counts = self.counts.get();
        counts.opens = counts.opens.wrapping_add(1);
        self.counts.set(counts);
        let refusal = match self.letter {
            b'/' => Fault::OpenFolder,
            _ => Fault::Open,
        };
        if fault == refusal {
            return Err(error(ErrorKind::PermissionDenied));
        }
        if let Some(kind) = self.refusal.get() {
            if how.asks_write() {
                return Err(error(kind));
            }
        }
        let is_there = self.len.get().is_some();
        if !is_there && !how.asks_create() {
            return Err(error(ErrorKind::NotFound));
        }
        if !is_there || how.asks_truncate() {
            self.len.set(Some(0));
        }
        Ok(())
    }
}

/// A folder that names the files. Each has a path of its own.
#[derive(Clone, Copy)]
pub(crate) enum Folder {
    Shelf,
    Root,
    Here,
    Inner,
    Far,
}

impl Folder {
    fn path(self) -> &'static str {
        match self {
            Folder::Shelf => "shelf",
            Folder::Root => "/",
            Folder::Here => ".",
            Folder::Inner => "a/c",
            Folder::Far => "shelf/../far",
        }
    }
}

#[derive(Clone, Copy)]
pub(crate) enum Place {
    File(VolFile),
    Folder(Folder),
}

fn place_of(path: &str) -> Option<Place> {
    match path {
        "shelf/b" | "/b" | "b" | "a/c/b" => Some(Place::File(VolFile::Bundle)),
        "shelf/link" | "shelf/chain" | "round" => Some(Place::File(VolFile::Bundle)),
        "shelf/b.jnl" => Some(Place::File(VolFile::Journal)),
        "shelf" => Some(Place::Folder(Folder::Shelf)),
        "/" => Some(Place::Folder(Folder::Root)),
        "." => Some(Place::Folder(Folder::Here)),
        "a/c" => Some(Place::Folder(Folder::Inner)),
        "shelf/../far" => Some(Place::Folder(Folder::Far)),
        _ => None,
    }
}

// What the links say.
fn link_at(path: &str) -> Option<&'static str> {
    match path {
        "shelf/link" => Some("../far/b"),
        "shelf/chain" => Some("next"),
        "shelf/next" => Some("/b"),
        "round" => Some("round"),
        _ => None,
    }
}

/// A machine of two files and the folder that names them.
#[derive(Drop)]
pub(crate) struct Desk {
    bundle: Drawer,
    journal: Drawer,
    pub(crate) folder: Drawer,
    // As which the folder was opened last.
    opened: Cell<Option<Folder>>,
    pub(crate) fault: Cell<Fault>,
}

impl Desk {
    pub(crate) fn new(len: Option<u64>, fault: Fault) -> Desk {
        Desk {
            bundle: Drawer::new(b'b', len),
            journal: Drawer::new(b'j', len),
            folder: Drawer::new(b'/', Some(0)),
            opened: Cell::new(None),
            fault: Cell::new(fault),
        }
    }

    pub(crate) fn drawer(&self, place: Place) -> &Drawer {
        match place {
            Place::File(VolFile::Bundle) => &self.bundle,
            Place::File(VolFile::Journal) => &self.journal,
            Place::Folder(_) => &self.folder,
        }
    }

    /// The path by which the folder was opened last, if it was.
    pub(crate) fn opened_folder(&self) -> &'static str {
        match self.opened.get() {
            Some(folder) => folder.path(),
            None => "",
        }
    }
}

#[derive(Drop)]
pub(crate) struct Machine {
    pub(crate) desk: Rc<Desk>,
}

/// An open file. Each call is interrupted once, and moves two bytes at most.
#[derive(Drop)]
pub(crate) struct Handle {
    desk: Rc<Desk>,
    place: Place,
    at: u64,
    calls: u32,
}

impl Handle {
    fn drawer(&self) -> &Drawer {
        self.desk.drawer(self.place)
    }

    // Whether this call is interrupted, and whether it is the third of those that are not.
    fn turn(&mut self) -> (bool, bool) {
        self.calls = self.calls.wrapping_add(1);
        (self.calls % 2 == 1, self.calls >= 4)
    }
}

fn error(kind: ErrorKind) -> io::Error {
    io::Error::from(kind)
}

impl Read for Handle {
    fn read(&mut self, buf: &mut [u8]) -> io::Result<usize> {
        let (is_interrupted, is_late) = self.turn();
        if is_interrupted {
            return Err(error(ErrorKind::Interrupted));
        }
        if is_late && self.desk.fault.get() == Fault::ReadMidway {
            return Err(error(ErrorKind::Other));
        }
        self.drawer().read_at.set(self.at);
        let mut counts = self.drawer().counts.get();
        counts.reads = counts.reads.wrapping_add(1);
        self.drawer().counts.set(counts);
        let n = self
            .drawer()
            .len()
            .saturating_sub(self.at)
            .min(2)
            .min(buf.len() as u64) as usize;
        buf[..n].fill(self.drawer().letter);
        self.at = self.at.wrapping_add(n as u64);
        Ok(n)
    }
}

impl Write for Handle {
    fn write(&mut self, bytes: &[u8]) -> io::Result<usize> {
        let (is_interrupted, is_late) = self.turn();
        if is_interrupted {
            return Err(error(ErrorKind::Interrupted));
        }
        if is_late && self.desk.fault.get() == Fault::WriteMidway {
            return Err(error(ErrorKind::StorageFull));
        }
        self.drawer().wrote_at.set(self.at);
        let mut counts = self.drawer().counts.get();
        counts.writes = counts.writes.wrapping_add(1);
        self.drawer().counts.set(counts);
        let n = bytes.len().min(2);
        self.at = self.at.wrapping_add(n as u64);
        self.drawer()
            .len
            .set(Some(self.drawer().len().max(self.at)));
        Ok(n)
    }

    fn flush(&mut self) -> io::Result<()> {
        Ok(())
    }
}

impl Seek for Handle {
    fn seek(&mut self, to: SeekFrom) -> io::Result<u64> {
        let (at, fault) = match to {
            SeekFrom::Start(at) => (at, Fault::SeekStart),
            _ => (self.drawer().len(), Fault::SeekEnd),
        };
        if self.desk.fault.get() == fault {
            return Err(error(ErrorKind::NotSeekable));
        }
        self.at = at;
        Ok(self.at)
    }
}

impl OpenFile for Handle {
    fn metadata(&self) -> io::Result<Metadata> {
        Err(error(ErrorKind::Unsupported))
    }

    fn set_len(&self, size: u64) -> io::Result<()> {
        if self.desk.fault.get() == Fault::Cut {
            return Err(error(ErrorKind::Other));
        }
        let mut counts = self.drawer().counts.get();
        counts.cuts = counts.cuts.wrapping_add(1);
        self.drawer().counts.set(counts);
        self.drawer().len.set(Some(size));
        Ok(())
    }

    fn sync_all(&self) -> io::Result<()> {
        let mut counts = self.drawer().counts.get();
        counts.syncs = counts.syncs.wrapping_add(1);
        self.drawer().counts.set(counts);
        match (self.drawer().letter, self.desk.fault.get()) {
            (b'/', Fault::SyncFolder) => Err(error(ErrorKind::Other)),
            (b'/', Fault::FolderCalls) => Err(error(ErrorKind::InvalidInput)),
            (b'/', _) => Ok(()),
            (_, Fault::Sync) => Err(error(ErrorKind::Other)),
            (_, Fault::NoSync) => Err(error(ErrorKind::InvalidInput)),
            _ => Ok(()),
        }
    }

    fn sync_data(&self) -> io::Result<()> {
        self.sync_all()
    }
}

impl Files for Machine {
    type File = Handle;

    type Dir = Handle;

    fn open_file(&self, how: &OpenOptions, path: &str) -> io::Result<Handle> {
        let Some(place) = place_of(path) else {
            return Err(error(ErrorKind::NotFound));
        };
        let desk = self.desk.clone()?;
        if let Place::Folder(folder) = place {
            if matches!(folder, Folder::Root) && desk.fault.get() == Fault::OpenRoot {
                return Err(error(ErrorKind::PermissionDenied));
            }
            desk.opened.set(Some(folder));
        }
        desk.drawer(place).open(how, desk.fault.get())?;
        Ok(Handle {
            desk,
            place,
            at: 0,
            calls: 0,
        })
    }

    fn open_dir(&self, _path: &str) -> io::Result<Handle> {
        Err(error(ErrorKind::Unsupported))
    }

    fn metadata(&self, _path: &str) -> io::Result<Metadata> {
        Err(error(ErrorKind::Unsupported))
    }

    fn symlink_metadata(&self, _path: &str) -> io::Result<Metadata> {
        Err(error(ErrorKind::Unsupported))
    }

    fn copy(&self, _from: &str, _to: &str) -> io::Result<u64> {
        Err(error(ErrorKind::Unsupported))
    }

    fn rename(&self, _from: &str, _to: &str) -> io::Result<()> {
        Err(error(ErrorKind::Unsupported))
    }

    fn remove_file(&self, _path: &str) -> io::Result<()> {
        Err(error(ErrorKind::Unsupported))
    }

    fn create_dir(&self, _path: &str) -> io::Result<()> {
        Err(error(ErrorKind::Unsupported))
    }

    fn remove_dir(&self, _path: &str) -> io::Result<()> {
        Err(error(ErrorKind::Unsupported))
    }

    fn remove_dir_all<B: Allocator>(&self, _alloc: B, _path: &str) -> io::Result<()> {
        Err(error(ErrorKind::Unsupported))
    }

    fn read_link<B: Allocator>(&self, alloc: B, path: &str) -> io::Result<PathBuf<B>> {
        if self.desk.fault.get() == Fault::ReadLink {
            return Err(error(ErrorKind::Other));
        }
        let lost = path == "shelf/b.jnl" && self.desk.fault.get() == Fault::JournalLink;
        let link = if lost { Some("away") } else { link_at(path) };
        match link {
            Some(text) => Ok(PathBuf::from_str(alloc, text)?),
            None => Err(error(ErrorKind::InvalidInput)),
        }
    }
}
