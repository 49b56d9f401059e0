//! One file of the machine, opened once it is needed.

ghost use Rattle.std.specs.Prelude.{◌≤◌, length, IfOk};

use super::folder::{has_no_link, sync_name};
use crate::streams::read_some;
use std::fs::{File, OpenFile, OpenOptions};
use std::io;
use std::io::{ErrorKind, Read, Seek, SeekFrom, Write};
use std::rt::Files;

/// A file of the machine by its path.
#[derive(Drop)]
pub(super) struct Backing<R: Files + Drop> {
    path: String,
    file: Option<OpenedFile<R::File>>,
    // It was made by a call on this, and its name was synced by one.
    is_made: bool,
    is_named: bool,
    // A sync of it has failed, its name's among them.
    is_lost: bool,
}

// The greatest place to which a machine lets a file be moved. No file has a byte there.
const GREATEST_PLACE: u64 = 9223372036854775807;

// An open file.
#[derive(Drop)]
struct OpenedFile<F: Drop> {
    file: F,
    // Where its next read or write goes, if that is known.
    place: Option<u64>,
    // What the machine said as it was to be opened for writing; it is open for reading alone then.
    refusal: Option<io::Error>,
}

impl<F: Drop> OpenedFile<F> {
    fn new(file: F, refusal: Option<io::Error>) -> OpenedFile<F> {
        OpenedFile {
            file,
            place: None,
            refusal,
        }
    }

    // That it may be written.
    fn to_write(&self) -> io::Result<()> {
        match self.refusal {
            None => Ok(()),
            Some(error) => Err(error),
        }
    }

    // The file, to be cut.
    fn file_to_cut(&mut self) -> io::Result<&mut F> {
        self.to_write()?;
        self.place = None;
        Ok(&mut self.file)
    }

    // Whether a sync that is answered so had nothing to do: a file system that may not be written
    // and knows no sync, as one that is an image of files, has nothing to put on the disk.
    fn is_no_sync(&self, kind: ErrorKind) -> bool {
        let is_fixed = match self.refusal {
            Some(error) => error.kind() == ErrorKind::ReadOnlyFilesystem,
            None => false,
        };
        is_fixed && (kind == ErrorKind::InvalidInput || kind == ErrorKind::Unsupported)
    }
}

// The length of the file.
fn len_of<F: Seek + Drop>(opened: &mut OpenedFile<F>) -> io::Result<u64> {
    opened.place = None;
    opened.file.seek(SeekFrom::End(0))
}

// Moves the file to the place, unless it stands there. Where it stands behind what is done next is
// for the caller to say.
fn move_to<F: Seek + Drop>(opened: &mut OpenedFile<F>, at: u64) -> io::Result<()> {
    if opened.place.take() != Some(at) {
        opened.file.seek(SeekFrom::Start(at))?;
    }
    Ok(())
}

// Reads from the place on, until the buffer is full or the file ends.
fn read_at<F: Read + Seek + Drop>(
    opened: &mut OpenedFile<F>,
    at: u64,
    buf: &mut [u8],
) -> io::Result<usize>
    ensures { IfOk result (λ n. n ≤ length buf.old) }
{
    if at > GREATEST_PLACE {
        return Ok(0);
    }
    move_to(opened, at)?;
    let count = read_all(&mut opened.file, buf)?;
    opened.place = at.checked_add(count as u64);
    Ok(count)
}

// Writes from the place on.
fn write_at<F: Write + Seek + Drop>(
    opened: &mut OpenedFile<F>,
    at: u64,
    bytes: &[u8],
) -> io::Result<()> {
    move_to(opened, at)?;
    opened.file.write_all(bytes)?;
    opened.place = at.checked_add(bytes.len() as u64);
    Ok(())
}

impl<R: Files + Drop> Backing<R> {
    pub(super) fn new(path: String) -> Backing<R> {
        Backing {
            path,
            file: None,
            is_made: false,
            is_named: false,
            is_lost: false,
        }
    }

    /// Whether a sync of it has failed. The machine may keep in memory then what is not on the
    /// disk, and answer Ok to the next sync, so each later write, cut and sync of it is a failure.
    pub(super) fn is_lost(&self) -> bool {
        self.is_lost
    }

    pub(super) fn path(&self) -> &str {
        self.path.as_str()
    }

    /// That it is not open for reading alone.
    pub(super) fn to_change(&self) -> io::Result<()> {
        match &self.file {
            Some(opened) => opened.to_write(),
            None => Ok(()),
        }
    }

    // That no sync of it has failed.
    fn not_lost(&self) -> io::Result<()> {
        if self.is_lost {
            Err(io::Error::other("a sync of it has failed"))
        } else {
            Ok(())
        }
    }

    // The file where it is there, and None where there is none. An error where the machine refuses,
    // or where its name is a link that leads to no file.
    fn open(&mut self, files: &R) -> io::Result<Option<&mut OpenedFile<R::File>>> {
        if self.file.is_none() {
            match open_file(files, self.path.as_str()) {
                Ok(opened) => self.file = Some(opened),
                Err(error) if error.kind() == ErrorKind::NotFound => {
                    has_no_link(files, &self.path)?;
                    return Ok(None);
                }
                Err(error) => return Err(error),
            }
        }
        Ok(self.file.as_mut())
    }

    // The file, which may be written. It is made where there is none.
    fn open_or_make(&mut self, files: &R) -> io::Result<&mut OpenedFile<R::File>> {
        if self.open(files)?.is_none() {
            self.file = Some(make_file(files, self.path.as_str())?);
            self.is_made = true;
        }
        match self.file.as_mut() {
            Some(opened) => {
                opened.to_write()?;
                Ok(opened)
            }
            None => Err(io::Error::from(ErrorKind::NotFound)),
        }
    }

    /// That the file is there and may be written. It is made where there is none.
    pub(super) fn make(&mut self, files: &R) -> io::Result<()> {
        self.open_or_make(files)?;
        Ok(())
    }

    pub(super) fn len(&mut self, files: &R) -> io::Result<u64> {
        match self.open(files)? {
            Some(opened) => len_of(opened),
            None => Ok(0),
        }
    }

    pub(super) fn read(&mut self, files: &R, at: u64, buf: &mut [u8]) -> io::Result<usize>
        ensures { IfOk result (λ n. n ≤ length buf.old) }
    {
        match self.open(files)? {
            Some(opened) => read_at(opened, at, buf),
            None => Ok(0),
        }
    }

    pub(super) fn write(&mut self, files: &R, at: u64, bytes: &[u8]) -> io::Result<()> {
        self.not_lost()?;
        write_at(self.open_or_make(files)?, at, bytes)
    }

    pub(super) fn cut(&mut self, files: &R, len: u64) -> io::Result<()> {
        self.not_lost()?;
        if len > self.len(files)? {
            return Err(io::Error::other("it is shorter than that"));
        }
        match self.open(files)? {
            Some(opened) => opened.file_to_cut()?.set_len(len),
            None => Ok(()),
        }
    }

    pub(super) fn sync(&mut self, files: &R) -> io::Result<()> {
        self.not_lost()?;
        if self.open(files)?.is_none() {
            return Ok(());
        }
        let synced = self.sync_opened(files);
        self.is_lost = synced.is_err();
        synced
    }

    // The file that is open, and its name where no call on this has synced that.
    fn sync_opened(&mut self, files: &R) -> io::Result<()> {
        let Some(opened) = &self.file else {
            return Ok(());
        };
        sync_file(opened)?;
        if !self.is_named {
            sync_name(files, &self.path, self.is_made)?;
            self.is_named = true;
        }
        Ok(())
    }
}

// The file of this path, which is opened for reading alone where it may not be written.
fn open_file<R: Files>(files: &R, path: &str) -> io::Result<OpenedFile<R::File>> {
    match OpenOptions::new().read(true).write(true).open(files, path) {
        Ok(file) => Ok(OpenedFile::new(file, None)),
        Err(error) if is_no_leave(error.kind()) => {
            Ok(OpenedFile::new(File::open(files, path)?, Some(error)))
        }
        Err(error) => Err(error),
    }
}

// The answers of a machine that lets a file not be written: by the file's own mode, or by the file
// system that it is on.
fn is_no_leave(kind: ErrorKind) -> bool {
    kind == ErrorKind::PermissionDenied || kind == ErrorKind::ReadOnlyFilesystem
}

// Puts the file's data and length on the disk.
fn sync_file<F: OpenFile + Drop>(opened: &OpenedFile<F>) -> io::Result<()> {
    match opened.file.sync_data() {
        Err(error) if opened.is_no_sync(error.kind()) => Ok(()),
        synced => synced,
    }
}

// The file of this path, where there was none.
fn make_file<R: Files>(files: &R, path: &str) -> io::Result<OpenedFile<R::File>> {
    let mut options = OpenOptions::new();
    options.read(true).write(true).create(true);
    let file = options.open(files, path)?;
    Ok(OpenedFile::new(file, None))
}

// Reads until the buffer is full or the file ends.
fn read_all<F: Read>(file: &mut F, buf: &mut [u8]) -> io::Result<usize>
    ensures { IfOk result (λ n. n ≤ length buf.old) }
{
    let mut count = 0;
    while count < buf.len() {
        let more = read_some(file, &mut buf[count..])?;
        if more == 0 {
            break;
        }
        count += more;
    }
    Ok(count)
}
