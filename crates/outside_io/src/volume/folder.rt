//! The folder that names a file of the machine.

use std::alloc::Global;
use std::fs::{File, OpenFile};
use std::io;
use std::io::ErrorKind;
use std::path::PathBuf;
use std::rt::Files;

// How many names in a row the machine follows to open a file: 40 links, and what they lead to.
const MOST_NAMES: u32 = 41;

/// Puts the names in the folder of the file of this path on the disk: where the path is a link,
/// those in the folder of the file that it leads to. A machine that lets no folder be opened or
/// synced has to be trusted with them; but the name of a file that was made just now, in a folder
/// that may not be read, is none that a crash leaves.
pub(super) fn sync_name<R: Files>(files: &R, path: &String, is_made: bool) -> io::Result<()> {
    match end_of_links(files, *path.allocator(), path.as_str())? {
        Some(target) => sync_folder(files, folder_of(target.as_str()), is_made),
        None => sync_folder(files, folder_of(path.as_str()), is_made),
    }
}

/// That no link has this path, where no file opens by it. An error where there is one, which leads
/// to no file then, and where the machine does not tell.
pub(super) fn has_no_link<R: Files>(files: &R, path: &String) -> io::Result<()> {
    match files.read_link(*path.allocator(), path.as_str()) {
        Err(error) if is_no_link(error.kind()) => Ok(()),
        Err(error) => Err(error),
        Ok(_) => Err(io::Error::other("it is a link that leads to no file")),
    }
}

// Where the links end that begin at this path; None where it is none. It takes memory where there
// is a link.
fn end_of_links<R: Files>(files: &R, alloc: Global, path: &str) -> io::Result<Option<PathBuf>> {
    let mut end: Option<PathBuf> = None;
    for _ in 0..MOST_NAMES {
        let at = match &end {
            Some(link) => link.as_str(),
            None => path,
        };
        match files.read_link(alloc, at) {
            Ok(text) => end = Some(led_to(alloc, at, text.as_str())?),
            Err(error) if is_no_link(error.kind()) => return Ok(end),
            Err(error) => return Err(error),
        }
    }
    Err(io::Error::from(ErrorKind::FilesystemLoop))
}

// The path that the link of this path leads to. What it says begins in its own folder, unless it is
// absolute.
fn led_to(alloc: Global, link: &str, text: &str) -> io::Result<PathBuf> {
    let mut path = PathBuf::from_str(alloc, link)?;
    path.set_file_name(text)?;
    Ok(path)
}

// The answers of a machine where there is no link, or no name any more, or which has no links.
fn is_no_link(kind: ErrorKind) -> bool {
    kind == ErrorKind::InvalidInput || kind == ErrorKind::NotFound || kind == ErrorKind::Unsupported
}

fn sync_folder<R: Files>(files: &R, folder: &str, is_made: bool) -> io::Result<()> {
    let synced = match File::open(files, folder) {
        Ok(folder) => folder.sync_all(),
        Err(error) => Err(error),
    };
    match synced {
        Err(error) if is_no_folder_call(error.kind(), is_made) => Ok(()),
        synced => synced,
    }
}

// The answers of a machine that opens or syncs no folder, and of a folder that may not be read, if
// no name was made in it.
fn is_no_folder_call(kind: ErrorKind, is_made: bool) -> bool {
    (kind == ErrorKind::PermissionDenied && !is_made)
        || kind == ErrorKind::IsADirectory
        || kind == ErrorKind::InvalidInput
        || kind == ErrorKind::Unsupported
}

// The folder that names the file of this path.
fn folder_of(path: &str) -> &str {
    match path.rsplit_once('/') {
        Some(("", _)) => "/",
        Some((folder, _)) => folder,
        None => ".",
    }
}
