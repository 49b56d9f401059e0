//! The numbers of the standard streams.

use std::fs::File;
use std::rt::Files;

/// What holds these numbers.
#[derive(Drop)]
pub struct Numbers<R: Files> {
    _held: [R::File; 3],
}

// Folders, of which one can be opened on a machine.
const FOLDERS: [&str; 5] = ["/", ".", "/proc", "/dev", "/tmp"];

/// Holds the numbers 0 to 2, which the machine gives to the first files that are opened where a
/// standard stream is closed: the output would be written into the bundle. What takes them is a
/// folder, of which no byte is read, and which takes none, so a closed stream fails as before. None
/// where no three could be opened: then no file may be opened that is to be written.
pub fn hold_numbers<R: Files>(files: &R) -> Option<Numbers<R>> {
    let first = open_folder(files)?;
    let second = open_folder(files)?;
    let third = open_folder(files)?;
    Some(Numbers {
        _held: [first, second, third],
    })
}

fn open_folder<R: Files>(files: &R) -> Option<R::File> {
    for folder in FOLDERS {
        if let Ok(file) = File::open(files, folder) {
            return Some(file);
        }
    }
    None
}
