//! Which file a stop is about.

use crate::ended::exit_code;
use outside_io::{FileVolume, Sink, VolFile, Volume, give_all};
use std::alloc::{AllocError, Global};
use std::fmt::Write;
use std::process::ExitCode;
use std::rt::Files;

/// Tells of a run over these volumes, behind the line that says why it stopped, which file that is
/// about: where a volume failed (status 5), the file of the first failure, and what the machine
/// says of it; where the store refuses (7), the bundle, or those that it may be. It is one line,
/// and none where nothing is known or memory for it is refused. Faults of the error output change
/// nothing.
///
/// A run asks nothing of its target before all is read of its sources, so it is the target alone
/// that a stop is about once anything was asked of it.
pub fn tell_files<R: Files + Drop, E: Sink>(
    alloc: Global,
    code: ExitCode,
    sources: &[FileVolume<R>],
    target: &FileVolume<R>,
    err: &mut E,
) {
    let mut line = String::new(alloc);
    let written = if target.moment() > 0 {
        add_file(code, target, &mut line)
    } else {
        add_files(code, sources, &mut line)
    };
    if written.is_ok() && !line.is_empty() && line.push_str("\n").is_ok() {
        let _given = give_all(err, line.as_bytes());
    }
}

// Adds what there is to be said of each volume.
fn add_files<R: Files + Drop>(
    code: ExitCode,
    volumes: &[FileVolume<R>],
    line: &mut String,
) -> Result<(), AllocError> {
    for volume in volumes.iter() {
        add_file(code, volume, line)?;
    }
    Ok(())
}

// Adds what there is to be said of a volume.
fn add_file<R: Files + Drop>(
    code: ExitCode,
    volume: &FileVolume<R>,
    line: &mut String,
) -> Result<(), AllocError> {
    if code == exit_code(5) {
        return add_failure(volume, line);
    }
    if code == exit_code(7) {
        return add_bundle(volume, line);
    }
    Ok(())
}

// Adds where the first failure was, and why, if none was added before.
fn add_failure<R: Files + Drop>(
    volume: &FileVolume<R>,
    line: &mut String,
) -> Result<(), AllocError> {
    match volume.failure() {
        Some(failure) if line.is_empty() => {
            let path = volume.path(failure.file);
            let error = failure.error;
            write!(line, "in {path}: {error}")
        }
        _ => Ok(()),
    }
}

// Adds the bundle, if anything was asked of it.
fn add_bundle<R: Files + Drop>(
    volume: &FileVolume<R>,
    line: &mut String,
) -> Result<(), AllocError> {
    if volume.moment() == 0 {
        return Ok(());
    }
    let before = if line.is_empty() { "in " } else { " or " };
    let path = volume.path(VolFile::Bundle);
    write!(line, "{before}{path}")
}
