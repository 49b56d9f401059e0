//! The program that packs bundles: `main` makes the objects over the machine and hands them to
//! `serve`. It stands on `bundle_pack`, which says what the program does, on `program_ends` and on
//! `outside_io`.
#![tactic(auto)]

use bundle_pack::serve;
use outside_io::{FileVolume, NoVolume, Sink, StdSink, Volume, hold_numbers};
use program_ends::{
    Arguments, ProcessArguments, end_without_memory, paths_at, tell_files, words_from,
};
use std::alloc::{AllocError, Global};
use std::process::ExitCode;

/// Volumes over the files of the paths that the first so many words say. None where one of them
/// says no path.
fn file_volumes(
    alloc: Global,
    rt: HostRuntime,
    args: &impl Arguments,
    count: usize,
) -> Result<Option<Vec<FileVolume<HostRuntime>>>, AllocError> {
    let mut volumes = Vec::new(alloc);
    for number in 0..count {
        match paths_at(alloc, args, number.saturating_add(1))? {
            Some(paths) => volumes.push(FileVolume::new(rt, paths.bundle, paths.journal))?,
            None => return Ok(None),
        }
    }
    Ok(Some(volumes))
}

/// So many volumes that fail at each call.
fn no_volumes(alloc: Global, count: usize) -> Result<Vec<NoVolume>, AllocError> {
    let mut volumes = Vec::new(alloc);
    for _ in 0..count {
        volumes.push(NoVolume::new())?;
    }
    Ok(volumes)
}

/// Serves over the target, which is the first of the volumes, and the sources behind it. Without a
/// volume there is nothing to do.
fn serve_over<A: Arguments, K: Sink, E: Sink, V: Volume>(
    alloc: Global,
    args: &A,
    out: &mut K,
    err: &mut E,
    volumes: &mut [V],
) -> ExitCode {
    match volumes.split_first_mut() {
        Some((to, from)) => serve(alloc, args, out, err, from, to),
        None => {
            let mut from: [NoVolume; 0] = [];
            serve(alloc, args, out, err, &mut from, &mut NoVolume::new())
        }
    }
}

fn main(rt: HostRuntime) -> ExitCode {
    let alloc = rt.alloc();
    // Kept open to the end, so that no file of a store gets the number of a closed stream.
    let held = hold_numbers(&rt);
    let args = ProcessArguments::new(&rt);
    let mut out = StdSink::new(rt.stdout());
    let mut err = StdSink::new(rt.stderr());
    let Ok(words) = words_from(alloc, &args, 1) else {
        return end_without_memory(&mut err);
    };
    let count = words.len();
    match file_volumes(alloc, rt, &args, count) {
        Ok(Some(mut volumes)) if held.is_some() => {
            let code = serve_over(alloc, &args, &mut out, &mut err, volumes.as_mut_slice());
            if let Some((to, from)) = volumes.split_first() {
                tell_files(alloc, code, from, to, &mut err);
            }
            code
        }
        Ok(_) => match no_volumes(alloc, count) {
            Ok(mut volumes) => serve_over(alloc, &args, &mut out, &mut err, volumes.as_mut_slice()),
            Err(_) => end_without_memory(&mut err),
        },
        Err(_) => end_without_memory(&mut err),
    }
}
