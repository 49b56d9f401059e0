//! The program that gives and takes a bundle's tiles as a stream: `main` makes the objects over the
//! machine and hands them to `serve`. It stands on `tiles_cli`, which says what the program does,
//! on `program_ends` and on `outside_io`.
#![tactic(auto)]

use outside_io::{FileVolume, NoVolume, StdSink, StdSource, hold_numbers};
use program_ends::{ProcessArguments, end_without_memory, paths_at, tell_files};
use std::process::ExitCode;
use tiles_cli::serve;

fn main(rt: HostRuntime) -> ExitCode {
    let alloc = rt.alloc();
    // Kept open to the end, so that no file of the bundle gets the number of a closed stream.
    let held = hold_numbers(&rt);
    let args = ProcessArguments::new(&rt);
    let mut src = StdSource::new(rt.stdin());
    let mut out = StdSink::new(rt.stdout());
    let mut err = StdSink::new(rt.stderr());
    match paths_at(alloc, &args, 1) {
        Ok(Some(paths)) if held.is_some() => {
            let mut vol = FileVolume::new(rt, paths.bundle, paths.journal);
            let code = serve(alloc, &args, &mut src, &mut out, &mut err, &mut vol);
            tell_files(alloc, code, &[], &vol, &mut err);
            code
        }
        Ok(_) => {
            let mut vol = NoVolume::new();
            serve(alloc, &args, &mut src, &mut out, &mut err, &mut vol)
        }
        Err(_) => end_without_memory(&mut err),
    }
}
