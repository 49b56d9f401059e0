//! The program that audits a bundle: `main` makes the objects over the machine and hands them to
//! `serve`. It stands on `audit_cli`, which says what the program does, on `tile_workers`, on
//! `program_ends` and on `outside_io`.
#![tactic(auto)]

use audit_cli::serve;
use outside_io::{FileVolume, NoVolume, StdSink, hold_numbers};
use program_ends::{ProcessArguments, end_without_memory, paths_at, tell_files};
use std::process::ExitCode;
use tile_workers::Open;

fn main(rt: HostRuntime) -> ExitCode {
    let alloc = rt.alloc();
    // Kept open to the end, so that no file of a bundle gets the number of a closed stream.
    let held = hold_numbers(&rt);
    let args = ProcessArguments::new(&rt);
    let mut out = StdSink::new(rt.stdout());
    let mut err = StdSink::new(rt.stderr());
    match paths_at(alloc, &args, 1) {
        Ok(Some(paths)) if held.is_some() => {
            let mut vol = FileVolume::new(rt, paths.bundle, paths.journal);
            let code = serve(&rt, alloc, &args, &mut out, &mut err, &mut vol, &Open);
            tell_files(alloc, code, &[], &vol, &mut err);
            code
        }
        Ok(_) => {
            let mut vol = NoVolume::new();
            serve(&rt, alloc, &args, &mut out, &mut err, &mut vol, &Open)
        }
        Err(_) => end_without_memory(&mut err),
    }
}
