//! The program that makes the next coarser level of a bundle: `main` makes the objects over the
//! machine and hands them to `serve`. It stands on `overview_cli`, which says what the program
//! does, on `tile_workers`, on `program_ends` and on `outside_io`.
#![tactic(auto)]

use outside_io::{FileVolume, NoVolume, StdSink, hold_numbers};
use overview_cli::serve;
use program_ends::{ProcessArguments, end_without_memory, tell_files, two_paths_at};
use std::process::ExitCode;
use tile_workers::Open;

fn main(rt: HostRuntime) -> ExitCode {
    let alloc = rt.alloc();
    // Kept open to the end, so that no file of a bundle gets the number of a closed stream.
    let held = hold_numbers(&rt);
    let args = ProcessArguments::new(&rt);
    let mut out = StdSink::new(rt.stdout());
    let mut err = StdSink::new(rt.stderr());
    match two_paths_at(alloc, &args, 1, 2) {
        Ok(Some(paths)) if held.is_some() => {
            let mut from = FileVolume::new(rt, paths.from.bundle, paths.from.journal);
            let mut to = FileVolume::new(rt, paths.to.bundle, paths.to.journal);
            let code = serve(
                &rt, alloc, &args, &mut out, &mut err, &mut from, &mut to, &Open,
            );
            tell_files(alloc, code, &[from], &to, &mut err);
            code
        }
        Ok(_) => {
            let mut from = NoVolume::new();
            let mut to = NoVolume::new();
            serve(
                &rt, alloc, &args, &mut out, &mut err, &mut from, &mut to, &Open,
            )
        }
        Err(_) => end_without_memory(&mut err),
    }
}
