//! The program for one level of many bundles: `main` makes the objects over the machine and hands
//! them to `serve`. It stands on `level_cli`, which says what the program does, on `level_cache`,
//! on `program_ends` and on `outside_io`.
#![tactic(auto)]

use level_cache::{FileShelf, MemShelf};
use level_cli::{folder_at, serve};
use outside_io::{StdSink, StdSource, hold_numbers};
use program_ends::{ProcessArguments, end_without_memory, tell_files};
use std::process::ExitCode;

fn main(rt: HostRuntime) -> ExitCode {
    let alloc = rt.alloc();
    // Kept open to the end, so that no file of a bundle gets the number of a closed stream.
    let held = hold_numbers(&rt);
    let args = ProcessArguments::new(&rt);
    let mut src = StdSource::new(rt.stdin());
    let mut out = StdSink::new(rt.stdout());
    let mut err = StdSink::new(rt.stderr());
    match folder_at(alloc, &args) {
        Ok(Some(folder)) if held.is_some() => {
            let mut shelf = FileShelf::new(rt, folder);
            let code = serve(alloc, &args, &mut src, &mut out, &mut err, &mut shelf);
            if let Some(vol) = shelf.into_last() {
                tell_files(alloc, code, &[], &vol, &mut err);
            }
            code
        }
        // A folder that cannot be named: no volume is left for any bundle, so that each take fails.
        Ok(_) => match MemShelf::new(alloc, Vec::new(alloc), Vec::new(alloc)) {
            Ok(mut shelf) => serve(alloc, &args, &mut src, &mut out, &mut err, &mut shelf),
            Err(_) => end_without_memory(&mut err),
        },
        Err(_) => end_without_memory(&mut err),
    }
}
