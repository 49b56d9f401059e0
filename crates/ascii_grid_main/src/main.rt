//! The program for ASCII grids: `main` makes the objects over the machine and hands them to
//! `serve`. It stands on `ascii_cli`, which says what the program does, on `program_ends` and on
//! `outside_io`.
#![tactic(auto)]

use ascii_cli::serve;
use outside_io::{StdSink, StdSource};
use program_ends::ProcessArguments;
use std::process::ExitCode;

fn main(rt: HostRuntime) -> ExitCode {
    let alloc = rt.alloc();
    let args = ProcessArguments::new(&rt);
    let mut src = StdSource::new(rt.stdin());
    let mut out = StdSink::new(rt.stdout());
    let mut err = StdSink::new(rt.stderr());
    serve(alloc, &args, &mut src, &mut out, &mut err)
}
