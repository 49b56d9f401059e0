//! The program that runs tables of cases: each file that its arguments name is a table, and a line
//! of its output says how many cases it has, or which is the first that differs.
#![tactic(auto)]

use case_tables::run_file;
use std::{env, io};

fn main(rt: HostRuntime) -> io::Result<()> {
    for name in env::args(&rt)?.skip(1) {
        run_file(&rt, name.as_str())?;
    }
    Ok(())
}
