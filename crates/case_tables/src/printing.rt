//! The line that is printed of a table.

use crate::tables::{Ran, run_table};
use std::rt::Files;
use std::thread::Threads;
use std::{fs, io};

/// Prints how many cases a table has, or the first one that differs.
fn print_ran(rt: &(impl Print + AllocGlobal), name: &str, ran: Ran) -> io::Result<()> {
    let cases = ran.cases;
    let Some(differing) = ran.differing else {
        return println!(rt; "{name}: {cases} cases");
    };
    let (line, stop) = (differing.line, differing.stop);
    println!(rt; "{name}: line {line} differs behind {cases} cases: {stop:?}")?;
    for word in &differing.told {
        let hex = hex::encode(rt.alloc(), word.as_slice())?;
        let text = word.escape_ascii();
        println!(rt; "    x{hex} '{text}'")?;
    }
    Ok(())
}

/// Runs the table of a file, over volumes of its own, and prints its line: how many cases it has,
/// or the first one that differs and what it told. Fails where the file cannot be read, the line
/// cannot be printed or memory is refused.
pub fn run_file(
    rt: &(impl Files + Print + AllocGlobal + Threads + Sync),
    name: &str,
) -> io::Result<()> {
    let text = fs::read(rt, name)?;
    print_ran(rt, name, run_table(rt, rt.alloc(), &text)?)
}
