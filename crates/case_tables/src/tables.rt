//! Tables, run row by row.

use crate::groups::Groups;
use case_rows::{CaseStop, Names, Told, row_of_line};
use std::alloc::{AllocError, Global};
use std::thread::Threads;

/// The first row that did not come out as it has to.
#[derive(Drop)]
pub(crate) struct Differing {
    /// The line on which it stands, counted from 1.
    pub(crate) line: u32,
    /// Why it could not be run, where it could not.
    pub(crate) stop: Option<CaseStop>,
    /// What came out.
    pub(crate) told: Vec<Vec<u8>>,
}

/// How many rows came out as they have to, up to the first that did not.
#[derive(Drop)]
pub(crate) struct Ran {
    pub(crate) cases: u32,
    pub(crate) differing: Option<Differing>,
}

/// Runs what a line says. Whether it is a row, and came out as it has to.
fn run_line(
    rt: &(impl Threads + Sync),
    alloc: Global,
    names: &mut Names,
    line: &[u8],
    groups: &mut Groups,
    told: &mut Told,
) -> Result<Option<bool>, CaseStop> {
    let Some(row) = row_of_line(alloc, names, line)? else {
        return Ok(None);
    };
    groups.call(rt, &row, told)?;
    Ok(Some(told.is_wanted(&row)))
}

/// Runs a table: each row in turn, up to the first that does not come out as it has to.
pub(crate) fn run_table(
    rt: &(impl Threads + Sync),
    alloc: Global,
    text: &[u8],
) -> Result<Ran, AllocError> {
    let (mut names, mut groups) = (Names::new(alloc), Groups::new(alloc));
    let (mut cases, mut line) = (0u32, 0u32);
    for row in text.split(|byte| *byte == b'\n') {
        line = line.saturating_add(1);
        let mut told = Told::new(alloc);
        let stop = match run_line(rt, alloc, &mut names, row, &mut groups, &mut told) {
            Ok(None) => continue,
            Ok(Some(true)) => {
                cases = cases.saturating_add(1);
                continue;
            }
            Ok(Some(false)) => None,
            Err(stop) => Some(stop),
        };
        let told = told.into_words();
        let differing = Some(Differing { line, stop, told });
        return Ok(Ran { cases, differing });
    }
    Ok(Ran {
        cases,
        differing: None,
    })
}
