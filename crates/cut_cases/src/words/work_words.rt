//! A work that a row names, as a row of its own.

use case_rows::{CaseStop, Row};
use std::alloc::Global;

/// A work as a row of its own: its name, and what it is given.
pub(crate) fn work_of(alloc: Global, name: &[u8], given: &[Vec<u8>]) -> Result<Row, CaseStop> {
    let mut words = Vec::new(alloc);
    for word in given {
        words.push(word.to_vec(alloc)?)?;
    }
    Ok(Row {
        group: Vec::new(alloc),
        call: name.to_vec(alloc)?,
        given: words,
        wanted: Vec::new(alloc),
    })
}

/// The work that the words of a row from one on name.
pub(crate) fn named_work(alloc: Global, row: &Row, at: usize) -> Result<Row, CaseStop> {
    match row.given.get(at..) {
        Some([name, given @ ..]) => work_of(alloc, name, given),
        _ => Err(CaseStop::BadRow),
    }
}
