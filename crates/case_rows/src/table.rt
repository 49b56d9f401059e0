//! The lines of tables.
//!
//! A line is empty, or begins with `#`, and says nothing; it is a name, `:=` and a word, and gives
//! the word's bytes the name; or it is a row: a group of calls, a dot and the call, the words that
//! it is given, `->`, and the words that have to come out. Blanks stand between words.

use crate::bytes::bytes_of;
use crate::names::Names;
use crate::parts::parts_of;
use crate::rows::Row;
use crate::stop::CaseStop;
use crate::told::Told;
use std::alloc::{AllocError, Global};

/// What rows call.
pub trait Calls {
    /// Calls what the row names and tells what came out. `BadRow` where nothing has that name.
    fn call(&mut self, row: &Row, told: &mut Told) -> Result<(), CaseStop>;
}

/// The words of a line.
fn words_of(alloc: Global, line: &[u8]) -> Result<Vec<Vec<u8>>, AllocError> {
    let mut words = parts_of(alloc, line, b' ')?;
    words.retain(|word| !word.is_empty());
    Ok(words)
}

/// A row that calls what the word names, and has no other word yet.
fn new_row(alloc: Global, word: &[u8]) -> Result<Row, CaseStop> {
    match parts_of(alloc, word, b'.')?.as_slice() {
        [group, call] => Ok(Row {
            group: group.to_vec(alloc)?,
            call: call.to_vec(alloc)?,
            given: Vec::new(alloc),
            wanted: Vec::new(alloc),
        }),
        _ => Err(CaseStop::BadRow),
    }
}

/// A row of the call that the first word names and of what the others stand for.
fn row_of(alloc: Global, names: &Names, first: &[u8], others: &[Vec<u8>]) -> Result<Row, CaseStop> {
    let mut row = new_row(alloc, first)?;
    let mut is_behind = false;
    for word in others {
        if word.as_slice() == b"->".as_slice() {
            is_behind = true;
        } else if is_behind {
            row.wanted.push(bytes_of(alloc, names, word)?)?;
        } else {
            row.given.push(bytes_of(alloc, names, word)?)?;
        }
    }
    if is_behind {
        Ok(row)
    } else {
        Err(CaseStop::BadRow)
    }
}

/// The row that a line is, if it is one, once the name is kept that it gives.
pub fn row_of_line(alloc: Global, names: &mut Names, line: &[u8]) -> Result<Option<Row>, CaseStop> {
    if line.first() == Some(&b'#') {
        return Ok(None);
    }
    if line.iter().filter(|byte| **byte == b'\'').count() % 2 == 1 {
        return Err(CaseStop::BadRow);
    }
    let words = words_of(alloc, line)?;
    match words.as_slice() {
        [] => Ok(None),
        [name, is, word] if is.as_slice() == b":=".as_slice() => {
            let bytes = bytes_of(alloc, names, word)?;
            names.keep(name.to_vec(alloc)?, bytes)?;
            Ok(None)
        }
        [first, others @ ..] => Ok(Some(row_of(alloc, names, first, others)?)),
    }
}
