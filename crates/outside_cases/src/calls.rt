//! The calls of rows, by their names.

use crate::desks::{Open, hold};
use crate::lines::{bytes, line, marks, word};
use crate::streams::{give, read, take, write};
use crate::volumes::{failing, none};
use case_rows::{Calls, CaseStop, Row, Told};
use std::alloc::Global;

/// What rows call of the outside, of the groups `outside` and `desk`.
///
/// Of `outside`: `take TEXT PIECE FAILING HOW SIZES` takes from a source in memory into buffers of
/// these sizes, whose bytes are dots, `once` each or until each is full, by `all`, and tells each
/// answer and each buffer; `read TEXT SCRIPT HOW SIZES` the same over a file of std, and last how
/// often that failed and how often it was called. Each letter of the script is one of its calls:
/// `i` is interrupted, `!` fails, a digit moves so many bytes at most; and those behind move all.
/// `give PIECE FAILING ROOM BYTES..` gives to a sink in memory, and tells each answer and what it
/// holds, and last the answer for no bytes; `write TEXT SCRIPT BYTES BYTES` gives to a file of std,
/// and tells both answers, how often it failed and was called, and the text, over which is written.
/// `bytes TEXT` tells what is told of bytes; `word TEXT` a word and its number; `line TEXT NUMBERS
/// TEXT ROOM` a line of three numbers between two texts, and what a sink with so much room takes of
/// it; `marks NUMBERS` whether there are none, before and behind, and the marks. `failing CALLS
/// STOP MOST ROOM` tells which of five writes to a volume in memory are done, and the clock, `none`
/// the same of the five calls of the volume that fails, and what a read left.
///
/// Of `desk`: `new LEN FAULT PATH` makes a machine of two files of that length, or of none, which
/// refuses what the word names, and a volume of its files, the first of them by this path; `fault
/// FAULT` has it refuse another thing, and `refuse FILE KIND` have that file not be written.
/// `length FILE`, `read FILE AT COUNT`, `write FILE AT BYTES`, `cut FILE LEN`, `sync FILE`, `lost`
/// and `moment` call the volume and tell its answer. `seen FILE` tells a file's length, where the
/// last read and the last write began, and how often it was opened, read, written, cut and synced;
/// `folder` the folder that was opened last, and the same five of it. `hold FAULT` tells whether
/// three numbers are held, and by which folder, and how often one was opened.
#[derive(Drop)]
pub struct OutsideCalls {
    alloc: Global,
    open: Option<Open>,
}

impl OutsideCalls {
    /// Calls with no machine yet.
    pub fn new(alloc: Global) -> OutsideCalls {
        OutsideCalls { alloc, open: None }
    }

    /// A call of the group `outside`.
    fn outside(&self, row: &Row, told: &mut Told) -> Result<(), CaseStop> {
        let alloc = self.alloc;
        match row.call.as_slice() {
            b"take" => take(alloc, row, told),
            b"read" => read(alloc, row, told),
            b"give" => give(alloc, row, told),
            b"write" => write(alloc, row, told),
            b"bytes" => bytes(alloc, row, told),
            b"word" => word(alloc, row, told),
            b"line" => line(alloc, row, told),
            b"marks" => marks(alloc, row, told),
            b"failing" => failing(alloc, row, told),
            b"none" => none(told),
            _ => Err(CaseStop::BadRow),
        }
    }

    /// A call of the group `desk`.
    fn desk(&mut self, row: &Row, told: &mut Told) -> Result<(), CaseStop> {
        match row.call.as_slice() {
            b"new" => {
                self.open = Some(Open::new(self.alloc, row)?);
                Ok(())
            }
            b"hold" => hold(self.alloc, row, told),
            _ => self.desk_call(row, told),
        }
    }

    /// A call of the machine that was made last.
    fn desk_call(&mut self, row: &Row, told: &mut Told) -> Result<(), CaseStop> {
        let Some(open) = &mut self.open else {
            return Err(CaseStop::BadRow);
        };
        match row.call.as_slice() {
            b"fault" => open.set_fault(row),
            b"refuse" => open.refuse(row),
            b"length" => open.length(row, told),
            b"read" => open.read(self.alloc, row, told),
            b"write" => open.write(row, told),
            b"cut" => open.cut(row, told),
            b"sync" => open.sync(row, told),
            b"moment" => open.moment(told),
            b"lost" => open.lost(told),
            b"seen" => open.seen(row, told),
            b"folder" => open.folder(told),
            _ => Err(CaseStop::BadRow),
        }
    }
}

impl Calls for OutsideCalls {
    fn call(&mut self, row: &Row, told: &mut Told) -> Result<(), CaseStop> {
        match row.group.as_slice() {
            b"outside" => self.outside(row, told),
            b"desk" => self.desk(row, told),
            _ => Err(CaseStop::BadRow),
        }
    }
}
