//! The calls of rows, by their names.

use crate::ascii::{ascii_geo, ascii_read, ascii_run, ascii_write};
use crate::halves::half_of;
use crate::lerc::{lerc, lerc_told};
use crate::overview::{overview, same};
use crate::sweeps::{cuts, output_fails, source_fails};
use case_rows::{CaseStop, Row, Told};
use std::alloc::Global;
use std::thread::Threads;
use volume_rows::Volumes;

/// What rows call of the programs, of the groups `run` and `ascii`.
///
/// `WORDS` is a text that is cut at its blanks; an empty one has no words. `PIECES` is the most
/// bytes that a call of the input gives, and that one of the output takes; `FAILING` has the
/// numbers of the calls that fail. Each run tells its status, its output, its line and how many
/// marks it has.
///
/// Of `run`: `lerc WORDS INPUT PIECES` has no volume, and is run in each of four pieces where
/// `PIECES` is empty; `lerc_on VOLUME WORDS INPUT PIECES FAILING` has one; `marked VOLUME WORDS
/// INPUT` tells in place of the number of marks how many are the same in turn, and whether the last
/// is the moment of the end; `image WORDS INPUT` tells the status and what stands behind the header
/// of the blob that is given. `cuts WORDS INPUT` tells how many of the shorter inputs are refused
/// as truncated at their ends; `output_fails VOLUME WORDS INPUT OUTPUT` how many of the output's
/// calls, each of which takes a byte, may fail so that just the bytes before are given, and how
/// many marks that leaves; `source_fails VOLUME WORDS INPUT PIECE LAST` how many of the input's
/// calls up to that one may fail so that nothing is given and no call of the volume is made.
/// `overview FROM TO WORDS FAILING` runs that program; `same FILE VOLUME OTHER` tells whether both
/// have the same bytes there, and `half` the half of four tiles, of which an empty one is missing.
///
/// Of `ascii`: `run WORDS INPUT FAILING FAILING` runs that program, where the calls of the input
/// and of the output with these numbers fail; `read TEXT TYPE PIECES FAILING` tells the shape, the
/// count and the first value of a grid, or why there is none, in each of the pieces; `geo TEXT
/// TYPE` tells where it lies, and `write TEXT TYPE PIECE FAILING` its text.
#[derive(Drop)]
pub struct ProgramCalls<'a, R: Threads + Sync> {
    rt: &'a R,
    alloc: Global,
}

impl<'a, R: Threads + Sync> ProgramCalls<'a, R> {
    /// Calls that run programs with these threads.
    pub fn new(rt: &'a R, alloc: Global) -> ProgramCalls<'a, R> {
        ProgramCalls { rt, alloc }
    }

    /// Calls what the row names and tells what came out. `BadRow` where nothing has that name.
    pub fn call(&self, volumes: &mut Volumes, row: &Row, told: &mut Told) -> Result<(), CaseStop> {
        match row.group.as_slice() {
            b"run" => self.run(volumes, row, told),
            b"ascii" => ascii_call(self.alloc, row, told),
            _ => Err(CaseStop::BadRow),
        }
    }

    /// A call of the group `run`.
    fn run(&self, volumes: &mut Volumes, row: &Row, told: &mut Told) -> Result<(), CaseStop> {
        let (rt, alloc) = (self.rt, self.alloc);
        match row.call.as_slice() {
            b"lerc" => lerc(rt, alloc, volumes, b"", row, 0, told),
            b"lerc_on" => lerc(rt, alloc, volumes, row.bytes(0)?, row, 1, told),
            b"image" => lerc_told(rt, alloc, volumes, b"", row, 0, told),
            b"marked" => lerc_told(rt, alloc, volumes, row.bytes(0)?, row, 1, told),
            b"cuts" => cuts(rt, alloc, volumes, row, told),
            b"output_fails" => output_fails(rt, alloc, volumes, row, told),
            b"source_fails" => source_fails(rt, alloc, volumes, row, told),
            b"overview" => overview(rt, alloc, volumes, row, told),
            b"same" => same(alloc, volumes, row, told),
            b"half" => half_of(alloc, row, told),
            _ => Err(CaseStop::BadRow),
        }
    }
}

/// A call of the group `ascii`.
fn ascii_call(alloc: Global, row: &Row, told: &mut Told) -> Result<(), CaseStop> {
    match row.call.as_slice() {
        b"run" => ascii_run(alloc, row, told),
        b"read" => ascii_read(alloc, row, told),
        b"geo" => ascii_geo(alloc, row, told),
        b"write" => ascii_write(alloc, row, told),
        _ => Err(CaseStop::BadRow),
    }
}
