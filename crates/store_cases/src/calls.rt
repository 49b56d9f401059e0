//! The groups of calls.

use crate::{index_rows, journal_rows, stream_rows};
use case_rows::{Calls, CaseStop, Row, Told};
use std::alloc::Global;
use volume_rows::Volumes;

/// Calls of the libraries that the store stands on, over volumes that rows have made: the groups
/// `index`, `journal` and `stream`. What a call is given, and what it tells, stands with its
/// function.
#[derive(Drop)]
pub struct StoreCalls<'v> {
    alloc: Global,
    volumes: &'v mut Volumes,
}

impl<'v> StoreCalls<'v> {
    /// The calls over these volumes.
    pub fn new(alloc: Global, volumes: &'v mut Volumes) -> StoreCalls<'v> {
        StoreCalls { alloc, volumes }
    }
}

impl Calls for StoreCalls<'_> {
    fn call(&mut self, row: &Row, told: &mut Told) -> Result<(), CaseStop> {
        let (alloc, volumes) = (self.alloc, &mut *self.volumes);
        match row.group.as_slice() {
            b"index" => index_rows::call(row, told),
            b"journal" => journal_rows::call(alloc, volumes, row, told),
            b"stream" => stream_rows::call(alloc, row, told),
            _ => Err(CaseStop::BadRow),
        }
    }
}
