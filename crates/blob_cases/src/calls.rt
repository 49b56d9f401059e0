//! Which calls are whose.

use crate::{encoding, feeds, grids, headers, tiles};
use case_rows::{Calls, CaseStop, Row, Told};
use std::alloc::Global;

/// The calls of the groups `header`, `blob`, `feed`, `tile`, `grid` and `bands`.
#[derive(Drop)]
pub struct BlobCalls {
    alloc: Global,
}

impl BlobCalls {
    /// They take what memory they need of this.
    pub fn new(alloc: Global) -> Self {
        BlobCalls { alloc }
    }
}

impl Calls for BlobCalls {
    fn call(&mut self, row: &Row, told: &mut Told) -> Result<(), CaseStop> {
        match row.group.as_slice() {
            b"header" => headers::call(row, told),
            b"blob" => encoding::call(self.alloc, row, told),
            b"feed" => feeds::call(self.alloc, row, told),
            b"tile" => tiles::call(self.alloc, row, told),
            b"grid" => grids::call(self.alloc, false, row, told),
            b"bands" => grids::call(self.alloc, true, row, told),
            _ => Err(CaseStop::BadRow),
        }
    }
}
