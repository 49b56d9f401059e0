//! What rows of cases call of the parts of blobs below the raster: lists and stuffed bits, names of
//! values, runs of masks, code tables and words, doubles, and loops over lists of numbers; and of
//! the symbols of a raster that are given piece by piece. Each call is given what its row says,
//! calls the library, and tells what came out.
//!
//! The contract that the layer above uses is that of `Calls`: a row that names none of these calls,
//! or gives what the library does not take, is told to be none.
#![tactic(auto)]

mod bits;
mod code_tables;
mod code_writing;
mod doubles;
mod lanes;
mod lists;
mod names;
mod runs;
mod ways;

use case_rows::{Calls, CaseStop, Row, Told};
use std::alloc::Global;

/// The calls of the groups `list`, `bits`, `name`, `mask`, `code`, `double`, `lane` and
/// `way`.
#[derive(Drop)]
pub struct ListCalls {
    alloc: Global,
}

impl ListCalls {
    /// All of these calls, with memory from there.
    pub fn new(alloc: Global) -> ListCalls {
        ListCalls { alloc }
    }
}

impl Calls for ListCalls {
    fn call(&mut self, row: &Row, told: &mut Told) -> Result<(), CaseStop> {
        let alloc = self.alloc;
        match row.group.as_slice() {
            b"list" => lists::call(alloc, row, told),
            b"bits" => bits::call(alloc, row, told),
            b"name" => names::call(alloc, row, told),
            b"mask" => runs::call(alloc, row, told),
            b"code" => code_tables::call(alloc, row, told),
            b"double" => doubles::call(row, told),
            b"lane" => lanes::call(alloc, row, told),
            b"way" => ways::call(alloc, row, told),
            _ => Err(CaseStop::BadRow),
        }
    }
}
