//! The groups of calls that rows name, and the crates that have them.

use blob_cases::BlobCalls;
use case_rows::{Calls, CaseStop, Row, Told};
use cut_cases::cut_call;
use list_cases::ListCalls;
use outside_cases::OutsideCalls;
use program_cases::ProgramCalls;
use std::alloc::Global;
use std::thread::Threads;
use store_cases::{StoreCalls, update_call};
use volume_rows::Volumes;

/// All groups: what they keep from row to row.
#[derive(Drop)]
pub(crate) struct Groups {
    alloc: Global,
    volumes: Volumes,
    outside: OutsideCalls,
}

impl Groups {
    pub(crate) fn new(alloc: Global) -> Self {
        Groups {
            alloc,
            volumes: Volumes::new(alloc),
            outside: OutsideCalls::new(alloc),
        }
    }

    /// A call over the volumes.
    fn call_over_volumes(
        &mut self,
        rt: &(impl Threads + Sync),
        row: &Row,
        told: &mut Told,
    ) -> Result<(), CaseStop> {
        match row.group.as_slice() {
            b"run" | b"ascii" => {
                ProgramCalls::new(rt, self.alloc).call(&mut self.volumes, row, told)
            }
            b"index" | b"journal" | b"stream" => {
                StoreCalls::new(self.alloc, &mut self.volumes).call(row, told)
            }
            _ => cut_call(rt, self.alloc, &mut self.volumes, row, told),
        }
    }

    /// Calls what the row names and tells what came out. `BadRow` where nothing has that name.
    pub(crate) fn call(
        &mut self,
        rt: &(impl Threads + Sync),
        row: &Row,
        told: &mut Told,
    ) -> Result<(), CaseStop> {
        match row.group.as_slice() {
            b"show" => told.bytes(row.bytes(0)?),
            b"list" | b"bits" | b"name" | b"mask" | b"code" | b"way" | b"double" | b"lane" => {
                ListCalls::new(self.alloc).call(row, told)
            }
            b"header" | b"blob" | b"feed" | b"tile" | b"grid" | b"bands" => {
                BlobCalls::new(self.alloc).call(row, told)
            }
            b"outside" | b"desk" => self.outside.call(row, told),
            b"updates" => update_call(rt, self.alloc, row, told),
            _ => self.call_over_volumes(rt, row, told),
        }
    }
}
