//! Bytes that have a name in the rows behind the one that gives it.

use crate::stop::CaseStop;
use std::alloc::{AllocError, Global};
use std::collections::BTreeMap;

/// Bytes by their names.
#[derive(Drop)]
pub struct Names {
    named: BTreeMap<Vec<u8>, Vec<u8>>,
}

impl Names {
    /// No names.
    pub fn new(alloc: Global) -> Self {
        Names {
            named: BTreeMap::new(alloc),
        }
    }

    /// The bytes of that name.
    pub(crate) fn find(&self, name: &[u8]) -> Result<&[u8], CaseStop> {
        match self.named.get(name) {
            Some(bytes) => Ok(bytes.as_slice()),
            None => Err(CaseStop::BadRow),
        }
    }

    /// Gives the bytes that name, also where others had it.
    pub(crate) fn keep(&mut self, name: Vec<u8>, bytes: Vec<u8>) -> Result<(), AllocError> {
        self.named.insert(name, bytes)?;
        Ok(())
    }
}
