//! What several runs leave, each outcome once.

use case_rows::{CaseStop, Told};
use std::alloc::Global;

/// Outcomes, each once, in the order in which they came first.
#[derive(Drop)]
pub(crate) struct Outcomes {
    list: Vec<Vec<u8>>,
}

impl Outcomes {
    /// None yet.
    pub(crate) fn new(alloc: Global) -> Outcomes {
        Outcomes {
            list: Vec::new(alloc),
        }
    }

    /// This came out.
    pub(crate) fn add(&mut self, outcome: Vec<u8>) -> Result<(), CaseStop> {
        if !self.list.contains(&outcome) {
            self.list.push(outcome)?;
        }
        Ok(())
    }

    /// This came out at the end: it stands behind all others.
    pub(crate) fn end(&mut self, outcome: Vec<u8>) -> Result<(), CaseStop> {
        self.list.retain(|other| *other != outcome);
        self.list.push(outcome)?;
        Ok(())
    }

    /// Tells all of them.
    pub(crate) fn tell(&self, told: &mut Told) -> Result<(), CaseStop> {
        for outcome in &self.list {
            told.bytes(outcome)?;
        }
        Ok(())
    }

    /// All of them as one text, behind another one.
    pub(crate) fn text(&self, alloc: Global, front: &[u8]) -> Result<Vec<u8>, CaseStop> {
        let mut text = front.to_vec(alloc)?;
        for outcome in &self.list {
            text.push(b' ')?;
            text.extend_from_slice(outcome)?;
        }
        Ok(text)
    }
}

/// Two texts with a blank between them.
pub(crate) fn join_texts(alloc: Global, first: &[u8], second: &[u8]) -> Result<Vec<u8>, CaseStop> {
    let mut text = first.to_vec(alloc)?;
    text.push(b' ')?;
    text.extend_from_slice(second)?;
    Ok(text)
}
