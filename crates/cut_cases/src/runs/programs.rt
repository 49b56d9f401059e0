//! Runs of programs: their words, their output and what they leave.

use crate::words::outcomes::join_texts;
use case_rows::{CaseStop, Told};
use outside_io::{Bytes, MemSink, Word};
use std::alloc::Global;
use volume_rows::Failing;

/// How many bytes a sink holds.
const ROOM: usize = 1_000_000;

/// What a run leaves.
#[derive(Drop)]
pub(crate) struct Left {
    pub(crate) status: u8,
    pub(crate) out: MemSink,
    pub(crate) err: MemSink,
}

impl Left {
    /// Tells the status, the output and the line of errors.
    pub(crate) fn tell(&self, told: &mut Told) -> Result<(), CaseStop> {
        told.word(self.status)?;
        told.bytes(self.out.held())?;
        told.bytes(self.err.held())
    }

    /// The same as one text.
    pub(crate) fn text(&self, alloc: Global) -> Result<Vec<u8>, CaseStop> {
        let status = format!(in alloc; "{}", self.status)?;
        let mut text = join_texts(alloc, status.as_bytes(), self.out.held())?;
        text.extend_from_slice(self.err.held())?;
        Ok(text)
    }
}

/// No call of a volume fails.
pub(crate) fn no_failing(alloc: Global) -> Failing {
    Failing {
        calls: Vec::new(alloc),
        stop: None,
    }
}

/// The words of a line, between which blanks stand.
pub(crate) fn words_of(alloc: Global, line: &[u8]) -> Result<Vec<Word>, CaseStop> {
    let mut words = Vec::new(alloc);
    for word in line.split(|byte| *byte == b' ') {
        if !word.is_empty() {
            words.push(Word::new(word.to_vec(alloc)?))?;
        }
    }
    Ok(words)
}

/// A sink that takes so many bytes a call, and whose calls of these numbers fail.
pub(crate) fn sink(alloc: Global, piece: usize, failing: &[u8]) -> Result<MemSink, CaseStop> {
    let failing = Bytes::of(alloc, failing)?;
    Ok(MemSink::new(alloc, piece.max(1), failing, ROOM)?)
}
