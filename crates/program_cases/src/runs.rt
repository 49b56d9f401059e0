//! What a run is given and what it leaves.

ghost use Rattle.std.specs.Prelude.{◌<◌};

use case_rows::{CaseStop, Row, Told};
use outside_io::{Bytes, MemSink, MemSource, Report, Word};
use std::alloc::Global;

/// The words of a text with blanks between them. An empty text has none.
pub(crate) fn words_of(alloc: Global, row: &Row, at: usize) -> Result<Vec<Word>, CaseStop> {
    let mut list = Vec::new(alloc);
    let text = row.text(at)?;
    if text.is_empty() {
        return Ok(list);
    }
    for word in text.split(' ') {
        list.push(Word::of(alloc, word)?)?;
    }
    Ok(list)
}

/// An input of these bytes that a call gives so many of at most. The calls of these numbers fail.
pub(crate) fn source_of(
    alloc: Global,
    input: &[u8],
    piece: usize,
    failing: &[u8],
) -> Result<MemSource, CaseStop> {
    if piece == 0 {
        return Err(CaseStop::BadRow);
    }
    let failing = Bytes::of(alloc, failing)?;
    Ok(MemSource::new(Bytes::of(alloc, input)?, piece, failing))
}

/// An output of which a call takes so many bytes at most. The calls of these numbers fail.
pub(crate) fn sink_of(alloc: Global, piece: usize, failing: &[u8]) -> Result<MemSink, CaseStop> {
    if piece == 0 {
        return Err(CaseStop::BadRow);
    }
    Ok(MemSink::new(alloc, piece, Bytes::of(alloc, failing)?, 100_000)?)
}

/// What a run leaves, and the last moment of its volume.
#[derive(Drop)]
pub(crate) struct Left {
    pub(crate) report: Report,
    pub(crate) out: MemSink,
    pub(crate) err: MemSink,
    pub(crate) moment: u64,
}

impl Left {
    /// Whether it is this, whatever the marks.
    pub(crate) fn is(&self, status: u8, output: &[u8], line: &[u8]) -> bool {
        self.report.status == status && self.out.held() == output && self.err.held() == line
    }

    /// Tells all but the marks.
    pub(crate) fn tell_streams(&self, told: &mut Told) -> Result<(), CaseStop> {
        told.word(self.report.status)?;
        told.bytes(self.out.held())?;
        told.bytes(self.err.held())
    }

    /// Tells it.
    pub(crate) fn tell(&self, told: &mut Told) -> Result<(), CaseStop> {
        self.tell_streams(told)?;
        told.word(self.report.marks.len())
    }
}
