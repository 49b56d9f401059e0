//! A reader of std as a source.

ghost use Rattle.std.specs.Prelude.{◌≡◌, None};

use super::failed::Failed;
use super::retry::read_some;
use super::source::Source;
use std::io::Read;

/// A reader of std as a source. It tells nothing of its bytes.
///
/// A read that was interrupted is made again. Any other error of the reader is a failure, and
/// counts up to 2^64 - 1.
#[derive(Drop)]
pub struct StdSource<R: Read> {
    reader: R,
    faults: u64,
}

impl<R: Read> StdSource<R> {
    /// The source that reads from `reader`, with no fault yet.
    pub fn new(reader: R) -> StdSource<R>
        ensures faults { ⟦<StdSource<R> as Source>⟧.faults result ≡ 0 }
        ensures left { ⟦<StdSource<R> as Source>⟧.left result ≡ None }
    {
        StdSource { reader, faults: 0 }
    }

    /// How often a call has failed, up to 2^64 - 1.
    pub fn faults(&self) -> u64
        ensures { result ≡ ⟦<StdSource<R> as Source>⟧.faults self.now }
    {
        self.faults
    }
}

impl<R: Read> Source for StdSource<R> {
    ghost left = { λ _. None };

    ghost faults = { λ s. s.faults };

    fn take(&mut self, buf: &mut [u8]) -> Result<usize, Failed> {
        if buf.is_empty() {
            return Ok(0);
        }
        if let Ok(n) = read_some(&mut self.reader, buf) {
            return Ok(n);
        }
        self.faults = self.faults.saturating_add(1);
        Err(Failed)
    }
}
