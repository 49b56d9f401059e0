//! A writer of std as a sink.

ghost use Rattle.std.specs.Prelude.{◌≡◌, None};

use super::failed::Failed;
use super::retry::write_some;
use super::sink::Sink;
use std::io::Write;

/// A writer of std as a sink. It tells nothing of its bytes.
///
/// A write that was interrupted is made again. Any other error of the writer is a failure, and so
/// is a piece that is not empty of which it takes nothing. Failures count up to 2^64 - 1.
#[derive(Drop)]
pub struct StdSink<W: Write> {
    writer: W,
    faults: u64,
}

impl<W: Write> StdSink<W> {
    /// The sink that writes to `writer`, with no fault yet.
    pub fn new(writer: W) -> StdSink<W>
        ensures faults { ⟦<StdSink<W> as Sink>⟧.faults result ≡ 0 }
        ensures held { ⟦<StdSink<W> as Sink>⟧.held result ≡ None }
    {
        StdSink { writer, faults: 0 }
    }

    /// How often a call has failed, up to 2^64 - 1.
    pub fn faults(&self) -> u64
        ensures { result ≡ ⟦<StdSink<W> as Sink>⟧.faults self.now }
    {
        self.faults
    }
}

impl<W: Write> Sink for StdSink<W> {
    ghost held = { λ _. None };

    ghost faults = { λ s. s.faults };

    fn give(&mut self, bytes: &[u8]) -> Result<usize, Failed> {
        if let Some(n) = write_some(&mut self.writer, bytes) {
            if n > 0 || bytes.is_empty() {
                return Ok(n);
            }
        }
        self.faults = self.faults.saturating_add(1);
        Err(Failed)
    }
}
