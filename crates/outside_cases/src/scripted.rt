//! A file of std in memory whose calls go as a script says.

use std::io;
use std::io::{ErrorKind, Read, Write};

/// Bytes that calls read or write over, from the front on. Each letter of the script is a call:
/// `i` is interrupted, `!` fails, and a digit moves so many bytes at most. Calls behind them move
/// all that they can.
#[derive(Drop)]
pub(crate) struct Scripted {
    pub(crate) script: Vec<u8>,
    pub(crate) bytes: Vec<u8>,
    pub(crate) at: usize,
    pub(crate) calls: usize,
}

impl Scripted {
    /// How many bytes the next call may move.
    fn turn(&mut self) -> io::Result<usize> {
        let call = self.calls;
        self.calls = call.saturating_add(1);
        match self.script.get(call) {
            Some(b'i') => Err(io::Error::from(ErrorKind::Interrupted)),
            Some(b'!') => Err(io::Error::from(ErrorKind::Other)),
            Some(digit) => Ok(usize::from(digit.saturating_sub(b'0'))),
            None => Ok(usize::MAX),
        }
    }
}

impl Read for Scripted {
    fn read(&mut self, buf: &mut [u8]) -> io::Result<usize> {
        let most = self.turn()?;
        let from = self.at.min(self.bytes.len());
        let n = (self.bytes.len() - from).min(buf.len()).min(most);
        buf[..n].copy_from_slice(&self.bytes[from..from + n]);
        self.at = from + n;
        Ok(n)
    }
}

impl Write for Scripted {
    fn write(&mut self, bytes: &[u8]) -> io::Result<usize> {
        let most = self.turn()?;
        let from = self.at.min(self.bytes.len());
        let n = (self.bytes.len() - from).min(bytes.len()).min(most);
        self.bytes[from..from + n].copy_from_slice(&bytes[..n]);
        self.at = from + n;
        Ok(n)
    }

    fn flush(&mut self) -> io::Result<()> {
        Ok(())
    }
}
