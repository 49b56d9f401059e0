//! A call of std's reader or writer that is made again where it was interrupted.

ghost use Rattle.std.specs.Prelude.{◌≤◌, IfOk, IfSome, length};

use std::io;
use std::io::{ErrorKind, Read, Write};

/// Reads once. An interrupted call has read nothing, and is made again, 2^64 - 1 times in all.
pub(crate) fn read_some<F: Read>(reader: &mut F, buf: &mut [u8]) -> io::Result<usize>
    ensures { IfOk result (λ n. n ≤ length buf.new) }
{
    for _ in 0..u64::MAX {
        match reader.read(buf) {
            Err(error) if error.kind() == ErrorKind::Interrupted => {}
            read => return read,
        }
    }
    Err(io::Error::from(ErrorKind::Interrupted))
}

/// Writes once, as `read_some` reads. None where the writer fails.
pub(crate) fn write_some<F: Write>(writer: &mut F, bytes: &[u8]) -> Option<usize>
    ensures { IfSome result (λ n. n ≤ length bytes.now) }
{
    for _ in 0..u64::MAX {
        match writer.write(bytes) {
            Ok(n) => return Some(n),
            Err(error) if error.kind() == ErrorKind::Interrupted => {}
            Err(_) => return None,
        }
    }
    None
}
