//! Whether a source has one byte more.

ghost use Rattle.outside_io.specs.streams.Asks.{AsksOne};
ghost use Rattle.outside_io.specs.streams.Faults.{CountsFaults};

use super::failed::Failed;
use super::source::{Source, take_all};

/// Whether the source has one byte more, which is taken. A program asks so behind its input, so
/// that it knows the end.
pub fn has_more<S: Source>(src: &mut S) -> Result<bool, Failed>
    ensures asks { AsksOne result (S.left src.old) (S.left src.new) }
    ensures counted { CountsFaults result (S.faults src.old) (S.faults src.new) }
{
    let mut buf = [0; 1];
    match take_all(src, &mut buf) {
        Ok(0) => Ok(false),
        Ok(_) => Ok(true),
        Err(failed) => Err(failed),
    }
}
