//! Sources: where bytes come from.

ghost use Rattle.std.specs.Prelude.{◌≡◌, ℕ, ◌-◌, ◌<◌, ◌≤◌, List, Option, IfOk, OnErr, Ok, length};
ghost use Rattle.outside_io.specs.streams.Faults.{CountsFaults};
ghost use Rattle.outside_io.specs.streams.Source.{Takes, TakesFront, TakesUpTo, IsAtEnd};

use super::failed::Failed;

/// Where bytes come from.
pub trait Source {
    /// The bytes still to come, where the source tells them.
    ghost left: { Self → Option (List ℕ) };

    /// How often a call has failed. It never falls.
    ghost faults: { Self → ℕ };

    /// Takes bytes to the front of the buffer, in their order, and answers how many.
    ///
    /// An answer of 0 for a buffer that is not empty is the end of the bytes. `Failed` takes no
    /// byte. What the buffer holds behind the bytes taken, and after a failure, is not said.
    fn take(&mut self, buf: &mut [u8]) -> Result<usize, Failed>
        ensures within { IfOk result (λ n. n ≤ length buf.new) }
        ensures bytes { Takes (left self.old) (left self.new) result buf.new }

        // An empty buffer changes nothing.
        ensures empty { length buf.old ≡ 0 → result ≡ Ok 0 }
        ensures unchanged { length buf.old ≡ 0 → self.new ≡ self.old }
        ensures counted { CountsFaults result (faults self.old) (faults self.new) };
}

/// Takes bytes until the buffer is full or none is left, and answers how many. It ends at the
/// first failure, and the bytes taken up to there, fewer than the buffer takes, are lost. It makes
/// no call for no bytes.
pub fn take_all<S: Source>(source: &mut S, buf: &mut [u8]) -> Result<usize, Failed>
    ensures within { IfOk result (λ n. n ≤ length buf.new) }
    ensures bytes { IfOk result
        (λ n. TakesFront (S.left source.old) (S.left source.new) n buf.new) }
    ensures end { IfOk result (λ n. n < length buf.new → IsAtEnd (S.left source.new)) }
    ensures err { OnErr result
        (TakesUpTo (length buf.new - 1) (S.left source.old) (S.left source.new)) }
    ensures unchanged { length buf.old ≡ 0 → source.new ≡ source.old }
    ensures counted { CountsFaults result (S.faults source.old) (S.faults source.new) }
{
    let mut at = 0;
    while at < buf.len() {
        let n = source.take(&mut buf[at..])?;
        if n == 0 {
            break;
        }
        at += n;
    }
    Ok(at)
}
