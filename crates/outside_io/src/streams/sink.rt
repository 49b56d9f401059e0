//! Sinks: where bytes go to.

ghost use Rattle.std.specs.Prelude.{◌≡◌, ℕ, ◌<◌, ◌≤◌, List, Option, IfOk, OnOk, OnErr, length};
ghost use Rattle.outside_io.specs.streams.Faults.{CountsFaults};
ghost use Rattle.outside_io.specs.streams.Sink.{Gives, Holds, HoldsPrefix};

use super::failed::Failed;

/// Where bytes go to.
pub trait Sink {
    /// The bytes taken so far, where the sink tells them.
    ghost held: { Self → Option (List ℕ) };

    /// How often a call has failed. It never falls.
    ghost faults: { Self → ℕ };

    /// Gives bytes to the sink, which takes some of them from the front, and answers how many.
    ///
    /// A sink that can take nothing of a piece that is not empty answers `Failed`. `Failed` takes
    /// no byte.
    fn give(&mut self, bytes: &[u8]) -> Result<usize, Failed>
        ensures within { IfOk result (λ n. n ≤ length bytes.now) }
        ensures some { IfOk result (λ n. 0 < length bytes.now → 0 < n) }
        ensures bytes { Gives (held self.old) (held self.new) result bytes.now }
        ensures counted { CountsFaults result (faults self.old) (faults self.new) };
}

/// Gives all the bytes, in as many calls as the sink wants. It ends at the first failure, where
/// the sink has taken a prefix of them. It gives no empty piece, and takes no memory.
pub fn give_all<K: Sink>(sink: &mut K, bytes: &[u8]) -> Result<(), Failed>
    ensures ok { OnOk result (Holds (K.held sink.old) (K.held sink.new) bytes.now) }
    ensures err { OnErr result (HoldsPrefix (K.held sink.old) (K.held sink.new) bytes.now) }
    ensures unchanged { length bytes.now ≡ 0 → sink.new ≡ sink.old }
    ensures counted { CountsFaults result (K.faults sink.old) (K.faults sink.new) }
{
    let mut at = 0;
    while at < bytes.len() {
        let n = sink.give(&bytes[at..])?;
        at += n;
    }
    Ok(())
}
