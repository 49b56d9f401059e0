//! Bytes taken from a source before they are asked for, so that a call of it takes many.

ghost use Rattle.std.specs.Prelude.{◌≡◌, ◌+◌, ◌≤◌, ◌<◌, ◌++◌, [], IfOk, OnOk, OnErr, length, min, take, drop};
ghost use Rattle.outside_io.specs.streams.Faults.{CountsFaults};
ghost use Rattle.outside_io.specs.streams.Source.{IsAtEnd};
ghost use Rattle.raster_grids.specs.Taken.{TookSome};
ghost use Rattle.raster_grids.specs.inside.TakenRun.{TakesRun, behind};

use crate::PIECE;
use outside_io::{Failed, Source, take_all};
use std::marker::Model;

/// Bytes of a source that wait to be asked for, and how many more may be taken from it.
///
/// A contract sees the bytes that wait, and this number.
#[derive(Drop)]
pub struct Ahead {
    buffer: [u8; PIECE],
    from: usize,
    end: usize,
    more: usize,
}

impl Model for Ahead {
    ghost use Rattle.std.specs.Prelude.{◌-◌, ◌≤◌, take, drop};
    ghost use Rattle.raster_grids.specs.inside.TakenRun.{AheadOf};

    ghost Value = { AheadOf };

    ghost view = { λ a. record {
      waiting = take (a.end - a.from) (drop a.from a.buffer);
      more = a.more;
    } };

    ghost invariant = { λ a. (a.from ≤ a.end) × (a.end ≤ 65536) };
}

impl Ahead {
    /// No bytes wait, and so many may be taken.
    pub fn of(more: usize) -> Ahead
        ensures { result ≡ record { waiting = []; more = more } }
    {
        Ahead {
            buffer: [0; PIECE],
            from: 0,
            end: 0,
            more,
        }
    }

    /// Lays the first bytes that wait over the front of `out`, as many as there are and have room,
    /// and answers how many.
    fn lay(&mut self, out: &mut [u8]) -> usize
        ensures count { result ≡ min (length self.old.waiting) (length out.old) }
        ensures out { out.new ≡ take result self.old.waiting ++ drop result out.old }
        ensures rest { self.new ≡ record self.old { waiting = drop result self.old.waiting } }
    {
        let n = out.len().min(self.end - self.from);
        out[..n].copy_from_slice(&self.buffer[self.from..self.from + n]);
        self.from += n;
        n
    }

    /// Takes a piece of the source, where no bytes wait.
    fn fill<S: Source>(&mut self, src: &mut S) -> Result<(), Failed>
        requires { self.old.waiting ≡ [] }
        ensures same { OnOk result (behind self.new.waiting (S.left src.new) ≡ S.left src.old) }
        ensures more { OnOk result (length self.new.waiting + self.new.more ≡ self.old.more) }
        ensures end { OnOk result
            (length self.new.waiting < min 65536 self.old.more → IsAtEnd (S.left src.new)) }
        ensures err { OnErr result (TookSome (S.left src.old) (S.left src.new)) }
        ensures counted { CountsFaults result (S.faults src.old) (S.faults src.new) }
    {
        let want = PIECE.min(self.more);
        let n = take_all(src, &mut self.buffer[..want])?;
        self.from = 0;
        self.end = n;
        self.more -= n;
        Ok(())
    }

    /// Takes bytes over all of `out`, and answers how many there were: those that wait, and then
    /// those of the source. What no piece has room for, or is all that may be taken, goes straight
    /// to its place.
    pub fn take<S: Source>(&mut self, src: &mut S, out: &mut [u8]) -> Result<usize, Failed>
        requires { length out.old ≤ length self.old.waiting + self.old.more }
        ensures taken { TakesRun result (behind self.old.waiting (S.left src.old))
            (behind self.new.waiting (S.left src.new)) out.new }
        ensures more { IfOk result (λ n. length self.new.waiting + self.new.more + n
            ≡ length self.old.waiting + self.old.more) }
        ensures some { OnErr result
            (TookSome (behind self.old.waiting (S.left src.old)) (S.left src.new)) }
        ensures counted { CountsFaults result (S.faults src.old) (S.faults src.new) }
    {
        let n = self.lay(out);
        if n == out.len() {
            return Ok(n);
        }
        let rest = &mut out[n..];
        if rest.len() >= PIECE.min(self.more) {
            let got = take_all(src, rest)?;
            self.more -= got;
            return Ok(n + got);
        }
        self.fill(src)?;
        Ok(n + self.lay(rest))
    }
}
