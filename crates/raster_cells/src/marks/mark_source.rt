//! Marks of pixels, however they are kept.

ghost use Rattle.std.specs.Prelude.{◌≡◌, ◌+◌, ◌<◌, ◌≤◌, Bool, List, false, get_or, length, true};
ghost use Rattle.raster_cells.specs.Runs.{run_places};
ghost use Rattle.raster_cells.specs.Words.{AreMarks};
ghost use Rattle.raster_cells.specs.MarkRuns.{AreRuns};

use crate::marks::bits::Run;
use crate::marks::lent_mask::LentMask;
use crate::marks::mask::Mask;

/// Which pixels are valid, whoever keeps it.
pub trait MarkSource {
    /// The mark of each pixel.
    ghost marks: { Self → List Bool };

    /// The number of pixels.
    fn len(&self) -> usize
        ensures value { result ≡ length (marks self.now) }
        ensures few { result ≤ 16777216 };

    /// How many of `count` pixels from `from` on are valid.
    fn count_run(&self, from: usize, count: usize) -> usize
        requires { from + count ≤ length (marks self.now) }
        ensures { result ≡ length (run_places (marks self.now) from count) };

    /// The marks of `count` pixels from `from` on, at most 32, as the bits of one number, the first
    /// as the highest.
    fn word(&self, from: usize, count: usize) -> u32
        requires some { 0 < count }
        requires few { count ≤ 32 }
        requires within { from + count ≤ length (marks self.now) }
        ensures { AreMarks (marks self.now) from count result };

    /// The next run of valid pixels from `at` on, before `limit`. It is empty, and at `limit`,
    /// where there is none.
    fn next_run(&self, at: usize, limit: usize) -> Run
        requires order { at ≤ limit }
        requires within { limit ≤ length (marks self.now) }
        ensures runs { AreRuns (marks self.now) at result.start result.end }
        ensures within { result.end ≤ limit }
        ensures begins { result.start < limit → get_or (marks self.now) result.start false ≡ true }
        ensures ends { result.end < limit → get_or (marks self.now) result.end false ≡ false }
        ensures forth { at < limit → at < result.end };
}

impl MarkSource for Mask {
    ghost marks = { λ m. m };

    fn len(&self) -> usize {
        Mask::len(self)
    }

    fn count_run(&self, from: usize, count: usize) -> usize {
        Mask::count_run(self, from, count)
    }

    #[inline(always)]
    fn word(&self, from: usize, count: usize) -> u32 {
        Mask::word(self, from, count)
    }

    fn next_run(&self, at: usize, limit: usize) -> Run {
        Mask::next_run(self, at, limit)
    }
}

impl<'m> MarkSource for LentMask<'m> {
    ghost marks = { λ m. m };

    fn len(&self) -> usize {
        LentMask::len(self)
    }

    fn count_run(&self, from: usize, count: usize) -> usize {
        LentMask::count_run(self, from, count)
    }

    #[inline(always)]
    fn word(&self, from: usize, count: usize) -> u32 {
        LentMask::word(self, from, count)
    }

    fn next_run(&self, at: usize, limit: usize) -> Run {
        LentMask::next_run(self, at, limit)
    }
}
