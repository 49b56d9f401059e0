//! Two files and one clock: the trait, the volume in memory, the files of the machine, and the
//! volume that has none.

ghost use Rattle.std.specs.Prelude.{◌≡◌, ◌+◌, ◌^◌, ◌≤◌, ℕ, Bool, length, IsTrue, IfOk, OnOk, OnErr};
ghost use Rattle.outside_io.specs.volume.Disk.{FailedCut, FailedWrite, Struck, change, shortened, synced, wrote};
ghost use Rattle.outside_io.specs.streams.Faults.{CountsFaults};
ghost use Rattle.outside_io.specs.volume.History.{History, IsPresent, ReadsAt, Ticks, contents, current};

mod backing;
mod call_log;
mod failures;
mod file_volume;
mod folder;
mod image;
mod mem_volume;
mod no_volume;
mod start;
mod tally;

use crate::Failed;
pub use failures::Failure;
pub use file_volume::FileVolume;
pub use image::Pick;
pub use mem_volume::MemVolume;
pub use no_volume::NoVolume;
pub use start::{Piece, Start};

/// One of the two files of a volume.
#[derive(Clone, Copy, Debug, PartialEq, Eq)]
pub enum VolFile {
    /// The file that holds the tiles.
    Bundle,
    /// The file beside it that holds an update under way.
    Journal,
}

/// Two files and one clock. A file that does not exist is a file of length 0.
///
/// Each call but `moment` takes one moment of the clock, whatever it answers, and leaves the files
/// of every earlier moment as they were. At the clock's end, 2^64 - 1, each of them answers
/// Failed, and changes neither the clock nor the files; the count of faults may rise. A call on
/// one file leaves the other as it was. What a crash inside a call leaves is an image of the
/// moment before the call or of the moment after it.
pub trait Volume {
    /// Whether it tells what its files hold and what a crash may leave of them. No call changes
    /// this.
    ghost told: { Self → Bool };

    /// The clock, and both files at each moment so far.
    ghost history: { Self → History };

    /// How often a call has failed, up to 2^64 - 1.
    ghost faults: { Self → ℕ };

    /// The file's length in bytes.
    fn len(&mut self, file: VolFile) -> Result<u64, Failed>
        ensures answer { IsTrue (told self.old) → IfOk result
            (λ n. n ≡ length (contents file (history self.old))) }
        ensures disk { IsTrue (told self.old) → current (history self.new)
            ≡ current (history self.old) }
        ensures time { Ticks (history self.old) (history self.new) result }
        ensures told { told self.new ≡ told self.old }
        ensures counted { CountsFaults result (faults self.old) (faults self.new) };

    /// Puts the bytes from `at` on, as many as there are and as `buf` takes, in front of `buf`,
    /// and answers how many.
    fn read(&mut self, file: VolFile, at: u64, buf: &mut [u8]) -> Result<usize, Failed>
        ensures bound { IfOk result (λ n. n ≤ length buf.old) }
        ensures answer { IsTrue (told self.old) → IfOk result
            (λ n. ReadsAt (contents file (history self.old)) at n buf.old buf.new) }
        ensures disk { IsTrue (told self.old) → current (history self.new)
            ≡ current (history self.old) }
        ensures time { Ticks (history self.old) (history self.new) result }
        ensures told { told self.new ≡ told self.old }
        ensures counted { CountsFaults result (faults self.old) (faults self.new) };

    /// Lays the bytes over the file from `at` on, which is in the file or at its end. Until the
    /// next sync of the file a crash may leave anything in their place, and any length from the
    /// old to the new. A write that fails may have been begun.
    fn write(&mut self, file: VolFile, at: u64, bytes: &[u8]) -> Result<(), Failed>
        requires within { IsTrue (told self.old) → at ≤ length (contents file (history self.old)) }
        requires end { at + length bytes.now ≤ 2 ^ 62 }
        ensures ok { IsTrue (told self.old) → OnOk result (current (history self.new)
            ≡ change file (wrote at bytes.now) (current (history self.old))) }
        ensures failed { IsTrue (told self.old) → OnErr result
            (FailedWrite file at bytes.now (current (history self.old))
            (current (history self.new))) }
        ensures crash { IsTrue (told self.old) → Struck file (wrote at bytes.now)
            (current (history self.old)) (current (history self.new)) }
        ensures time { Ticks (history self.old) (history self.new) result }
        ensures told { told self.new ≡ told self.old }
        ensures counted { CountsFaults result (faults self.old) (faults self.new) };

    /// Shortens the file to `len` bytes. Until the next sync of the file a crash may leave any
    /// length that it has had since the last one. A cut that fails was done in whole or not at
    /// all.
    fn cut(&mut self, file: VolFile, len: u64) -> Result<(), Failed>
        requires { IsTrue (told self.old) → len ≤ length (contents file (history self.old)) }
        ensures ok { IsTrue (told self.old) → OnOk result (current (history self.new)
            ≡ change file (shortened len) (current (history self.old))) }
        ensures failed { IsTrue (told self.old) → OnErr result
            (FailedCut file len (current (history self.old)) (current (history self.new))) }
        ensures crash { IsTrue (told self.old) → Struck file (shortened len)
            (current (history self.old)) (current (history self.new)) }
        ensures time { Ticks (history self.old) (history self.new) result }
        ensures told { told self.new ≡ told self.old }
        ensures counted { CountsFaults result (faults self.old) (faults self.new) };

    /// After an Ok a crash leaves of the file what a read gives, and nothing is pending on it. A
    /// sync that fails adds nothing to what a crash may leave.
    fn sync(&mut self, file: VolFile) -> Result<(), Failed>
        ensures ok { IsTrue (told self.old) → OnOk result (current (history self.new)
            ≡ change file synced (current (history self.old))) }
        ensures crash { IsTrue (told self.old) → Struck file (λ f. f) (current (history self.old))
            (current (history self.new)) }
        ensures time { Ticks (history self.old) (history self.new) result }
        ensures told { told self.new ≡ told self.old }
        ensures counted { CountsFaults result (faults self.old) (faults self.new) };

    /// The clock: how many of the five calls above there have been, up to 2^64 - 1.
    fn moment(&self) -> u64
        ensures { result ≡ (history self.now).moment };

    /// What a read gives is one of the images.
    ghost present: { (vol : Self) → IsTrue (told vol) → IsPresent (history vol) };
}
