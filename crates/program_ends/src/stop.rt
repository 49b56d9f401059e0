//! Why a run stops.

ghost use Rattle.std.specs.Prelude.{◌≡◌, ◌≤◌, ℕ, List, length};
ghost use Rattle.program_ends.specs.Stop.{IsRefusalStatus, status_by};

use outside_io::Line;

/// Why a run did not give its output whole. Whatever no object and no memory is the cause of is
/// refused for a reason of the program's own.
#[derive(Clone, Copy)]
pub enum Stop<R> {
    /// The words are no command.
    Usage,
    /// The source failed.
    Source,
    /// The output failed.
    Output,
    /// The volume failed.
    Volume,
    /// Memory was refused.
    OutOfMemory,
    /// The program refuses what it was given.
    Refused(R),
}

/// Why a program refuses what it was given.
pub trait Refusal {
    /// The status of the reason: 2, or one above 6. The others are those of the other stops.
    ghost status: { Self → ℕ };

    /// The text of the line that tells of it.
    ghost text: { Self → List ℕ };

    /// The status that the program ends with.
    fn status(&self) -> u8
        ensures is { result ≡ status self.now }
        ensures own { IsRefusalStatus result };

    /// The text, of at most 190 bytes.
    fn text(&self) -> Line
        ensures text { result ≡ text self.now }
        ensures short { length result ≤ 190 };
}

impl<R: Refusal> Stop<R> {
    /// The status that the program ends with.
    pub fn status(&self) -> u8
        ensures { result ≡ status_by R.status self.now }
    {
        match self {
            Stop::Usage => 1,
            Stop::Source => 3,
            Stop::Output => 4,
            Stop::Volume => 5,
            Stop::OutOfMemory => 6,
            Stop::Refused(refusal) => refusal.status(),
        }
    }
}
