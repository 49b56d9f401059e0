//! Why the program refuses, beside the stops of any program.

ghost use Rattle.std.specs.Prelude.{◌≡◌, ◌≤◌, length};
ghost use Rattle.bundle_pack.specs.Names.{kept_text, stop_of, store_stop_of, with_store};
ghost use Rattle.opened_bundle.specs.Refusals.{stop_of as bundle_stop_of};

use crate::fault::PackFault;
use bundle_store::StoreFault;
use opened_bundle::{StoreRefusal, stop_from};
use outside_io::Line;
use program_ends::Stop;

/// Why the program refuses. Its status is 7.
#[derive(Clone, Copy)]
pub enum Refusal {
    /// The store of a source, or of the target, refuses.
    Store(StoreRefusal),
    /// The chosen tiles have this many bytes together, and that is more than 2^30.
    KeptTooMuch { len: u64 },
}

impl program_ends::Refusal for Refusal {
    ghost use Rattle.bundle_pack.specs.Names.{refusal_status, refusal_text};

    ghost status = { refusal_status };

    ghost text = { refusal_text };

    fn status(&self) -> u8 {
        7
    }

    fn text(&self) -> Line {
        match self {
            Refusal::Store(refusal) => program_ends::Refusal::text(refusal),
            Refusal::KeptTooMuch { len } => kept_line(*len),
        }
    }
}

/// The text of tiles that have too many bytes.
fn kept_line(len: u64) -> Line
    ensures text { result ≡ kept_text len }
    ensures short { length result ≤ 190 }
{
    let mut line = Line::new();
    line.text(b"store: KeptTooMuch");
    line.number(len);
    line
}

/// A stop of one bundle, as one of the program.
fn of_bundle(stop: Stop<StoreRefusal>) -> Stop<Refusal>
    ensures { result ≡ with_store stop }
{
    match stop {
        Stop::Usage => Stop::Usage,
        Stop::Source => Stop::Source,
        Stop::Output => Stop::Output,
        Stop::Volume => Stop::Volume,
        Stop::OutOfMemory => Stop::OutOfMemory,
        Stop::Refused(refusal) => Stop::Refused(Refusal::Store(refusal)),
    }
}

/// Why packing refuses, as a stop of the program.
pub(crate) fn pack_stop(fault: PackFault) -> Stop<Refusal>
    ensures { result ≡ stop_of fault }
{
    match fault {
        PackFault::Source {
            slot: Some(slot),
            fault: StoreFault::Beyond { entry, got },
            ..
        } => Stop::Refused(Refusal::Store(StoreRefusal::Beyond {
            row: slot.row().into(),
            col: slot.col().into(),
            entry,
            got,
        })),
        PackFault::Source { fault, .. } => of_bundle(stop_from(fault)),
        PackFault::Target(fault) => of_bundle(stop_from(fault)),
        PackFault::KeptTooMuch { len } => Stop::Refused(Refusal::KeptTooMuch { len }),
        PackFault::OutOfMemory => Stop::OutOfMemory,
    }
}
