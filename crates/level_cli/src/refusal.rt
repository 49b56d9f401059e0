//! The program's own reasons for a stop, beside those of any program.

ghost use Rattle.std.specs.Prelude.{◌≡◌, ◌≤◌, length};
ghost use Rattle.level_cli.specs.Names.{fault_text, input_stop_of, level_stop_of, name_of, refusal_text, store_stop_of};

use bundle_store::StoreFault;
use grid_blobs::{InputFault, InputReason, InputStop};
use level_cache::{LevelFault, Place};
use opened_bundle::{StoreRefusal, add_two};
use outside_io::Line;
use program_ends::Stop;
use reason_names::grid_name;

/// Why the program refuses what it was given.
#[derive(Clone, Copy)]
pub enum Refusal {
    /// The input is not one grid that the version has a place for. Its status is 2.
    Input(InputFault),
    /// The store refuses. Its status is 7, as that of the next.
    Store(StoreRefusal),
    /// The blobs have this many bytes, more than a tile may have.
    TooLarge { len: u64 },
    /// The shelf failed. Its status is 8.
    ShelfFailed,
}

impl program_ends::Refusal for Refusal {
    ghost use Rattle.level_cli.specs.Names.{refusal_status, refusal_text};

    ghost status = { refusal_status };

    ghost text = { refusal_text };

    fn status(&self) -> u8 {
        match self {
            Refusal::Input(_) => 2,
            Refusal::Store(_) => 7,
            Refusal::TooLarge { .. } => 7,
            Refusal::ShelfFailed => 8,
        }
    }

    fn text(&self) -> Line {
        match self {
            Refusal::Input(fault) => fault_line(*fault),
            Refusal::Store(refusal) => program_ends::Refusal::text(refusal),
            Refusal::TooLarge { len } => too_large_line(*len),
            Refusal::ShelfFailed => shelf_line(),
        }
    }
}

/// The name of a reason.
fn name(reason: InputReason) -> &'static [u8]
    ensures name { result.now ≡ name_of reason }
    ensures short { length result.now ≤ 30 }
{
    match reason {
        InputReason::Grid(why) => grid_name(why),
        InputReason::Leftover => b"Leftover",
        InputReason::DepthNeedsV4 => b"DepthNeedsV4",
    }
}

/// The text of a refused input.
fn fault_line(fault: InputFault) -> Line
    ensures text { result ≡ fault_text fault }
    ensures short { length result ≤ 190 }
{
    let mut line = Line::new();
    line.text(b"refused: ");
    line.text(name(fault.reason));
    line.text(b" at");
    line.number(fault.place);
    line
}

/// The text of blobs that are too long for a tile.
fn too_large_line(len: u64) -> Line
    ensures text { result ≡ refusal_text (Refusal.TooLarge len) }
    ensures short { length result ≤ 190 }
{
    let mut line = Line::new();
    line.text(b"store: ");
    add_two(&mut line, b"TileTooLarge", 0, b" size", len);
    line
}

/// The text of a shelf that failed.
fn shelf_line() -> Line
    ensures text { result ≡ refusal_text Refusal.ShelfFailed }
    ensures short { length result ≤ 190 }
{
    let mut line = Line::new();
    line.text(b"shelf failed");
    line
}

/// Why no blobs were made, as a stop of the program.
pub(crate) fn input_stop(stop: InputStop) -> Stop<Refusal>
    ensures { result ≡ input_stop_of stop }
{
    match stop {
        InputStop::Fault(fault) => Stop::Refused(Refusal::Input(fault)),
        InputStop::Source => Stop::Source,
        InputStop::OutOfMemory => Stop::OutOfMemory,
    }
}

/// Why the store refuses a call on this place, as a stop of the program.
fn store_stop(place: Place, fault: StoreFault) -> Stop<Refusal>
    ensures { result ≡ store_stop_of place fault }
{
    let row = place.row().into();
    let col = place.col().into();
    match fault {
        StoreFault::NoTile => Stop::Refused(Refusal::Store(StoreRefusal::NoTile { row, col })),
        StoreFault::Beyond { entry, got } => Stop::Refused(Refusal::Store(StoreRefusal::Beyond {
            row,
            col,
            entry,
            got,
        })),
        StoreFault::BadBundle { place, found } => {
            Stop::Refused(Refusal::Store(StoreRefusal::BadBundle { place, found }))
        }
        StoreFault::BadJournal { place, found } => {
            Stop::Refused(Refusal::Store(StoreRefusal::BadJournal { place, found }))
        }
        StoreFault::Full { len } => Stop::Refused(Refusal::Store(StoreRefusal::Full { len })),
        StoreFault::TileTooLarge { len, .. } => Stop::Refused(Refusal::TooLarge { len }),
        StoreFault::OutOfMemory => Stop::OutOfMemory,
        _ => Stop::Volume,
    }
}

/// Why a call on this place of a level refuses, as a stop of the program.
pub(crate) fn level_stop(place: Place, fault: LevelFault) -> Stop<Refusal>
    ensures { result ≡ level_stop_of place fault }
{
    match fault {
        LevelFault::Shelf => Stop::Refused(Refusal::ShelfFailed),
        LevelFault::Store(fault) => store_stop(place, fault),
    }
}
