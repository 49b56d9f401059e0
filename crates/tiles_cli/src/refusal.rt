//! Why the program refuses, beside the stops of any program.

ghost use Rattle.std.specs.Prelude.{◌≡◌, ◌≤◌, codes, length};
ghost use Rattle.tiles_cli.specs.Names.{import_end_of, list_name_of, list_stop_of, raw_name_of, refused_text, with_store};

use crate::slot_list::{ListFault, ListReason, ListStop};
use bundle_tiles::{ImportStop, RawFault, RawReason};
use opened_bundle::{StoreRefusal, add_one};
use outside_io::Line;
use program_ends::Stop;

/// Why the program refuses.
#[derive(Clone, Copy)]
pub enum Refusal {
    /// The input is no stream of tiles.
    Stream(RawFault),
    /// The input is no list of slots.
    List(ListFault),
    /// The store refuses.
    Store(StoreRefusal),
    /// The stream has 2^38 tiles, or more.
    TooManyTiles,
}

impl program_ends::Refusal for Refusal {
    ghost use Rattle.tiles_cli.specs.Names.{refusal_status, refusal_text};

    ghost status = { refusal_status };

    ghost text = { refusal_text };

    fn status(&self) -> u8 {
        match self {
            Refusal::Stream(_) => 2,
            Refusal::List(_) => 2,
            Refusal::Store(_) => 7,
            Refusal::TooManyTiles => 7,
        }
    }

    fn text(&self) -> Line {
        match self {
            Refusal::Stream(fault) => refused_line(raw_name(fault.reason), fault.place),
            Refusal::List(fault) => refused_line(list_name(fault.reason), fault.place),
            Refusal::Store(refusal) => program_ends::Refusal::text(refusal),
            Refusal::TooManyTiles => many_line(),
        }
    }
}

/// The name of a reason that a stream is refused for.
fn raw_name(reason: RawReason) -> &'static [u8]
    ensures name { result.now ≡ raw_name_of reason }
    ensures short { length result.now ≤ 11 }
{
    match reason {
        RawReason::BadTileMark => b"BadTileMark",
        RawReason::BadRow => b"BadRow",
        RawReason::BadCol => b"BadCol",
        RawReason::Truncated => b"Truncated",
        RawReason::BadSize => b"BadSize",
    }
}

/// The name of a reason that a list is refused for.
fn list_name(reason: ListReason) -> &'static [u8]
    ensures name { result.now ≡ list_name_of reason }
    ensures short { length result.now ≤ 11 }
{
    match reason {
        ListReason::BadLine => b"BadLine",
        ListReason::Truncated => b"Truncated",
        ListReason::TooLong => b"TooLong",
    }
}

/// The text of a refused input.
fn refused_line(name: &[u8], place: u64) -> Line
    requires { length name.now ≤ 11 }
    ensures text { result ≡ refused_text name.now place }
    ensures short { length result ≤ 190 }
{
    let mut line = Line::new();
    line.text(b"refused: ");
    line.text(name);
    add_one(&mut line, b" at", place);
    line
}

/// The text of a stream of too many tiles.
fn many_line() -> Line
    ensures text { result ≡ codes "store: TooManyTiles" }
    ensures short { length result ≤ 190 }
{
    let mut line = Line::new();
    line.text(b"store: TooManyTiles");
    line
}

/// A stop of the bundle, as one of the program.
pub(crate) fn store_stop(stop: Stop<StoreRefusal>) -> Stop<Refusal>
    ensures { result ≡ with_store stop }
{
    match stop {
        Stop::Usage => Stop::Usage,
        Stop::Source => Stop::Source,
        Stop::Output => Stop::Output,
        Stop::Volume => Stop::Volume,
        Stop::OutOfMemory => Stop::OutOfMemory,
        Stop::Refused(refusal) => Stop::Refused(Refusal::Store(refusal)),
    }
}

/// Why a list of slots was not read, as a stop of the program.
pub(crate) fn list_stop(stop: ListStop) -> Stop<Refusal>
    ensures { result ≡ list_stop_of stop }
{
    match stop {
        ListStop::Fault(fault) => Stop::Refused(Refusal::List(fault)),
        ListStop::Source => Stop::Source,
        ListStop::OutOfMemory => Stop::OutOfMemory,
    }
}

/// How an import ended, as the command's end.
pub(crate) fn import_end(ended: Result<(), ImportStop>) -> Result<(), Stop<Refusal>>
    ensures { result ≡ import_end_of ended }
{
    match ended {
        Ok(()) => Ok(()),
        Err(ImportStop::Stream(fault)) => Err(Stop::Refused(Refusal::Stream(fault))),
        Err(ImportStop::Source) => Err(Stop::Source),
        Err(ImportStop::Output) => Err(Stop::Output),
        Err(ImportStop::Volume) => Err(Stop::Volume),
        Err(ImportStop::OutOfMemory) => Err(Stop::OutOfMemory),
        Err(ImportStop::Full { len }) => {
            Err(Stop::Refused(Refusal::Store(StoreRefusal::Full { len })))
        }
        Err(ImportStop::TooManyTiles) => Err(Stop::Refused(Refusal::TooManyTiles)),
    }
}
