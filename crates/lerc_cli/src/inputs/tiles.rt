//! Reading the tiles that are all of the input, as the updates that they ask for.

ghost use Rattle.std.specs.Prelude.{◌≡◌, ◌≤◌, Err, IfOk, OnOk, [], length};
ghost use Rattle.outside_io.specs.streams.Faults.{IsCause};
ghost use Rattle.outside_io.specs.streams.Source.{IsAtEnd};
ghost use Rattle.raster_grids.specs.Taken.{TookSome};
ghost use Rattle.bundle_store.specs.Build.{EachFits};
ghost use Rattle.lerc_cli.specs.inputs.Refused.{stream_stop_of, tile_reason_of};
ghost use Rattle.lerc_cli.specs.inside.Updates.{TakesUpdates};

use crate::inputs::encoding::Encoding;
use crate::refusal::{Fault, Reason, Refusal, StreamRefusal};
use bundle_store::TileRec;
use lerc_header::Step;
use outside_io::{Marks, Source};
use program_ends::Stop;
use std::thread::Threads;
use tile_stream::TileReason;
use tile_updates::{StreamStop, read_updates};
use tile_workers::{Coding, Gate, Machine};

/// What is wrong in a tile, as a reason.
fn tile_reason(reason: TileReason) -> Reason
    ensures { result ≡ tile_reason_of reason }
{
    match reason {
        TileReason::BadTileMark => Reason::BadTileMark,
        TileReason::BadSlot => Reason::BadSlot,
        TileReason::Grid(reason) => Reason::Grid(reason),
    }
}

/// Why an input of tiles has no updates, as a stop.
fn stream_stop(stop: StreamStop) -> Stop<Refusal>
    ensures { result ≡ stream_stop_of stop }
{
    match stop {
        StreamStop::TooManyTiles => Stop::Refused(Refusal::Stream(StreamRefusal::TooManyTiles)),
        StreamStop::Fault(fault) => Stop::Refused(Refusal::Input(Fault {
            reason: tile_reason(fault.reason),
            place: fault.place,
        })),
        StreamStop::DepthNeedsV4 { place } => Stop::Refused(Refusal::Input(Fault {
            reason: Reason::DepthNeedsV4,
            place,
        })),
        StreamStop::TileTooLarge { at, len } => {
            Stop::Refused(Refusal::Stream(StreamRefusal::TileTooLarge { at, len }))
        }
        StreamStop::KeptTooMuch { at } => {
            Stop::Refused(Refusal::Stream(StreamRefusal::KeptTooMuch { at }))
        }
        StreamStop::Source => Stop::Source,
        StreamStop::OutOfMemory => Stop::OutOfMemory,
    }
}

/// Reads the updates that the input asks for, and takes memory for their marks.
pub fn take_updates<R: Threads + Sync, S: Source, G: Gate>(
    machine: &Machine<'_, R, G>,
    encoding: Encoding,
    src: &mut S,
    marks: &mut Marks,
) -> Result<Vec<TileRec>, Stop<Refusal>>
    requires none { marks.old.marks ≡ [] }
    ensures updates { TakesUpdates encoding.version encoding.error (S.left src.old) result }
    ensures fit { IfOk result (λ us. EachFits us.items) }
    ensures room { IfOk result (λ us. length us.items ≤ marks.new.spare) }
    ensures none { marks.new.marks ≡ [] }
    ensures source { IsCause (result ≡ Err Stop.Source) (S.faults src.old) (S.faults src.new) }
    ensures taken { TookSome (S.left src.old) (S.left src.new) }
    ensures end { OnOk result (IsAtEnd (S.left src.new)) }
{
    let coding = Coding {
        version: encoding.version,
        step: Step::of(encoding.error),
        workers: encoding.workers as usize,
    };
    let updates = match read_updates(machine.rt, machine.alloc, src, coding, machine.gate) {
        Ok(updates) => updates,
        Err(stop) => return Err(stream_stop(stop)),
    };
    match marks.reserve(updates.len()) {
        Ok(()) => Ok(updates),
        Err(_) => Err(Stop::OutOfMemory),
    }
}
