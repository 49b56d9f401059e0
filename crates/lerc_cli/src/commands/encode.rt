//! A grid of bands becomes the blobs that are chosen for them.

ghost use Rattle.std.specs.Prelude.{◌≡◌, Option, OnOk};
ghost use Rattle.program_ends.specs.Moves.{sink_move, source_move};
ghost use Rattle.opened_bundle.specs.Files.{Files};
ghost use Rattle.lerc_cli.specs.declared.words.Command.{Command};
ghost use Rattle.lerc_cli.specs.inputs.Given.{given};
ghost use Rattle.lerc_cli.specs.inside.Grids.{input_reason_of, input_stop_of};
ghost use Rattle.lerc_cli.specs.run.InWords.{GivesBlobs};
ghost use Rattle.lerc_cli.specs.run.Run.{OfSource, OfOutput};

use crate::refusal::{Fault, Reason, Refusal};
use grid_blobs::{InputReason, InputStop, encode_grid};
use lerc_grammar::nearest_is_same;
use lerc_header::Version;
use outside_io::{Sink, Source, give_all};
use program_ends::Stop;
use std::alloc::Global;

/// What is wrong with an input that is to be one grid, as a reason of the program.
fn input_reason(reason: InputReason) -> Reason
    ensures { result ≡ input_reason_of reason }
{
    match reason {
        InputReason::Grid(reason) => Reason::Grid(reason),
        InputReason::Leftover => Reason::Leftover,
        InputReason::DepthNeedsV4 => Reason::DepthNeedsV4,
    }
}

/// Why no blobs were made, as a stop of the program.
fn input_stop(stop: InputStop) -> Stop<Refusal>
    ensures { result ≡ input_stop_of stop }
{
    match stop {
        InputStop::Fault(fault) => Stop::Refused(Refusal::Input(Fault {
            reason: input_reason(fault.reason),
            place: fault.place,
        })),
        InputStop::Source => Stop::Source,
        InputStop::OutOfMemory => Stop::OutOfMemory,
    }
}

/// Reads one grid from the source, and gives the blobs that are chosen for its bands to the output:
/// in this version, with values that are at most this error from the given ones.
pub fn encode<S: Source, K: Sink>(
    alloc: Global,
    version: Version,
    error: u32,
    src: &mut S,
    out: &mut K,
) -> Result<(), Stop<Refusal>>
    ensures source { OfSource (Command.Encode version error) result
        (source_move S.left S.faults src.old src.new) }
    ensures output { (files : Option Files) → OfOutput (Command.Encode version error)
        (given (S.left src.old) files) 0 result (sink_move K.held K.faults out.old out.new) }
    ensures blobs { OnOk result (GivesBlobs version error (S.left src.old)
        (record { old = K.held out.old; new = K.held out.new })) }
{
    // The law by which the blobs of an encoding without an error are those of the given bands.
    nearest_is_same();
    let blobs = match encode_grid(alloc, version, error, src) {
        Ok(blobs) => blobs,
        Err(stop) => return Err(input_stop(stop)),
    };
    match give_all(out, blobs.as_slice()) {
        Ok(()) => Ok(()),
        Err(_) => Err(Stop::Output),
    }
}
