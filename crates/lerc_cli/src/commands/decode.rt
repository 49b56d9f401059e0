//! The blobs of bands become their grid.

ghost use Rattle.std.specs.Prelude.{Option};
ghost use Rattle.program_ends.specs.Moves.{sink_move, source_move};
ghost use Rattle.opened_bundle.specs.Files.{Files};
ghost use Rattle.lerc_cli.specs.declared.words.Command.{Command};
ghost use Rattle.lerc_cli.specs.inputs.Given.{given};
ghost use Rattle.lerc_cli.specs.run.Run.{OfSource, OfOutput};

use crate::inputs::blobs::read_bands;
use crate::refusal::Refusal;
use outside_io::{Sink, Source};
use program_ends::Stop;
use raster_grids::bands_write;
use std::alloc::Global;

/// Reads the blobs of bands from the source, and gives their grid to the output.
pub fn decode<S: Source, K: Sink>(
    alloc: Global,
    src: &mut S,
    out: &mut K,
) -> Result<(), Stop<Refusal>>
    ensures source { OfSource Command.Decode result (source_move S.left S.faults src.old src.new) }
    ensures output { (files : Option Files)
        → OfOutput Command.Decode (given (S.left src.old) files) 0 result
        (sink_move K.held K.faults out.old out.new) }
{
    let bands = match read_bands(alloc, src) {
        Ok(bands) => bands,
        Err(stop) => return Err(stop),
    };
    match bands_write(&bands, out) {
        Ok(()) => Ok(()),
        Err(_) => Err(Stop::Output),
    }
}
