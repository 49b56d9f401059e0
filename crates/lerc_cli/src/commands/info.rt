//! Blobs of bands are told of.

ghost use Rattle.std.specs.Prelude.{None, Option, IfOk};
ghost use Rattle.std.specs.List.{concat};
ghost use Rattle.first_fault.specs.Parts.{IsEmpty};
ghost use Rattle.lerc_grammar.specs.Outlines.{IsOutline, outline_faults};
ghost use Rattle.program_ends.specs.Moves.{sink_move, source_move};
ghost use Rattle.opened_bundle.specs.Files.{Files};
ghost use Rattle.lerc_cli.specs.answers.Outline.{AreOutlines};
ghost use Rattle.lerc_cli.specs.declared.words.Command.{Command};
ghost use Rattle.lerc_cli.specs.inputs.Given.{given};
ghost use Rattle.lerc_cli.specs.inside.Outlines.{AreOfBands};
ghost use Rattle.lerc_cli.specs.run.Run.{OfSource, OfOutput};

use crate::inputs::blobs::read_kept;
use crate::refusal::Refusal;
use crate::telling::outline::give_outlines;
use lerc_decode::KeptBlobs;
use lerc_grammar::{Outline, outline};
use outside_io::{Sink, Source};
use program_ends::Stop;
use std::alloc::{AllocError, Global};

/// What a blob says of itself, behind a band of which so many pixels are valid.
fn outline_of(blob: &[u8], before: Option<u32>) -> Outline
    requires { IsEmpty (outline_faults before blob.now) }
    ensures { IsOutline before blob.now result }
{
    match outline(blob, before) {
        Ok(outline) => outline,
        Err(_) => unreachable!(),
    }
}

/// What the blobs of bands say of themselves.
fn outlines_of(alloc: Global, blobs: &KeptBlobs) -> Result<Vec<Outline>, AllocError>
    requires { AreOfBands blobs.now }
    ensures { IfOk result (λ outlines. AreOutlines None (concat blobs.now) outlines.items) }
{
    let mut outlines = Vec::with_capacity(alloc, blobs.len())?;
    let mut before = None;
    for i in 0..blobs.len() {
        let outline = outline_of(blobs.at(i), before);
        before = Some(outline.header.valid);
        outlines.push(outline)?;
    }
    Ok(outlines)
}

/// Reads the blobs of bands from the source, and gives the lines of what each says of itself to the
/// output, fourteen for each. All are decoded before anything is given.
pub fn info<S: Source, K: Sink>(
    alloc: Global,
    src: &mut S,
    out: &mut K,
) -> Result<(), Stop<Refusal>>
    ensures source { OfSource Command.Info result (source_move S.left S.faults src.old src.new) }
    ensures output { (files : Option Files)
        → OfOutput Command.Info (given (S.left src.old) files) 0 result
        (sink_move K.held K.faults out.old out.new) }
{
    let blobs = match read_kept(alloc, src) {
        Ok(blobs) => blobs,
        Err(stop) => return Err(stop),
    };
    let outlines = match outlines_of(alloc, &blobs) {
        Ok(outlines) => outlines,
        Err(_) => return Err(Stop::OutOfMemory),
    };
    match give_outlines(outlines.as_slice(), out) {
        Ok(()) => Ok(()),
        Err(_) => Err(Stop::Output),
    }
}
