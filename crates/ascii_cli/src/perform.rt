//! A command is done: its input is read, and its output given.

ghost use Rattle.std.specs.Prelude.{IfErr, IfOk, OnErr, OnOk};
ghost use Rattle.outside_io.specs.streams.Faults.{CountsFaults};
ghost use Rattle.outside_io.specs.streams.Sink.{Holds, HoldsPrefix};
ghost use Rattle.program_ends.specs.Moves.{sink_move, source_move};
ghost use Rattle.raster_values.specs.Raster.{IsRaster};
ghost use Rattle.ascii_grid.specs.Canon.{IsLawful};
ghost use Rattle.ascii_grid.specs.Stopping.{CountsStop};
ghost use Rattle.ascii_cli.specs.Run.{IsStopFor, OfOutput, OfSource, Reads, gives};

use crate::refusal::{Refusal, input_stop};
use crate::words::Command;
use ascii_grid::{AsciiGrid, AsciiStop, ascii_read, ascii_write, lga_read, lga_write};
use outside_io::{Failed, Sink, Source};
use program_ends::Stop;
use std::alloc::Global;

/// Reads the input of the command.
fn read_input<S: Source>(
    alloc: Global,
    command: Command,
    src: &mut S,
) -> Result<AsciiGrid, AsciiStop>
    ensures grid { IfOk result (λ g. Reads command (S.left src.old) g) }
    ensures lawful { IfOk result (λ g. IsLawful g) }
    ensures refused { IfErr result (λ e. IsStopFor command (S.left src.old) e) }
    ensures counted { CountsStop result (S.faults src.old) (S.faults src.new) }
{
    match command {
        Command::Split { kind } => ascii_read(alloc, src, kind),
        Command::Join => lga_read(alloc, src),
    }
}

/// Gives the output of the command.
fn write_output<K: Sink>(command: Command, grid: &AsciiGrid, out: &mut K) -> Result<(), Failed>
    requires { IsLawful grid.now }
    ensures ok { OnOk result (Holds (K.held out.old) (K.held out.new) (gives command grid.now)) }
    ensures err { OnErr result
        (HoldsPrefix (K.held out.old) (K.held out.new) (gives command grid.now)) }
    ensures counted { CountsFaults result (K.faults out.old) (K.faults out.new) }
    ensures raster { IsRaster grid.now.raster }
{
    // for the proof: `kind` ensures that it is a raster
    let _kind = grid.raster.kind();
    match command {
        Command::Split { .. } => lga_write(grid, out),
        Command::Join => ascii_write(grid, out),
    }
}

/// Does the command.
pub(crate) fn perform<S: Source, K: Sink>(
    alloc: Global,
    command: Command,
    src: &mut S,
    out: &mut K,
) -> Result<(), Stop<Refusal>>
    ensures source { OfSource result (source_move S.left S.faults src.old src.new) }
    ensures output { OfOutput command (S.left src.old) result
        (sink_move K.held K.faults out.old out.new) }
{
    let grid = match read_input(alloc, command, src) {
        Ok(grid) => grid,
        Err(e) => return Err(input_stop(e)),
    };
    match write_output(command, &grid, out) {
        Ok(()) => Ok(()),
        Err(_) => Err(Stop::Output),
    }
}
