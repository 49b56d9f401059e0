//! Tiles are drawn, encoded and decoded, and what they come to is told.

ghost use Rattle.std.specs.Prelude.{◌≤◌, OnOk};
ghost use Rattle.program_ends.specs.Moves.{sink_move};
ghost use Rattle.lerc_cli.specs.declared.words.Command.{Command};
ghost use Rattle.lerc_cli.specs.inputs.Given.{Given};
ghost use Rattle.lerc_cli.specs.run.InWords.{GivesSums};
ghost use Rattle.lerc_cli.specs.run.Run.{OfOutput};

use crate::refusal::Refusal;
use crate::telling::samples::sums_text;
use outside_io::{Sink, give_all};
use program_ends::Stop;
use std::thread::Threads;
use tile_workers::{Gate, Machine};

/// Gives the lines of what the first tiles of a sample come to. All are decoded before anything is
/// given.
pub fn sample<R: Threads + Sync, K: Sink, G: Gate>(
    machine: &Machine<'_, R, G>,
    start: u32,
    count: u32,
    out: &mut K,
) -> Result<(), Stop<Refusal>>
    requires { count ≤ 4096 }
    ensures output { (g : Given) → OfOutput (Command.Sample start count) g 0 result
        (sink_move K.held K.faults out.old out.new) }
    ensures sums { OnOk result (GivesSums start count
        (record { old = K.held out.old; new = K.held out.new })) }
{
    let sums = match sample_tiles::sample(machine.rt, machine.alloc, start, count, machine.gate) {
        Ok(sums) => sums,
        Err(_) => return Err(Stop::OutOfMemory),
    };
    match give_all(out, sums_text(sums).as_slice()) {
        Ok(()) => Ok(()),
        Err(_) => Err(Stop::Output),
    }
}
