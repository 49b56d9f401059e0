//! The tiles of an input become a bundle.

ghost use Rattle.std.specs.Prelude.{◌≡◌, ℕ, [], length};
ghost use Rattle.program_ends.specs.Moves.{sink_move, source_move, volume_move};
ghost use Rattle.opened_bundle.specs.Files.{files_of};
ghost use Rattle.lerc_cli.specs.declared.words.Command.{Command};
ghost use Rattle.lerc_cli.specs.inputs.Given.{given};
ghost use Rattle.lerc_cli.specs.inside.Updates.{build_end_of};
ghost use Rattle.lerc_cli.specs.run.Run.{OfSource, OfOutput, OfVolume};

use crate::inputs::encoding::Encoding;
use crate::inputs::tiles::take_updates;
use crate::refusal::{Refusal, store_stop};
use bundle_lines::{BuildStop, build_all};
use opened_bundle::{StoreRefusal, open_bundle};
use outside_io::{Marks, Sink, Source, Volume};
use program_ends::Stop;
use std::thread::Threads;
use tile_workers::{Gate, Machine};

/// How a build ended, as a command's end.
fn build_end(ended: Result<(), BuildStop>) -> Result<(), Stop<Refusal>>
    ensures { result ≡ build_end_of ended }
{
    match ended {
        Ok(()) => Ok(()),
        Err(BuildStop::Output) => Err(Stop::Output),
        Err(BuildStop::Volume) => Err(Stop::Volume),
        Err(BuildStop::NotEmpty { len }) => {
            Err(Stop::Refused(Refusal::Store(StoreRefusal::NotEmpty { len })))
        }
        Err(BuildStop::OutOfMemory) => Err(Stop::OutOfMemory),
    }
}

/// Reads a whole input of tiles, and builds a bundle of each slot's last one in the place of an
/// empty bundle. Once it stands, each tile of the input has its mark, and then the line is given.
pub fn build<R: Threads + Sync, S: Source, K: Sink, V: Volume, G: Gate>(
    machine: &Machine<'_, R, G>,
    encoding: Encoding,
    src: &mut S,
    out: &mut K,
    vol: &mut V,
    marks: &mut Marks,
) -> Result<(), Stop<Refusal>>
    requires none { marks.old.marks ≡ [] }
    ensures source { (workers : ℕ)
        → OfSource (Command.Build encoding.version encoding.error workers) result
        (source_move S.left S.faults src.old src.new) }
    ensures output { (workers : ℕ)
        → OfOutput (Command.Build encoding.version encoding.error workers)
        (given (S.left src.old) (files_of (V.told vol.old) (V.history vol.old)))
        (length marks.new.marks) result (sink_move K.held K.faults out.old out.new) }
    ensures volume { (workers : ℕ)
        → OfVolume (Command.Build encoding.version encoding.error workers)
        (given (S.left src.old) (files_of (V.told vol.old) (V.history vol.old))) result
        marks.new.marks
        (volume_move V.told V.history V.faults vol.old vol.new) }
{
    let updates = match take_updates(machine, encoding, src, marks) {
        Ok(updates) => updates,
        Err(stop) => return Err(stop),
    };
    let mut session = match open_bundle(machine.alloc, vol) {
        Ok(session) => session,
        Err(stop) => return Err(store_stop(stop)),
    };
    build_end(build_all(
        machine.alloc,
        &mut session,
        vol,
        out,
        marks,
        updates.as_slice(),
    ))
}
