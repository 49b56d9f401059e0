//! The tiles of an input are put into the bundle, in groups.

ghost use Rattle.std.specs.Prelude.{◌≡◌, ℕ, [], length};
ghost use Rattle.program_ends.specs.Moves.{sink_move, source_move, volume_move};
ghost use Rattle.opened_bundle.specs.Files.{files_of};
ghost use Rattle.lerc_cli.specs.declared.words.Command.{Command};
ghost use Rattle.lerc_cli.specs.inputs.Given.{given};
ghost use Rattle.lerc_cli.specs.inside.Updates.{put_end_of};
ghost use Rattle.lerc_cli.specs.run.Run.{OfSource, OfOutput, OfVolume};

use crate::inputs::encoding::Encoding;
use crate::inputs::tiles::take_updates;
use crate::refusal::{Refusal, store_stop};
use bundle_lines::{PutStop, put_all};
use opened_bundle::{StoreRefusal, open_bundle};
use outside_io::{Marks, Sink, Source, Volume};
use program_ends::Stop;
use std::thread::Threads;
use tile_workers::{Gate, Machine};

/// How puts ended, as a command's end.
fn put_end(ended: Result<(), PutStop>) -> Result<(), Stop<Refusal>>
    ensures { result ≡ put_end_of ended }
{
    match ended {
        Ok(()) => Ok(()),
        Err(PutStop::Output) => Err(Stop::Output),
        Err(PutStop::Volume) => Err(Stop::Volume),
        Err(PutStop::Full { len }) => {
            Err(Stop::Refused(Refusal::Store(StoreRefusal::Full { len })))
        }
    }
}

/// Reads a whole input of tiles, and puts each into its slot, up to 64 at once. A group is put
/// before its marks are kept, and these are kept before its lines are given.
pub fn put<R: Threads + Sync, S: Source, K: Sink, V: Volume, G: Gate>(
    machine: &Machine<'_, R, G>,
    encoding: Encoding,
    src: &mut S,
    out: &mut K,
    vol: &mut V,
    marks: &mut Marks,
) -> Result<(), Stop<Refusal>>
    requires none { marks.old.marks ≡ [] }
    ensures source { (workers : ℕ)
        → OfSource (Command.Put encoding.version encoding.error workers) result
        (source_move S.left S.faults src.old src.new) }
    ensures output { (workers : ℕ)
        → OfOutput (Command.Put encoding.version encoding.error workers)
        (given (S.left src.old) (files_of (V.told vol.old) (V.history vol.old)))
        (length marks.new.marks) result (sink_move K.held K.faults out.old out.new) }
    ensures volume { (workers : ℕ)
        → OfVolume (Command.Put encoding.version encoding.error workers)
        (given (S.left src.old) (files_of (V.told vol.old) (V.history vol.old))) result
        marks.new.marks
        (volume_move V.told V.history V.faults vol.old vol.new) }
{
    let updates = match take_updates(machine, encoding, src, marks) {
        Ok(updates) => updates,
        Err(stop) => return Err(stop),
    };
    let mut session = match open_bundle(machine.alloc, vol) {
        Ok(session) => session,
        Err(stop) => return Err(store_stop(stop)),
    };
    put_end(put_all(&mut session, vol, out, marks, updates.as_slice()))
}
