//! The commands that tell of the whole bundle.

ghost use Rattle.std.specs.Prelude.{◌≡◌, ℕ, List, Option, Err, IsTrue};
ghost use Rattle.outside_io.specs.declared.volume.VolFile.TheVariants.{Journal};
ghost use Rattle.outside_io.specs.volume.History.{contents, current};
ghost use Rattle.program_ends.specs.Moves.{sink_move, volume_move};
ghost use Rattle.opened_bundle.specs.Files.{files_of};
ghost use Rattle.opened_bundle.specs.Left.{OfReading};
ghost use Rattle.lerc_cli.specs.crashes.Phase.{Rests};
ghost use Rattle.lerc_cli.specs.declared.words.Command.{Command};
ghost use Rattle.lerc_cli.specs.inputs.Given.{given};
ghost use Rattle.lerc_cli.specs.inside.Opening.{end_of};
ghost use Rattle.lerc_cli.specs.run.Run.{OfOutput};

use crate::refusal::{Refusal, store_stop};
use bundle_lines::{LineStop, check_all, give_recovery, list_all};
use opened_bundle::{open_bundle, recover_bundle};
use outside_io::{Sink, Volume};
use program_ends::Stop;
use std::alloc::Global;

/// How a check ended, as a command's end.
fn check_end(ended: Result<(), LineStop>) -> Result<(), Stop<Refusal>>
    ensures { result ≡ end_of ended }
{
    match ended {
        Ok(()) => Ok(()),
        Err(LineStop::Output) => Err(Stop::Output),
        Err(LineStop::Volume) => Err(Stop::Volume),
    }
}

/// Makes whole what a crash left, and gives the line of what that was.
pub fn recover<K: Sink, V: Volume>(out: &mut K, vol: &mut V) -> Result<(), Stop<Refusal>>
    ensures output { (input : Option (List ℕ)) → OfOutput Command.Recover
        (given input (files_of (V.told vol.old) (V.history vol.old))) 0 result
        (sink_move K.held K.faults out.old out.new) }
    ensures volume { OfReading (result ≡ Err Stop.Volume)
        (volume_move V.told V.history V.faults vol.old vol.new) }
    ensures rests { IsTrue (V.told vol.old) → Rests result (contents Journal (V.history vol.old))
        (current (V.history vol.new)) }
{
    let found = match recover_bundle(vol) {
        Ok(found) => found,
        Err(stop) => return Err(store_stop(stop)),
    };
    match give_recovery(found, out) {
        Ok(()) => Ok(()),
        Err(_) => Err(Stop::Output),
    }
}

/// Gives a line for each tile of the bundle, by slot number.
pub fn list<K: Sink, V: Volume>(
    alloc: Global,
    out: &mut K,
    vol: &mut V,
) -> Result<(), Stop<Refusal>>
    ensures output { (input : Option (List ℕ)) → OfOutput Command.List
        (given input (files_of (V.told vol.old) (V.history vol.old))) 0 result
        (sink_move K.held K.faults out.old out.new) }
    ensures volume { OfReading (result ≡ Err Stop.Volume)
        (volume_move V.told V.history V.faults vol.old vol.new) }
    ensures rests { IsTrue (V.told vol.old) → Rests result (contents Journal (V.history vol.old))
        (current (V.history vol.new)) }
{
    let session = match open_bundle(alloc, vol) {
        Ok(session) => session,
        Err(stop) => return Err(store_stop(stop)),
    };
    match list_all(&session, vol, out) {
        Ok(()) => Ok(()),
        Err(_) => Err(Stop::Output),
    }
}

/// Checks the bundle, and gives the lines of what was found.
pub fn check<K: Sink, V: Volume>(
    alloc: Global,
    out: &mut K,
    vol: &mut V,
) -> Result<(), Stop<Refusal>>
    ensures output { (input : Option (List ℕ)) → OfOutput Command.Check
        (given input (files_of (V.told vol.old) (V.history vol.old))) 0 result
        (sink_move K.held K.faults out.old out.new) }
    ensures volume { OfReading (result ≡ Err Stop.Volume)
        (volume_move V.told V.history V.faults vol.old vol.new) }
    ensures rests { IsTrue (V.told vol.old) → Rests result (contents Journal (V.history vol.old))
        (current (V.history vol.new)) }
{
    let session = match open_bundle(alloc, vol) {
        Ok(session) => session,
        Err(stop) => return Err(store_stop(stop)),
    };
    check_end(check_all(&session, vol, out))
}
