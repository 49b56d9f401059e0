//! One tile of the bundle is given, as a grid or as it is.

ghost use Rattle.std.specs.Prelude.{◌≡◌, ℕ, List, Option, Err, IsTrue};
ghost use Rattle.outside_io.specs.declared.volume.VolFile.TheVariants.{Journal};
ghost use Rattle.outside_io.specs.volume.History.{contents, current};
ghost use Rattle.program_ends.specs.Moves.{sink_move, volume_move};
ghost use Rattle.opened_bundle.specs.Files.{files_of};
ghost use Rattle.opened_bundle.specs.Left.{OfReading};
ghost use Rattle.lerc_cli.specs.crashes.Phase.{Rests};
ghost use Rattle.lerc_cli.specs.declared.words.Command.{Command};
ghost use Rattle.lerc_cli.specs.inputs.Given.{given};
ghost use Rattle.lerc_cli.specs.run.Run.{OfOutput};

use crate::inputs::blobs::decode_tile;
use crate::refusal::{Refusal, store_stop};
use bundle_index::Slot;
use opened_bundle::read_tile;
use outside_io::{Sink, Volume, give_all};
use program_ends::Stop;
use raster_grids::bands_write;
use std::alloc::Global;

/// Gives the bytes of the slot's tile to the output.
pub fn get_raw<K: Sink, V: Volume>(
    alloc: Global,
    slot: Slot,
    out: &mut K,
    vol: &mut V,
) -> Result<(), Stop<Refusal>>
    ensures output { (input : Option (List ℕ)) → OfOutput (Command.GetRaw slot)
        (given input (files_of (V.told vol.old) (V.history vol.old))) 0 result
        (sink_move K.held K.faults out.old out.new) }
    ensures volume { OfReading (result ≡ Err Stop.Volume)
        (volume_move V.told V.history V.faults vol.old vol.new) }
    ensures rests { IsTrue (V.told vol.old) → Rests result (contents Journal (V.history vol.old))
        (current (V.history vol.new)) }
{
    let tile = match read_tile(alloc, slot, vol) {
        Ok(tile) => tile,
        Err(stop) => return Err(store_stop(stop)),
    };
    match give_all(out, tile.as_slice()) {
        Ok(()) => Ok(()),
        Err(_) => Err(Stop::Output),
    }
}

/// Decodes the slot's tile, which is to be the blobs of bands, and gives their grid to the output.
pub fn get<K: Sink, V: Volume>(
    alloc: Global,
    slot: Slot,
    out: &mut K,
    vol: &mut V,
) -> Result<(), Stop<Refusal>>
    ensures output { (input : Option (List ℕ)) → OfOutput (Command.Get slot)
        (given input (files_of (V.told vol.old) (V.history vol.old))) 0 result
        (sink_move K.held K.faults out.old out.new) }
    ensures volume { OfReading (result ≡ Err Stop.Volume)
        (volume_move V.told V.history V.faults vol.old vol.new) }
    ensures rests { IsTrue (V.told vol.old) → Rests result (contents Journal (V.history vol.old))
        (current (V.history vol.new)) }
{
    let tile = match read_tile(alloc, slot, vol) {
        Ok(tile) => tile,
        Err(stop) => return Err(store_stop(stop)),
    };
    let bands = match decode_tile(alloc, tile.as_slice()) {
        Ok(bands) => bands,
        Err(stop) => return Err(stop),
    };
    match bands_write(&bands, out) {
        Ok(()) => Ok(()),
        Err(_) => Err(Stop::Output),
    }
}
