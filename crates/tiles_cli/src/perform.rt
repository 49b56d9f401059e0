//! Each command: the bundle is recovered and opened, and then its tiles are given, or tiles put.

ghost use Rattle.outside_io.specs.streams.Faults.{IsCause};
ghost use Rattle.program_ends.specs.Moves.{sink_move, source_move, volume_move};
ghost use Rattle.std.specs.Prelude.{◌≡◌, Err};
ghost use Rattle.tiles_cli.specs.Exporting.{OfAll, OfExport, OfListed};
ghost use Rattle.tiles_cli.specs.Importing.{OfImport};

use crate::refusal::{Refusal, import_end, list_stop, store_stop};
use crate::slot_list::read_slots;
use bundle_index::Slot;
use bundle_tiles::{export_slots, filled_slots, import_all};
use opened_bundle::open_bundle;
use outside_io::{Sink, Source, Volume};
use program_ends::Stop;
use std::alloc::Global;

/// Gives the stream of all tiles, by slot, once the bundle was recovered and opened.
pub(crate) fn export<K: Sink, V: Volume>(
    alloc: Global,
    out: &mut K,
    vol: &mut V,
) -> Result<(), Stop<Refusal>>
    ensures { OfAll result (volume_move V.told V.history V.faults vol.old vol.new)
        (sink_move K.held K.faults out.old out.new) }
{
    let session = match open_bundle(alloc, vol) {
        Ok(session) => session,
        Err(stop) => return Err(store_stop(stop)),
    };
    let Ok(slots) = filled_slots(alloc, &session) else {
        return Err(Stop::OutOfMemory);
    };
    match export_slots(&session, vol, slots.as_slice(), out) {
        Ok(()) => Ok(()),
        Err(stop) => Err(store_stop(stop)),
    }
}

/// Gives the stream of the tiles of these slots, in this order, once the bundle was recovered and
/// opened.
fn export_these<K: Sink, V: Volume>(
    alloc: Global,
    slots: &[Slot],
    out: &mut K,
    vol: &mut V,
) -> Result<(), Stop<Refusal>>
    ensures { OfExport (λ asked. asked ≡ slots.now) result
        (volume_move V.told V.history V.faults vol.old vol.new)
        (sink_move K.held K.faults out.old out.new) }
{
    let session = match open_bundle(alloc, vol) {
        Ok(session) => session,
        Err(stop) => return Err(store_stop(stop)),
    };
    match export_slots(&session, vol, slots, out) {
        Ok(()) => Ok(()),
        Err(stop) => Err(store_stop(stop)),
    }
}

/// Reads a list of slots, whole, and gives the stream of their tiles, in the order of the lines.
pub(crate) fn export_listed<S: Source, K: Sink, V: Volume>(
    alloc: Global,
    src: &mut S,
    out: &mut K,
    vol: &mut V,
) -> Result<(), Stop<Refusal>>
    ensures done { OfListed result (source_move S.left S.faults src.old src.new)
        (volume_move V.told V.history V.faults vol.old vol.new)
        (sink_move K.held K.faults out.old out.new) }
    ensures source { IsCause (result ≡ Err Stop.Source) (S.faults src.old) (S.faults src.new) }
{
    match read_slots(alloc, src) {
        Ok(slots) => export_these(alloc, slots.as_slice(), out, vol),
        Err(stop) => Err(list_stop(stop)),
    }
}

/// Reads a stream and puts its tiles, group by group, once the bundle was recovered and opened.
pub(crate) fn import<S: Source, K: Sink, V: Volume>(
    alloc: Global,
    src: &mut S,
    out: &mut K,
    vol: &mut V,
) -> Result<(), Stop<Refusal>>
    ensures { OfImport result (source_move S.left S.faults src.old src.new)
        (volume_move V.told V.history V.faults vol.old vol.new)
        (sink_move K.held K.faults out.old out.new) }
{
    let mut session = match open_bundle(alloc, vol) {
        Ok(session) => session,
        Err(stop) => return Err(store_stop(stop)),
    };
    import_end(import_all(alloc, &mut session, vol, src, out))
}
