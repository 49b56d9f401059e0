//! The stream of the tiles of some slots, given tile by tile.

ghost use Rattle.std.specs.Prelude.{◌≡◌, Err, OnErr, OnOk, length};
ghost use Rattle.outside_io.specs.declared.volume.VolFile.TheVariants.{Bundle};
ghost use Rattle.outside_io.specs.streams.Faults.{CountsFaults, IsCause};
ghost use Rattle.outside_io.specs.streams.Sink.{Holds, HoldsPrefix};
ghost use Rattle.outside_io.specs.volume.History.{contents};
ghost use Rattle.bundle_store.specs.Serving.{Serving};
ghost use Rattle.bundle_store.specs.Told.{OnlyReads};
ghost use Rattle.bundle_tiles.specs.Exported.{ExportGave};
ghost use Rattle.bundle_tiles.specs.RawTile.{IsRawHead, IsRawSize};
ghost use Rattle.bundle_tiles.specs.inside.Pieces.{GaveTile, SlotGave};

use crate::raw_tile::HEAD;
use bundle_index::Slot;
use bundle_store::Session;
use byteorder::{ByteOrder, LittleEndian};
use opened_bundle::{StoreRefusal, tile_stop};
use outside_io::{Failed, Sink, Volume, give_all};
use program_ends::Stop;

/// The bytes in front of a tile of so many bytes.
fn head_bytes(slot: Slot, size: u32) -> [u8; HEAD]
    requires { IsRawSize size }
    ensures { IsRawHead result (record { slot = slot; size = size }) }
{
    // for the proof: `number` ensures that there is such a slot
    let _number = slot.number();
    let mut head = [0; HEAD];
    head[0] = b'R';
    head[1] = slot.row();
    head[2] = slot.col();
    LittleEndian::write_u32(&mut head[3..], size);
    head
}

/// Gives a tile, the bytes in front of it first.
fn give_raw<K: Sink>(slot: Slot, tile: &[u8], out: &mut K) -> Result<(), Failed>
    requires { IsRawSize (length tile.now) }
    ensures ok { OnOk result (GaveTile (record { slot = slot; bytes = tile.now })
        (Holds (K.held out.old) (K.held out.new))) }
    ensures err { OnErr result (GaveTile (record { slot = slot; bytes = tile.now })
        (HoldsPrefix (K.held out.old) (K.held out.new))) }
    ensures counted { CountsFaults result (K.faults out.old) (K.faults out.new) }
{
    match give_all(out, &head_bytes(slot, tile.len() as u32)) {
        Ok(()) => give_all(out, tile),
        Err(failed) => Err(failed),
    }
}

/// Reads the tile of a slot, whole, and then gives it.
fn export_slot<V: Volume, K: Sink>(
    session: &Session,
    vol: &mut V,
    slot: Slot,
    out: &mut K,
) -> Result<(), Stop<StoreRefusal>>
    requires serving { Serving V.told V.history session.now vol.old }
    ensures gave { SlotGave result (V.told vol.old) (contents Bundle (V.history vol.old)) slot
        (K.held out.old) (K.held out.new) }
    ensures reads { OnlyReads V.told V.history V.faults (IsCause (result ≡ Err Stop.Volume))
        vol.old vol.new }
    ensures output_failed { IsCause (result ≡ Err Stop.Output) (K.faults out.old)
        (K.faults out.new) }
{
    let tile = match session.get(vol, slot) {
        Ok(tile) => tile,
        Err(fault) => return Err(tile_stop(slot, fault)),
    };
    match give_raw(slot, tile.as_slice(), out) {
        Ok(()) => Ok(()),
        Err(_) => Err(Stop::Output),
    }
}

/// Gives the stream of the tiles of these slots, in this order. A tile is read whole before a byte
/// of it is given; a slot without a tile, and a tile that the bundle ends within, end it. One tile
/// at a time takes memory.
pub fn export_slots<V: Volume, K: Sink>(
    session: &Session,
    vol: &mut V,
    slots: &[Slot],
    out: &mut K,
) -> Result<(), Stop<StoreRefusal>>
    requires serving { Serving V.told V.history session.now vol.old }
    ensures gave { ExportGave result (V.told vol.old) (contents Bundle (V.history vol.old))
        slots.now (K.held out.old) (K.held out.new) }
    ensures reads { OnlyReads V.told V.history V.faults (IsCause (result ≡ Err Stop.Volume))
        vol.old vol.new }
    ensures output_failed { IsCause (result ≡ Err Stop.Output) (K.faults out.old)
        (K.faults out.new) }
{
    for slot in slots {
        match export_slot(session, vol, *slot, out) {
            Ok(()) => {}
            Err(stop) => return Err(stop),
        }
    }
    Ok(())
}
