//! The number in front of a tile.

ghost use Rattle.std.specs.Prelude.{◌≡◌, ◌<◌, IfOk, IsTrue, length};
ghost use Rattle.outside_io.specs.declared.volume.VolFile.TheVariants.{Bundle};
ghost use Rattle.outside_io.specs.streams.Faults.{CountsFaults};
ghost use Rattle.outside_io.specs.volume.History.{contents};
ghost use Rattle.bundle_store.specs.Check.{is_bad};
ghost use Rattle.bundle_store.specs.Told.{OnlyReads};

use bundle_index::{Entry, INDEX_END};
use byteorder::{ByteOrder, LittleEndian};
use outside_io::{Failed, VolFile, Volume};

/// The place of the first tile: behind the header, the index and the tile's own size.
const FIRST_TILE: u64 = INDEX_END + 4;

/// Whether an entry that names a tile is bad, in a bundle of `len` bytes: the tile begins in front
/// of the place of the first one, or ends behind the bundle, or the number in front of it is not
/// its size.
pub(crate) fn is_bad_record<V: Volume>(vol: &mut V, entry: Entry, len: u64) -> Result<bool, Failed>
    requires some { 0 < entry.size }
    requires len { IsTrue (V.told vol.old) → len ≡ length (contents Bundle (V.history vol.old)) }
    ensures value { IsTrue (V.told vol.old) →
        IfOk result (λ bad. bad ≡ is_bad (contents Bundle (V.history vol.old)) entry) }
    ensures reads { OnlyReads V.told V.history V.faults (CountsFaults result) vol.old vol.new }
{
    let size = u64::from(entry.size);
    if entry.offset < FIRST_TILE || len < size || len - size < entry.offset {
        return Ok(true);
    }
    let mut stored = [0; 4];
    vol.read(VolFile::Bundle, entry.offset - 4, &mut stored)?;
    Ok(LittleEndian::read_u32(&stored) != entry.size)
}
