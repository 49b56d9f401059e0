//! A journal is read, and what it says.

ghost use Rattle.std.specs.Prelude.{◌≡◌, ◌≢◌, ◌≤◌, ◌+◌, length, slice_index, IsTrue, IfOk};
ghost use Rattle.outside_io.specs.declared.volume.VolFile.TheVariants.{Journal};
ghost use Rattle.outside_io.specs.streams.Faults.{CountsFaults};
ghost use Rattle.outside_io.specs.volume.History.{During, contents, current};
ghost use Rattle.bundle_index.specs.Numbers.{u16_at, u64_at};
ghost use Rattle.side_journal.specs.Says.{Says, mark, mark_at};
ghost use Rattle.side_journal.specs.Bodies.{IsState};

use crate::second::second_state;
use crate::{Body, JournalState};
use bundle_index::{BundleHeader, Entry, INDEX_END, Slot};
use byteorder::{ByteOrder, LittleEndian};
use outside_io::{Failed, VolFile, Volume};

/// The number of the bytes LBJRNL1, the lowest first.
const MARK: u64 = 13876173130580556;

/// The number of the seven bytes behind the gate.
#[tactic(auto, unfolding(crate::specs::Says::mark_at))]
fn mark_of(bytes: &[u8; 96]) -> u64
    ensures { result ≡ mark_at bytes.now }
{
    LittleEndian::read_uint(&bytes[1..], 7)
}

/// The slot number.
fn slot_of(bytes: &[u8; 96]) -> u16
    ensures { result ≡ u16_at bytes.now 10 }
{
    LittleEndian::read_u16(&bytes[10..])
}

/// The number of eight bytes at a place.
fn long_at(bytes: &[u8; 96], place: usize) -> u64
    requires { place + 8 ≤ 96 }
    ensures { result ≡ u64_at bytes.now place }
{
    LittleEndian::read_u64(&bytes[place..])
}

/// What an open journal of the first form says of a tile.
fn tile_of(bytes: &[u8; 96]) -> JournalState
    requires marked { mark_at bytes.now ≡ mark }
    requires kind { slice_index bytes.now 8 ≡ 1 }
    requires gate { slice_index bytes.now 0 ≢ 0 }
    ensures says { Says bytes.now result }
    ensures fits { IsState result }
{
    let number = slot_of(bytes);
    let Some(slot) = Slot::of_number(number) else {
        return JournalState::Bad {
            place: 10,
            found: number as u64,
        };
    };
    let length = long_at(bytes, 24);
    if length < INDEX_END {
        return JournalState::Bad {
            place: 24,
            found: length,
        };
    }
    let mut header = [0; 64];
    header.copy_from_slice(&bytes[32..]);
    JournalState::Open(Body::Tile {
        slot,
        entry: Entry::unpack(long_at(bytes, 16)),
        length,
        header: BundleHeader::of(header),
    })
}

/// What a journal of the first form says.
fn first_state(bytes: &[u8; 96]) -> JournalState
    ensures says { Says bytes.now result }
    ensures fits { IsState result }
{
    if bytes[0] == 0 {
        return JournalState::Closed;
    }
    let found = mark_of(bytes);
    if found != MARK {
        return JournalState::Bad { place: 1, found };
    }
    match bytes[8] {
        1 => tile_of(bytes),
        2 => JournalState::Open(Body::Build),
        kind => JournalState::Bad {
            place: 8,
            found: kind as u64,
        },
    }
}

/// What the journal says. It changes nothing. Failed only where the volume failed.
pub fn read_journal<V: Volume>(vol: &mut V) -> Result<JournalState, Failed>
    ensures says { IsTrue (V.told vol.old) →
        IfOk result (λ s. Says (contents Journal (V.history vol.old)) s) }
    ensures fits { IfOk result (λ s. IsState s) }
    ensures during { IsTrue (V.told vol.old) → During (λ d. d ≡ current (V.history vol.old))
        (V.history vol.old) (V.history vol.new) }
    ensures told { V.told vol.new ≡ V.told vol.old }
    ensures calls { (V.history vol.new).moment ≤ (V.history vol.old).moment + 2 }
    ensures counted { CountsFaults result (V.faults vol.old) (V.faults vol.new) }
{
    match vol.len(VolFile::Journal)? {
        96 => {
            let mut bytes = [0; 96];
            vol.read(VolFile::Journal, 0, &mut bytes)?;
            Ok(first_state(&bytes))
        }
        1112 => {
            let mut bytes = [0; 1112];
            vol.read(VolFile::Journal, 0, &mut bytes)?;
            Ok(second_state(&bytes))
        }
        _ => Ok(JournalState::Closed),
    }
}
