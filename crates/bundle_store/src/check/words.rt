//! The numbers in front of tiles, of which many are read at once.

ghost use Rattle.std.specs.Prelude.{◌≡◌, ◌↔◌, ◌+◌, ◌^◌, ◌<◌, ◌≤◌, [], length, IsTrue, IfOk, OnOk};
ghost use Rattle.outside_io.specs.declared.volume.VolFile.TheVariants.{Bundle};
ghost use Rattle.outside_io.specs.streams.Faults.{CountsFaults};
ghost use Rattle.outside_io.specs.volume.History.{contents};
ghost use Rattle.bundle_index.specs.Numbers.{u32_at};
ghost use Rattle.bundle_index.specs.Sizes.{slot_count};
ghost use Rattle.bundle_store.specs.Ahead.{HasPart, IsAheadOf};
ghost use Rattle.bundle_store.specs.Told.{OnlyReads};

use crate::front::Front;
use crate::reading::{MOST_GAP, Span, read_span};
use bundle_index::SLOT_COUNT;
use byteorder::{ByteOrder, LittleEndian};
use outside_io::{Failed, Volume};
use std::marker::Model;

/// How many bytes are read at once at most. They lie on the stack, since a check takes no memory.
const ROOM: usize = 65536;

/// Bytes of a bundle that were read at once, in which the numbers in front of tiles stand.
#[derive(Drop)]
pub(crate) struct Words {
    start: u64,
    count: usize,
    room: [u8; ROOM],
}

impl Model for Words {
    ghost use Rattle.std.specs.Prelude.{◌^◌, ◌<◌, ◌≤◌, take};
    ghost use Rattle.bundle_store.specs.Ahead.{AheadBytes};

    ghost Value = { AheadBytes };

    ghost view = { λ w. record { start = w.start; bytes = take w.count w.room } };

    ghost invariant = { λ w. (w.start < 2 ^ 40) × (w.count ≤ 65536) };
}

/// The end of the bytes that are read with the number at this place, in front of the tile of the
/// slot of this number: the numbers in front of the tiles of the slots behind it are among them, as
/// long as each lies behind the one before it, with at most 4,096 bytes between, and there is room.
fn end_of_run(front: &Front, number: u16, at: u64) -> u64
    requires number { number < slot_count }
    requires at { at < 2 ^ 40 }
    ensures { at + 4 ≤ result }
{
    let last = at + ROOM as u64;
    let mut end = at + 4;
    for next in number + 1..SLOT_COUNT {
        let entry = front.entry_of_number(next);
        if entry.size > 0 {
            if entry.offset < end + 4 || entry.offset > end + 4 + MOST_GAP || entry.offset > last {
                return end;
            }
            end = entry.offset;
        }
    }
    end
}

impl Words {
    /// Room, in which nothing was read.
    #[inline(always)]
    pub(crate) fn none() -> Words
        ensures { result.bytes ≡ [] }
    {
        Words {
            start: 0,
            count: 0,
            room: [0; ROOM],
        }
    }

    /// Whether the four bytes from a place on are among them.
    fn has(&self, at: u64) -> bool
        requires { at < 2 ^ 40 }
        ensures { IsTrue result ↔ HasPart self.now (record { offset = at; size = 4 }) }
    {
        self.start <= at && at + 4 <= self.start + self.count as u64
    }

    /// Reads the four bytes from a place on, in front of the tile of the slot of this number, and
    /// those behind them, by one device call; by none where they were read.
    fn load<V: Volume>(
        &mut self,
        vol: &mut V,
        front: &Front,
        number: u16,
        at: u64,
    ) -> Result<(), Failed>
        requires number { number < slot_count }
        requires at { at < 2 ^ 40 }
        requires within { IsTrue (V.told vol.old) →
            at + 4 ≤ length (contents Bundle (V.history vol.old)) }
        requires words { IsTrue (V.told vol.old) → IsAheadOf (contents Bundle (V.history vol.old))
            self.old }
        ensures words { IsTrue (V.told vol.old) → IsAheadOf (contents Bundle (V.history vol.old))
            self.new }
        ensures there { IsTrue (V.told vol.old) →
            OnOk result (HasPart self.new (record { offset = at; size = 4 })) }
        ensures calls { (V.history vol.new).moment ≤ (V.history vol.old).moment + 1 }
        ensures reads { OnlyReads V.told V.history V.faults (CountsFaults result) vol.old vol.new }
    {
        if self.has(at) {
            return Ok(());
        }
        let end = end_of_run(front, number, at);
        self.count = 0;
        let got = read_span(vol, Span { start: at, end }, &mut self.room[..])?;
        self.start = at;
        self.count = got;
        Ok(())
    }

    /// The number that stands at a place, in front of the tile of the slot of this number; 0 where a
    /// volume that tells nothing gives fewer bytes than it has.
    pub(crate) fn number_at<V: Volume>(
        &mut self,
        vol: &mut V,
        front: &Front,
        number: u16,
        at: u64,
    ) -> Result<u32, Failed>
        requires number { number < slot_count }
        requires at { at < 2 ^ 40 }
        requires within { IsTrue (V.told vol.old) →
            at + 4 ≤ length (contents Bundle (V.history vol.old)) }
        requires words { IsTrue (V.told vol.old) → IsAheadOf (contents Bundle (V.history vol.old))
            self.old }
        ensures value { IsTrue (V.told vol.old) → IfOk result
            (λ n. n ≡ u32_at (contents Bundle (V.history vol.old)) at) }
        ensures words { IsTrue (V.told vol.old) → IsAheadOf (contents Bundle (V.history vol.old))
            self.new }
        ensures calls { (V.history vol.new).moment ≤ (V.history vol.old).moment + 1 }
        ensures reads { OnlyReads V.told V.history V.faults (CountsFaults result) vol.old vol.new }
    {
        self.load(vol, front, number, at)?;
        if !self.has(at) {
            return Ok(0);
        }
        let from = (at - self.start) as usize;
        Ok(LittleEndian::read_u32(&self.room[from..from + 4]))
    }
}
