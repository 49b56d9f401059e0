//! Bytes of a bundle that are read at once, of which tiles are cut.

ghost use Rattle.std.specs.Prelude.{◌≡◌, ◌↔◌, ◌+◌, ◌-◌, ◌^◌, ◌<◌, ◌≤◌, [], length, take, drop, IsTrue, IfOk};
ghost use Rattle.outside_io.specs.declared.volume.VolFile.TheVariants.{Bundle};
ghost use Rattle.outside_io.specs.streams.Faults.{CountsFaults};
ghost use Rattle.outside_io.specs.volume.History.{contents};
ghost use Rattle.bundle_index.specs.Entry.{IsEntry};
ghost use Rattle.bundle_index.specs.Sizes.{slot_count};
ghost use Rattle.bundle_store.specs.Ahead.{HasPart, IsAheadOf};
ghost use Rattle.bundle_store.specs.Told.{OnlyReads};

use crate::front::Front;
use crate::reading::{MOST_GAP, Span, read_span};
use crate::table::SLOTS;
use bundle_index::{Entry, SLOT_COUNT, Slot};
use outside_io::{Bytes, Failed, Volume};
use std::alloc::{AllocError, Global};
use std::marker::Model;

/// How many bytes are read at once at most.
const MOST_AHEAD: usize = 1048576;

/// Bytes of a bundle that were read at once, at most 1 MiB, and the slots that are passed over:
/// for callers that read many tiles of one bundle in the order of their slots.
#[derive(Drop)]
pub struct Ahead {
    start: u64,
    count: usize,
    room: Vec<u8>,
    passed: Vec<bool>,
}

impl Model for Ahead {
    ghost use Rattle.std.specs.Prelude.{◌≡◌, ◌^◌, ◌<◌, ◌≤◌, length, take};
    ghost use Rattle.bundle_index.specs.Sizes.{slot_count};
    ghost use Rattle.bundle_store.specs.Ahead.{AheadBytes};

    ghost Value = { AheadBytes };

    ghost view = { λ a. record { start = a.start; bytes = take a.count a.room.items } };

    ghost invariant = { λ a. (a.start < 2 ^ 40) × ((a.count ≤ length a.room.items)
        × ((length a.room.items ≤ 1048576) × (length a.passed.items ≡ slot_count))) };
}

/// Whether the entry's bytes lie behind `end`, with at most 4,096 bytes between, and end at `last`
/// or before.
fn is_near(entry: Entry, end: u64, last: u64) -> bool
    requires { IsEntry entry }
    ensures { IsTrue result → end ≤ entry.offset }
{
    entry.offset >= end
        && entry.offset - end <= MOST_GAP
        && entry.offset + entry.size as u64 <= last
}

/// The bytes that are read with those of a slot's tile: its own, and those of the tiles of the
/// slots behind it, but for those passed over, as long as each is near to the one before it, and
/// all are `most` bytes at most.
fn span_from(front: &Front, slot: Slot, passed: &[bool], most: u64) -> Span
    requires passed { length passed.now ≡ slot_count }
    requires most { most ≤ 1048576 }
    ensures order { result.start ≤ result.end }
    ensures start { result.start < 2 ^ 40 }
{
    let first = front.entry(slot);
    let start = first.offset;
    let mut end = start + first.size as u64;
    for number in slot.number() + 1..SLOT_COUNT {
        let entry = front.entry_of_number(number);
        if entry.size > 0 && !passed[number as usize] {
            if !is_near(entry, end, start + most) {
                return Span { start, end };
            }
            end = entry.offset + entry.size as u64;
        }
    }
    Span { start, end }
}

impl Ahead {
    /// Room for so many bytes, or 1 MiB where that is less, of which none was read; no slot is
    /// passed over.
    pub fn new(alloc: Global, size: usize) -> Result<Ahead, AllocError>
        ensures { IfOk result (λ a. a.bytes ≡ []) }
    {
        Ok(Ahead {
            start: 0,
            count: 0,
            room: vec![in alloc; 0u8; size.min(MOST_AHEAD)]?,
            passed: vec![in alloc; false; SLOTS]?,
        })
    }

    /// Passes over a slot, whose tile will not be asked for: where its bytes are many, those of
    /// the tiles around it are not read at once.
    pub fn pass_over(&mut self, slot: Slot)
        ensures { self.new ≡ self.old }
    {
        self.passed[slot.number() as usize] = true;
    }

    /// Whether the bytes that an entry names are all among them.
    pub(crate) fn has(&self, entry: Entry) -> bool
        requires { IsEntry entry }
        ensures { IsTrue result ↔ HasPart self.now entry }
    {
        self.start <= entry.offset
            && entry.offset + entry.size as u64 <= self.start + self.count as u64
    }

    /// A copy of the bytes that an entry names, which are all among them.
    pub(crate) fn cut(&self, alloc: Global, entry: Entry) -> Result<Bytes, AllocError>
        requires { HasPart self.now entry }
        ensures bytes { IfOk result (λ tile. tile
            ≡ take entry.size (drop (entry.offset - self.now.start) self.now.bytes)) }
        ensures size { IfOk result (λ tile. length tile ≡ entry.size) }
    {
        let from = (entry.offset - self.start) as usize;
        Bytes::of(alloc, &self.room[from..from + entry.size as usize])
    }

    /// Reads the bytes of the slot's tile, which its entry names, and with them those of the tiles
    /// behind it, by one device call; by none where they are among those that were read, or where
    /// there is no room for them.
    pub(crate) fn load<V: Volume>(
        &mut self,
        vol: &mut V,
        front: &Front,
        slot: Slot,
    ) -> Result<(), Failed>
        requires { IsTrue (V.told vol.old) → IsAheadOf (contents Bundle (V.history vol.old))
            self.old }
        ensures ahead { IsTrue (V.told vol.old) → IsAheadOf (contents Bundle (V.history vol.old))
            self.new }
        ensures calls { (V.history vol.new).moment ≤ (V.history vol.old).moment + 1 }
        ensures reads { OnlyReads V.told V.history V.faults (CountsFaults result) vol.old vol.new }
    {
        let entry = front.entry(slot);
        if self.has(entry) || entry.size as usize > self.room.len() {
            return Ok(());
        }
        let span = span_from(front, slot, &self.passed, self.room.len() as u64);
        self.count = 0;
        let got = read_span(vol, span, self.room.as_mut_slice())?;
        self.start = span.start;
        self.count = got;
        Ok(())
    }
}
