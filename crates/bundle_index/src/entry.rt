ghost use Rattle.std.specs.Prelude.{◌≡◌, ◌<◌};
ghost use Rattle.bundle_index.specs.Entry.{IsEntry, entry_of, place_of, word_of};
ghost use Rattle.bundle_index.specs.Sizes.{slot_count};

use crate::Slot;

/// Where a tile stands in the bundle. Size 0 means that there is no tile, whatever the offset.
#[derive(Clone, Copy, Debug, PartialEq, Eq)]
pub struct Entry {
    /// The place of the tile's first byte, below 2^40.
    pub offset: u64,
    /// How many bytes the tile has, below 2^24.
    pub size: u32,
}

impl Entry {
    /// The word that stands for the entry: offset + size * 2^40.
    pub fn pack(self) -> u64
        requires { IsEntry self }
        ensures value { result ≡ word_of self }
        ensures back { entry_of result ≡ self }
    {
        self.offset + self.size as u64 * 1099511627776
    }

    /// The entry that a word stands for.
    pub fn unpack(word: u64) -> Entry
        ensures value { result ≡ entry_of word }
        ensures fits { IsEntry result }
    {
        Entry {
            offset: word % 1099511627776,
            size: (word / 1099511627776) as u32,
        }
    }
}

/// The place of the slot's entry in the bundle.
pub fn entry_place(slot: Slot) -> u64
    ensures value { result ≡ place_of slot }
    ensures slot { slot < slot_count }
{
    64 + 8 * slot.number() as u64
}
