ghost use Rattle.std.specs.Prelude.{◌≡◌, ◌+◌, ◌<◌, ◌≤◌, ◌^◌, length};
ghost use Rattle.bundle_index.specs.Header.{fresh_header, header_after, header_fault, bytes_left_behind, slack_after};
ghost use Rattle.bundle_index.specs.Numbers.{u32_at, u64_at};

use crate::{Entry, SLOT_COUNT};
use byteorder::{ByteOrder, LittleEndian};
use std::marker::Model;

/// The 64 bytes at the front of a bundle. Contracts see the list of the bytes.
#[derive(Clone, Copy)]
pub struct BundleHeader {
    bytes: [u8; 64],
}

impl Model for BundleHeader {
    ghost use Rattle.std.specs.Prelude.{ℕ, List};

    ghost Value = { List ℕ };

    ghost view = { λ h. h.bytes };

    ghost inverse = { λ bytes. record { bytes = bytes } };
}

/// A test of a reader that a header fails: the field's place, and the number that stands there.
#[derive(Clone, Copy, Debug, PartialEq, Eq)]
pub struct HeaderFault {
    pub place: u64,
    pub found: u64,
}

/// The unsigned number of four bytes at a place.
#[tactic(auto, unfolding(crate::specs::Numbers::u32_at))]
fn number_at(bytes: &[u8; 64], place: usize) -> u32
    requires { place ≤ 60 }
    ensures { result ≡ u32_at bytes.now place }
{
    LittleEndian::read_u32(&bytes[place..])
}

/// The unsigned number of eight bytes at a place.
#[tactic(auto, unfolding(crate::specs::Numbers::u64_at))]
fn long_at(bytes: &[u8; 64], place: usize) -> u64
    requires { place ≤ 56 }
    ensures { result ≡ u64_at bytes.now place }
{
    LittleEndian::read_u64(&bytes[place..])
}

/// The bytes that the entry's tile leaves behind.
fn left_by(old: Entry) -> u64
    requires { old.size < 2 ^ 24 }
    ensures { result ≡ bytes_left_behind old.size }
{
    if old.size == 0 {
        0
    } else {
        old.size as u64 + 4
    }
}

impl BundleHeader {
    /// The header that has these bytes.
    pub fn of(bytes: [u8; 64]) -> BundleHeader
        ensures { result ≡ bytes }
    {
        BundleHeader { bytes }
    }

    /// The bytes.
    pub fn bytes(&self) -> [u8; 64]
        ensures { result ≡ self.now }
    {
        self.bytes
    }

    /// The size of the greatest tile that was ever put.
    pub fn greatest(&self) -> u32
        ensures { result ≡ u32_at self.now 8 }
    {
        number_at(&self.bytes, 8)
    }

    /// How many bytes tiles have left behind.
    pub fn slack(&self) -> u64
        ensures { result ≡ u64_at self.now 16 }
    {
        long_at(&self.bytes, 16)
    }

    /// The file's length, as the header has it.
    pub fn length(&self) -> u64
        ensures { result ≡ u64_at self.now 24 }
    {
        long_at(&self.bytes, 24)
    }

    /// The header of a new bundle.
    #[tactic(auto, unfolding(crate::specs::Header::fresh_header))]
    pub fn fresh(greatest: u32, length: u64) -> BundleHeader
        ensures { result ≡ fresh_header greatest length }
    {
        let mut bytes = [0; 64];
        LittleEndian::write_u32(&mut bytes, 3);
        LittleEndian::write_u32(&mut bytes[4..], u32::from(SLOT_COUNT));
        LittleEndian::write_u32(&mut bytes[8..], greatest);
        LittleEndian::write_u32(&mut bytes[12..], 5);
        LittleEndian::write_u64(&mut bytes[24..], length);
        LittleEndian::write_u64(&mut bytes[32..], 40);
        LittleEndian::write_u32(&mut bytes[40..], 131092);
        LittleEndian::write_u32(&mut bytes[44..], 3);
        LittleEndian::write_u32(&mut bytes[48..], 16);
        LittleEndian::write_u32(&mut bytes[52..], 16384);
        LittleEndian::write_u32(&mut bytes[56..], 5);
        LittleEndian::write_u32(&mut bytes[60..], 131072);
        BundleHeader { bytes }
    }

    /// The header after a tile of `size` bytes was put in the place of `old`, with which the file
    /// has `length` bytes. The slack ends at 2^64 - 1.
    pub fn after_put(&self, old: Entry, size: u32, length: u64) -> BundleHeader
        requires { old.size < 2 ^ 24 }
        ensures { result ≡ header_after self.now old.size size length }
    {
        let mut bytes = self.bytes;
        LittleEndian::write_u32(&mut bytes[8..], self.greatest().max(size));
        LittleEndian::write_u64(&mut bytes[16..], self.slack().saturating_add(left_by(old)));
        LittleEndian::write_u64(&mut bytes[24..], length);
        BundleHeader { bytes }
    }

    /// The first test of a reader that the header fails: version 3, 16,384 records, offsets of 5
    /// bytes.
    pub fn fault(&self) -> Option<HeaderFault>
        ensures { result ≡ header_fault self.now }
    {
        let version = number_at(&self.bytes, 0);
        if version != 3 {
            return Some(HeaderFault {
                place: 0,
                found: version as u64,
            });
        }
        let records = number_at(&self.bytes, 4);
        if records != u32::from(SLOT_COUNT) {
            return Some(HeaderFault {
                place: 4,
                found: records as u64,
            });
        }
        let offset_bytes = number_at(&self.bytes, 12);
        if offset_bytes != 5 {
            return Some(HeaderFault {
                place: 12,
                found: offset_bytes as u64,
            });
        }
        None
    }
}
