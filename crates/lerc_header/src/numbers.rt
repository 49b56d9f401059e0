//! The numbers of a header at their places, read and written.

ghost use Rattle.std.specs.Prelude.{◌≡◌, ◌+◌, ◌≤◌, length};
ghost use Rattle.lerc_header.specs.Head.{u32_at, i32_at, double_at};

use byteorder::{ByteOrder, LittleEndian};

/// The unsigned number of four bytes at a place.
#[tactic(auto, unfolding(crate::specs::Head::u32_at))]
pub(crate) fn unsigned_at(bytes: &[u8], place: usize) -> u32
    requires { place + 4 ≤ length bytes.now }
    ensures { result ≡ u32_at bytes.now place }
{
    LittleEndian::read_u32(&bytes[place..])
}

/// The signed number of four bytes at a place.
#[tactic(auto, unfolding(crate::specs::Head::i32_at))]
pub fn signed_at(bytes: &[u8], place: usize) -> i32
    requires { place + 4 ≤ length bytes.now }
    ensures { result ≡ i32_at bytes.now place }
{
    LittleEndian::read_i32(&bytes[place..])
}

/// The bits of the double at a place.
#[tactic(auto, unfolding(crate::specs::Head::double_at))]
pub(crate) fn bits_at(bytes: &[u8], place: usize) -> u64
    requires { place + 8 ≤ length bytes.now }
    ensures { result ≡ double_at bytes.now place }
{
    LittleEndian::read_u64(&bytes[place..])
}
