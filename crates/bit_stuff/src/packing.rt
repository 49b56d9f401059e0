//! Writing stuffed numbers.

ghost use Rattle.std.specs.Prelude.{◌≡◌, ◌+◌, ◌*◌, ◌/◌, ◌%◌, ◌^◌, ◌<◌, ◌≤◌, length, All};
ghost use Rattle.bit_stuff.specs.Stuffed.{IsStuffed, HasClearSpareBits, number_of_bytes, stuffed_bytes, stuffed_size};
ghost use Rattle.bit_stuff.specs.inside.Buffer.{IsBuffer, bits_of_buffer, number_of_buffer};

use crate::groups::stuff_front;
use byteorder::{ByteOrder, LittleEndian};

/// Bits on their way into bytes: the lowest `used` bits of `held`, of which the first goes to byte
/// `at`.
#[derive(Clone, Copy)]
struct Buffer {
    held: u64,
    used: u32,
    at: usize,
}

/// Takes one number of `width` bits into the buffer.
#[inline(always)]
fn take_in(buffer: Buffer, value: u32, width: u32) -> Buffer
    requires buffer { IsBuffer buffer 32 }
    requires width { width ≤ 31 }
    requires value { value < 2 ^ width }
    ensures same { result.at ≡ buffer.at }
    ensures used { result.used ≡ buffer.used + width }
    ensures held { result.held ≡ buffer.held + 2 ^ buffer.used * value }
    ensures buffer { IsBuffer result 63 }
{
    Buffer {
        held: buffer.held + (u64::from(value) << buffer.used),
        used: buffer.used + width,
        at: buffer.at,
    }
}

/// Writes four bytes out of the buffer where it holds as many.
#[inline(always)]
fn spill(buffer: Buffer, out: &mut [u8]) -> Buffer
    requires buffer { IsBuffer buffer 63 }
    requires room { bits_of_buffer buffer ≤ 8 * length out.old }
    ensures buffer { IsBuffer result 32 }
    ensures bits { bits_of_buffer result ≡ bits_of_buffer buffer }
    ensures number { number_of_buffer out.new result ≡ number_of_buffer out.old buffer }
{
    if buffer.used < 32 {
        return buffer;
    }
    LittleEndian::write_u32(&mut out[buffer.at..], (buffer.held % 4294967296) as u32);
    Buffer {
        held: buffer.held / 4294967296,
        used: buffer.used - 32,
        at: buffer.at + 4,
    }
}

/// Writes the last bytes, fewer than four whole ones.
fn write_last(buffer: Buffer, out: &mut [u8])
    requires buffer { IsBuffer buffer 32 }
    requires room { length out.old ≡ (bits_of_buffer buffer + 7) / 8 }
    ensures { number_of_bytes out.new ≡ number_of_buffer out.old buffer }
{
    let count = out.len() - buffer.at;
    if count > 0 {
        LittleEndian::write_uint(&mut out[buffer.at..], buffer.held, count);
    }
}

/// Writes the values in `width` bits each, so that value `i` is field `i` of the bytes' one large
/// number, lowest byte first. Spare bits above the last field are written as 0.
pub fn stuff(values: &[u32], width: u32, out: &mut [u8])
    requires count { length values.now ≤ 2 ^ 24 }
    requires width { width ≤ 31 }
    requires values { All (λ v. v < 2 ^ width) values.now }
    requires size { length out.old ≡ stuffed_size (length values.now) width }
    ensures bytes { out.new ≡ stuffed_bytes width values.now }
    ensures stuffed { IsStuffed out.new width values.now }
    ensures spare { HasClearSpareBits out.new width (length values.now) }
{
    let eights = stuff_front(values, width, out);
    let mut buffer = Buffer {
        held: 0,
        used: 0,
        at: width as usize * eights,
    };
    for i in 8 * eights..values.len() {
        buffer = spill(take_in(buffer, values[i], width), out);
    }
    write_last(buffer, out);
}
