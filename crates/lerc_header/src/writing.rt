//! A header written, one field behind the other.

ghost use Rattle.std.specs.Prelude.{◌≡◌, ◌+◌, ◌≤◌, ◌++◌, ◌*ℤ◌, pos, codes, length, take, drop};
ghost use Rattle.byteorder.specs.Endian.{little_bytes};
ghost use Rattle.raster_cells.specs.PixelType.{code_of};
ghost use Rattle.double_bits.specs.Bits.{half_bits};
ghost use Rattle.lerc_header.specs.declared.header.Header.{Header};
ghost use Rattle.lerc_header.specs.Head.{shift, head_length, HeadAt};
ghost use Rattle.lerc_header.specs.Written.{IsHeader, shape_bytes, counts_bytes, doubles_bytes, front_bytes, head_bytes};
ghost use Rattle.lerc_header.specs.inside.Laid.{AreLaid};

use crate::KEY;
use crate::header::{Header, Version};
use byteorder::{ByteOrder, LittleEndian};
use double_bits::bits_of;

/// Lays the key over the front and answers the place behind it.
fn put_key(out: &mut [u8]) -> usize
    requires { 6 ≤ length out.old }
    ensures { AreLaid out.old 0 result (codes "Lerc2 ") out.new }
{
    out[..6].copy_from_slice(&KEY);
    6
}

/// Lays a number of four bytes over a place and answers the place behind it.
fn put_number(out: &mut [u8], place: usize, number: u32) -> usize
    requires { place + 4 ≤ length out.old }
    ensures laid { AreLaid out.old place result (little_bytes 4 number) out.new }
    ensures behind { result ≡ place + 4 }
{
    LittleEndian::write_u32(&mut out[place..], number);
    place + 4
}

/// Lays the bits of a double over a place and answers the place behind it.
fn put_double(out: &mut [u8], place: usize, bits: u64) -> usize
    requires { place + 8 ≤ length out.old }
    ensures laid { AreLaid out.old place result (little_bytes 8 bits) out.new }
    ensures behind { result ≡ place + 8 }
{
    LittleEndian::write_u64(&mut out[place..], bits);
    place + 8
}

/// Key, version and checksum.
fn put_front(header: &Header, out: &mut [u8]) -> usize
    requires { 14 ≤ length out.old }
    ensures laid { AreLaid out.old 0 result (front_bytes header.now) out.new }
    ensures behind { result ≡ 14 }
{
    let place = put_key(out);
    let place = put_number(out, place, header.version.number());
    put_number(out, place, header.checksum)
}

/// Rows, columns and, in version 4, the depth.
fn put_shape(header: &Header, out: &mut [u8], place: usize) -> usize
    requires { place + 12 ≤ length out.old }
    ensures laid { AreLaid out.old place result (shape_bytes header.now) out.new }
    ensures behind { result ≡ place + (8 + shift header.now.version) }
{
    let place = put_number(out, place, header.rows);
    let place = put_number(out, place, header.cols);
    match header.version {
        Version::V3 => place,
        Version::V4 => put_number(out, place, header.depth),
    }
}

/// Valid count, side, size and type.
fn put_counts(header: &Header, out: &mut [u8], place: usize) -> usize
    requires { place + 16 ≤ length out.old }
    ensures laid { AreLaid out.old place result (counts_bytes header.now) out.new }
    ensures behind { result ≡ place + 16 }
{
    let place = put_number(out, place, header.valid);
    let place = put_number(out, place, header.side);
    let place = put_number(out, place, header.size);
    put_number(out, place, u32::from(header.kind.code()))
}

/// maxZError, zMin and zMax.
fn put_doubles(header: &Header, out: &mut [u8], place: usize) -> usize
    requires room { place + 24 ≤ length out.old }
    requires header { IsHeader header.now }
    ensures laid { AreLaid out.old place result (doubles_bytes header.now) out.new }
    ensures behind { result ≡ place + 24 }
{
    let place = put_double(out, place, bits_of(header.step as i64));
    let place = put_double(out, place, bits_of(2 * header.least));
    put_double(out, place, bits_of(2 * header.greatest))
}

/// Lays the bytes of a header over the front of `out`, and answers how many they are: 62 in
/// version 3, 66 in version 4. The bytes behind them stay.
///
/// The header passes the tests that a header that is read passes (`IsHeader`). Zeros are written
/// as +0. It takes no memory.
pub fn write_header(header: &Header, out: &mut [u8; 66]) -> usize
    requires { IsHeader header.now }
    ensures length { result ≡ head_length header.now.version }
    ensures bytes { out.new ≡ head_bytes header.now ++ drop result out.old }
    ensures head { HeadAt out.new header.now }
{
    let place = put_front(header, out);
    let place = put_shape(header, out, place);
    let place = put_counts(header, out, place);
    put_doubles(header, out, place)
}
