ghost use Rattle.std.specs.Prelude.{◌≡◌, ◌<◌, ◌≤◌, ◌++◌, ◌↔◌, IsNone, length, drop};
ghost use Rattle.raster_cells.specs.PixelType.{code_of, bytes_of, type_least, type_greatest, InRange, Spells, value_bytes};

use byteorder::{ByteOrder, LittleEndian};

/// The type of a raster's values: whole numbers of one, two or four bytes, signed (`I`) or not
/// (`U`).
#[derive(Clone, Copy, Debug, PartialEq, Eq)]
pub enum PixelType {
    I8,
    U8,
    I16,
    U16,
    I32,
    U32,
}

/// Does the same for each type, so that the loop in it is made once for each.
#[macro_export]
macro_rules! by_kind {
    ($kind:expr, $name:ident => $work:expr) => {
        match $kind {
            $crate::PixelType::I8 => {
                let $name = $crate::PixelType::I8;
                $work
            }
            $crate::PixelType::U8 => {
                let $name = $crate::PixelType::U8;
                $work
            }
            $crate::PixelType::I16 => {
                let $name = $crate::PixelType::I16;
                $work
            }
            $crate::PixelType::U16 => {
                let $name = $crate::PixelType::U16;
                $work
            }
            $crate::PixelType::I32 => {
                let $name = $crate::PixelType::I32;
                $work
            }
            $crate::PixelType::U32 => {
                let $name = $crate::PixelType::U32;
                $work
            }
        }
    };
}

impl PixelType {
    /// The number by which blobs and grids name the type, from 0 for `I8` to 5 for `U32`.
    pub fn code(self) -> u8
        ensures { result ≡ code_of self }
    {
        match self {
            PixelType::I8 => 0,
            PixelType::U8 => 1,
            PixelType::I16 => 2,
            PixelType::U16 => 3,
            PixelType::I32 => 4,
            PixelType::U32 => 5,
        }
    }

    /// The type that a number names, and `None` for a number above 5.
    pub fn of_code(code: u8) -> Option<PixelType>
        ensures named { (kind : PixelType) → (result ≡ Some kind) ↔ (code ≡ code_of kind) }
        ensures none { IsNone result ↔ (5 < code) }
    {
        match code {
            0 => Some(PixelType::I8),
            1 => Some(PixelType::U8),
            2 => Some(PixelType::I16),
            3 => Some(PixelType::U16),
            4 => Some(PixelType::I32),
            5 => Some(PixelType::U32),
            _ => None,
        }
    }

    /// How many bytes a value takes in a file: 1, 2 or 4.
    #[inline]
    pub fn bytes(self) -> usize
        ensures { result ≡ bytes_of self }
    {
        match self {
            PixelType::I8 | PixelType::U8 => 1,
            PixelType::I16 | PixelType::U16 => 2,
            PixelType::I32 | PixelType::U32 => 4,
        }
    }

    /// The least value of the type.
    #[inline]
    pub fn least(self) -> i64
        ensures { result ≡ type_least self }
    {
        match self {
            PixelType::I8 => -128,
            PixelType::I16 => -32768,
            PixelType::I32 => -2147483648,
            PixelType::U8 | PixelType::U16 | PixelType::U32 => 0,
        }
    }

    /// The greatest value of the type.
    pub fn greatest(self) -> i64
        ensures { result ≡ type_greatest self }
    {
        match self {
            PixelType::I8 => 127,
            PixelType::U8 => 255,
            PixelType::I16 => 32767,
            PixelType::U16 => 65535,
            PixelType::I32 => 2147483647,
            PixelType::U32 => 4294967295,
        }
    }

    /// The value that the first bytes stand for: little-endian, in two's complement for a signed
    /// type.
    #[inline]
    pub fn read_value(self, bytes: &[u8]) -> i64
        requires { bytes_of self ≤ length bytes.now }
        ensures spelled { Spells self bytes.now result }
        ensures in_range { InRange self result }
    {
        match self {
            PixelType::I8 => i64::from(i8::from_le_bytes([bytes[0]])),
            PixelType::U8 => i64::from(bytes[0]),
            PixelType::I16 => i64::from(LittleEndian::read_i16(bytes)),
            PixelType::U16 => i64::from(LittleEndian::read_u16(bytes)),
            PixelType::I32 => i64::from(LittleEndian::read_i32(bytes)),
            PixelType::U32 => i64::from(LittleEndian::read_u32(bytes)),
        }
    }

    /// Lays the bytes of a value over the front of `out`, so that `read_value` reads the value
    /// there. The bytes behind them stay.
    #[inline]
    pub fn write_value(self, value: i64, out: &mut [u8])
        requires room { bytes_of self ≤ length out.old }
        requires in_range { InRange self value }
        ensures spelled { Spells self out.new value }
        ensures bytes { out.new ≡ value_bytes self value ++ drop (bytes_of self) out.old }
    {
        match self {
            PixelType::I8 => out[0] = (value as i8).to_le_bytes()[0],
            PixelType::U8 => out[0] = value as u8,
            PixelType::I16 => LittleEndian::write_i16(out, value as i16),
            PixelType::U16 => LittleEndian::write_u16(out, value as u16),
            PixelType::I32 => LittleEndian::write_i32(out, value as i32),
            PixelType::U32 => LittleEndian::write_u32(out, value as u32),
        }
    }
}
