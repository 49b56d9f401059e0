//! Words that are a pixel type.

ghost use Rattle.std.specs.Prelude.{◌≡◌, ◌↔◌, ◌≤◌, Some, length};
ghost use Rattle.raster_cells.specs.declared.kind.PixelType.{PixelType};
ghost use Rattle.command_words.specs.Words.{type_name};

use crate::number::has_text;
use outside_io::Word;
use raster_values::PixelType;

/// The name of a type.
pub fn type_word(kind: PixelType) -> &'static [u8]
    ensures name { result.now ≡ type_name kind }
    ensures short { length result.now ≤ 3 }
{
    match kind {
        PixelType::I8 => b"i8",
        PixelType::U8 => b"u8",
        PixelType::I16 => b"i16",
        PixelType::U16 => b"u16",
        PixelType::I32 => b"i32",
        PixelType::U32 => b"u32",
    }
}

/// The type that a word names.
pub fn kind_named(word: &Word) -> Option<PixelType>
    ensures { (kind : PixelType) → (result ≡ Some kind) ↔ (word.now ≡ type_name kind) }
{
    if has_text(word, b"i8") {
        return Some(PixelType::I8);
    }
    if has_text(word, b"u8") {
        return Some(PixelType::U8);
    }
    if has_text(word, b"i16") {
        return Some(PixelType::I16);
    }
    if has_text(word, b"u16") {
        return Some(PixelType::U16);
    }
    if has_text(word, b"i32") {
        return Some(PixelType::I32);
    }
    if has_text(word, b"u32") {
        return Some(PixelType::U32);
    }
    None
}
