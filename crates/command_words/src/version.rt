//! Words that are a version.

ghost use Rattle.std.specs.Prelude.{◌≡◌, ◌↔◌, Some};
ghost use Rattle.lerc_header.specs.declared.header.Version.{Version};
ghost use Rattle.command_words.specs.Words.{IsVersionWord};

use crate::number::has_text;
use lerc_header::Version;
use outside_io::Word;

/// The version that a word names.
pub fn version_of(word: &Word) -> Option<Version>
    ensures { (version : Version) → (result ≡ Some version) ↔ IsVersionWord word.now version }
{
    if has_text(word, b"3") {
        return Some(Version::V3);
    }
    if has_text(word, b"4") {
        return Some(Version::V4);
    }
    None
}
