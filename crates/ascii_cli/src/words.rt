//! What the program can be asked for, and the words that ask for it.

ghost use Rattle.std.specs.Prelude.{◌≡◌, ◌↔◌, ◌∷◌, [], Some};
ghost use Rattle.ascii_cli.specs.declared.words.Command.{Command};
ghost use Rattle.ascii_cli.specs.Commands.{IsSpelled};

use command_words::{has_text, kind_named};
use outside_io::Word;
use raster_values::PixelType;

/// What is told where the words are no command: the commands that there are.
pub const USAGE: &[u8] = b"usage: split TYPE, join";

/// What the program is asked to do.
#[derive(Clone, Copy)]
pub enum Command {
    /// Reads a text, the numbers of which are of the type or nodata, and gives its `LGA1`.
    Split { kind: PixelType },
    /// Reads an `LGA1`, and gives the one text that is written of its grid.
    Join,
}

/// The command of one word.
fn plain_of(word: &Word) -> Option<Command>
    ensures { (c : Command) → (result ≡ Some c) ↔ IsSpelled c (word.now ∷ []) }
{
    if has_text(word, b"join") {
        return Some(Command::Join);
    }
    None
}

/// The command of a name and a type's name.
fn with_kind(name: &Word, kind: &Word) -> Option<Command>
    ensures { (c : Command) → (result ≡ Some c) ↔ IsSpelled c (name.now ∷ kind.now ∷ []) }
{
    if !has_text(name, b"split") {
        return None;
    }
    let kind = kind_named(kind)?;
    Some(Command::Split { kind })
}

/// The command that the words spell.
pub(crate) fn command_of(words: &[Word]) -> Option<Command>
    ensures { (c : Command) → (result ≡ Some c) ↔ IsSpelled c words.now }
{
    match words {
        [word] => plain_of(word),
        [name, kind] => with_kind(name, kind),
        _ => None,
    }
}
