//! The words that ask for an export or an import.

ghost use Rattle.std.specs.Prelude.{◌≡◌, ◌↔◌, ◌∷◌, [], Some};
ghost use Rattle.tiles_cli.specs.Commands.{IsSpelled};
ghost use Rattle.tiles_cli.specs.declared.words.Command.{Command};

use command_words::has_text;
use outside_io::Word;

/// What is told where the words are no command.
pub const USAGE: &[u8] = b"usage: PATH export, export listed, import";

/// What the program is asked for.
#[derive(Clone, Copy)]
pub enum Command {
    /// Gives all tiles of the bundle, by slot.
    Export,
    /// Reads a list of slots, and gives their tiles, in the order of the list.
    Listed,
    /// Reads a stream, and puts its tiles into the bundle.
    Import,
}

/// The command of one word.
#[tactic(auto, unfolding(crate::specs::Commands::IsSpelled))]
fn of_one(name: &Word) -> Option<Command>
    ensures { (c : Command) → (result ≡ Some c) ↔ IsSpelled c (name.now ∷ []) }
{
    if has_text(name, b"export") {
        return Some(Command::Export);
    }
    if has_text(name, b"import") {
        return Some(Command::Import);
    }
    None
}

/// The command of two words.
#[tactic(auto, unfolding(crate::specs::Commands::IsSpelled))]
fn of_two(name: &Word, second: &Word) -> Option<Command>
    ensures { (c : Command) → (result ≡ Some c) ↔ IsSpelled c (name.now ∷ second.now ∷ []) }
{
    if has_text(name, b"export") && has_text(second, b"listed") {
        return Some(Command::Listed);
    }
    None
}

/// The command that the words spell.
#[tactic(auto, unfolding(crate::specs::Commands::IsSpelled))]
pub fn command_of(words: &[Word]) -> Option<Command>
    ensures { (c : Command) → (result ≡ Some c) ↔ IsSpelled c words.now }
{
    match words {
        [name] => of_one(name),
        [name, second] => of_two(name, second),
        _ => None,
    }
}
