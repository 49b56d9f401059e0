//! What the program can be asked for, and the words that ask for it.

ghost use Rattle.std.specs.Prelude.{◌≡◌, ◌↔◌, ◌∷◌, [], ℕ, Some};
ghost use Rattle.command_words.specs.Words.{IsWithin};
ghost use Rattle.level_cache.specs.Places.{Corner};
ghost use Rattle.level_cli.specs.declared.words.Command.{Command};
ghost use Rattle.level_cli.specs.Commands.{ArePlaceWords, IsSpelled};
ghost use Rattle.level_cli.specs.inside.Spelling.{IsGet, IsName, IsPut};

use command_words::{error_of, has_text, number_within, version_of};
use lerc_header::Version;
use level_cache::Place;
use outside_io::Word;

/// What is told where the words are no command: the commands that there are.
pub const USAGE: &[u8] = b"usage: FOLDER put V E ROW COL, get ROW COL raw, name ROW COL";

/// What the program is asked to do.
#[derive(Clone, Copy)]
pub enum Command {
    /// Reads one grid, and puts the blobs of its bands in this version at the place. Their values
    /// may be this far from the given ones, and are the given ones where the error is 0.
    Put {
        version: Version,
        error: u32,
        place: Place,
    },
    /// Gives the bytes of the place's tile.
    Get {
        place: Place,
    },
    /// Gives the name of the bundle that has the place.
    Name {
        place: Place,
    },
}

/// The greatest row and column of a level.
const LAST: u64 = 2_147_483_647;

/// The row or the column that a word stands for.
fn row_or_col_of(word: &Word) -> Option<u32>
    ensures { (n : ℕ) → (result ≡ Some n) ↔ IsWithin word.now n 0 2147483647 }
{
    match number_within(word, 0, LAST) {
        Some(n) => Some(n as u32),
        None => None,
    }
}

/// The place that a row's and a column's words stand for.
fn place_of(row: &Word, col: &Word) -> Option<Place>
    ensures { (place : Corner) → (result ≡ Some place) ↔ ArePlaceWords row.now col.now place }
{
    let row = row_or_col_of(row)?;
    let col = row_or_col_of(col)?;
    Place::of(row, col)
}

/// The command `put` of a version's word, an error's, a row's and a column's.
fn put_of(version: &Word, error: &Word, row: &Word, col: &Word) -> Option<Command>
    ensures { (c : Command) → (result ≡ Some c)
        ↔ IsPut version.now error.now row.now col.now c }
{
    let version = version_of(version)?;
    let error = error_of(error)?;
    let place = place_of(row, col)?;
    Some(Command::Put {
        version,
        error,
        place,
    })
}

/// The command `get` of a row's word and a column's.
fn get_of(row: &Word, col: &Word) -> Option<Command>
    ensures { (c : Command) → (result ≡ Some c) ↔ IsGet row.now col.now c }
{
    let place = place_of(row, col)?;
    Some(Command::Get { place })
}

/// The command `name` of a row's word and a column's.
fn name_of(row: &Word, col: &Word) -> Option<Command>
    ensures { (c : Command) → (result ≡ Some c) ↔ IsName row.now col.now c }
{
    let place = place_of(row, col)?;
    Some(Command::Name { place })
}

/// The command of a name and two words.
fn with_two(name: &Word, first: &Word, second: &Word) -> Option<Command>
    ensures { (c : Command) → (result ≡ Some c)
        ↔ IsSpelled c (name.now ∷ first.now ∷ second.now ∷ []) }
{
    if has_text(name, b"name") {
        return name_of(first, second);
    }
    None
}

/// The command of a name and three words.
fn with_three(name: &Word, first: &Word, second: &Word, third: &Word) -> Option<Command>
    ensures { (c : Command) → (result ≡ Some c)
        ↔ IsSpelled c (name.now ∷ first.now ∷ second.now ∷ third.now ∷ []) }
{
    if has_text(name, b"get") && has_text(third, b"raw") {
        return get_of(first, second);
    }
    None
}

/// The command of a name and four words.
fn with_four(
    name: &Word,
    first: &Word,
    second: &Word,
    third: &Word,
    fourth: &Word,
) -> Option<Command>
    ensures { (c : Command) → (result ≡ Some c) ↔ IsSpelled c
        (name.now ∷ first.now ∷ second.now ∷ third.now ∷ fourth.now ∷ []) }
{
    if has_text(name, b"put") {
        return put_of(first, second, third, fourth);
    }
    None
}

/// The command that the words spell.
pub(crate) fn command_of(words: &[Word]) -> Option<Command>
    ensures { (c : Command) → (result ≡ Some c) ↔ IsSpelled c words.now }
{
    match words {
        [name, first, second] => with_two(name, first, second),
        [name, first, second, third] => with_three(name, first, second, third),
        [name, first, second, third, fourth] => with_four(name, first, second, third, fourth),
        _ => None,
    }
}
