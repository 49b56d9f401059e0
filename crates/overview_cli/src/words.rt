//! The words that ask for an overview.

ghost use Rattle.std.specs.Prelude.{◌≡◌, ◌↔◌, ◌∷◌, ℕ, [], Some};
ghost use Rattle.command_words.specs.Words.{IsWithin};
ghost use Rattle.overview_cli.specs.Commands.{AreSpelled, IsSpelled};
ghost use Rattle.overview_cli.specs.declared.words.Command.{Command};

use command_words::{error_of, has_text, number_within, version_of, workers_of};
use lerc_header::Version;
use outside_io::Word;

/// What is told where the words are no command.
pub const USAGE: &[u8] = b"usage: FROM TO overview Q V E N";

/// The greatest number of a quarter.
const LAST_QUARTER: u64 = 3;

/// What the program is asked for: the overview of a bundle, as a quarter of the coarser one.
#[derive(Clone, Copy)]
pub struct Command {
    /// From 0 to 3: upper left, upper right, lower left, lower right.
    pub quarter: u8,
    /// The version of the blobs.
    pub version: Version,
    /// How far their values may be from the means; they are the means where it is 0.
    pub error: u32,
    /// How many workers encode, from 1 to 64. It changes nothing of what is given and put.
    pub workers: u32,
}

/// The quarter that a word stands for.
fn quarter_of(word: &Word) -> Option<u8>
    ensures { (quarter : ℕ) → (result ≡ Some quarter) ↔ IsWithin word.now quarter 0 3 }
{
    match number_within(word, 0, LAST_QUARTER) {
        Some(quarter) => Some(quarter as u8),
        None => None,
    }
}

/// The command of the words of a quarter, a version, an error and a number of workers.
fn overview_of(quarter: &Word, version: &Word, error: &Word, workers: &Word) -> Option<Command>
    ensures { (c : Command) → (result ≡ Some c)
        ↔ AreSpelled c quarter.now version.now error.now workers.now }
{
    let quarter = quarter_of(quarter)?;
    let version = version_of(version)?;
    let error = error_of(error)?;
    let workers = workers_of(workers)?;
    Some(Command {
        quarter,
        version,
        error,
        workers,
    })
}

/// The command of a name and four words.
fn with_four(
    name: &Word,
    quarter: &Word,
    version: &Word,
    error: &Word,
    workers: &Word,
) -> Option<Command>
    ensures { (c : Command) → (result ≡ Some c) ↔ IsSpelled c
        (name.now ∷ quarter.now ∷ version.now ∷ error.now ∷ workers.now ∷ []) }
{
    if has_text(name, b"overview") {
        return overview_of(quarter, version, error, workers);
    }
    None
}

/// The command that the words spell.
pub fn command_of(words: &[Word]) -> Option<Command>
    ensures { (c : Command) → (result ≡ Some c) ↔ IsSpelled c words.now }
{
    match words {
        [name, quarter, version, error, workers] => {
            with_four(name, quarter, version, error, workers)
        }
        _ => None,
    }
}
