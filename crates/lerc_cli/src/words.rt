//! What the program can be asked for, and the words that ask for it.

ghost use Rattle.std.specs.Prelude.{◌≡◌, ◌↔◌, ◌∷◌, [], Some};
ghost use Rattle.lerc_cli.specs.declared.words.Command.{Command};
ghost use Rattle.lerc_cli.specs.inside.Spelling.{IsBuild, IsEncode, IsGet, IsGetRaw, IsPut, IsSample};
ghost use Rattle.lerc_cli.specs.words.Commands.{IsSpelled};

use bundle_index::Slot;
use command_words::{error_of, has_text, number_up_to, slot_of, version_of, workers_of};
use lerc_header::Version;
use outside_io::Word;
use sample_tiles::MOST_TILES;

/// What is told where the words are no command: the commands that there are.
pub const USAGE: &[u8] =
    b"usage: PATH encode V E, decode, info, build V E N, put V E N, get R C, get R C raw, list, \
    check, recover, sample START COUNT";

/// What the program is asked to do.
#[derive(Clone, Copy)]
pub enum Command {
    /// Reads one grid, and gives the blobs of its bands in this version. Their values may be this
    /// far from the given ones, and are the given ones where the error is 0.
    Encode {
        version: Version,
        error: u32,
    },
    /// Reads the blobs of bands, and gives their grid.
    Decode,
    /// Reads the blobs of bands, and gives the lines of what each says of itself.
    Info,
    /// Reads tiles, and builds a bundle of the blobs of each slot's last one in the place of an
    /// empty bundle. The number of workers changes nothing of what is given and built.
    Build {
        version: Version,
        error: u32,
        workers: u32,
    },
    /// Reads tiles, and puts the blobs of each into its slot. The number of workers changes nothing
    /// of what is given and put.
    Put {
        version: Version,
        error: u32,
        workers: u32,
    },
    /// Gives the grid of the slot's tile.
    Get {
        slot: Slot,
    },
    /// Gives the bytes of the slot's tile.
    GetRaw {
        slot: Slot,
    },
    /// Gives a line for each tile of the bundle.
    List,
    /// Checks the bundle, and gives the lines of what was found.
    Check,
    /// Makes whole what a crash left, and gives the line of what that was.
    Recover,
    /// Draws so many tiles, encodes and decodes them, and gives the lines of what they come to.
    /// They are drawn from the start on.
    Sample {
        start: u32,
        count: u32,
    },
}

/// The command `encode` of a version's word and an error's.
fn encode_of(version: &Word, error: &Word) -> Option<Command>
    ensures { (c : Command) → (result ≡ Some c) ↔ IsEncode version.now error.now c }
{
    let version = version_of(version)?;
    let error = error_of(error)?;
    Some(Command::Encode { version, error })
}

/// The command `build` of a version's word, an error's and that of a number of workers.
fn build_of(version: &Word, error: &Word, workers: &Word) -> Option<Command>
    ensures { (c : Command) → (result ≡ Some c)
        ↔ IsBuild version.now error.now workers.now c }
{
    let version = version_of(version)?;
    let error = error_of(error)?;
    let workers = workers_of(workers)?;
    Some(Command::Build {
        version,
        error,
        workers,
    })
}

/// The command `put` of a version's word, an error's and that of a number of workers.
fn put_of(version: &Word, error: &Word, workers: &Word) -> Option<Command>
    ensures { (c : Command) → (result ≡ Some c)
        ↔ IsPut version.now error.now workers.now c }
{
    let version = version_of(version)?;
    let error = error_of(error)?;
    let workers = workers_of(workers)?;
    Some(Command::Put {
        version,
        error,
        workers,
    })
}

/// The command `get` of a row's word and a column's.
fn get_of(row: &Word, col: &Word) -> Option<Command>
    ensures { (c : Command) → (result ≡ Some c) ↔ IsGet row.now col.now c }
{
    let slot = slot_of(row, col)?;
    Some(Command::Get { slot })
}

/// The same of the tile's bytes.
fn get_raw_of(row: &Word, col: &Word) -> Option<Command>
    ensures { (c : Command) → (result ≡ Some c) ↔ IsGetRaw row.now col.now c }
{
    let slot = slot_of(row, col)?;
    Some(Command::GetRaw { slot })
}

/// The command `sample` of a start's word and that of a number of tiles.
fn sample_of(start: &Word, count: &Word) -> Option<Command>
    ensures { (c : Command) → (result ≡ Some c) ↔ IsSample start.now count.now c }
{
    let start = number_up_to(start, u32::MAX)?;
    let count = number_up_to(count, MOST_TILES)?;
    Some(Command::Sample { start, count })
}

/// The command of one word.
fn plain_of(word: &Word) -> Option<Command>
    ensures { (c : Command) → (result ≡ Some c) ↔ IsSpelled c (word.now ∷ []) }
{
    if has_text(word, b"decode") {
        return Some(Command::Decode);
    }
    if has_text(word, b"info") {
        return Some(Command::Info);
    }
    if has_text(word, b"list") {
        return Some(Command::List);
    }
    if has_text(word, b"check") {
        return Some(Command::Check);
    }
    if has_text(word, b"recover") {
        return Some(Command::Recover);
    }
    None
}

/// The command of a name and two words.
fn with_two(name: &Word, first: &Word, second: &Word) -> Option<Command>
    ensures { (c : Command) → (result ≡ Some c)
        ↔ IsSpelled c (name.now ∷ first.now ∷ second.now ∷ []) }
{
    if has_text(name, b"encode") {
        return encode_of(first, second);
    }
    if has_text(name, b"get") {
        return get_of(first, second);
    }
    if has_text(name, b"sample") {
        return sample_of(first, second);
    }
    None
}

/// The command of a name and three words.
fn with_three(name: &Word, first: &Word, second: &Word, third: &Word) -> Option<Command>
    ensures { (c : Command) → (result ≡ Some c)
        ↔ IsSpelled c (name.now ∷ first.now ∷ second.now ∷ third.now ∷ []) }
{
    if has_text(name, b"build") {
        return build_of(first, second, third);
    }
    if has_text(name, b"put") {
        return put_of(first, second, third);
    }
    if has_text(name, b"get") && has_text(third, b"raw") {
        return get_raw_of(first, second);
    }
    None
}

/// The command that the words spell.
pub fn command_of(words: &[Word]) -> Option<Command>
    ensures { (c : Command) → (result ≡ Some c) ↔ IsSpelled c words.now }
{
    match words {
        [word] => plain_of(word),
        [name, first, second] => with_two(name, first, second),
        [name, first, second, third] => with_three(name, first, second, third),
        _ => None,
    }
}
