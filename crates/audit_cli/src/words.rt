//! The words that ask for an audit.

ghost use Rattle.std.specs.Prelude.{◌≡◌, ◌↔◌, ◌∷◌, [], Some};
ghost use Rattle.audit_cli.specs.Commands.{AreAsked, IsNamed, IsSpelled};
ghost use Rattle.audit_cli.specs.declared.command.Command.{Command};

use crate::command::Command;
use command_words::{has_text, workers_of};
use outside_io::Word;

/// What is told where the words are no command.
pub const USAGE: &[u8] = b"usage: PATH audit N [all] [strict]";

/// The command of a number of workers, with these options.
fn asked_for(workers: &Word, all: bool, strict: bool) -> Option<Command>
    ensures { (c : Command) → (result ≡ Some c) ↔ AreAsked c workers.now all strict }
{
    let workers = workers_of(workers)?;
    Some(Command {
        workers,
        all,
        strict,
    })
}

/// The command of a name and a number of workers, with these options.
fn named(name: &Word, workers: &Word, all: bool, strict: bool) -> Option<Command>
    ensures { (c : Command) → (result ≡ Some c) ↔ IsNamed c name.now workers.now all strict }
{
    if has_text(name, b"audit") {
        return asked_for(workers, all, strict);
    }
    None
}

/// The command of a name and a number of workers alone.
fn with_none(name: &Word, workers: &Word) -> Option<Command>
    ensures { (c : Command) → (result ≡ Some c)
        ↔ IsSpelled c (name.now ∷ workers.now ∷ []) }
{
    named(name, workers, false, false)
}

/// The same with one word more, which is one of the two options.
fn with_one(name: &Word, workers: &Word, option: &Word) -> Option<Command>
    ensures { (c : Command) → (result ≡ Some c)
        ↔ IsSpelled c (name.now ∷ workers.now ∷ option.now ∷ []) }
{
    if has_text(option, b"all") {
        return named(name, workers, true, false);
    }
    if has_text(option, b"strict") {
        return named(name, workers, false, true);
    }
    None
}

/// The same with two words more, which are both options.
fn with_both(name: &Word, workers: &Word, first: &Word, second: &Word) -> Option<Command>
    ensures { (c : Command) → (result ≡ Some c)
        ↔ IsSpelled c (name.now ∷ workers.now ∷ first.now ∷ second.now ∷ []) }
{
    if has_text(first, b"all") && has_text(second, b"strict") {
        return named(name, workers, true, true);
    }
    None
}

/// The command that the words spell.
pub fn command_of(words: &[Word]) -> Option<Command>
    ensures { (c : Command) → (result ≡ Some c) ↔ IsSpelled c words.now }
{
    match words {
        [name, workers] => with_none(name, workers),
        [name, workers, option] => with_one(name, workers, option),
        [name, workers, first, second] => with_both(name, workers, first, second),
        _ => None,
    }
}
