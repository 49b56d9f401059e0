//! The program over the words of its command line.

ghost use Rattle.std.specs.Prelude.{◌≡◌, ◌⊎◌, ◌≤◌, ℕ, List, Some, IfOk, IfSome, length};
ghost use Rattle.std.specs.Process.{exit_status};
ghost use Rattle.outside_io.specs.program.Line.{GivesLine};
ghost use Rattle.outside_io.specs.streams.Faults.{IsCause};
ghost use Rattle.program_ends.specs.Moves.{sink_move, volume_move};
ghost use Rattle.program_ends.specs.declared.stop.Stop.{Stop};
ghost use Rattle.bundle_pack.specs.Names.{line_of};
ghost use Rattle.bundle_pack.specs.Run.{IsUnread, IsVolumeCause, OfRun, asked_by};
ghost use Rattle.bundle_pack.specs.Words.{IsAsked};

use crate::dispatch::run_pack;
use outside_io::{Sink, Volume, Word};
use program_ends::{Arguments, end_without_memory, exit_code, word_at};
use std::alloc::{AllocError, Global};
use std::process::ExitCode;

/// The words that the command line asks with: the one word `pack` where there is a path at all.
fn asking_words<A: Arguments>(alloc: Global, args: &A) -> Result<Vec<Word>, AllocError>
    ensures { IfOk result (λ words.
        IfSome (A.texts args.now) (λ texts. words.items ≡ asked_by texts)) }
{
    let mut words = Vec::new(alloc);
    match word_at(alloc, args, 1)? {
        Some(_) => {
            words.push(Word::of(alloc, "pack")?)?;
            Ok(words)
        }
        None => Ok(words),
    }
}

/// The program over what gives its arguments and over its objects: a run over the target, whose
/// path is the first behind the program's name, and the sources, whose paths are behind that. Where
/// memory for the words is refused, the line of that is all that it gives.
pub fn serve<A: Arguments, K: Sink, E: Sink, V: Volume, W: Volume>(
    alloc: Global,
    args: &A,
    out: &mut K,
    err: &mut E,
    from: &mut [V],
    to: &mut W,
) -> ExitCode
    // An object that fails gives its status, and nothing else gives it.
    ensures output_failed { IsCause (exit_status result ≡ 4) (K.faults out.old) (K.faults out.new) }
    ensures volume_failed { IsVolumeCause V.faults (exit_status result ≡ 5) from.old from.new
        (record { old = W.faults to.old; new = W.faults to.new }) }

    // And whatever the arguments tell, a run is one of some words, unless these were not read.
    ensures some_run { (exit_status result ≡ 1)
        ⊎ (IsUnread (from.new ≡ from.old) (exit_status result)
        (volume_move W.told W.history W.faults to.old to.new)
        (sink_move K.held K.faults out.old out.new)
        (sink_move E.held E.faults err.old err.new)
        ⊎ ((words : List (List ℕ)) × (IsAsked words (length from.old)
        × OfRun V.told V.history V.faults from.old from.new (exit_status result)
        (volume_move W.told W.history W.faults to.old to.new)
        (sink_move K.held K.faults out.old out.new)
        (sink_move E.held E.faults err.old err.new)))) }

    // The rest where the texts are told.
    ensures usage { (texts : List (List ℕ)) → A.texts args.now ≡ Some texts
        → (¬ IsAsked (asked_by texts) (length from.old))
        → (exit_status result ≡ 1) ⊎ IsUnread (from.new ≡ from.old) (exit_status result)
        (volume_move W.told W.history W.faults to.old to.new)
        (sink_move K.held K.faults out.old out.new)
        (sink_move E.held E.faults err.old err.new) }
    ensures unused { exit_status result ≡ 1
        → (out.new ≡ out.old) × (from.new ≡ from.old) × (to.new ≡ to.old)
        × GivesLine (E.held err.old) (E.held err.new) (E.faults err.old) (E.faults err.new)
        (line_of Stop.Usage) }
    ensures ran { (texts : List (List ℕ)) → A.texts args.now ≡ Some texts
        → IsAsked (asked_by texts) (length from.old)
        → IsUnread (from.new ≡ from.old) (exit_status result)
        (volume_move W.told W.history W.faults to.old to.new)
        (sink_move K.held K.faults out.old out.new)
        (sink_move E.held E.faults err.old err.new)
        ⊎ OfRun V.told V.history V.faults from.old from.new (exit_status result)
        (volume_move W.told W.history W.faults to.old to.new)
        (sink_move K.held K.faults out.old out.new)
        (sink_move E.held E.faults err.old err.new) }
{
    match asking_words(alloc, args) {
        Ok(words) => exit_code(run_pack(alloc, &words, out, err, from, to)),
        Err(_) => end_without_memory(err),
    }
}
