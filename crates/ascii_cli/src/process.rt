//! The program over the words of its command line.

ghost use Rattle.std.specs.Prelude.{◌≡◌, ◌⊎◌, ℕ, List, Some, drop};
ghost use Rattle.std.specs.Process.{exit_status};
ghost use Rattle.outside_io.specs.program.Line.{GivesLine};
ghost use Rattle.outside_io.specs.streams.Faults.{IsCause};
ghost use Rattle.program_ends.specs.Moves.{sink_move, source_move};
ghost use Rattle.program_ends.specs.declared.stop.Stop.{Stop};
ghost use Rattle.ascii_cli.specs.Names.{line_of};
ghost use Rattle.ascii_cli.specs.declared.words.Command.{Command};
ghost use Rattle.ascii_cli.specs.Commands.{IsNoCommand, IsSpelled};
ghost use Rattle.ascii_cli.specs.Run.{IsUnread, OfRun};

use crate::dispatch::run_ascii;
use outside_io::{Sink, Source};
use program_ends::{Arguments, end_without_memory, exit_code, words_from};
use std::alloc::Global;
use std::process::ExitCode;

/// The program over what gives its arguments and over its objects: a run of the words behind the
/// program's name. Where memory for these words is refused, the line of that is all that it gives.
pub fn serve<A: Arguments, S: Source, K: Sink, E: Sink>(
    alloc: Global,
    args: &A,
    src: &mut S,
    out: &mut K,
    err: &mut E,
) -> ExitCode
    // An object that fails gives its status, and nothing else gives it.
    ensures source_failed { IsCause (exit_status result ≡ 3) (S.faults src.old) (S.faults src.new) }
    ensures output_failed { IsCause (exit_status result ≡ 4) (K.faults out.old) (K.faults out.new) }

    // And whatever the arguments tell, a run is one of some words, unless these were not read.
    ensures some_run { (exit_status result ≡ 1)
        ⊎ (IsUnread (exit_status result) (source_move S.left S.faults src.old src.new)
        (sink_move K.held K.faults out.old out.new)
        (sink_move E.held E.faults err.old err.new)
        ⊎ ((words : List (List ℕ)) × ((c : Command) × (IsSpelled c words
        × OfRun c (exit_status result)
        (source_move S.left S.faults src.old src.new)
        (sink_move K.held K.faults out.old out.new)
        (sink_move E.held E.faults err.old err.new))))) }

    // The rest where the texts are told.
    ensures usage { (texts : List (List ℕ)) → A.texts args.now ≡ Some texts
        → IsNoCommand (drop 1 texts) → (exit_status result ≡ 1)
        ⊎ IsUnread (exit_status result) (source_move S.left S.faults src.old src.new)
        (sink_move K.held K.faults out.old out.new)
        (sink_move E.held E.faults err.old err.new) }
    ensures unused { exit_status result ≡ 1 → (src.new ≡ src.old) × (out.new ≡ out.old)
        × GivesLine (E.held err.old) (E.held err.new) (E.faults err.old) (E.faults err.new)
        (line_of Stop.Usage) }
    ensures ran { (texts : List (List ℕ)) → A.texts args.now ≡ Some texts
        → (c : Command) → IsSpelled c (drop 1 texts)
        → IsUnread (exit_status result) (source_move S.left S.faults src.old src.new)
        (sink_move K.held K.faults out.old out.new)
        (sink_move E.held E.faults err.old err.new)
        ⊎ OfRun c (exit_status result)
        (source_move S.left S.faults src.old src.new)
        (sink_move K.held K.faults out.old out.new)
        (sink_move E.held E.faults err.old err.new) }
{
    match words_from(alloc, args, 1) {
        Ok(words) => exit_code(run_ascii(alloc, &words, src, out, err)),
        Err(_) => end_without_memory(err),
    }
}
