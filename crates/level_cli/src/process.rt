//! The program over the words of its command line.

ghost use Rattle.std.specs.Prelude.{◌≡◌, ◌⊎◌, ℕ, List, None, Some, drop};
ghost use Rattle.std.specs.Process.{exit_status};
ghost use Rattle.outside_io.specs.program.Line.{GivesLine};
ghost use Rattle.outside_io.specs.streams.Faults.{IsCause};
ghost use Rattle.program_ends.specs.Moves.{sink_move, source_move};
ghost use Rattle.program_ends.specs.declared.stop.Stop.{Stop};
ghost use Rattle.level_cli.specs.Commands.{IsNoCommand, IsSpelled};
ghost use Rattle.level_cli.specs.Names.{line_of};
ghost use Rattle.level_cli.specs.Run.{IsUnread, IsVolumeCause, OfRun, shelf_move};
ghost use Rattle.level_cli.specs.declared.words.Command.{Command};

use crate::dispatch::run_level;
use level_cache::Shelf;
use outside_io::{Sink, Source};
use program_ends::{Arguments, end_without_memory, exit_code, words_from};
use std::alloc::Global;
use std::process::ExitCode;

/// The program over what gives its arguments and over its objects: a run of the words behind the
/// program's name and the folder. Where memory for these words is refused, the line of that is all
/// that it gives.
pub fn serve<A: Arguments, S: Source, K: Sink, E: Sink, H: Shelf>(
    alloc: Global,
    args: &A,
    src: &mut S,
    out: &mut K,
    err: &mut E,
    shelf: &mut H,
) -> ExitCode
    requires none_out { H.out shelf.old ≡ None }
    ensures none_out { H.out shelf.new ≡ None }
    ensures told { H.told shelf.new ≡ H.told shelf.old }

    // An object that fails gives its status, and nothing else gives it. A shelf that fails comes
    // before its volume.
    ensures source_failed { IsCause (exit_status result ≡ 3) (S.faults src.old) (S.faults src.new) }
    ensures output_failed { IsCause (exit_status result ≡ 4) (K.faults out.old) (K.faults out.new) }
    ensures shelf_failed { IsCause (exit_status result ≡ 8)
        (H.faults shelf.old) (H.faults shelf.new) }
    ensures volume_failed { IsVolumeCause (exit_status result ≡ 5) (exit_status result ≡ 8)
        (H.volume_faults shelf.old) (H.volume_faults shelf.new) }

    // And whatever the arguments tell, a run is one of some words, unless these were not read.
    ensures some_run { (exit_status result ≡ 1)
        ⊎ (IsUnread (exit_status result) (source_move S.left S.faults src.old src.new)
        (sink_move K.held K.faults out.old out.new)
        (shelf_move H.told H.volumes shelf.old shelf.new)
        (sink_move E.held E.faults err.old err.new)
        ⊎ ((words : List (List ℕ)) × ((c : Command) × (IsSpelled c words
        × OfRun H.Vol.told H.Vol.history H.Vol.faults c (exit_status result)
        (source_move S.left S.faults src.old src.new)
        (sink_move K.held K.faults out.old out.new)
        (shelf_move H.told H.volumes shelf.old shelf.new)
        (sink_move E.held E.faults err.old err.new))))) }

    // The rest where the texts are told.
    ensures usage { (texts : List (List ℕ)) → A.texts args.now ≡ Some texts
        → IsNoCommand (drop 2 texts) → (exit_status result ≡ 1)
        ⊎ IsUnread (exit_status result) (source_move S.left S.faults src.old src.new)
        (sink_move K.held K.faults out.old out.new)
        (shelf_move H.told H.volumes shelf.old shelf.new)
        (sink_move E.held E.faults err.old err.new) }
    ensures unused { exit_status result ≡ 1 → (src.new ≡ src.old) × (out.new ≡ out.old)
        × (shelf.new ≡ shelf.old)
        × GivesLine (E.held err.old) (E.held err.new) (E.faults err.old) (E.faults err.new)
        (line_of Stop.Usage) }
    ensures ran { (texts : List (List ℕ)) → A.texts args.now ≡ Some texts
        → (c : Command) → IsSpelled c (drop 2 texts)
        → IsUnread (exit_status result) (source_move S.left S.faults src.old src.new)
        (sink_move K.held K.faults out.old out.new)
        (shelf_move H.told H.volumes shelf.old shelf.new)
        (sink_move E.held E.faults err.old err.new)
        ⊎ OfRun H.Vol.told H.Vol.history H.Vol.faults c (exit_status result)
        (source_move S.left S.faults src.old src.new)
        (sink_move K.held K.faults out.old out.new)
        (shelf_move H.told H.volumes shelf.old shelf.new)
        (sink_move E.held E.faults err.old err.new) }
{
    match words_from(alloc, args, 2) {
        Ok(words) => exit_code(run_level(alloc, &words, src, out, err, shelf)),
        Err(_) => end_without_memory(err),
    }
}
