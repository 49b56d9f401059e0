//! The program over the words of its command line.

ghost use Rattle.std.specs.Prelude.{◌≡◌, ◌⊎◌, ℕ, List, Some, drop};
ghost use Rattle.std.specs.Process.{exit_status};
ghost use Rattle.outside_io.specs.program.Line.{GivesLine};
ghost use Rattle.outside_io.specs.streams.Faults.{IsCause};
ghost use Rattle.program_ends.specs.Moves.{sink_move, volume_move};
ghost use Rattle.program_ends.specs.declared.stop.Stop.{Stop};
ghost use Rattle.overview_cli.specs.Commands.{IsNoCommand, IsSpelled};
ghost use Rattle.overview_cli.specs.Names.{line_of};
ghost use Rattle.overview_cli.specs.Run.{IsUnread, IsVolumeCause, OfRun};
ghost use Rattle.overview_cli.specs.declared.words.Command.{Command};

use crate::dispatch::run_overview;
use outside_io::{Sink, Volume};
use program_ends::{Arguments, end_without_memory, exit_code, words_from};
use std::alloc::Global;
use std::process::ExitCode;
use std::thread::Threads;
use tile_workers::Gate;

/// The program over what gives its arguments and over its objects: a run of the words behind the
/// program's name and the paths of the two bundles. Where memory for these words is refused, the
/// line of that is all that it gives.
pub fn serve<R: Threads + Sync, A: Arguments, K: Sink, E: Sink, V: Volume, W: Volume, G: Gate>(
    rt: &R,
    alloc: Global,
    args: &A,
    out: &mut K,
    err: &mut E,
    from: &mut V,
    to: &mut W,
    gate: &G,
) -> ExitCode
    // An object that fails gives its status, and nothing else gives it.
    ensures output_failed { IsCause (exit_status result ≡ 4) (K.faults out.old) (K.faults out.new) }
    ensures volume_failed { IsVolumeCause (exit_status result ≡ 5)
        (record { old = V.faults from.old; new = V.faults from.new })
        (record { old = W.faults to.old; new = W.faults to.new }) }

    // And whatever the arguments tell, a run is one of some words, unless these were not read.
    ensures some_run { (exit_status result ≡ 1)
        ⊎ (IsUnread (exit_status result)
        (volume_move V.told V.history V.faults from.old from.new)
        (volume_move W.told W.history W.faults to.old to.new)
        (sink_move K.held K.faults out.old out.new)
        (sink_move E.held E.faults err.old err.new)
        ⊎ ((words : List (List ℕ)) × ((c : Command) × (IsSpelled c words
        × ((marks : List ℕ) × OfRun c (exit_status result) marks
        (volume_move V.told V.history V.faults from.old from.new)
        (volume_move W.told W.history W.faults to.old to.new)
        (sink_move K.held K.faults out.old out.new)
        (sink_move E.held E.faults err.old err.new)))))) }

    // The rest where the texts are told.
    ensures usage { (texts : List (List ℕ)) → A.texts args.now ≡ Some texts
        → IsNoCommand (drop 3 texts) → (exit_status result ≡ 1)
        ⊎ IsUnread (exit_status result)
        (volume_move V.told V.history V.faults from.old from.new)
        (volume_move W.told W.history W.faults to.old to.new)
        (sink_move K.held K.faults out.old out.new)
        (sink_move E.held E.faults err.old err.new) }
    ensures unused { exit_status result ≡ 1
        → (out.new ≡ out.old) × (from.new ≡ from.old) × (to.new ≡ to.old)
        × GivesLine (E.held err.old) (E.held err.new) (E.faults err.old) (E.faults err.new)
        (line_of Stop.Usage) }
    ensures ran { (texts : List (List ℕ)) → A.texts args.now ≡ Some texts
        → (c : Command) → IsSpelled c (drop 3 texts)
        → IsUnread (exit_status result)
        (volume_move V.told V.history V.faults from.old from.new)
        (volume_move W.told W.history W.faults to.old to.new)
        (sink_move K.held K.faults out.old out.new)
        (sink_move E.held E.faults err.old err.new)
        ⊎ ((marks : List ℕ) × OfRun c (exit_status result) marks
        (volume_move V.told V.history V.faults from.old from.new)
        (volume_move W.told W.history W.faults to.old to.new)
        (sink_move K.held K.faults out.old out.new)
        (sink_move E.held E.faults err.old err.new)) }
{
    match words_from(alloc, args, 3) {
        Ok(words) => { exit_code(run_overview(rt, alloc, &words, out, err, from, to, gate).status) }
        Err(_) => end_without_memory(err),
    }
}
