//! The program over the words of its command line.

ghost use Rattle.std.specs.Prelude.{◌≡◌, ◌⊎◌, ℕ, List, Some, drop};
ghost use Rattle.std.specs.Process.{exit_status};
ghost use Rattle.outside_io.specs.program.Line.{GivesLine};
ghost use Rattle.outside_io.specs.streams.Faults.{IsCause};
ghost use Rattle.program_ends.specs.Moves.{sink_move, source_move, volume_move};
ghost use Rattle.program_ends.specs.declared.stop.Stop.{Stop};
ghost use Rattle.lerc_cli.specs.answers.Names.{line_of};
ghost use Rattle.lerc_cli.specs.declared.words.Command.{Command};
ghost use Rattle.lerc_cli.specs.run.Run.{IsUnread, OfRun};
ghost use Rattle.lerc_cli.specs.words.Commands.{IsSpelled, IsNoCommand};

use crate::dispatch::run;
use outside_io::{Sink, Source, Volume};
use program_ends::{Arguments, end_without_memory, exit_code, words_from};
use std::alloc::Global;
use std::process::ExitCode;
use std::thread::Threads;
use tile_workers::Gate;

/// The program over what gives its arguments and over its objects: a run of the words behind the
/// program's name and the bundle's path. Where memory for these words is refused, the line of that
/// is all that it gives.
pub fn serve<R: Threads + Sync, A: Arguments, S: Source, K: Sink, E: Sink, V: Volume, G: Gate>(
    rt: &R,
    alloc: Global,
    args: &A,
    src: &mut S,
    out: &mut K,
    err: &mut E,
    vol: &mut V,
    gate: &G,
) -> ExitCode
    // An object that fails gives its status, and nothing else gives it.
    ensures source_failed { IsCause (exit_status result ≡ 3) (S.faults src.old) (S.faults src.new) }
    ensures output_failed { IsCause (exit_status result ≡ 4) (K.faults out.old) (K.faults out.new) }
    ensures volume_failed { IsCause (exit_status result ≡ 5) (V.faults vol.old) (V.faults vol.new) }

    // And whatever the arguments tell, a run is one of some words, unless these were not read.
    ensures some_run { (exit_status result ≡ 1)
        ⊎ (IsUnread (exit_status result) (source_move S.left S.faults src.old src.new)
        (sink_move K.held K.faults out.old out.new)
        (volume_move V.told V.history V.faults vol.old vol.new)
        (sink_move E.held E.faults err.old err.new)
        ⊎ ((words : List (List ℕ)) × ((c : Command) × (IsSpelled c words
        × ((marks : List ℕ) × OfRun c (exit_status result) marks
        (source_move S.left S.faults src.old src.new)
        (sink_move K.held K.faults out.old out.new)
        (volume_move V.told V.history V.faults vol.old vol.new)
        (sink_move E.held E.faults err.old err.new)))))) }

    // The rest where the texts are told.
    ensures usage { (texts : List (List ℕ)) → A.texts args.now ≡ Some texts
        → IsNoCommand (drop 2 texts) → (exit_status result ≡ 1)
        ⊎ IsUnread (exit_status result) (source_move S.left S.faults src.old src.new)
        (sink_move K.held K.faults out.old out.new)
        (volume_move V.told V.history V.faults vol.old vol.new)
        (sink_move E.held E.faults err.old err.new) }
    ensures unused { exit_status result ≡ 1
        → (src.new ≡ src.old) × (out.new ≡ out.old) × (vol.new ≡ vol.old)
        × GivesLine (E.held err.old) (E.held err.new) (E.faults err.old) (E.faults err.new)
        (line_of Stop.Usage) }
    ensures ran { (texts : List (List ℕ)) → A.texts args.now ≡ Some texts
        → (c : Command) → IsSpelled c (drop 2 texts)
        → IsUnread (exit_status result) (source_move S.left S.faults src.old src.new)
        (sink_move K.held K.faults out.old out.new)
        (volume_move V.told V.history V.faults vol.old vol.new)
        (sink_move E.held E.faults err.old err.new)
        ⊎ ((marks : List ℕ) × OfRun c (exit_status result) marks
        (source_move S.left S.faults src.old src.new)
        (sink_move K.held K.faults out.old out.new)
        (volume_move V.told V.history V.faults vol.old vol.new)
        (sink_move E.held E.faults err.old err.new)) }
{
    match words_from(alloc, args, 2) {
        Ok(words) => exit_code(run(rt, alloc, &words, src, out, err, vol, gate).status),
        Err(_) => end_without_memory(err),
    }
}
