//! The program over the words of its command line.

ghost use Rattle.std.specs.Prelude.{◌≡◌, ◌⊎◌, ℕ, List, Some, drop};
ghost use Rattle.std.specs.Process.{exit_status};
ghost use Rattle.outside_io.specs.program.Line.{GivesLine};
ghost use Rattle.program_ends.specs.Moves.{sink_move, volume_move};
ghost use Rattle.program_ends.specs.declared.stop.Stop.{Stop};
ghost use Rattle.audit_cli.specs.Commands.{IsNoCommand, IsSpelled};
ghost use Rattle.audit_cli.specs.Names.{line_of};
ghost use Rattle.audit_cli.specs.Run.{IsUnread, OfRun};
ghost use Rattle.audit_cli.specs.declared.command.Command.{Command};

use crate::dispatch::run_audit;
use outside_io::{Sink, Volume};
use program_ends::{Arguments, end_without_memory, exit_code, words_from};
use std::alloc::Global;
use std::process::ExitCode;
use std::thread::Threads;
use tile_workers::Gate;

/// The program over what gives its arguments and over its objects: a run of the words behind the
/// program's name and the path of the bundle. Where memory for these words is refused, the line of
/// that is all that it gives.
pub fn serve<R: Threads + Sync, A: Arguments, K: Sink, E: Sink, V: Volume, G: Gate>(
    rt: &R,
    alloc: Global,
    args: &A,
    out: &mut K,
    err: &mut E,
    vol: &mut V,
    gate: &G,
) -> ExitCode
    ensures usage { (texts : List (List ℕ)) → A.texts args.now ≡ Some texts
        → IsNoCommand (drop 2 texts) → (exit_status result ≡ 1)
        ⊎ IsUnread (exit_status result)
        (volume_move V.told V.history V.faults vol.old vol.new)
        (sink_move K.held K.faults out.old out.new)
        (sink_move E.held E.faults err.old err.new) }
    ensures unused { exit_status result ≡ 1 → (out.new ≡ out.old) × (vol.new ≡ vol.old)
        × GivesLine (E.held err.old) (E.held err.new) (E.faults err.old) (E.faults err.new)
        (line_of Stop.Usage) }
    ensures ran { (texts : List (List ℕ)) → A.texts args.now ≡ Some texts
        → (c : Command) → IsSpelled c (drop 2 texts)
        → IsUnread (exit_status result)
        (volume_move V.told V.history V.faults vol.old vol.new)
        (sink_move K.held K.faults out.old out.new)
        (sink_move E.held E.faults err.old err.new)
        ⊎ OfRun c (exit_status result)
        (volume_move V.told V.history V.faults vol.old vol.new)
        (sink_move K.held K.faults out.old out.new)
        (sink_move E.held E.faults err.old err.new) }
{
    match words_from(alloc, args, 2) {
        Ok(words) => exit_code(run_audit(rt, alloc, &words, out, err, vol, gate)),
        Err(_) => end_without_memory(err),
    }
}
