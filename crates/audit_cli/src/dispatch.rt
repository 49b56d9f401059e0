//! The bundle is audited where that is asked for, and what it ends with is told.

ghost use Rattle.std.specs.Prelude.{◌≡◌, ◌≢◌, ◌⊎◌, ◌↔◌, ◌+◌, ◌≤◌, Err, IsTrue, true};
ghost use Rattle.outside_io.specs.declared.volume.VolFile.TheVariants.{Bundle};
ghost use Rattle.outside_io.specs.program.Line.{GivesLine};
ghost use Rattle.outside_io.specs.streams.Faults.{FailedBetween, IsCause};
ghost use Rattle.outside_io.specs.volume.History.{During, contents, current};
ghost use Rattle.opened_bundle.specs.Files.{files_of};
ghost use Rattle.program_ends.specs.Moves.{sink_move, volume_move};
ghost use Rattle.program_ends.specs.declared.stop.Stop.{Stop};
ghost use Rattle.tile_audit.specs.Laws.{IsClean};
ghost use Rattle.audit_cli.specs.Commands.{IsNoCommand, IsSpelled};
ghost use Rattle.audit_cli.specs.Names.{end_of_counts, line_of, status_of};
ghost use Rattle.audit_cli.specs.Opening.{IsRefused, Refuses, files_at};
ghost use Rattle.audit_cli.specs.Run.{GaveLines, GavePrefix, OfAudit, OfEnd, OfRun, OnlyRead};
ghost use Rattle.audit_cli.specs.declared.refusal.Refusal.{Refusal};
ghost use Rattle.audit_cli.specs.declared.command.Command.{Command};

use crate::command::Command;
use crate::opening::open_to_audit;
use crate::refusal::{Refusal, audit_stop};
use crate::words::{USAGE, command_of};
use outside_io::{Sink, Volume, Word};
use program_ends::{Stop, ended_status};
use std::alloc::Global;
use std::thread::Threads;
use tile_audit::{OpenBundle, Workers, audit_all};
use tile_workers::{Gate, Machine};

/// How a run ends that found so many tiles damaged, of so many.
fn end_of(damaged: u32, tiles: u32) -> Result<(), Stop<Refusal>>
    ensures { result ≡ end_of_counts damaged tiles }
{
    if damaged == 0 {
        return Ok(());
    }
    Err(Stop::Refused(Refusal::Damaged { damaged, tiles }))
}

/// Opens the bundle and audits it.
fn perform<R: Threads + Sync, K: Sink, V: Volume, G: Gate>(
    workers: &Workers<'_, R, G>,
    command: Command,
    out: &mut K,
    vol: &mut V,
) -> Result<(), Stop<Refusal>>
    ensures leaves { OfEnd command result
        (volume_move V.told V.history V.faults vol.old vol.new)
        (sink_move K.held K.faults out.old out.new) }
    ensures reads { OnlyRead (volume_move V.told V.history V.faults vol.old vol.new) }
    ensures output_failed { IsCause (result ≡ Err Stop.Output) (K.faults out.old)
        (K.faults out.new) }
{
    let (session, length) = match open_to_audit(workers.alloc, vol) {
        Ok(opened) => opened,
        Err(stop) => return Err(stop),
    };
    let bundle = OpenBundle {
        session: &session,
        length,
    };
    match audit_all(workers, &bundle, vol, out, command.all) {
        Ok(totals) => end_of(totals.damage(command.strict), totals.tiles),
        Err(stop) => Err(audit_stop(stop)),
    }
}

/// Does what the words say.
fn act<R: Threads + Sync, K: Sink, V: Volume, G: Gate>(
    machine: &Machine<'_, R, G>,
    words: &[Word],
    out: &mut K,
    vol: &mut V,
) -> Result<(), Stop<Refusal>>
    ensures usage { (result ≡ Err Stop.Usage) ↔ IsNoCommand words.now }
    ensures spelled { result ≢ Err Stop.Usage → (c : Command) × IsSpelled c words.now }
    ensures unused { result ≡ Err Stop.Usage → (out.new ≡ out.old) × (vol.new ≡ vol.old) }
    ensures leaves { (c : Command) → IsSpelled c words.now → OfEnd c result
        (volume_move V.told V.history V.faults vol.old vol.new)
        (sink_move K.held K.faults out.old out.new) }
    ensures reads { OnlyRead (volume_move V.told V.history V.faults vol.old vol.new) }
    ensures output_failed { IsCause (result ≡ Err Stop.Output) (K.faults out.old)
        (K.faults out.new) }
{
    match command_of(words) {
        Some(command) => {
            let workers = Workers {
                rt: machine.rt,
                alloc: machine.alloc,
                count: command.workers as usize,
                gate: machine.gate,
            };
            perform(&workers, command, out, vol)
        }
        None => Err(Stop::Usage),
    }
}

/// Does all that the program does: audits the bundle, and answers the status that the program ends
/// with.
///
/// The words are `audit N`, and behind them `all` or `strict` or both, in this order: the number of
/// workers that judge tiles, whether each tile has a line, and whether tiles of another format and
/// of another version are damage. A worker calls `gate.pass(at)` before it judges the tile with
/// number `at` of those that are judged at once. Nothing of what a run leaves depends on the
/// workers and the gate, but want of memory.
///
/// Nothing is written, cut, synced or recovered. A tile that the volume fails to read is told as
/// such, and the audit goes on.
///
/// | status | it comes |
/// |---|---|
/// | 0 | where all lines were given, and no tile is damaged |
/// | 1 | exactly where the words are no command; nothing is touched |
/// | 4 | exactly where the output failed, which has then gained a prefix of the lines |
/// | 5 | only where the volume failed before the index was read; the output is as it was |
/// | 6 | where memory was refused; the lines of some of the first slots were given |
/// | 7 | where there is no bundle to be audited; the line tells why; the output is as it was |
/// | 9 | where all lines were given, and a tile is damaged |
///
/// On a status other than 0 one line is given to `err`. The faults of `err` change nothing.
pub fn run_audit<R: Threads + Sync, K: Sink, E: Sink, V: Volume, G: Gate>(
    rt: &R,
    alloc: Global,
    words: &[Word],
    out: &mut K,
    err: &mut E,
    vol: &mut V,
    gate: &G,
) -> u8
    // The words come first.
    ensures usage { (result ≡ 1) ↔ IsNoCommand words.now }
    ensures spelled { result ≢ 1 → (c : Command) × IsSpelled c words.now }
    ensures unused { result ≡ 1 → (out.new ≡ out.old) × (vol.new ≡ vol.old) }
    ensures usage_told { result ≡ 1 → GivesLine (E.held err.old) (E.held err.new)
        (E.faults err.old) (E.faults err.new) (line_of Stop.Usage) }

    // Nothing is ever written: at each moment the disk is that of the start.
    ensures during { IsTrue (V.told vol.old) → During (λ d. d ≡ current (V.history vol.old))
        (V.history vol.old) (V.history vol.new) }
    ensures told { V.told vol.new ≡ V.told vol.old }

    // The output's failure gives its status, and nothing else gives it.
    ensures output_failed { IsCause (result ≡ 4) (K.faults out.old) (K.faults out.new) }

    // The run ends in one way, which says all the rest.
    ensures ran { (c : Command) → IsSpelled c words.now → OfRun c result
        (volume_move V.told V.history V.faults vol.old vol.new)
        (sink_move K.held K.faults out.old out.new)
        (sink_move E.held E.faults err.old err.new) }

    // Statuses 0 and 9 say that the lines, the totals and the status are those of an audit.
    ensures audited { (c : Command) → IsSpelled c words.now → (result ≡ 0) ⊎ (result ≡ 9)
        → OfAudit c result
        (volume_move V.told V.history V.faults vol.old vol.new)
        (sink_move K.held K.faults out.old out.new)
        (sink_move E.held E.faults err.old err.new) }

    // A strict audit that finds nothing says that the bundle is readable, and that each tile in it
    // is the blobs of bands, or blobs of floating-point numbers with their checksums.
    ensures clean { (c : Command) → IsSpelled c words.now → IsTrue (V.told vol.old)
        → c.strict ≡ true → result ≡ 0 → IsClean (contents Bundle (V.history vol.old)) }

    // Status 7 tells of a refusal, and each refusal comes exactly where it is the first, unless the
    // volume fails. The output is then as it was.
    ensures refusal_told { (c : Command) → IsSpelled c words.now → result ≡ 7
        → (refusal : Refusal)
        × (Refuses (files_of (V.told vol.old) (V.history vol.old)) refusal
        × ((out.new ≡ out.old)
        × GivesLine (E.held err.old) (E.held err.new) (E.faults err.old) (E.faults err.new)
        (line_of (Stop.Refused refusal)))) }
    ensures refused { (c : Command) → IsSpelled c words.now → IsTrue (V.told vol.old)
        → (refusal : Refusal) → IsRefused (files_at (V.history vol.old)) refusal → result ≢ 5
        → (result ≡ 7) × (out.new ≡ out.old)
        × GivesLine (E.held err.old) (E.held err.new) (E.faults err.old) (E.faults err.new)
        (line_of (Stop.Refused refusal)) }

    // Status 5 comes only where the volume failed in its first calls, before the index was read.
    ensures early { (c : Command) → IsSpelled c words.now → result ≡ 5
        → FailedBetween (V.faults vol.old) (V.faults vol.new) × (out.new ≡ out.old)
        × ((V.history vol.new).moment ≤ (V.history vol.old).moment + 6) }

    // On statuses 4 and 6 the output has lines of the first tiles of an audit.
    ensures cut { (c : Command) → IsSpelled c words.now → result ≡ 4 → GavePrefix c
        (volume_move V.told V.history V.faults vol.old vol.new)
        (sink_move K.held K.faults out.old out.new) }
    ensures wanted { (c : Command) → IsSpelled c words.now → result ≡ 6 → GaveLines c
        (volume_move V.told V.history V.faults vol.old vol.new)
        (sink_move K.held K.faults out.old out.new) }

    // Where nothing refuses, no object fails and memory is there, the bundle is audited.
    ensures complete { (c : Command) → IsSpelled c words.now
        → ((refusal : Refusal)
        → ¬ Refuses (files_of (V.told vol.old) (V.history vol.old)) refusal)
        → result ≢ 4 → result ≢ 5 → result ≢ 6 → (result ≡ 0) ⊎ (result ≡ 9) }

    // One line tells of each stop.
    ensures no_line { result ≡ 0 → err.new ≡ err.old }
    ensures no_other_status { (result ≡ 0)
        ⊎ ((stop : Stop Refusal) × (result ≡ status_of stop)) }
{
    let machine = Machine { rt, alloc, gate };
    let ended = act(&machine, words, out, vol);
    ended_status(USAGE, &ended, err)
}
