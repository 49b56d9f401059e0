//! The overview is made where it is asked for, and what it ends with is told.

ghost use Rattle.std.specs.Prelude.{◌≡◌, ◌≢◌, ◌⊎◌, ◌↔◌, ◌≤◌, ◌<◌, List, [], Err, IfOk, IsTrue, length};
ghost use Rattle.outside_io.specs.program.Line.{GivesLine};
ghost use Rattle.outside_io.specs.streams.Faults.{IsCause};
ghost use Rattle.outside_io.specs.declared.volume.VolFile.TheVariants.{Journal};
ghost use Rattle.outside_io.specs.volume.History.{contents, current};
ghost use Rattle.bundle_store.specs.Build.{EachFits};
ghost use Rattle.bundle_store.specs.Tiles.{TileMap};
ghost use Rattle.bundle_store.specs.declared.tile_rec.TileRec.{TileRec};
ghost use Rattle.opened_bundle.specs.Files.{files_of};
ghost use Rattle.opened_bundle.specs.Left.{IsReady, OfReading};
ghost use Rattle.bundle_store.specs.Starts.{EachIsSound, KeepsStart};
ghost use Rattle.opened_bundle.specs.declared.refusal.StoreRefusal.{StoreRefusal};
ghost use Rattle.program_ends.specs.Moves.{sink_move, volume_move};
ghost use Rattle.program_ends.specs.declared.stop.Stop.{Stop};
ghost use Rattle.overview_cli.specs.Commands.{IsNoCommand, IsSpelled};
ghost use Rattle.overview_cli.specs.Names.{line_of, put_end_of, refusal_status, status_of};
ghost use Rattle.overview_cli.specs.Putting.{IsToRefusal, OfOutput, OfPuts};
ghost use Rattle.overview_cli.specs.Run.{IsVolumeCause, KeepsOverview, OfCommand, OfRun, PutsOverview, Refuses, RestsTaken};
ghost use Rattle.overview_cli.specs.Taking.{IsFromRefusal, TakesOverview, UpdatesOf};
ghost use Rattle.overview_cli.specs.declared.refusal.Refusal.{Refusal};
ghost use Rattle.overview_cli.specs.declared.words.Command.{Command};

use crate::refusal::{Refusal, overview_stop, store_stop};
use crate::words::{Command, USAGE, command_of};
use bundle_lines::{PutStop, put_all};
use bundle_store::TileRec;
use lerc_header::Step;
use opened_bundle::{StoreRefusal, open_bundle};
use outside_io::{Marks, Report, Sink, Volume, Word};
use overview_updates::{Asked, read_overview};
use program_ends::{Stop, ended_status};
use std::alloc::Global;
use std::thread::Threads;
use tile_workers::{Coding, Gate, Machine};

/// Reads the updates of the bundle's overview, once it was recovered and opened, and takes memory
/// for their marks.
fn take_overview<R: Threads + Sync, V: Volume, G: Gate>(
    machine: &Machine<'_, R, G>,
    command: Command,
    from: &mut V,
    marks: &mut Marks,
) -> Result<Vec<TileRec>, Stop<Refusal>>
    requires quarter { command.quarter < 4 }
    requires workers { (1 ≤ command.workers) × (command.workers ≤ 64) }
    requires none { marks.old.marks ≡ [] }
    ensures takes { TakesOverview command (files_of (V.told from.old) (V.history from.old)) result }
    ensures fit { IfOk result (λ updates. EachFits updates.items) }
    ensures room { IfOk result (λ updates. length updates.items ≤ marks.new.spare) }
    ensures none { marks.new.marks ≡ [] }
    ensures reading { OfReading (result ≡ Err Stop.Volume)
        (volume_move V.told V.history V.faults from.old from.new) }
    ensures rests { IsTrue (V.told from.old) → RestsTaken result
        (contents Journal (V.history from.old)) (current (V.history from.new)) }
{
    let session = match open_bundle(machine.alloc, from) {
        Ok(session) => session,
        Err(stop) => return Err(store_stop(stop)),
    };
    let coding = Coding {
        version: command.version,
        step: Step::of(command.error),
        workers: command.workers as usize,
    };
    let asked = Asked {
        quarter: command.quarter,
        coding,
    };
    let updates = match read_overview(
        machine.rt,
        machine.alloc,
        &session,
        from,
        asked,
        machine.gate,
    ) {
        Ok(updates) => updates,
        Err(stop) => return Err(overview_stop(stop)),
    };
    match marks.reserve(updates.len()) {
        Ok(()) => Ok(updates),
        Err(_) => Err(Stop::OutOfMemory),
    }
}

/// How puts ended, as the command's end.
fn put_end(ended: Result<(), PutStop>) -> Result<(), Stop<Refusal>>
    ensures { result ≡ put_end_of ended }
{
    match ended {
        Ok(()) => Ok(()),
        Err(PutStop::Output) => Err(Stop::Output),
        Err(PutStop::Volume) => Err(Stop::Volume),
        Err(PutStop::Full { len }) => {
            Err(Stop::Refused(Refusal::Store(StoreRefusal::Full { len })))
        }
    }
}

/// Puts the updates into the other bundle, up to 64 at once, once it was recovered and opened. A
/// group is put before its marks are kept, and these are kept before its lines are given.
fn put_overview<K: Sink, W: Volume>(
    alloc: Global,
    updates: &[TileRec],
    out: &mut K,
    to: &mut W,
    marks: &mut Marks,
) -> Result<(), Stop<Refusal>>
    requires fit { EachFits updates.now }
    requires room { length updates.now ≤ marks.old.spare }
    requires none { marks.old.marks ≡ [] }
    ensures output { OfOutput updates.now (files_of (W.told to.old) (W.history to.old))
        (length marks.new.marks) result (sink_move K.held K.faults out.old out.new) }
    ensures volume { OfPuts updates.now result marks.new.marks
        (volume_move W.told W.history W.faults to.old to.new) }
{
    let mut session = match open_bundle(alloc, to) {
        Ok(session) => session,
        Err(stop) => return Err(store_stop(stop)),
    };
    put_end(put_all(&mut session, to, out, marks, updates))
}

/// Makes the overview of the one bundle, and puts it into the other.
fn perform<R: Threads + Sync, K: Sink, V: Volume, W: Volume, G: Gate>(
    machine: &Machine<'_, R, G>,
    command: Command,
    out: &mut K,
    from: &mut V,
    to: &mut W,
    marks: &mut Marks,
) -> Result<(), Stop<Refusal>>
    requires quarter { command.quarter < 4 }
    requires workers { (1 ≤ command.workers) × (command.workers ≤ 64) }
    requires none { marks.old.marks ≡ [] }
    ensures done { OfCommand command result marks.new.marks
        (volume_move V.told V.history V.faults from.old from.new)
        (volume_move W.told W.history W.faults to.old to.new)
        (sink_move K.held K.faults out.old out.new) }
    ensures output { IsCause (result ≡ Err Stop.Output) (K.faults out.old) (K.faults out.new) }
    ensures volume { IsVolumeCause (result ≡ Err Stop.Volume)
        (record { old = V.faults from.old; new = V.faults from.new })
        (record { old = W.faults to.old; new = W.faults to.new }) }
{
    let updates = match take_overview(machine, command, from, marks) {
        Ok(updates) => updates,
        Err(stop) => return Err(stop),
    };
    put_overview(machine.alloc, updates.as_slice(), out, to, marks)
}

/// Does what the words say.
fn act<R: Threads + Sync, K: Sink, V: Volume, W: Volume, G: Gate>(
    machine: &Machine<'_, R, G>,
    words: &[Word],
    out: &mut K,
    from: &mut V,
    to: &mut W,
    marks: &mut Marks,
) -> Result<(), Stop<Refusal>>
    requires { marks.old.marks ≡ [] }
    ensures usage { (result ≡ Err Stop.Usage) ↔ IsNoCommand words.now }
    ensures spelled { result ≢ Err Stop.Usage → (c : Command) × IsSpelled c words.now }
    ensures unused { result ≡ Err Stop.Usage → (out.new ≡ out.old) × (from.new ≡ from.old)
        × (to.new ≡ to.old) × (marks.new ≡ marks.old) }
    ensures output { IsCause (result ≡ Err Stop.Output) (K.faults out.old) (K.faults out.new) }
    ensures volume { IsVolumeCause (result ≡ Err Stop.Volume)
        (record { old = V.faults from.old; new = V.faults from.new })
        (record { old = W.faults to.old; new = W.faults to.new }) }
    ensures done { (c : Command) → IsSpelled c words.now → OfCommand c result marks.new.marks
        (volume_move V.told V.history V.faults from.old from.new)
        (volume_move W.told W.history W.faults to.old to.new)
        (sink_move K.held K.faults out.old out.new) }
{
    match command_of(words) {
        Some(command) => perform(machine, command, out, from, to, marks),
        None => Err(Stop::Usage),
    }
}

/// Does all that the program does: makes the overview of the bundle `from`, as a quarter of the
/// bundle `to`, and puts it there; and answers the status that the program ends with, with a mark,
/// the moment of `to`, for each tile that the output is told is there.
///
/// The words are `overview Q V E N`: the quarter, the version and the error of the blobs, and the
/// number of workers that encode. A worker calls `gate.pass(at)` before it encodes the tile with
/// number `at` of those that are encoded at once. Nothing of what a run leaves depends on the
/// workers and the gate, but which of several refusals of a machine, as of memory, is answered.
///
/// The volumes are over different files; a caller sees to it.
///
/// | status | it comes |
/// |---|---|
/// | 0 | where the overview was put; the output has gained a line for each coarse tile |
/// | 1 | exactly where the words are no command; nothing is touched |
/// | 2 | where a tile of `from` has no part in an overview; the line tells the first, and `to` is as it was |
/// | 4 | exactly where the output failed, which has then gained a prefix of the lines |
/// | 5 | exactly where one of the volumes failed |
/// | 6 | where memory was refused |
/// | 7 | where a store refuses, or a coarse tile has too many bytes; the line tells which comes first |
///
/// On a status other than 0 one line is given to `err`. The faults of `err` change nothing.
pub fn run_overview<R: Threads + Sync, K: Sink, E: Sink, V: Volume, W: Volume, G: Gate>(
    rt: &R,
    alloc: Global,
    words: &[Word],
    out: &mut K,
    err: &mut E,
    from: &mut V,
    to: &mut W,
    gate: &G,
) -> Report
    // The words come first.
    ensures usage { (result.status ≡ 1) ↔ IsNoCommand words.now }
    ensures spelled { result.status ≢ 1 → (c : Command) × IsSpelled c words.now }
    ensures unused { result.status ≡ 1 → (out.new ≡ out.old) × (from.new ≡ from.old)
        × (to.new ≡ to.old) × (result.marks.marks ≡ []) }
    ensures usage_told { result.status ≡ 1 → GivesLine (E.held err.old) (E.held err.new)
        (E.faults err.old) (E.faults err.new) (line_of Stop.Usage) }

    // An object that fails gives its status, and nothing else gives it.
    ensures output_failed { IsCause (result.status ≡ 4) (K.faults out.old) (K.faults out.new) }
    ensures volume_failed { IsVolumeCause (result.status ≡ 5)
        (record { old = V.faults from.old; new = V.faults from.new })
        (record { old = W.faults to.old; new = W.faults to.new }) }

    // The command that the words spell ends in one way, which says all the rest.
    ensures ran { (c : Command) → IsSpelled c words.now → OfRun c result.status result.marks.marks
        (volume_move V.told V.history V.faults from.old from.new)
        (volume_move W.told W.history W.faults to.old to.new)
        (sink_move K.held K.faults out.old out.new)
        (sink_move E.held E.faults err.old err.new) }

    // Status 0 says that the overview was put.
    ensures put { (c : Command) → IsSpelled c words.now → result.status ≡ 0
        → PutsOverview c result.marks.marks
        (volume_move V.told V.history V.faults from.old from.new)
        (volume_move W.told W.history W.faults to.old to.new)
        (sink_move K.held K.faults out.old out.new) }

    // Statuses 2 and 7 tell of a refusal.
    ensures told { (c : Command) → IsSpelled c words.now
        → (result.status ≡ 2) ⊎ (result.status ≡ 7)
        → (refusal : Refusal) × ((result.status ≡ refusal_status refusal)
        × (Refuses c (files_of (V.told from.old) (V.history from.old))
        (files_of (W.told to.old) (W.history to.old)) refusal
        × GivesLine (E.held err.old) (E.held err.new) (E.faults err.old) (E.faults err.new)
        (line_of (Stop.Refused refusal)))) }

    // A refusal of `from` comes exactly where it is the first, unless an object fails or memory is
    // refused; then the output and `to` are as they were.
    ensures refused { (c : Command) → IsSpelled c words.now → IsTrue (V.told from.old)
        → (refusal : Refusal)
        → IsFromRefusal c (files_of (V.told from.old) (V.history from.old)) (Stop.Refused refusal)
        → result.status ≢ 5 → result.status ≢ 6
        → (result.status ≡ refusal_status refusal) × (out.new ≡ out.old) × (to.new ≡ to.old)
        × GivesLine (E.held err.old) (E.held err.new) (E.faults err.old) (E.faults err.new)
        (line_of (Stop.Refused refusal)) }

    // So does one of `to`, behind the updates of the overview.
    ensures to_refused { (c : Command) → IsSpelled c words.now → IsTrue (V.told from.old)
        → IsTrue (W.told to.old) → (updates : List TileRec)
        → UpdatesOf c (files_of (V.told from.old) (V.history from.old)) updates
        → (why : StoreRefusal)
        → IsToRefusal updates (files_of (W.told to.old) (W.history to.old)) why
        → result.status ≢ 4 → result.status ≢ 5 → result.status ≢ 6
        → (result.status ≡ 7)
        × GivesLine (E.held err.old) (E.held err.new) (E.faults err.old) (E.faults err.new)
        (line_of (Stop.Refused (Refusal.Store why))) }

    // Where nothing refuses, no object fails and memory is there, the overview is put.
    ensures complete { (c : Command) → IsSpelled c words.now
        → ((refusal : Refusal) → ¬ Refuses c (files_of (V.told from.old) (V.history from.old))
        (files_of (W.told to.old) (W.history to.old)) refusal)
        → result.status ≢ 4 → result.status ≢ 5 → result.status ≢ 6 → result.status ≡ 0 }

    // At each moment, whatever the answer, and whatever is pending as the run starts, where each
    // image that a crash might leave is sound then: each image of `from` stands for what one stood
    // for at its start; each of `to` for that, while no update has a mark, or for what was read
    // there with the first few updates done: those with a mark by then, or also the next group of
    // up to 64, whole. On status 2 `to` is as it was, and on status 6 no update is done.
    ensures from_keeps { (c : Command) → IsSpelled c words.now → IsTrue (V.told from.old)
        → EachIsSound (current (V.history from.old))
        → KeepsStart (V.history from.old) (V.history from.new) }
    ensures to_keeps { (c : Command) → IsSpelled c words.now → (start : TileMap)
        → IsReady (W.told to.old) (W.history to.old) start
        → KeepsOverview c (files_of (V.told from.old) (V.history from.old)) result.marks.marks
        start (W.history to.old) (W.history to.new) }
    ensures untouched { (c : Command) → IsSpelled c words.now → result.status ≡ 2
        → (out.new ≡ out.old) × (to.new ≡ to.old) × (result.marks.marks ≡ []) }
    ensures wanted { (c : Command) → IsSpelled c words.now → result.status ≡ 6
        → (out.new ≡ out.old) × (result.marks.marks ≡ [])
        × ((start : TileMap) → IsReady (W.told to.old) (W.history to.old) start
        → KeepsStart (W.history to.old) (W.history to.new)) }

    // One line tells of each stop.
    ensures no_line { result.status ≡ 0 → err.new ≡ err.old }
    ensures no_other_status { (result.status ≡ 0)
        ⊎ ((stop : Stop Refusal) × (result.status ≡ status_of stop)) }
{
    let machine = Machine { rt, alloc, gate };
    let mut marks = Marks::new(alloc);
    let ended = act(&machine, words, out, from, to, &mut marks);
    let status = ended_status(USAGE, &ended, err);
    Report { status, marks }
}
