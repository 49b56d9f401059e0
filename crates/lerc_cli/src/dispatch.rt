//! The command that the words spell is done, and what it ends with is told.

ghost use Rattle.std.specs.Prelude.{◌≡◌, ◌≢◌, ◌⊎◌, ◌↔◌, ℕ, List, [], Some, Ok, Err, IsTrue, OnOk, length};
ghost use Rattle.outside_io.specs.program.Line.{GivesLine};
ghost use Rattle.outside_io.specs.streams.Faults.{IsCause};
ghost use Rattle.outside_io.specs.streams.Sink.{Holds};
ghost use Rattle.outside_io.specs.streams.Source.{IsAtEnd};
ghost use Rattle.outside_io.specs.volume.History.{current};
ghost use Rattle.lerc_header.specs.declared.header.Version.{Version};
ghost use Rattle.lerc_header.specs.Written.{step_of};
ghost use Rattle.bundle_store.specs.declared.tile_rec.TileRec.{TileRec};
ghost use Rattle.tile_updates.specs.Updates.{IsUpdates};
ghost use Rattle.program_ends.specs.Moves.{sink_move, source_move, volume_move};
ghost use Rattle.program_ends.specs.declared.stop.Stop.{Stop};
ghost use Rattle.opened_bundle.specs.Files.{files_of};
ghost use Rattle.opened_bundle.specs.Left.{IsShut};
ghost use Rattle.lerc_cli.specs.answers.Names.{End, line_of, status_at, status_of};
ghost use Rattle.lerc_cli.specs.answers.Table.{Answers, IsAllTold, IsOutput};
ghost use Rattle.lerc_cli.specs.crashes.Kept.{KeepsUpdates};
ghost use Rattle.lerc_cli.specs.declared.refusal.Refusal.{Refusal};
ghost use Rattle.lerc_cli.specs.declared.words.Command.{Command};
ghost use Rattle.lerc_cli.specs.inputs.Given.{given};
ghost use Rattle.lerc_cli.specs.inputs.Refused.{IsBandsBlob};
ghost use Rattle.lerc_cli.specs.inside.Spelling.{IsLawful};
ghost use Rattle.lerc_cli.specs.run.InWords.{Builds, GivesBlobs, GivesGrid, GivesGridPrefix, GivesLines, GivesSums, IsGridFor, TellsFault, ToldHead};
ghost use Rattle.lerc_cli.specs.run.Run.{OfSource, OfOutput, OfVolume, OfRun};
ghost use Rattle.lerc_cli.specs.words.Commands.{IsSpelled, IsNoCommand, calls_volume};

use crate::commands::build::build;
use crate::commands::bundle::{check, list, recover};
use crate::commands::decode::decode;
use crate::commands::encode::encode;
use crate::commands::get::{get, get_raw};
use crate::commands::info::info;
use crate::commands::put::put;
use crate::commands::sample::sample;
use crate::inputs::encoding::Encoding;
use crate::refusal::Refusal;
use crate::words::{Command, USAGE, command_of};
use outside_io::{Marks, Report, Sink, Source, Volume, Word};
use program_ends::{Stop, ended_status};
use std::alloc::Global;
use std::thread::Threads;
use tile_workers::{Gate, Machine};

/// Does the command.
fn perform<R: Threads + Sync, S: Source, K: Sink, V: Volume, G: Gate>(
    machine: &Machine<'_, R, G>,
    command: Command,
    src: &mut S,
    out: &mut K,
    vol: &mut V,
    marks: &mut Marks,
) -> Result<(), Stop<Refusal>>
    requires none { marks.old.marks ≡ [] }
    requires lawful { IsLawful command }
    ensures source { OfSource command result (source_move S.left S.faults src.old src.new) }
    ensures output { OfOutput command
        (given (S.left src.old) (files_of (V.told vol.old) (V.history vol.old)))
        (length marks.new.marks) result (sink_move K.held K.faults out.old out.new) }
    ensures volume { OfVolume command
        (given (S.left src.old) (files_of (V.told vol.old) (V.history vol.old)))
        result marks.new.marks
        (volume_move V.told V.history V.faults vol.old vol.new) }
    ensures blobs { (version : Version) (error : ℕ) → command ≡ Command.Encode version error
        → OnOk result
        (GivesBlobs version error (S.left src.old)
        (record { old = K.held out.old; new = K.held out.new })) }
    ensures sums { (start count : ℕ) → command ≡ Command.Sample start count
        → OnOk result (GivesSums start count
        (record { old = K.held out.old; new = K.held out.new })) }
{
    let alloc = machine.alloc;
    match command {
        Command::Encode { version, error } => encode(alloc, version, error, src, out),
        Command::Decode => decode(alloc, src, out),
        Command::Info => info(alloc, src, out),
        Command::Build {
            version,
            error,
            workers,
        } => {
            let encoding = Encoding {
                version,
                error,
                workers,
            };
            build(machine, encoding, src, out, vol, marks)
        }
        Command::Put {
            version,
            error,
            workers,
        } => {
            let encoding = Encoding {
                version,
                error,
                workers,
            };
            put(machine, encoding, src, out, vol, marks)
        }
        Command::Get { slot } => get(alloc, slot, out, vol),
        Command::GetRaw { slot } => get_raw(alloc, slot, out, vol),
        Command::List => list(alloc, out, vol),
        Command::Check => check(alloc, out, vol),
        Command::Recover => recover(out, vol),
        Command::Sample { start, count } => sample(machine, start, count, out),
    }
}

/// Does what the words say.
fn act<R: Threads + Sync, S: Source, K: Sink, V: Volume, G: Gate>(
    machine: &Machine<'_, R, G>,
    words: &[Word],
    src: &mut S,
    out: &mut K,
    vol: &mut V,
    marks: &mut Marks,
) -> Result<(), Stop<Refusal>>
    requires { marks.old.marks ≡ [] }
    ensures usage { (result ≡ Err Stop.Usage) ↔ IsNoCommand words.now }
    ensures spelled { result ≢ Err Stop.Usage → (c : Command) × IsSpelled c words.now }
    ensures unused { result ≡ Err Stop.Usage → (src.new ≡ src.old) × (out.new ≡ out.old)
        × (vol.new ≡ vol.old) × (marks.new ≡ marks.old) }
    ensures source_cause { IsCause (result ≡ Err Stop.Source)
        (S.faults src.old) (S.faults src.new) }
    ensures output_cause { IsCause (result ≡ Err Stop.Output)
        (K.faults out.old) (K.faults out.new) }
    ensures volume_cause { IsCause (result ≡ Err Stop.Volume)
        (V.faults vol.old) (V.faults vol.new) }
    ensures source { (c : Command) → IsSpelled c words.now
        → OfSource c result (source_move S.left S.faults src.old src.new) }
    ensures output { (c : Command) → IsSpelled c words.now → OfOutput c
        (given (S.left src.old) (files_of (V.told vol.old) (V.history vol.old)))
        (length marks.new.marks) result (sink_move K.held K.faults out.old out.new) }
    ensures volume { (c : Command) → IsSpelled c words.now
        → OfVolume c (given (S.left src.old) (files_of (V.told vol.old) (V.history vol.old)))
        result marks.new.marks
        (volume_move V.told V.history V.faults vol.old vol.new) }
    ensures blobs { (version : Version) (error : ℕ)
        → IsSpelled (Command.Encode version error) words.now → OnOk result
        (GivesBlobs version error (S.left src.old)
        (record { old = K.held out.old; new = K.held out.new })) }
    ensures sums { (start count : ℕ) → IsSpelled (Command.Sample start count) words.now
        → OnOk result (GivesSums start count
        (record { old = K.held out.old; new = K.held out.new })) }
{
    match command_of(words) {
        Some(command) => perform(machine, command, src, out, vol, marks),
        None => Err(Stop::Usage),
    }
}

/// Does all that the program does: finds the command of the words, does it, and answers the status
/// that the program ends with.
///
/// `encode` reads one grid of one to 16 bands, and gives the blobs that are chosen for them, one
/// for each; it refuses more than one depth in version 3. `decode` and `info` read the whole blobs
/// of bands; then `decode` gives their grid, and `info` the lines of what each says of itself,
/// fourteen for each. `build` and `put` read tiles; `build` makes a bundle of each slot's last one
/// in the place of an empty bundle, and `put` puts the blobs of each into its slot. `get`, `list`
/// and `check` tell of the bundle, and `recover` of what a crash had left; these, `build` and `put`
/// first make that whole. `sample` draws tiles, encodes and decodes them, and gives the lines of
/// what they come to.
///
/// `build` and `put` encode by as many workers as their words say, and `sample` by four. A worker
/// calls `gate.pass(at)` before it encodes the tile with number `at` of those that are encoded at
/// once. Nothing of what a run leaves depends on the workers and the gate, but which of several
/// refusals of a machine, as of memory, is answered.
///
/// | status | it comes |
/// |---|---|
/// | 0 | where the input and the bundle are what it reads; the output has gained what it gives |
/// | 1 | exactly where the words are no command; nothing is taken and nothing is given |
/// | 2 | where the input, or the tile asked for, is not that; the line tells its first fault |
/// | 3 | exactly where the source failed |
/// | 4 | exactly where the output failed, which has then gained a prefix of what it was to gain |
/// | 5 | exactly where the volume failed |
/// | 6 | where memory was refused; `decode` and `info` want it only behind a lawful header |
/// | 7 | where the store refuses; the line tells its first refusal |
///
/// On a status other than 0 one line is given to `err`. The faults of `err` change nothing. Each
/// tile that a `put` was told is there has a mark, the moment of that, and each tile of a bundle
/// that was built has one, the moment of its end; nothing else has one.
pub fn run<R: Threads + Sync, S: Source, K: Sink, E: Sink, V: Volume, G: Gate>(
    rt: &R,
    alloc: Global,
    words: &[Word],
    src: &mut S,
    out: &mut K,
    err: &mut E,
    vol: &mut V,
    gate: &G,
) -> Report
    // The words come first.
    ensures usage { (result.status ≡ 1) ↔ IsNoCommand words.now }
    ensures spelled { result.status ≢ 1 → (c : Command) × IsSpelled c words.now }
    ensures unused { result.status ≡ 1 → (src.new ≡ src.old) × (out.new ≡ out.old)
        × (vol.new ≡ vol.old) × (result.marks.marks ≡ []) }

    // An object that fails gives its status, and nothing else gives it.
    ensures source_failed { IsCause (result.status ≡ 3) (S.faults src.old) (S.faults src.new) }
    ensures output_failed { IsCause (result.status ≡ 4) (K.faults out.old) (K.faults out.new) }
    ensures volume_failed { IsCause (result.status ≡ 5) (V.faults vol.old) (V.faults vol.new) }

    // The command that the words spell ends in one way, which says all the rest.
    ensures ran { (c : Command) → IsSpelled c words.now → OfRun c result.status result.marks.marks
        (source_move S.left S.faults src.old src.new)
        (sink_move K.held K.faults out.old out.new)
        (volume_move V.told V.history V.faults vol.old vol.new)
        (sink_move E.held E.faults err.old err.new) }

    // Where all that a command reads is told and has an output, it gets that, unless an object
    // fails or memory is refused.
    ensures complete { (c : Command) → IsSpelled c words.now
        → IsAllTold c (given (S.left src.old) (files_of (V.told vol.old) (V.history vol.old)))
        → (n : ℕ) (output : List ℕ)
        → IsOutput c
        (given (S.left src.old) (files_of (V.told vol.old) (V.history vol.old))) n output
        → result.status ≢ 3 → result.status ≢ 4 → result.status ≢ 5 → result.status ≢ 6
        → (result.status ≡ 0) × Holds (K.held out.old) (K.held out.new) output }

    // And where it is refused, it ends with that refusal, unless the same happens. So each refusal
    // comes exactly where it is the first.
    ensures refused_exactly { (c : Command) → IsSpelled c words.now
        → IsAllTold c (given (S.left src.old) (files_of (V.told vol.old) (V.history vol.old)))
        → (n : ℕ) (refusal : Refusal) (output : List ℕ)
        → Answers c
        (given (S.left src.old) (files_of (V.told vol.old) (V.history vol.old))) n
        (Err (Stop.Refused refusal)) output
        → result.status ≢ 3 → result.status ≢ 4 → result.status ≢ 5 → result.status ≢ 6
        → (result.status ≡ status_of (Stop.Refused refusal))
        × Holds (K.held out.old) (K.held out.new) output
        × GivesLine (E.held err.old) (E.held err.new) (E.faults err.old) (E.faults err.new)
        (line_of (Stop.Refused refusal)) }

    // Where each image that a crash might leave as the run begins is sound, whatever is pending
    // then, so is each at each moment of it. It stands for tiles that one stood for then, while no
    // update has a mark; else, for `put`, for those that were read then with the first few of its
    // updates done, those that have a mark by then, or also the next group of up to 64, whole; for
    // `build`, with all done, or with none as long as none has a mark.
    ensures kept { (c : Command) → IsSpelled c words.now
        → (end : End) × ((result.status ≡ status_at end)
        × KeepsUpdates c
        (given (S.left src.old) (files_of (V.told vol.old) (V.history vol.old)))
        end result.marks.marks (V.told vol.old) (V.history vol.old) (V.history vol.new)) }

    // A command on a bundle that ends well, or whose output alone fails, leaves nothing pending: a
    // crash then leaves what is read, and the journal is not open.
    ensures shut { (c : Command) → IsSpelled c words.now → IsTrue (calls_volume c)
        → IsTrue (V.told vol.old) → (result.status ≡ 0) ⊎ (result.status ≡ 4)
        → IsShut (current (V.history vol.new)) }

    // One line tells of each stop.
    ensures no_other_status { (result.status ≡ 0)
        ⊎ ((stop : Stop Refusal) × (result.status ≡ status_of stop)) }
    ensures usage_line { result.status ≡ 1
        → GivesLine (E.held err.old) (E.held err.new) (E.faults err.old) (E.faults err.new)
        (line_of Stop.Usage) }
    ensures no_line { result.status ≡ 0 → err.new ≡ err.old }

    // What follows for `encode`.
    ensures encoded { (version : Version) (error : ℕ)
        → IsSpelled (Command.Encode version error) words.now → result.status ≡ 0
        → GivesBlobs version error (S.left src.old)
        (record { old = K.held out.old; new = K.held out.new })
        × IsAtEnd (S.left src.new) }
    ensures encoded_exactly { (version : Version) (error : ℕ)
        → IsSpelled (Command.Encode version error) words.now
        → (input : List ℕ) → S.left src.old ≡ Some input
        → (result.status ≡ 0) ⊎ (result.status ≡ 2)
        → (result.status ≡ 0) ↔ IsGridFor version input }
    ensures not_encoded { (version : Version) (error : ℕ)
        → IsSpelled (Command.Encode version error) words.now
        → result.status ≢ 0 → result.status ≢ 4 → out.new ≡ out.old }

    // What follows for `build`: its updates are those of the input, which are made once.
    ensures built { (version : Version) (error workers : ℕ)
        → IsSpelled (Command.Build version error workers) words.now → result.status ≡ 0
        → (input : List ℕ) → S.left src.old ≡ Some input
        → (updates : List TileRec) → IsUpdates version (step_of error) input updates
        → Builds updates (V.told vol.old) (V.history vol.new) result.marks.marks
        (record { old = K.held out.old; new = K.held out.new }) }

    // What follows for `decode`.
    ensures exact { IsSpelled Command.Decode words.now
        → (input : List ℕ) → S.left src.old ≡ Some input
        → (result.status ≡ 0) ⊎ (result.status ≡ 2) → (result.status ≡ 0) ↔ IsBandsBlob input }
    ensures decoded { IsSpelled Command.Decode words.now → result.status ≡ 0
        → GivesGrid (S.left src.old) (record { old = K.held out.old; new = K.held out.new })
        × IsAtEnd (S.left src.new) }
    ensures refused { IsSpelled Command.Decode words.now → result.status ≡ 2
        → TellsFault (S.left src.old) (sink_move E.held E.faults err.old err.new) }
    ensures cut_short { IsSpelled Command.Decode words.now → result.status ≡ 4
        → GivesGridPrefix (S.left src.old) (record { old = K.held out.old; new = K.held out.new }) }
    ensures wanted { IsSpelled Command.Decode words.now → result.status ≡ 6
        → ToldHead (S.left src.old) }
    ensures nothing_given { IsSpelled Command.Decode words.now
        → result.status ≢ 0 → result.status ≢ 4 → out.new ≡ out.old }

    // What follows for `info`.
    ensures informed_exactly { IsSpelled Command.Info words.now
        → (input : List ℕ) → S.left src.old ≡ Some input
        → (result.status ≡ 0) ⊎ (result.status ≡ 2) → (result.status ≡ 0) ↔ IsBandsBlob input }
    ensures informed { IsSpelled Command.Info words.now → result.status ≡ 0
        → GivesLines (S.left src.old) (record { old = K.held out.old; new = K.held out.new })
        × IsAtEnd (S.left src.new) }
    ensures not_informed { IsSpelled Command.Info words.now
        → result.status ≢ 0 → result.status ≢ 4 → out.new ≡ out.old }

    // What follows for `sample`: the worst pixel is at most 1 from its decoded one.
    ensures sampled { (start count : ℕ) → IsSpelled (Command.Sample start count) words.now
        → result.status ≡ 0 → GivesSums start count
        (record { old = K.held out.old; new = K.held out.new }) }
{
    let machine = Machine { rt, alloc, gate };
    let mut marks = Marks::new(alloc);
    let ended = act(&machine, words, src, out, vol, &mut marks);
    let status = ended_status(USAGE, &ended, err);
    Report { status, marks }
}
