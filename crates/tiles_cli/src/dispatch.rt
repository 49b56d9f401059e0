//! The command that the words spell is done, and what it ends with is told.

ghost use Rattle.std.specs.Prelude.{◌≡◌, ◌≢◌, ◌⊎◌, ◌↔◌, ℕ, List, Err, IsTrue, Some};
ghost use Rattle.outside_io.specs.declared.volume.VolFile.TheVariants.{Bundle, Journal};
ghost use Rattle.outside_io.specs.program.Line.{GivesLine};
ghost use Rattle.outside_io.specs.streams.Faults.{IsCause};
ghost use Rattle.outside_io.specs.volume.History.{contents, current};
ghost use Rattle.bundle_store.specs.Images.{StandsFor};
ghost use Rattle.bundle_store.specs.Starts.{EachIsSound, KeepsStart};
ghost use Rattle.bundle_store.specs.Tiles.{TileMap};
ghost use Rattle.bundle_tiles.specs.RawStream.{IsStreamFault};
ghost use Rattle.bundle_tiles.specs.declared.raw_tile.RawFault.{RawFault};
ghost use Rattle.opened_bundle.specs.Left.{IsReady};
ghost use Rattle.program_ends.specs.Moves.{sink_move, source_move, volume_move};
ghost use Rattle.program_ends.specs.declared.stop.Stop.{Stop};
ghost use Rattle.tiles_cli.specs.Commands.{IsNoCommand, IsSpelled};
ghost use Rattle.tiles_cli.specs.Names.{line_of, status_of};
ghost use Rattle.tiles_cli.specs.Run.{GaveStream, ImportedAll, KeepsImport, OfCommand, OfRun};
ghost use Rattle.tiles_cli.specs.declared.refusal.Refusal.{Refusal};
ghost use Rattle.tiles_cli.specs.declared.words.Command.{Command};
ghost use Rattle.tiles_cli.specs.declared.words.Command.TheVariants.{Export, Listed, Import};

use crate::perform::{export, export_listed, import};
use crate::refusal::Refusal;
use crate::words::{Command, USAGE, command_of};
use outside_io::{Sink, Source, Volume, Word};
use program_ends::{Stop, ended_status};
use std::alloc::Global;

/// Does the command.
fn perform<S: Source, K: Sink, V: Volume>(
    alloc: Global,
    command: Command,
    src: &mut S,
    out: &mut K,
    vol: &mut V,
) -> Result<(), Stop<Refusal>>
    ensures done { OfCommand command result (source_move S.left S.faults src.old src.new)
        (volume_move V.told V.history V.faults vol.old vol.new)
        (sink_move K.held K.faults out.old out.new) }
    ensures source { IsCause (result ≡ Err Stop.Source) (S.faults src.old) (S.faults src.new) }
{
    match command {
        Command::Export => export(alloc, out, vol),
        Command::Listed => export_listed(alloc, src, out, vol),
        Command::Import => import(alloc, src, out, vol),
    }
}

/// Does what the words say.
fn act<S: Source, K: Sink, V: Volume>(
    alloc: Global,
    words: &[Word],
    src: &mut S,
    out: &mut K,
    vol: &mut V,
) -> Result<(), Stop<Refusal>>
    ensures usage { (result ≡ Err Stop.Usage) ↔ IsNoCommand words.now }
    ensures spelled { result ≢ Err Stop.Usage → (c : Command) × IsSpelled c words.now }
    ensures unused { result ≡ Err Stop.Usage → (src.new ≡ src.old) × (out.new ≡ out.old)
        × (vol.new ≡ vol.old) }
    ensures source { IsCause (result ≡ Err Stop.Source) (S.faults src.old) (S.faults src.new) }
    ensures output { IsCause (result ≡ Err Stop.Output) (K.faults out.old) (K.faults out.new) }
    ensures volume { IsCause (result ≡ Err Stop.Volume) (V.faults vol.old) (V.faults vol.new) }
    ensures done { (c : Command) → IsSpelled c words.now → OfCommand c result
        (source_move S.left S.faults src.old src.new)
        (volume_move V.told V.history V.faults vol.old vol.new)
        (sink_move K.held K.faults out.old out.new) }
{
    match command_of(words) {
        Some(command) => perform(alloc, command, src, out, vol),
        None => Err(Stop::Usage),
    }
}

/// Does all that the program does: gives the tiles of the bundle as a stream, or puts those of a
/// stream into it, and answers the status that the program ends with.
///
/// `export` gives all tiles, by slot. `export listed` reads a list of slots, whole, and gives their
/// tiles, in the order of its lines. `import` reads a stream and puts its tiles, in groups of up to
/// 64, and gives a line for each once it is there. Each makes whole first what a crash left.
///
/// | status | it comes |
/// |---|---|
/// | 0 | where the tiles were given, or put; the output has gained their stream, or their lines |
/// | 1 | exactly where the words are no command; nothing is touched |
/// | 2 | where the list, or the stream, is none; the line tells its first fault. The groups before it are put |
/// | 3 | exactly where the source failed. The groups read before are put |
/// | 4 | exactly where the output failed, which has then gained a prefix |
/// | 5 | exactly where the volume failed |
/// | 6 | where memory was refused. The groups read before are put |
/// | 7 | where the store refuses: the bundle, a slot's tile, or a tile without room; the line tells which comes first |
///
/// On a status other than 0 one line is given to `err`. The faults of `err` change nothing.
pub fn run_tiles<S: Source, K: Sink, E: Sink, V: Volume>(
    alloc: Global,
    words: &[Word],
    src: &mut S,
    out: &mut K,
    err: &mut E,
    vol: &mut V,
) -> u8
    // The words come first.
    ensures usage { (result ≡ 1) ↔ IsNoCommand words.now }
    ensures spelled { result ≢ 1 → (c : Command) × IsSpelled c words.now }
    ensures unused { result ≡ 1 → (src.new ≡ src.old) × (out.new ≡ out.old)
        × (vol.new ≡ vol.old) }
    ensures usage_told { result ≡ 1 → GivesLine (E.held err.old) (E.held err.new)
        (E.faults err.old) (E.faults err.new) (line_of Stop.Usage) }

    // An object that fails gives its status, and nothing else gives it.
    ensures source_failed { IsCause (result ≡ 3) (S.faults src.old) (S.faults src.new) }
    ensures output_failed { IsCause (result ≡ 4) (K.faults out.old) (K.faults out.new) }
    ensures volume_failed { IsCause (result ≡ 5) (V.faults vol.old) (V.faults vol.new) }

    // The command that the words spell ends in one way, which says all the rest.
    ensures ran { (c : Command) → IsSpelled c words.now → OfRun c result
        (source_move S.left S.faults src.old src.new)
        (volume_move V.told V.history V.faults vol.old vol.new)
        (sink_move K.held K.faults out.old out.new)
        (sink_move E.held E.faults err.old err.new) }

    // From files that are read as some tiles, whatever is pending on them: an export that ends well
    // gives exactly their stream.
    ensures exported { IsSpelled Export words.now → result ≡ 0 → IsTrue (V.told vol.old)
        → (start : TileMap) → StandsFor (contents Bundle (V.history vol.old))
        (contents Journal (V.history vol.old)) start
        → GaveStream start (sink_move K.held K.faults out.old out.new) }

    // And an import that ends well has put all tiles of the stream, which is all of the source.
    ensures imported { IsSpelled Import words.now → result ≡ 0 → (bytes : List ℕ)
        → S.left src.old ≡ Some bytes → IsTrue (V.told vol.old) → (start : TileMap)
        → StandsFor (contents Bundle (V.history vol.old)) (contents Journal (V.history vol.old))
        start → ImportedAll bytes start (volume_move V.told V.history V.faults vol.old vol.new)
        (sink_move K.held K.faults out.old out.new) }

    // A source that is no stream is refused for its first fault, unless something else ends the
    // import before: a group of it that is not put, an object that fails, or memory.
    ensures refused { IsSpelled Import words.now → result ≡ 2 → (bytes : List ℕ)
        → S.left src.old ≡ Some bytes → (fault : RawFault) × (IsStreamFault bytes fault
        × GivesLine (E.held err.old) (E.held err.new) (E.faults err.old) (E.faults err.new)
        (line_of (Stop.Refused (Refusal.Stream fault)))) }

    // At each moment, whatever the answer, and whatever is pending as the run starts, where each
    // image that a crash might leave is sound then: of an export each image stands for tiles that
    // one stood for at its start; of an import for such, while no tile has a mark, or for what was
    // read there with the first few groups of the stream put whole: those whose tiles have a mark by
    // then, and perhaps the next one.
    ensures keeps { IsSpelled Import words.now → (bytes : List ℕ) → S.left src.old ≡ Some bytes
        → (start : TileMap) → IsReady (V.told vol.old) (V.history vol.old) start
        → KeepsImport bytes start (V.history vol.old) (V.history vol.new) (K.held out.old)
        (K.held out.new) }
    ensures keeps_start { IsSpelled Export words.now ⊎ IsSpelled Listed words.now
        → IsTrue (V.told vol.old) → EachIsSound (current (V.history vol.old))
        → KeepsStart (V.history vol.old) (V.history vol.new) }

    // One line tells of each stop.
    ensures no_line { result ≡ 0 → err.new ≡ err.old }
    ensures no_other_status { (result ≡ 0)
        ⊎ ((stop : Stop Refusal) × (result ≡ status_of stop)) }
{
    let ended = act(alloc, words, src, out, vol);
    ended_status(USAGE, &ended, err)
}
