//! The command that the words spell is done, and what it ends with is told.

ghost use Rattle.std.specs.Prelude.{◌≡◌, ◌≢◌, ◌⊎◌, ◌↔◌, ℕ, List, None, Err, IsTrue};
ghost use Rattle.outside_io.specs.program.Line.{GivesLine};
ghost use Rattle.outside_io.specs.streams.Faults.{IsCause};
ghost use Rattle.program_ends.specs.Moves.{sink_move, source_move};
ghost use Rattle.program_ends.specs.declared.stop.Stop.{Stop};
ghost use Rattle.lerc_header.specs.declared.header.Version.{Version};
ghost use Rattle.level_cache.specs.Crashes.{Tells};
ghost use Rattle.level_cache.specs.Places.{Corner};
ghost use Rattle.level_cli.specs.declared.refusal.Refusal.{Refusal};
ghost use Rattle.level_cli.specs.declared.words.Command.{Command};
ghost use Rattle.level_cli.specs.Commands.{IsNoCommand, IsSpelled};
ghost use Rattle.level_cli.specs.Granted.{IsGranted};
ghost use Rattle.level_cli.specs.Names.{line_of, refusal_status};
ghost use Rattle.level_cli.specs.Refused.{IsFirstRefusal};
ghost use Rattle.level_cli.specs.InWords.{GaveName, GetsTile, PutsTile};
ghost use Rattle.level_cli.specs.Run.{IsVolumeCause, OfCommand, OfRun, shelf_move};
ghost use Rattle.level_cli.specs.inside.Shelves.{KeepsShelf};

use crate::perform::{get, name, put};
use crate::refusal::Refusal;
use crate::words::{Command, USAGE, command_of};
use level_cache::Shelf;
use outside_io::{Sink, Source, Word};
use program_ends::{Stop, ended_status};
use std::alloc::Global;

/// Does the command.
fn perform<S: Source, K: Sink, H: Shelf>(
    alloc: Global,
    command: Command,
    src: &mut S,
    out: &mut K,
    shelf: &mut H,
) -> Result<(), Stop<Refusal>>
    requires none_out { H.out shelf.old ≡ None }
    ensures source { IsCause (result ≡ Err Stop.Source) (S.faults src.old) (S.faults src.new) }
    ensures output { IsCause (result ≡ Err Stop.Output) (K.faults out.old) (K.faults out.new) }
    ensures shelf { KeepsShelf H.out H.told H.faults H.volume_faults result
        shelf.old shelf.new }
    ensures done { OfCommand H.Vol.told H.Vol.history H.Vol.faults command result
        (source_move S.left S.faults src.old src.new)
        (sink_move K.held K.faults out.old out.new)
        (shelf_move H.told H.volumes shelf.old shelf.new) }
{
    match command {
        Command::Put {
            version,
            error,
            place,
        } => put(alloc, version, error, place, src, out, shelf),
        Command::Get { place } => get(alloc, place, out, shelf),
        Command::Name { place } => name(place, out),
    }
}

/// Does what the words say.
fn act<S: Source, K: Sink, H: Shelf>(
    alloc: Global,
    words: &[Word],
    src: &mut S,
    out: &mut K,
    shelf: &mut H,
) -> Result<(), Stop<Refusal>>
    requires none_out { H.out shelf.old ≡ None }
    ensures usage { (result ≡ Err Stop.Usage) ↔ IsNoCommand words.now }
    ensures spelled { result ≢ Err Stop.Usage → (c : Command) × IsSpelled c words.now }
    ensures unused { result ≡ Err Stop.Usage → (src.new ≡ src.old) × (out.new ≡ out.old)
        × (shelf.new ≡ shelf.old) }
    ensures source { IsCause (result ≡ Err Stop.Source) (S.faults src.old) (S.faults src.new) }
    ensures output { IsCause (result ≡ Err Stop.Output) (K.faults out.old) (K.faults out.new) }
    ensures shelf { KeepsShelf H.out H.told H.faults H.volume_faults result
        shelf.old shelf.new }
    ensures done { (c : Command) → IsSpelled c words.now
        → OfCommand H.Vol.told H.Vol.history H.Vol.faults c result
        (source_move S.left S.faults src.old src.new)
        (sink_move K.held K.faults out.old out.new)
        (shelf_move H.told H.volumes shelf.old shelf.new) }
{
    match command_of(words) {
        Some(command) => perform(alloc, command, src, out, shelf),
        None => Err(Stop::Usage),
    }
}

/// Does all that the program does: finds the command of the words, does it, and answers the status
/// that the program ends with.
///
/// `put V E ROW COL` reads one grid, puts the blobs that are chosen for its bands at the place, and
/// gives `put ROW COL SIZE`; `get ROW COL raw` gives the bytes of the place's tile; `name ROW COL`
/// gives the name of the bundle that has the place. Each but the last takes that bundle's volume
/// from the shelf, makes whole what a crash left of it, and gives it back.
///
/// | status | it comes |
/// |---|---|
/// | 0 | where nothing refuses or fails; the output has gained what the command gives |
/// | 1 | exactly where the words are no command; nothing is taken, given or put |
/// | 2 | where the input is not one grid that the version has a place for; the line tells its first fault, and the shelf is as it was |
/// | 3 | exactly where the source failed; the shelf is as it was |
/// | 4 | exactly where the output failed, which has then gained a prefix; what was put stands |
/// | 5 | exactly where the volume failed and the shelf did not |
/// | 6 | where memory was refused |
/// | 7 | where the store refuses; the line tells its first refusal, with the level's row and column |
/// | 8 | exactly where the shelf failed, whatever else did |
///
/// On a status other than 0 one line is given to `err`. The faults of `err` change nothing.
pub fn run_level<S: Source, K: Sink, E: Sink, H: Shelf>(
    alloc: Global,
    words: &[Word],
    src: &mut S,
    out: &mut K,
    err: &mut E,
    shelf: &mut H,
) -> u8
    requires none_out { H.out shelf.old ≡ None }
    ensures none_out { H.out shelf.new ≡ None }
    ensures told { H.told shelf.new ≡ H.told shelf.old }

    // The words come first.
    ensures usage { (result ≡ 1) ↔ IsNoCommand words.now }
    ensures spelled { result ≢ 1 → (c : Command) × IsSpelled c words.now }
    ensures unused { result ≡ 1 → (src.new ≡ src.old) × (out.new ≡ out.old)
        × (shelf.new ≡ shelf.old) }
    ensures usage_told { result ≡ 1 → GivesLine (E.held err.old) (E.held err.new)
        (E.faults err.old) (E.faults err.new) (line_of Stop.Usage) }

    // An object that fails gives its status, and nothing else gives it. A shelf that fails comes
    // before its volume.
    ensures source_failed { IsCause (result ≡ 3) (S.faults src.old) (S.faults src.new) }
    ensures output_failed { IsCause (result ≡ 4) (K.faults out.old) (K.faults out.new) }
    ensures shelf_failed { IsCause (result ≡ 8) (H.faults shelf.old) (H.faults shelf.new) }
    ensures volume_failed { IsVolumeCause (result ≡ 5) (result ≡ 8)
        (H.volume_faults shelf.old) (H.volume_faults shelf.new) }

    // The command that the words spell ends in one way, which says all the rest.
    ensures ran { (c : Command) → IsSpelled c words.now
        → OfRun H.Vol.told H.Vol.history H.Vol.faults c result
        (source_move S.left S.faults src.old src.new)
        (sink_move K.held K.faults out.old out.new)
        (shelf_move H.told H.volumes shelf.old shelf.new)
        (sink_move E.held E.faults err.old err.new) }

    // Where nothing refuses, no object fails and memory is there, the command ends well.
    ensures complete { (c : Command) → IsSpelled c words.now → IsTrue (H.told shelf.old)
        → Tells H.Vol.told (H.volumes shelf.old)
        → IsGranted H.Vol.told H.Vol.history H.Vol.faults (H.volumes shelf.old) (S.left src.old) c
        → result ≢ 3 → result ≢ 4 → result ≢ 5 → result ≢ 6 → result ≢ 8 → result ≡ 0 }

    // And where it is refused, it ends with that refusal, unless the same happens. So each refusal
    // comes exactly where it is the first.
    ensures refused_exactly { (c : Command) → IsSpelled c words.now → IsTrue (H.told shelf.old)
        → Tells H.Vol.told (H.volumes shelf.old) → (refusal : Refusal)
        → IsFirstRefusal H.Vol.told H.Vol.history H.Vol.faults (H.volumes shelf.old)
        (S.left src.old) c refusal
        → result ≢ 3 → result ≢ 5 → result ≢ 6 → result ≢ 8
        → (result ≡ refusal_status refusal) × (out.new ≡ out.old)
        × GivesLine (E.held err.old) (E.held err.new) (E.faults err.old) (E.faults err.new)
        (line_of (Stop.Refused refusal)) }

    // What follows for `put`: a run that ends well has put the chosen blobs of the input's grid at
    // the place, and no other volume has changed.
    ensures puts { (version : Version) (error : ℕ) (place : Corner)
        → IsSpelled (Command.Put version error place) words.now → result ≡ 0
        → PutsTile H.Vol.told H.Vol.history H.Vol.faults version error place (S.left src.old)
        (sink_move K.held K.faults out.old out.new)
        (shelf_move H.told H.volumes shelf.old shelf.new) }

    // What follows for `get`: a run that ends well has given the tile of the place.
    ensures gets { (place : Corner) → IsSpelled (Command.Get place) words.now → result ≡ 0
        → GetsTile H.Vol.told H.Vol.history H.Vol.faults place
        (sink_move K.held K.faults out.old out.new)
        (shelf_move H.told H.volumes shelf.old shelf.new) }

    // What follows for `name`: it leaves the source and the shelf, and gives the name.
    ensures names { (place : Corner) → IsSpelled (Command.Name place) words.now
        → (src.new ≡ src.old) × (shelf.new ≡ shelf.old)
        × (result ≡ 0 → GaveName place (sink_move K.held K.faults out.old out.new)) }
{
    let ended = act(alloc, words, src, out, shelf);
    ended_status(USAGE, &ended, err)
}
