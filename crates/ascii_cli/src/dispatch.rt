//! The command that the words spell is done, and what it ends with is told.

ghost use Rattle.std.specs.Prelude.{◌≡◌, ◌≢◌, ◌⊎◌, ◌↔◌, ℕ, List, Some, Err};
ghost use Rattle.outside_io.specs.program.Line.{GivesLine};
ghost use Rattle.outside_io.specs.streams.Faults.{IsCause};
ghost use Rattle.outside_io.specs.streams.Sink.{Holds};
ghost use Rattle.program_ends.specs.Moves.{sink_move, source_move};
ghost use Rattle.program_ends.specs.declared.stop.Stop.{Stop};
ghost use Rattle.raster_cells.specs.declared.kind.PixelType.{PixelType};
ghost use Rattle.ascii_grid.specs.declared.grid.AsciiGrid.{AsciiGrid};
ghost use Rattle.ascii_grid.specs.Canon.{canon};
ghost use Rattle.ascii_grid.specs.Lga.{IsLga, lga_faults, lga_of};
ghost use Rattle.ascii_grid.specs.Text.{AsciiFaults, IsAscii};
ghost use Rattle.ascii_cli.specs.declared.words.Command.{Command};
ghost use Rattle.ascii_cli.specs.Commands.{IsNoCommand, IsSpelled};
ghost use Rattle.ascii_cli.specs.Names.{line_of};
ghost use Rattle.ascii_cli.specs.Run.{OfOutput, OfRun, OfSource, SplitsToJoin, TellsFirst};

use crate::perform::perform;
use crate::refusal::Refusal;
use crate::words::{USAGE, command_of};
use outside_io::{Sink, Source, Word};
use program_ends::{Stop, ended_status};
use std::alloc::Global;

/// Does what the words say.
fn act<S: Source, K: Sink>(
    alloc: Global,
    words: &[Word],
    src: &mut S,
    out: &mut K,
) -> Result<(), Stop<Refusal>>
    ensures usage { (result ≡ Err Stop.Usage) ↔ IsNoCommand words.now }
    ensures spelled { result ≢ Err Stop.Usage → (c : Command) × IsSpelled c words.now }
    ensures unused { result ≡ Err Stop.Usage → (src.new ≡ src.old) × (out.new ≡ out.old) }
    ensures source { OfSource result (source_move S.left S.faults src.old src.new) }
    ensures output_cause { IsCause (result ≡ Err Stop.Output)
        (K.faults out.old) (K.faults out.new) }
    ensures output { (c : Command) → IsSpelled c words.now
        → OfOutput c (S.left src.old) result (sink_move K.held K.faults out.old out.new) }
{
    match command_of(words) {
        Some(command) => perform(alloc, command, src, out),
        None => Err(Stop::Usage),
    }
}

/// Does all that the program does: finds the command of the words, does it, and answers the status
/// that the program ends with.
///
/// `split TYPE` reads a text and gives its `LGA1`; `join` reads an `LGA1` and gives the one text
/// that is written of its grid.
///
/// | status | it comes |
/// |---|---|
/// | 0 | where the input is what the command reads; the output has gained what it gives |
/// | 1 | exactly where the words are no command; nothing is taken and nothing is given |
/// | 2 | where the input is not that; the line tells its first fault, and nothing is given |
/// | 3 | exactly where the source failed; nothing is given |
/// | 4 | exactly where the output failed, which has then gained a prefix of what it was to gain |
/// | 6 | where memory was refused; nothing is given |
///
/// On a status other than 0 one line is given to `err`. The faults of `err` change nothing.
pub fn run_ascii<S: Source, K: Sink, E: Sink>(
    alloc: Global,
    words: &[Word],
    src: &mut S,
    out: &mut K,
    err: &mut E,
) -> u8
    // The words come first.
    ensures usage { (result ≡ 1) ↔ IsNoCommand words.now }
    ensures spelled { result ≢ 1 → (c : Command) × IsSpelled c words.now }
    ensures unused { result ≡ 1 → (src.new ≡ src.old) × (out.new ≡ out.old) }
    ensures usage_told { result ≡ 1 → GivesLine (E.held err.old) (E.held err.new)
        (E.faults err.old) (E.faults err.new) (line_of Stop.Usage) }

    // An object that fails gives its status, and nothing else gives it.
    ensures source_failed { IsCause (result ≡ 3) (S.faults src.old) (S.faults src.new) }
    ensures output_failed { IsCause (result ≡ 4) (K.faults out.old) (K.faults out.new) }

    // The command that the words spell ends in one way, which says all the rest.
    ensures ran { (c : Command) → IsSpelled c words.now → OfRun c result
        (source_move S.left S.faults src.old src.new)
        (sink_move K.held K.faults out.old out.new)
        (sink_move E.held E.faults err.old err.new) }

    // What follows for `split`: where neither object failed and memory was there, it ends well
    // exactly where the input is a text, and then gives the `LGA1` of its grid.
    ensures split { (kind : PixelType) → IsSpelled (Command.Split kind) words.now
        → (text : List ℕ) → S.left src.old ≡ Some text
        → (result ≡ 0) ⊎ (result ≡ 2) → (result ≡ 0) ↔ ((g : AsciiGrid) × IsAscii text kind g) }
    ensures split_gave { (kind : PixelType) → IsSpelled (Command.Split kind) words.now
        → (text : List ℕ) → S.left src.old ≡ Some text → result ≡ 0
        → (g : AsciiGrid) → IsAscii text kind g
        → Holds (K.held out.old) (K.held out.new) (lga_of g) }
    ensures split_refused { (kind : PixelType) → IsSpelled (Command.Split kind) words.now
        → (text : List ℕ) → S.left src.old ≡ Some text → result ≡ 2
        → (out.new ≡ out.old) × TellsFirst (AsciiFaults kind text)
        (sink_move E.held E.faults err.old err.new) }

    // What follows for `split` and then `join`: the second gives the one text that is written of
    // the first one's grid.
    ensures split_joins { (kind : PixelType) → IsSpelled (Command.Split kind) words.now
        → (text : List ℕ) → S.left src.old ≡ Some text → result ≡ 0
        → SplitsToJoin kind text (sink_move K.held K.faults out.old out.new) }

    // What follows for `join`, and that what it gives is a text of the grid.
    ensures join { IsSpelled Command.Join words.now
        → (bytes : List ℕ) → S.left src.old ≡ Some bytes
        → (result ≡ 0) ⊎ (result ≡ 2) → (result ≡ 0) ↔ ((g : AsciiGrid) × IsLga bytes g) }
    ensures join_gave { IsSpelled Command.Join words.now
        → (bytes : List ℕ) → S.left src.old ≡ Some bytes → result ≡ 0
        → (g : AsciiGrid) → IsLga bytes g
        → Holds (K.held out.old) (K.held out.new) (canon g)
        × IsAscii (canon g) g.raster.kind g }
    ensures join_refused { IsSpelled Command.Join words.now
        → (bytes : List ℕ) → S.left src.old ≡ Some bytes → result ≡ 2
        → (out.new ≡ out.old) × TellsFirst (lga_faults bytes)
        (sink_move E.held E.faults err.old err.new) }
{
    let ended = act(alloc, words, src, out);
    ended_status(USAGE, &ended, err)
}
