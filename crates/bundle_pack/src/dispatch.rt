//! Packing is done where it is asked for, and what it ends with is told.

ghost use Rattle.std.specs.Prelude.{◌≡◌, ◌≢◌, ◌⊎◌, ◌≤◌, ◌↔◌, ℕ, List, [], Result, IsTrue, All, OnErr, OnOk, length};
ghost use Rattle.outside_io.specs.declared.volume.VolFile.TheVariants.{Bundle, Journal};
ghost use Rattle.outside_io.specs.program.Line.{GivesLine};
ghost use Rattle.outside_io.specs.streams.Faults.{CountsFaults, IsCause};
ghost use Rattle.outside_io.specs.streams.Sink.{Holds, HoldsPrefix};
ghost use Rattle.outside_io.specs.volume.History.{contents, current};
ghost use Rattle.bundle_index.specs.Sizes.{slot_count};
ghost use Rattle.bundle_store.specs.Images.{StandsFor};
ghost use Rattle.bundle_store.specs.Tiles.{TileMap};
ghost use Rattle.opened_bundle.specs.Left.{IsReady, IsShut};
ghost use Rattle.bundle_store.specs.Starts.{KeepsStart};
ghost use Rattle.program_ends.specs.Moves.{sink_move, volume_move};
ghost use Rattle.program_ends.specs.declared.stop.Stop.{Stop};
ghost use Rattle.bundle_pack.specs.declared.fault.PackFault.{PackFault};
ghost use Rattle.bundle_pack.specs.declared.packing.PackReport.{PackReport};
ghost use Rattle.bundle_pack.specs.Chosen.{chosen_bytes, most_bytes};
ghost use Rattle.bundle_pack.specs.Files.{all_files, files_in};
ghost use Rattle.bundle_pack.specs.Merged.{StandFor};
ghost use Rattle.bundle_pack.specs.Names.{line_of, packed_line};
ghost use Rattle.bundle_pack.specs.Opening.{AreOpened, OpensAs};
ghost use Rattle.bundle_pack.specs.Packing.{IsFree, PackSays};
ghost use Rattle.bundle_pack.specs.Run.{EachKeepsBytes, EachKeepsStart, EndsAs, EndsWith, IsVolumeCause, KeepsBytes, KeepsOrPacks, OfOutput, OfRun, PackedAll};
ghost use Rattle.bundle_pack.specs.Sources.{Each};
ghost use Rattle.bundle_pack.specs.Words.{IsAsked};

use crate::PackFault;
use crate::packing::{PackReport, pack};
use crate::refusal::{Refusal, pack_stop};
use crate::words::{USAGE, asks_to_pack};
use outside_io::{Failed, Line, Sink, Volume, Word, give_all};
use program_ends::{Stop, ended_status, tell};
use std::alloc::Global;

/// The line of what was packed.
#[tactic(auto, unfolding(crate::specs::Names::packed_line))]
fn line_of_packed(report: PackReport) -> Line
    ensures { result ≡ packed_line report }
{
    let mut line = Line::new();
    line.text(b"packed");
    line.number(report.tiles.into());
    line.number(report.length);
    line.text(b"\n");
    line
}

/// Gives the line of what was packed.
fn give_packed<K: Sink>(report: PackReport, out: &mut K) -> Result<(), Failed>
    ensures ok { OnOk result (Holds (K.held out.old) (K.held out.new) (packed_line report)) }
    ensures err { OnErr result
        (HoldsPrefix (K.held out.old) (K.held out.new) (packed_line report)) }
    ensures counted { CountsFaults result (K.faults out.old) (K.faults out.new) }
{
    give_all(out, line_of_packed(report).as_slice())
}

/// What packing ends the run with: the line of what was packed is given, or the stop of a refusal.
fn end_of<K: Sink>(answer: Result<PackReport, PackFault>, out: &mut K) -> Result<(), Stop<Refusal>>
    ensures ends { EndsAs answer result }
    ensures output { OfOutput answer result (sink_move K.held K.faults out.old out.new) }
{
    match answer {
        Ok(report) => match give_packed(report, out) {
            Ok(()) => Ok(()),
            Err(_) => Err(Stop::Output),
        },
        Err(fault) => Err(pack_stop(fault)),
    }
}

/// Does all that the program does: packs the tiles of the sources into the target where the words,
/// and the number of sources, ask for it, and answers the status that the program ends with.
///
/// The words are the one word `pack`, and there are 1 to 8 sources. The output then gains the line
/// `packed T L`: how many tiles the target has, and how many bytes.
///
/// | status | it comes |
/// |---|---|
/// | 0 | where the target was packed; the output has gained the line of that |
/// | 1 | exactly where the words, or the number of sources, do not ask for it; nothing is touched |
/// | 4 | exactly where the output failed, which has then gained a prefix; the target stands packed |
/// | 5 | exactly where a source or the target failed |
/// | 6 | where memory was refused |
/// | 7 | where a store refuses, or the tiles have too many bytes; the line tells which comes first |
///
/// On a status other than 0 one line is given to `err`. The faults of `err` change nothing.
pub fn run_pack<K: Sink, E: Sink, V: Volume, W: Volume>(
    alloc: Global,
    words: &[Word],
    out: &mut K,
    err: &mut E,
    from: &mut [V],
    to: &mut W,
) -> u8
    // The words, and the number of sources, come first.
    ensures usage { (result ≡ 1) ↔ (¬ IsAsked words.now (length from.old)) }
    ensures asked { result ≢ 1 → IsAsked words.now (length from.old) }
    ensures unused { result ≡ 1 → (out.new ≡ out.old) × (from.new ≡ from.old)
        × (to.new ≡ to.old) }
    ensures usage_told { result ≡ 1 → GivesLine (E.held err.old) (E.held err.new)
        (E.faults err.old) (E.faults err.new) (line_of Stop.Usage) }

    // An object that fails gives its status, and nothing else gives it.
    ensures output_failed { IsCause (result ≡ 4) (K.faults out.old) (K.faults out.new) }
    ensures volume_failed { IsVolumeCause V.faults (result ≡ 5) from.old from.new
        (record { old = W.faults to.old; new = W.faults to.new }) }

    // Packing answers in one way, which says all the rest.
    ensures ran { IsAsked words.now (length from.old) → OfRun V.told V.history V.faults
        from.old from.new result
        (volume_move W.told W.history W.faults to.old to.new)
        (sink_move K.held K.faults out.old out.new)
        (sink_move E.held E.faults err.old err.new) }

    // What the files say packing answers, it ends with, unless an object fails or memory is
    // refused. So each refusal comes exactly where it is the first.
    ensures exactly { IsAsked words.now (length from.old) → All (λ v. IsTrue (V.told v)) from.old
        → IsTrue (W.told to.old) → (answer : Result PackReport PackFault)
        → PackSays (all_files V.history from.old) (files_in (W.history to.old)) answer
        → (¬ IsFree answer) → result ≢ 4 → result ≢ 5 → result ≢ 6
        → EndsWith answer result (sink_move K.held K.faults out.old out.new)
        (sink_move E.held E.faults err.old err.new) }

    // Of sources whose files stand for these tiles: status 0 says that the target holds them
    // merged.
    ensures packed { IsAsked words.now (length from.old) → All (λ v. IsTrue (V.told v)) from.old
        → IsTrue (W.told to.old) → (maps : List TileMap)
        → StandFor (all_files V.history from.old) maps → result ≡ 0
        → PackedAll maps (current (W.history to.new))
        (sink_move K.held K.faults out.old out.new) }

    // Then no source has anything pending or an open journal, so that the target may be moved over
    // one of them.
    ensures shut { IsAsked words.now (length from.old) → result ≡ 0
        → Each (λ i v w. IsTrue (V.told v) → IsShut (current (V.history w))) from.old from.new }

    // And with a sound target that recovers to an empty file, and not too many bytes, it comes,
    // unless an object fails or memory is refused.
    ensures complete { IsAsked words.now (length from.old) → All (λ v. IsTrue (V.told v)) from.old
        → IsTrue (W.told to.old) → (maps : List TileMap) (start : TileMap)
        → StandFor (all_files V.history from.old) maps
        → StandsFor (contents Bundle (W.history to.old)) (contents Journal (W.history to.old)) start
        → ((bundles : List (List ℕ)) → AreOpened (all_files V.history from.old) bundles
        → chosen_bytes bundles slot_count ≤ most_bytes)
        → OpensAs (files_in (W.history to.old)) [] → result ≢ 4 → result ≢ 5
        → (result ≡ 0) ⊎ (result ≡ 6) }

    // At each moment, whatever the answer, and whatever is pending as the run starts: each image of
    // a source stands for what one stood for at its start, where each was sound, and has its bytes
    // where no put of it is under way; and each of the target for what one stood for at its start,
    // or, where no tiles were read there, for all that is packed.
    ensures sources_keep { IsAsked words.now (length from.old)
        → EachKeepsStart V.told V.history from.old from.new }
    ensures sources_stay { IsAsked words.now (length from.old)
        → EachKeepsBytes V.told V.history from.old from.new }
    ensures target_keeps { IsAsked words.now (length from.old)
        → All (λ v. IsTrue (V.told v)) from.old → (maps : List TileMap) (start : TileMap)
        → StandFor (all_files V.history from.old) maps
        → IsReady (W.told to.old) (W.history to.old) start
        → KeepsOrPacks maps start (W.history to.old) (W.history to.new) }

    // Where the run refuses, or memory is refused, the target stays unpacked: it keeps its tiles,
    // and its bytes where no put of it is under way.
    ensures target_unpacked { IsAsked words.now (length from.old) → (start : TileMap)
        → IsReady (W.told to.old) (W.history to.old) start → (result ≡ 6) ⊎ (result ≡ 7)
        → KeepsStart (W.history to.old) (W.history to.new) }
    ensures target_stays { IsAsked words.now (length from.old) → IsTrue (W.told to.old)
        → IsShut (current (W.history to.old)) → (result ≡ 6) ⊎ (result ≡ 7)
        → KeepsBytes (W.history to.old) (W.history to.new) }
{
    if !asks_to_pack(words, from.len()) {
        tell(USAGE, &Stop::<Refusal>::Usage, err);
        return 1;
    }
    let answer = pack(alloc, from, to);
    let ended = end_of(answer, out);
    ended_status(USAGE, &ended, err)
}
