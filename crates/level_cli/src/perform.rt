//! A command is done.

ghost use Rattle.std.specs.Prelude.{◌≡◌, ℕ, List, None, Err};
ghost use Rattle.outside_io.specs.streams.Faults.{IsCause};
ghost use Rattle.program_ends.specs.Moves.{sink_move};
ghost use Rattle.program_ends.specs.declared.stop.Stop.{Stop};
ghost use Rattle.level_cli.specs.declared.refusal.Refusal.{Refusal};
ghost use Rattle.level_cli.specs.Names.{name_line, put_line};
ghost use Rattle.level_cli.specs.Run.{GaveBehind, OfGet, OfName, OfPut, shelf_move};
ghost use Rattle.level_cache.specs.Names.{IsName};
ghost use Rattle.level_cache.specs.Places.{base_of};
ghost use Rattle.level_cli.specs.inside.Shelves.{KeepsShelf};

use crate::refusal::{Refusal, input_stop, level_stop};
use grid_blobs::encode_grid;
use lerc_header::Version;
use level_cache::{Base, Place, Shelf, bundle_name, level_get, level_put};
use outside_io::{Line, Sink, Source, give_all};
use program_ends::Stop;
use std::alloc::Global;

/// The line of a tile of so many bytes that was put.
#[tactic(auto, unfolding(crate::specs::Names::put_line))]
fn line_of_put(place: Place, size: usize) -> Line
    ensures { result ≡ put_line place size }
{
    let mut line = Line::new();
    line.text(b"put");
    line.number(place.row().into());
    line.number(place.col().into());
    line.number(size as u64);
    line.text(b"\n");
    line
}

/// Reads one grid from the source, puts the blobs that are chosen for its bands at the place, and
/// gives the line of that to the output.
pub(crate) fn put<S: Source, K: Sink, H: Shelf>(
    alloc: Global,
    version: Version,
    error: u32,
    place: Place,
    src: &mut S,
    out: &mut K,
    shelf: &mut H,
) -> Result<(), Stop<Refusal>>
    requires none_out { H.out shelf.old ≡ None }
    ensures source { IsCause (result ≡ Err Stop.Source) (S.faults src.old) (S.faults src.new) }
    ensures output { IsCause (result ≡ Err Stop.Output) (K.faults out.old) (K.faults out.new) }
    ensures shelf { KeepsShelf H.out H.told H.faults H.volume_faults result
        shelf.old shelf.new }
    ensures done { OfPut H.Vol.told H.Vol.history H.Vol.faults version error place
        (S.left src.old) result (sink_move K.held K.faults out.old out.new)
        (shelf_move H.told H.volumes shelf.old shelf.new) }
{
    let blobs = match encode_grid(alloc, version, error, src) {
        Ok(blobs) => blobs,
        Err(stop) => return Err(input_stop(stop)),
    };
    match level_put(alloc, shelf, place, blobs.as_slice()) {
        Ok(()) => {}
        Err(fault) => return Err(level_stop(place, fault)),
    }
    let line = line_of_put(place, blobs.as_slice().len());
    match give_all(out, line.as_slice()) {
        Ok(()) => Ok(()),
        Err(_) => Err(Stop::Output),
    }
}

/// Gives the bytes of the place's tile to the output.
pub(crate) fn get<K: Sink, H: Shelf>(
    alloc: Global,
    place: Place,
    out: &mut K,
    shelf: &mut H,
) -> Result<(), Stop<Refusal>>
    requires none_out { H.out shelf.old ≡ None }
    ensures output { IsCause (result ≡ Err Stop.Output) (K.faults out.old) (K.faults out.new) }
    ensures shelf { KeepsShelf H.out H.told H.faults H.volume_faults result
        shelf.old shelf.new }
    ensures done { OfGet H.Vol.told H.Vol.history H.Vol.faults place result
        (sink_move K.held K.faults out.old out.new)
        (shelf_move H.told H.volumes shelf.old shelf.new) }
{
    let tile = match level_get(alloc, shelf, place) {
        Ok(tile) => tile,
        Err(fault) => return Err(level_stop(place, fault)),
    };
    match give_all(out, tile.as_slice()) {
        Ok(()) => Ok(()),
        Err(_) => Err(Stop::Output),
    }
}

/// The line of a bundle's name.
fn line_of_name(base: Base) -> Line
    ensures { (bytes : List ℕ) × (IsName base bytes × (result ≡ name_line bytes)) }
{
    let name = bundle_name(base);
    let mut line = Line::new();
    line.text(name.as_slice());
    line.text(b"\n");
    line
}

/// Gives the name of the place's bundle to the output.
pub(crate) fn name<K: Sink>(place: Place, out: &mut K) -> Result<(), Stop<Refusal>>
    ensures output { IsCause (result ≡ Err Stop.Output) (K.faults out.old) (K.faults out.new) }
    ensures done { OfName place result (sink_move K.held K.faults out.old out.new) }
{
    let line = line_of_name(place.base());
    match give_all(out, line.as_slice()) {
        Ok(()) => Ok(()),
        Err(_) => Err(Stop::Output),
    }
}
