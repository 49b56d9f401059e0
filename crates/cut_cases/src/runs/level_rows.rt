//! Levels of two bundles: that of row 128 and that of row 0, at column 0.

ghost use Rattle.std.specs.Prelude.{◌≡◌, None, IfOk, OnOk};
ghost use Rattle.level_cache.specs.Memory.{IsSpare};
ghost use Rattle.level_cache.specs.Shelf.{IsOut};

use crate::runs::programs::{Left, no_failing, sink, words_of};
use case_rows::{CaseStop, Row, Told};
use level_cache::{Base, MemShelf, Place, Shelf};
use level_cli::run_level;
use outside_io::{Bytes, MemSource, MemVolume, Start, Volume};
use std::alloc::{AllocError, Global};
use volume_rows::{Volumes, copy};

/// The rows of the two bundles.
const LOWER: u32 = 128;

const UPPER: u32 = 0;

/// How many bytes an input gives a call, and an output takes.
const IN_PIECE: usize = 7;

const OUT_PIECE: usize = 3;

/// What a run is given: its words, its input, and the calls of its input and its output that fail.
#[derive(Clone, Copy)]
struct Asked<'a> {
    words: &'a [u8],
    input: &'a [u8],
    failing_in: &'a [u8],
    failing_out: &'a [u8],
}

/// A file of no bytes.
fn no_bytes(alloc: Global) -> Start
    ensures { result.len ≡ 0 }
{
    Start::new(0, Vec::new(alloc))
}

/// A volume of no bytes.
fn spare_volume(alloc: Global) -> Result<MemVolume, AllocError>
    ensures { IfOk result IsSpare }
{
    let bundle = no_bytes(alloc);
    let journal = no_bytes(alloc);
    let failing = Vec::new(alloc);
    MemVolume::new(alloc, bundle, journal, failing, None, 200, 300_000)
}

/// The base of a row.
fn base_of(row: u32) -> Result<Base, CaseStop> {
    match Place::of(row, 0) {
        Some(place) => Ok(place.base()),
        None => Err(CaseStop::BadRow),
    }
}

/// Gives the volume back that is out.
fn give_back(shelf: &mut MemShelf, base: Base, vol: MemVolume) -> Result<(), CaseStop>
    requires { IsOut shelf.old.out base vol.faults }
    ensures { shelf.new.out ≡ None }
{
    match shelf.give(base, vol) {
        Ok(()) => Ok(()),
        Err(_) => Err(CaseStop::BadRow),
    }
}

/// Lays a volume in the place of the new one of a base.
fn lay(shelf: &mut MemShelf, base: Base, vol: MemVolume) -> Result<(), CaseStop>
    requires { shelf.old.out ≡ None }
    ensures { OnOk result (shelf.new.out ≡ None) }
{
    let Ok(spare) = shelf.take(base) else {
        return Err(CaseStop::BadRow);
    };
    if spare.faults() > vol.faults() {
        return Err(CaseStop::BadRow);
    }
    give_back(shelf, base, vol)
}

/// A shelf with the volume for its base, and a copy of the other for the other one. Its calls of
/// these numbers fail, of which those that lay the volumes are the first four.
fn shelf_of(
    alloc: Global,
    failing: Vec<u64>,
    places: (Base, Base),
    vol: MemVolume,
    other: MemVolume,
) -> Result<MemShelf, CaseStop>
    ensures { IfOk result (λ s. s.out ≡ None) }
{
    let mut volumes = Vec::new(alloc);
    volumes.push(spare_volume(alloc)?)?;
    volumes.push(spare_volume(alloc)?)?;
    let mut shelf = MemShelf::new(alloc, volumes, failing)?;
    lay(&mut shelf, places.0, vol)?;
    lay(&mut shelf, places.1, other)?;
    Ok(shelf)
}

/// A run over a shelf.
fn run(alloc: Global, asked: Asked<'_>, shelf: &mut MemShelf) -> Result<Left, CaseStop>
    requires { shelf.old.out ≡ None }
    ensures { shelf.new.out ≡ None }
{
    let words = words_of(alloc, asked.words)?;
    let input = Bytes::of(alloc, asked.input)?;
    let mut src = MemSource::new(input, IN_PIECE, Bytes::of(alloc, asked.failing_in)?);
    let mut out = sink(alloc, OUT_PIECE, asked.failing_out)?;
    let mut err = sink(alloc, OUT_PIECE, &[])?;
    let status = run_level(alloc, &words, &mut src, &mut out, &mut err, shelf);
    Ok(Left { status, out, err })
}

/// The volume of the first base, taken out, and whether that of the second was called.
fn take_back(shelf: &mut MemShelf, places: (Base, Base)) -> Result<(MemVolume, bool), CaseStop>
    requires { shelf.old.out ≡ None }
{
    let Ok(other) = shelf.take(places.1) else {
        return Err(CaseStop::BadRow);
    };
    let is_called = other.moment() > 0;
    give_back(shelf, places.1, other)?;
    match shelf.take(places.0) {
        Ok(vol) => Ok((vol, is_called)),
        Err(_) => Err(CaseStop::BadRow),
    }
}

/// The base of a row of this name, and the other one.
fn places_of(name: &[u8]) -> Result<(Base, Base), CaseStop> {
    let (lower, upper) = (base_of(LOWER)?, base_of(UPPER)?);
    match name {
        b"lower" => Ok((lower, upper)),
        b"upper" => Ok((upper, lower)),
        _ => Err(CaseStop::BadRow),
    }
}

/// A run over a shelf that has the volume for the bundle of this name, and a copy of the other
/// volume for the other bundle. It is told where that one was called.
fn run_over(
    alloc: Global,
    asked: Asked<'_>,
    failing: Vec<u64>,
    place: &[u8],
    vol: MemVolume,
    other: MemVolume,
) -> Result<(MemVolume, Left), CaseStop> {
    let mut shelf = shelf_of(alloc, failing, places_of(place)?, vol, other)?;
    let left = run(alloc, asked, &mut shelf)?;
    let (vol, is_called) = take_back(&mut shelf, places_of(place)?)?;
    if is_called {
        return Err(CaseStop::BadRow);
    }
    Ok((vol, left))
}

/// A copy of that volume.
fn copy_of(alloc: Global, volumes: &mut Volumes, name: &[u8]) -> Result<MemVolume, CaseStop> {
    copy(alloc, volumes.volume(name)?, no_failing(alloc))
}

/// `level PLACE OTHER WORDS INPUT`: a run over a level with the volume. The place is `lower` or
/// `upper`.
pub(crate) fn run_level_work(
    alloc: Global,
    volumes: &mut Volumes,
    vol: MemVolume,
    work: &Row,
) -> Result<(MemVolume, Vec<u8>), CaseStop> {
    let other = copy_of(alloc, volumes, work.bytes(1)?)?;
    let asked = Asked {
        words: work.bytes(2)?,
        input: work.bytes(3)?,
        failing_in: &[],
        failing_out: &[],
    };
    let (vol, left) = run_over(alloc, asked, Vec::new(alloc), work.bytes(0)?, vol, other)?;
    Ok((vol, left.text(alloc)?))
}

/// `run NAME PLACE OTHER WORDS INPUT FAILING_IN FAILING_OUT FAILING_SHELF`.
fn run_named(
    alloc: Global,
    volumes: &mut Volumes,
    row: &Row,
    told: &mut Told,
) -> Result<(), CaseStop> {
    let other = copy_of(alloc, volumes, row.bytes(2)?)?;
    let asked = Asked {
        words: row.bytes(3)?,
        input: row.bytes(4)?,
        failing_in: row.bytes(5)?,
        failing_out: row.bytes(6)?,
    };
    let failing = row.numbers(alloc, 7)?;
    let vol = volumes.take(row.bytes(0)?)?;
    let (vol, left) = run_over(alloc, asked, failing, row.bytes(1)?, vol, other)?;
    volumes.keep(row.bytes(0)?, vol)?;
    left.tell(told)
}

pub(crate) fn call(
    alloc: Global,
    volumes: &mut Volumes,
    row: &Row,
    told: &mut Told,
) -> Result<(), CaseStop> {
    match row.call.as_slice() {
        b"run" => run_named(alloc, volumes, row, told),
        _ => Err(CaseStop::BadRow),
    }
}
