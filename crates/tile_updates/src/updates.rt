//! Tiles read and encoded batch by batch.

ghost use Rattle.std.specs.Prelude.{◌≡◌, ◌↔◌, ◌+◌, ◌-◌, ◌*◌, ◌^◌, ◌<◌, ◌≤◌, ℕ, List, Option, Err, None, All, IfOk, IfErr, OnOk, IsTrue, length, map};
ghost use Rattle.lerc_encode.specs.Choice.{chosen_bands};
ghost use Rattle.lerc_encode.specs.Encoded.{AreEncodedOnce, BandsNeedV4};
ghost use Rattle.bundle_store.specs.Build.{EachFits};
ghost use Rattle.outside_io.specs.streams.Faults.{IsCause};
ghost use Rattle.outside_io.specs.streams.Source.{IsAtEnd};
ghost use Rattle.raster_grids.specs.Taken.{TookSome};
ghost use Rattle.tile_updates.specs.Stops.{TellsStop};
ghost use Rattle.tile_updates.specs.Updates.{AreEncoded, IsUpdates, OfBytes};
ghost use Rattle.tile_updates.specs.inside.SoFar.{AreWaiting, Follows, IsFilled, IsFree, IsSoFar};

use crate::batch::Batch;
use crate::encoding::{add_blobs, encode_batch};
use crate::list::UpdateList;
use crate::stop::{StreamStop, stream_stop};
use bundle_store::TileRec;
use lerc_header::Version;
use outside_io::{Source, has_more};
use raster_values::Bands;
use std::alloc::Global;
use std::thread::{Threads, join_mut};
use tile_stream::{Tile, TileStop, next_tile};
use tile_workers::{Blobs, Coding, Gate, Machine, NoBlobs, bands_need_v4, encode_tiles};

/// How many tiles an input may have.
const MOST_TILES: usize = 1048576;

/// What was made of the first tiles of an input.
#[derive(Drop)]
struct SoFar {
    list: UpdateList,
    /// How many bytes the tiles have.
    place: u64,
}

/// Tiles that wait, and the place behind them.
#[derive(Drop)]
struct Waiting {
    batch: Batch,
    place: u64,
}

/// What follows the tiles that wait.
#[derive(Clone, Copy)]
enum Next {
    /// It was not looked at.
    More,
    /// Nothing.
    AtEnd,
    /// What is refused so as it is read.
    Refused(StreamStop),
}

/// Reads the tile that follows, and lets it wait.
fn wait_next<S: Source>(
    alloc: Global,
    src: &mut S,
    version: Version,
    waiting: &mut Waiting,
) -> Result<Next, StreamStop>
    requires few { length waiting.old.batch < 1048576 }
    requires place { waiting.old.place < 2 ^ 59 }
    ensures ok { IfOk result (λ next. Follows version (S.left src.old) (S.left src.new)
        waiting.old waiting.new next) }
    ensures free { IfErr result (IsFree version) }
    ensures some { TookSome (S.left src.old) (S.left src.new) }
    ensures counted { IsCause (result ≡ Err StreamStop.Source)
        (S.faults src.old) (S.faults src.new) }
{
    let tile = match next_tile(alloc, src, waiting.place) {
        Ok(Some(tile)) => tile,
        Ok(None) => return Ok(Next::AtEnd),
        Err(TileStop::Fault(fault)) => return Ok(Next::Refused(StreamStop::Fault(fault))),
        Err(TileStop::Source) => return Err(StreamStop::Source),
        Err(TileStop::OutOfMemory) => return Err(StreamStop::OutOfMemory),
    };
    if bands_need_v4(version, &tile.bands) {
        let place = waiting.place + 16;
        return Ok(Next::Refused(StreamStop::DepthNeedsV4 { place }));
    }
    let size = tile.size();
    let Tile { slot, bands } = tile;
    match waiting.batch.push(slot, bands) {
        Ok(()) => {
            waiting.place += size;
            Ok(Next::More)
        }
        Err(_) => Err(StreamStop::OutOfMemory),
    }
}

/// Reads the tiles of a batch from this place of the input on, at most so many.
fn fill<S: Source>(
    alloc: Global,
    src: &mut S,
    coding: &Coding,
    room: usize,
    place: u64,
) -> Result<(Waiting, Next), StreamStop>
    requires room { (0 < room) × (room ≤ 1048576) }
    requires place { place ≤ 83886104 * 1048576 }
    ensures ok { IfOk result (λ r. IsFilled coding.now.version room place (S.left src.old)
        (S.left src.new) r.0 r.1) }
    ensures free { IfErr result (IsFree coding.now.version) }
    ensures some { TookSome (S.left src.old) (S.left src.new) }
    ensures counted { IsCause (result ≡ Err StreamStop.Source)
        (S.faults src.old) (S.faults src.new) }
{
    let mut waiting = Waiting {
        batch: Batch::new(alloc),
        place,
    };
    while waiting.batch.len() < room && !waiting.batch.is_full(coding.workers) {
        match wait_next(alloc, src, coding.version, &mut waiting) {
            Ok(Next::More) => {}
            Ok(Next::AtEnd) => return Ok((waiting, Next::AtEnd)),
            Ok(Next::Refused(stop)) => return Ok((waiting, Next::Refused(stop))),
            Err(stop) => return Err(stop),
        }
    }
    Ok((waiting, Next::More))
}

/// Where the next batch begins in the input, and how many tiles it may have.
#[derive(Clone, Copy)]
struct Behind {
    place: u64,
    room: usize,
}

/// Encodes tiles, and at the same time reads the batch behind them.
fn encode_and_fill<R: Threads + Sync, S: Source, G: Gate>(
    machine: &Machine<R, G>,
    src: &mut S,
    coding: &Coding,
    tiles: &[Bands],
    behind: Behind,
) -> (Result<Blobs, NoBlobs>, Result<(Waiting, Next), StreamStop>)
    requires room { (0 < behind.room) × (behind.room ≤ 1048576) }
    requires place { behind.place ≤ 83886104 * 1048576 }
    ensures blobs { IfOk result.0 (λ bs. bs
        ≡ map (λ t. chosen_bands None t coding.now.version coding.now.step) tiles.now) }
    ensures encoded { OnOk result.0 (All (λ t. AreEncodedOnce
        (chosen_bands None t coding.now.version coding.now.step) t coding.now.step) tiles.now) }
    ensures filled { IfOk result.1 (λ r. IsFilled coding.now.version behind.room behind.place
        (S.left src.old) (S.left src.new) r.0 r.1) }
    ensures free { IfErr result.1 (IsFree coding.now.version) }
    ensures some { TookSome (S.left src.old) (S.left src.new) }
    ensures counted { IsCause (result.1 ≡ Err StreamStop.Source)
        (S.faults src.old) (S.faults src.new) }
{
    let rt = machine.rt;
    let alloc = machine.alloc;
    let gate = machine.gate;
    join_mut(
        rt,
        &mut || encode_tiles(rt, alloc, tiles, *coding, gate),
        &mut || fill(alloc, src, coding, behind.room, behind.place),
    )
}

/// Encodes the tiles that wait behind those of which something was made, and adds their updates,
/// where no batch follows them that is to be read.
fn add_last<R: Threads + Sync, G: Gate>(
    machine: &Machine<R, G>,
    coding: &Coding,
    waiting: Waiting,
    done: &mut SoFar,
) -> Result<(), StreamStop>
    requires flat { All (λ t. ¬ BandsNeedV4 coding.now.version t.bands) waiting.batch }
    requires few { length done.old.list + length waiting.batch ≤ 1048576 }
    ensures ok { (input from now : Option (List ℕ))
        → IsSoFar coding.now.version coding.now.step input from done.old
        → AreWaiting coding.now.version done.old.place from now waiting
        → OnOk result (IsSoFar coding.now.version coding.now.step input now done.new) }
    ensures refused { (input from now : Option (List ℕ))
        → IsSoFar coding.now.version coding.now.step input from done.old
        → AreWaiting coding.now.version done.old.place from now waiting
        → IfErr result (TellsStop coding.now.version coding.now.step input) }
    ensures place { OnOk result (done.new.place ≡ waiting.place) }
    ensures grows { OnOk result
        (length done.new.list ≡ length done.old.list + length waiting.batch) }
    ensures source { ¬ (result ≡ Err StreamStop.Source) }
{
    let Waiting { batch, place } = waiting;
    match encode_batch(
        machine.rt,
        machine.alloc,
        batch,
        *coding,
        machine.gate,
        &mut done.list,
    ) {
        Ok(()) => {
            done.place = place;
            Ok(())
        }
        Err(stop) => Err(stream_stop(stop)),
    }
}

/// Encodes the tiles that wait behind those of which something was made, and adds their updates;
/// then they are dropped, and the batch behind them is read.
fn add_then_fill<R: Threads + Sync, S: Source, G: Gate>(
    machine: &Machine<R, G>,
    src: &mut S,
    coding: &Coding,
    waiting: Waiting,
    done: &mut SoFar,
) -> Result<(Waiting, Next), StreamStop>
    requires flat { All (λ t. ¬ BandsNeedV4 coding.now.version t.bands) waiting.batch }
    requires few { length done.old.list + length waiting.batch < 1048576 }
    requires place { waiting.place ≤ 83886104 * 1048576 }
    ensures ok { (input from : Option (List ℕ))
        → IsSoFar coding.now.version coding.now.step input from done.old
        → AreWaiting coding.now.version done.old.place from (S.left src.old) waiting
        → OnOk result (IsSoFar coding.now.version coding.now.step input (S.left src.old)
        done.new) }
    ensures place { OnOk result (done.new.place ≡ waiting.place) }
    ensures filled { IfOk result (λ r. IsFilled coding.now.version
        (1048576 - length done.new.list) done.new.place (S.left src.old) (S.left src.new)
        r.0 r.1) }
    ensures refused { (input from : Option (List ℕ))
        → IsSoFar coding.now.version coding.now.step input from done.old
        → AreWaiting coding.now.version done.old.place from (S.left src.old) waiting
        → IfErr result (TellsStop coding.now.version coding.now.step input) }
    ensures grows { OnOk result
        (length done.new.list ≡ length done.old.list + length waiting.batch) }
    ensures some { TookSome (S.left src.old) (S.left src.new) }
    ensures counted { IsCause (result ≡ Err StreamStop.Source)
        (S.faults src.old) (S.faults src.new) }
{
    match add_last(machine, coding, waiting, done) {
        Ok(()) => {}
        Err(stop) => return Err(stop),
    }
    let room = MOST_TILES - done.list.len();
    fill(machine.alloc, src, coding, room, done.place)
}

/// The same, but the batch behind them is read while they are encoded. A source that fails is told
/// at once, and what is refused as it is read comes behind the tiles before it.
fn add_while_filling<R: Threads + Sync, S: Source, G: Gate>(
    machine: &Machine<R, G>,
    src: &mut S,
    coding: &Coding,
    waiting: Waiting,
    done: &mut SoFar,
) -> Result<(Waiting, Next), StreamStop>
    requires flat { All (λ t. ¬ BandsNeedV4 coding.now.version t.bands) waiting.batch }
    requires few { length done.old.list + length waiting.batch < 1048576 }
    requires place { waiting.place ≤ 83886104 * 1048576 }
    ensures ok { (input from : Option (List ℕ))
        → IsSoFar coding.now.version coding.now.step input from done.old
        → AreWaiting coding.now.version done.old.place from (S.left src.old) waiting
        → OnOk result (IsSoFar coding.now.version coding.now.step input (S.left src.old)
        done.new) }
    ensures place { OnOk result (done.new.place ≡ waiting.place) }
    ensures filled { IfOk result (λ r. IsFilled coding.now.version
        (1048576 - length done.new.list) done.new.place (S.left src.old) (S.left src.new)
        r.0 r.1) }
    ensures refused { (input from : Option (List ℕ))
        → IsSoFar coding.now.version coding.now.step input from done.old
        → AreWaiting coding.now.version done.old.place from (S.left src.old) waiting
        → IfErr result (TellsStop coding.now.version coding.now.step input) }
    ensures grows { OnOk result
        (length done.new.list ≡ length done.old.list + length waiting.batch) }
    ensures some { TookSome (S.left src.old) (S.left src.new) }
    ensures counted { IsCause (result ≡ Err StreamStop.Source)
        (S.faults src.old) (S.faults src.new) }
{
    let Waiting { batch, place } = waiting;
    let room = MOST_TILES - done.list.len() - batch.len();
    let behind = Behind { place, room };
    let (blobs, filled) = encode_and_fill(machine, src, coding, batch.tiles.as_slice(), behind);
    if let Err(StreamStop::Source) = filled {
        return Err(StreamStop::Source);
    }
    let Ok(blobs) = blobs else {
        return Err(StreamStop::OutOfMemory);
    };
    match add_blobs(batch, blobs, coding, &mut done.list) {
        Ok(()) => {
            done.place = place;
            filled
        }
        Err(stop) => Err(stream_stop(stop)),
    }
}

/// The same, in the one way or the other: one worker reads between two batches.
fn add_and_fill<R: Threads + Sync, S: Source, G: Gate>(
    machine: &Machine<R, G>,
    src: &mut S,
    coding: &Coding,
    waiting: Waiting,
    done: &mut SoFar,
) -> Result<(Waiting, Next), StreamStop>
    requires flat { All (λ t. ¬ BandsNeedV4 coding.now.version t.bands) waiting.batch }
    requires few { length done.old.list + length waiting.batch < 1048576 }
    requires place { waiting.place ≤ 83886104 * 1048576 }
    ensures ok { (input from : Option (List ℕ))
        → IsSoFar coding.now.version coding.now.step input from done.old
        → AreWaiting coding.now.version done.old.place from (S.left src.old) waiting
        → OnOk result (IsSoFar coding.now.version coding.now.step input (S.left src.old)
        done.new) }
    ensures place { OnOk result (done.new.place ≡ waiting.place) }
    ensures filled { IfOk result (λ r. IsFilled coding.now.version
        (1048576 - length done.new.list) done.new.place (S.left src.old) (S.left src.new)
        r.0 r.1) }
    ensures refused { (input from : Option (List ℕ))
        → IsSoFar coding.now.version coding.now.step input from done.old
        → AreWaiting coding.now.version done.old.place from (S.left src.old) waiting
        → IfErr result (TellsStop coding.now.version coding.now.step input) }
    ensures grows { OnOk result
        (length done.new.list ≡ length done.old.list + length waiting.batch) }
    ensures some { TookSome (S.left src.old) (S.left src.new) }
    ensures counted { IsCause (result ≡ Err StreamStop.Source)
        (S.faults src.old) (S.faults src.new) }
{
    if coding.workers == 1 {
        add_then_fill(machine, src, coding, waiting, done)
    } else {
        add_while_filling(machine, src, coding, waiting, done)
    }
}

/// Whether what follows was not looked at, and more than so many tiles may be there.
fn may_follow(next: &Next, count: usize) -> bool
    ensures { IsTrue result ↔ ((next.now ≡ Next.More) × (count < 1048576)) }
{
    matches!(next, Next::More) && count < MOST_TILES
}

/// Reads tiles up to the end of the source, and gives the updates that they ask for: for each tile
/// its slot and the blobs of its bands, of this coding. Where a tile is refused, nothing behind it
/// is told.
///
/// The tiles are read in batches, up to 16 for each worker or 2^24 values, each of which is encoded
/// by so many workers. Whichever their number and whatever the gate does, the answer is the same,
/// but for a source that fails, which is told at once, and for want of memory. The gate is that of
/// `encode_tiles`, the tiles being numbered in their batch. Where there is more than one worker,
/// the next batch is read while one is encoded.
///
/// Two batches of bands are kept at a time, or one where there is one worker, and all the blobs,
/// which have at most 2^30 bytes together. Want of memory for them is answered where it comes.
/// After an error some bytes of the source are taken.
pub fn read_updates<R: Threads + Sync, S: Source, G: Gate>(
    rt: &R,
    alloc: Global,
    src: &mut S,
    coding: Coding,
    gate: &G,
) -> Result<Vec<TileRec>, StreamStop>
    ensures ok { IfOk result (λ updates. OfBytes (S.left src.old)
        (λ bytes. IsUpdates coding.version coding.step bytes updates.items)) }
    ensures end { OnOk result (IsAtEnd (S.left src.new)) }
    ensures encoded { IfOk result (λ updates. AreEncoded coding.version coding.step updates.items) }
    ensures few { IfOk result (λ updates. length updates.items ≤ 1048576) }
    ensures fits { IfOk result (λ updates. EachFits updates.items) }
    ensures refused { IfErr result
        (λ stop. TellsStop coding.version coding.step (S.left src.old) stop) }
    ensures taken { TookSome (S.left src.old) (S.left src.new) }
    ensures counted { IsCause (result ≡ Err StreamStop.Source)
        (S.faults src.old) (S.faults src.new) }
{
    let machine = Machine { rt, alloc, gate };
    let mut done = SoFar {
        list: UpdateList::new(alloc),
        place: 0,
    };
    let (mut waiting, mut next) = match fill(alloc, src, &coding, MOST_TILES, 0) {
        Ok(filled) => filled,
        Err(stop) => return Err(stop),
    };
    while may_follow(&next, done.list.len() + waiting.batch.len()) {
        match add_and_fill(&machine, src, &coding, waiting, &mut done) {
            Ok(filled) => {
                waiting = filled.0;
                next = filled.1;
            }
            Err(stop) => return Err(stop),
        }
    }
    match add_last(&machine, &coding, waiting, &mut done) {
        Ok(()) => {}
        Err(stop) => return Err(stop),
    }
    match next {
        Next::AtEnd => return Ok(done.list.into_vec()),
        Next::Refused(stop) => return Err(stop),
        Next::More => {}
    }
    match has_more(src) {
        Ok(false) => Ok(done.list.into_vec()),
        Ok(true) => Err(StreamStop::TooManyTiles),
        Err(_) => Err(StreamStop::Source),
    }
}
