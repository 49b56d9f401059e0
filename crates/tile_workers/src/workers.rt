//! Runs of tiles, each encoded in a thread of its own.

ghost use Rattle.std.specs.Prelude.{◌≡◌, ◌+◌, ◌*◌, ◌/◌, ◌^◌, ◌<◌, ◌≤◌, ℕ, ◌↔◌, ◌++◌, ◌∷◌, [], All, IfErr, IfOk, IsErrOf, IsTrue, MatchOption, None, OnOk, length, map};
ghost use Rattle.std.specs.Thread.{IsSync};
ghost use Rattle.lerc_encode.specs.Choice.{chosen_bands};
ghost use Rattle.lerc_encode.specs.Encoded.{AreEncodedOnce, BandsNeedV4, DeclareEach};
ghost use Rattle.lerc_encode.specs.declared.blobs.blob.EncodeFault.{EncodeFault};
ghost use Rattle.tile_workers.specs.Deep.{AreFlat, IsFirstDeep, told};
ghost use Rattle.tile_workers.specs.inside.Encoded.{IsEncodedSo};

use crate::blobs::Blobs;
use crate::coding::Coding;
use crate::gate::Gate;
use lerc_encode::{EncodeFault, encode_bands};
use lerc_header::{Step, Version, needs_v4};
use outside_io::Bytes;
use raster_values::Bands;
use std::alloc::{AllocError, Global};
use std::thread::{Threads, join};

/// Which tile has no blobs, and why.
#[derive(Debug, Drop)]
pub struct NoBlobs {
    /// The number of the tile, counted from 0. Of want of memory it is that of a tile whose blobs
    /// could not be made or kept.
    pub at: usize,
    pub cause: EncodeFault,
}

/// Whether the version has no place for the depths of the bands.
pub fn bands_need_v4(version: Version, bands: &Bands) -> bool
    ensures { IsTrue result ↔ BandsNeedV4 version bands.now }
{
    // for the proof: `len` ensures that there is a band
    let _len = bands.len();
    needs_v4(version, bands.at(0).depth())
}

/// The first tile for whose depths the version has no place.
fn first_deep(tiles: &[Bands], version: Version) -> Option<usize>
    ensures { MatchOption result (AreFlat version tiles.now) (IsFirstDeep version tiles.now) }
{
    for (i, tile) in tiles.iter().enumerate() {
        if bands_need_v4(version, tile) {
            return Some(i);
        }
    }
    None
}

/// The fault of a tile for which there is no memory.
fn want(at: usize) -> NoBlobs
    ensures { result ≡ told at EncodeFault.OutOfMemory }
{
    NoBlobs {
        at,
        cause: EncodeFault::OutOfMemory,
    }
}

/// The blobs of a tile that the version has a place for.
fn encode_one(
    alloc: Global,
    tile: &Bands,
    version: Version,
    step: Step,
) -> Result<Bytes, AllocError>
    requires { ¬ BandsNeedV4 version tile.now }
    ensures blobs { IfOk result (λ b. b ≡ chosen_bands None tile.now version step) }
    ensures encoded { OnOk result (IsEncodedSo version step tile.now) }
{
    match encode_bands(alloc, tile, version, step) {
        Ok(blobs) => Ok(blobs),
        Err(_) => Err(AllocError),
    }
}

/// Adds the blobs of the next tile.
fn add_next(
    alloc: Global,
    blobs: &mut Vec<Bytes>,
    tile: &Bands,
    version: Version,
    step: Step,
) -> Result<(), AllocError>
    requires { ¬ BandsNeedV4 version tile.now }
    ensures blobs { OnOk result (blobs.new.items
        ≡ blobs.old.items ++ chosen_bands None tile.now version step ∷ []) }
    ensures encoded { OnOk result (IsEncodedSo version step tile.now) }
{
    let next = encode_one(alloc, tile, version, step)?;
    blobs.push(next)?;
    Ok(())
}

/// The blobs of a run of tiles, encoded one after the other, of which the first has the number
/// `first`.
fn encode_run<G: Gate>(
    alloc: Global,
    tiles: &[Bands],
    first: usize,
    coding: Coding,
    gate: &G,
) -> Result<Vec<Bytes>, NoBlobs>
    requires flat { AreFlat coding.version tiles.now }
    requires room { first + length tiles.now < 2 ^ 64 }
    ensures blobs { IfOk result (λ bs.
        bs.items ≡ map (λ t. chosen_bands None t coding.version coding.step) tiles.now) }
    ensures encoded { OnOk result
        (All (IsEncodedSo coding.version coding.step) tiles.now) }
    ensures want { IfErr result (λ f. (f.cause ≡ EncodeFault.OutOfMemory)
        × ((first ≤ f.at) × (f.at < first + length tiles.now))) }
{
    let mut blobs = Vec::new(alloc);
    for (i, tile) in tiles.iter().enumerate() {
        gate.pass(first + i);
        match add_next(alloc, &mut blobs, tile, coding.version, coding.step) {
            Ok(()) => {}
            Err(_) => return Err(want(first + i)),
        }
    }
    Ok(blobs)
}

/// How many tiles the first `low` of the workers take, as evenly as can be.
fn share(tiles: usize, low: usize, workers: usize) -> usize
    requires some { 0 < workers }
    requires low { (low ≤ workers) × (workers ≤ 64) }
    ensures even { result ≡ tiles * low / workers }
    ensures within { result ≤ tiles }
{
    tiles / workers * low + tiles % workers * low / workers
}

/// The blobs of a run of tiles, encoded by so many workers: half of them take the front half.
fn encode_halves<R: Threads + Sync, G: Gate>(
    rt: &R,
    alloc: Global,
    tiles: &[Bands],
    first: usize,
    coding: Coding,
    gate: &G,
) -> Result<Vec<Bytes>, NoBlobs>
    requires flat { AreFlat coding.version tiles.now }
    requires room { first + length tiles.now < 2 ^ 64 }
    ensures blobs { IfOk result (λ bs.
        bs.items ≡ map (λ t. chosen_bands None t coding.version coding.step) tiles.now) }
    ensures encoded { OnOk result
        (All (IsEncodedSo coding.version coding.step) tiles.now) }
    ensures want { IfErr result (λ f. (f.cause ≡ EncodeFault.OutOfMemory)
        × ((first ≤ f.at) × (f.at < first + length tiles.now))) }
{
    let version = coding.version;
    let step = coding.step;
    let workers = coding.workers;
    if workers == 1 || tiles.len() < 2 {
        return encode_run(alloc, tiles, first, coding, gate);
    }
    let low = workers / 2;
    let high = workers - low;
    let middle = share(tiles.len(), low, workers);
    let (front, back) = tiles.split_at(middle);
    let (these, those) = join(
        rt,
        || -> Result<Vec<Bytes>, NoBlobs>
            requires { IsSync R.row × (IsSync G.row × (((0 < low) × (low ≤ 64))
                × (AreFlat version front.now × (first + length front.now < 2 ^ 64)))) }
            ensures blobs { IfOk result (λ bs.
                bs.items ≡ map (λ t. chosen_bands None t version step) front.entry.now) }
            ensures encoded { OnOk result (All (IsEncodedSo version step) front.entry.now) }
            ensures want { IfErr result (λ f. (f.cause ≡ EncodeFault.OutOfMemory)
                × ((first ≤ f.at) × (f.at < first + length front.entry.now))) }
        {
            let coding = Coding {
                version,
                step,
                workers: low,
            };
            encode_halves(rt, alloc, front, first, coding, gate)
        },
        || -> Result<Vec<Bytes>, NoBlobs>
            requires { IsSync R.row × (IsSync G.row × (((0 < high) × (high ≤ 64))
                × (AreFlat version back.now × (first + middle + length back.now < 2 ^ 64)))) }
            ensures blobs { IfOk result (λ bs.
                bs.items ≡ map (λ t. chosen_bands None t version step) back.entry.now) }
            ensures encoded { OnOk result (All (IsEncodedSo version step) back.entry.now) }
            ensures want { IfErr result (λ f. (f.cause ≡ EncodeFault.OutOfMemory)
                × ((first + middle ≤ f.at) × (f.at < first + middle + length back.entry.now))) }
        {
            let coding = Coding {
                version,
                step,
                workers: high,
            };
            encode_halves(rt, alloc, back, first + middle, coding, gate)
        },
    );
    let mut blobs = these?;
    let mut later = those?;
    if blobs.append(&mut later).is_err() {
        return Err(want(first));
    }
    Ok(blobs)
}

/// The blobs of each tile, of this coding, in the tiles' order. The tiles are split into at most
/// `coding.workers` runs of neighbours, as even as can be, each of which is encoded in a thread of
/// its own where one can be made. A worker calls `gate.pass(at)` before it encodes tile
/// number `at`, counted from 0. No tile is encoded where one is refused for its depths.
///
/// Want of memory is answered of a tile whose blobs could not be made or kept; which one that is
/// depends on the workers.
pub fn encode_tiles<R: Threads + Sync, G: Gate>(
    rt: &R,
    alloc: Global,
    tiles: &[Bands],
    coding: Coding,
    gate: &G,
) -> Result<Blobs, NoBlobs>
    ensures depth { (at : ℕ) → IsErrOf result (told at EncodeFault.DepthNeedsV4)
        ↔ IsFirstDeep coding.version tiles.now at }
    ensures within { IfErr result (λ f. f.at < length tiles.now) }
    ensures blobs { IfOk result (λ bs.
        bs ≡ map (λ t. chosen_bands None t coding.version coding.step) tiles.now) }
    ensures few { IfOk result (λ bs. All (λ b. length b ≤ 134217728) bs) }
    ensures encoded { OnOk result
        (All (λ t. AreEncodedOnce (chosen_bands None t coding.version coding.step) t coding.step)
        tiles.now) }
    ensures declares { OnOk result
        (All (λ t. DeclareEach (chosen_bands None t coding.version coding.step) t coding.version
        coding.step) tiles.now) }
{
    if let Some(at) = first_deep(tiles, coding.version) {
        return Err(NoBlobs {
            at,
            cause: EncodeFault::DepthNeedsV4,
        });
    }
    match encode_halves(rt, alloc, tiles, 0, coding, gate) {
        Ok(blobs) => Ok(Blobs::from_vec(blobs)),
        Err(fault) => Err(fault),
    }
}
