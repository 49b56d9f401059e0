//! A sample: tiles drawn, encoded, decoded and summed up, some at a time.

ghost use Rattle.std.specs.Prelude.{◌≡◌, ◌+◌, ◌*◌, ◌<◌, ◌≤◌, ℕ, IfOk, OnOk, length};
ghost use Rattle.sample_tiles.specs.Drawn.{drawn};
ghost use Rattle.sample_tiles.specs.Sums.{AreSums};
ghost use Rattle.sample_tiles.specs.inside.Batches.{AreRoomy, AreTheirs, AreTiles};

use crate::adding::{Sums, add_all};
use crate::draw::draw;
use lerc_header::{Step, Version};
use raster_values::Bands;
use std::alloc::{AllocError, Global};
use std::thread::Threads;
use tile_workers::{Blobs, Coding, Gate, encode_tiles};

/// How many tiles are drawn and encoded at once.
const BATCH: u32 = 64;

/// How many tiles a sample may have.
pub const MOST_TILES: u32 = 4096;

/// How many workers encode them.
const WORKERS: usize = 4;

/// Draws so many tiles behind the last number that was drawn.
fn draw_tiles(alloc: Global, count: u32, x: &mut u32) -> Result<Vec<Bands>, AllocError>
    ensures some { IfOk result (λ tiles. (start : ℕ) × AreTiles start 0 count tiles.items) }
    ensures tiles { (start first : ℕ) → x.old ≡ drawn start (4096 * first)
        → IfOk result (λ tiles. AreTiles start first count tiles.items) }
    ensures number { (start first : ℕ) → x.old ≡ drawn start (4096 * first)
        → OnOk result (x.new ≡ drawn start (4096 * (first + count))) }
{
    let mut tiles = Vec::with_capacity(alloc, count as usize)?;
    for _ in 0..count {
        tiles.push(Bands::of(alloc, draw(alloc, x)?)?)?;
    }
    Ok(tiles)
}

/// The blobs of tiles, in version 4 with the error 1.
fn encode_drawn<R: Threads + Sync, G: Gate>(
    rt: &R,
    alloc: Global,
    tiles: &[Bands],
    gate: &G,
) -> Result<Blobs, AllocError>
    ensures { IfOk result (AreTheirs tiles.now) }
{
    let coding = Coding {
        version: Version::V4,
        step: Step::of(1),
        workers: WORKERS,
    };
    match encode_tiles(rt, alloc, tiles, coding, gate) {
        Ok(blobs) => Ok(blobs),
        // Version 4 has a place for every depth, so that memory alone can be wanting.
        Err(_) => Err(AllocError),
    }
}

/// Adds so many tiles more to the sums.
fn add_batch<R: Threads + Sync, G: Gate>(
    rt: &R,
    alloc: Global,
    count: u32,
    x: &mut u32,
    sums: &mut Sums,
    gate: &G,
) -> Result<(), AllocError>
    requires few { sums.old.tiles + count ≤ 4096 }
    requires roomy { AreRoomy sums.old }
    requires near { sums.old.worst ≤ 1 }
    ensures tiles { OnOk result (sums.new.tiles ≡ sums.old.tiles + count) }
    ensures roomy { OnOk result (AreRoomy sums.new) }
    ensures near { OnOk result (sums.new.worst ≤ 1) }
    ensures sums { (start : ℕ) → x.old ≡ drawn start (4096 * sums.old.tiles)
        → AreSums start sums.old.tiles sums.old
        → OnOk result (AreSums start sums.new.tiles sums.new) }
    ensures number { (start : ℕ) → x.old ≡ drawn start (4096 * sums.old.tiles)
        → OnOk result (x.new ≡ drawn start (4096 * sums.new.tiles)) }
{
    let tiles = draw_tiles(alloc, count, x)?;
    let blobs = encode_drawn(rt, alloc, &tiles, gate)?;
    add_all(alloc, &tiles, &blobs, sums)
}

/// What the first `count` tiles of the sample that begins with this number come to. They are drawn,
/// encoded by four workers and decoded, 64 at a time.
///
/// A worker calls `gate.pass(at)` before it encodes the tile with the number `at` of those 64. Want
/// of memory is answered where it comes.
pub fn sample<R: Threads + Sync, G: Gate>(
    rt: &R,
    alloc: Global,
    start: u32,
    count: u32,
    gate: &G,
) -> Result<Sums, AllocError>
    requires { count ≤ 4096 }
    ensures sums { IfOk result (AreSums start count) }
    ensures near { IfOk result (λ sums. sums.worst ≤ 1) }
{
    let mut x = start;
    let mut sums = Sums {
        tiles: 0,
        bytes: 0,
        worst: 0,
        checksums: 0,
    };
    while sums.tiles < count {
        let some = (count - sums.tiles).min(BATCH);
        add_batch(rt, alloc, some, &mut x, &mut sums, gate)?;
    }
    Ok(sums)
}
