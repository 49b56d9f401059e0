//! Runs of tiles, each judged in a thread of its own.

ghost use Rattle.std.specs.Prelude.{◌≡◌, ◌+◌, ◌≤◌, ◌++◌, ◌∷◌, [], IfOk, OnOk, drop, length};
ghost use Rattle.std.specs.List.{AllZip};
ghost use Rattle.std.specs.Thread.{IsSync};
ghost use Rattle.lerc_header.specs.Checksum.{sum_of};
ghost use Rattle.tile_audit.specs.declared.told.AuditedTile.{AuditedTile};
ghost use Rattle.tile_audit.specs.inside.Waits.{IsFound, IsTileOf};

use crate::batch::{Content, Waiting};
use crate::told::{AuditedTile, Finding};
use crate::verdicts::judge;
use lerc_header::checksum;
use std::alloc::{AllocError, Global};
use std::thread::{Threads, join};
use tile_workers::Gate;

/// The checksum of a tile's bytes from 14 on.
fn tile_sum(bytes: &[u8]) -> u32
    ensures { result ≡ sum_of (drop 14 bytes.now) }
{
    checksum(&bytes[bytes.len().min(14)..])
}

/// What is found of a tile of which this was read.
fn finding_of(alloc: Global, content: &Content) -> Result<Finding, AllocError>
    ensures { IfOk result (λ finding. IsFound content.now finding) }
{
    match content {
        Content::Failed => Ok(Finding::Failed),
        Content::Beyond { got } => Ok(Finding::Beyond { got: *got }),
        Content::Tile { bytes, bad_record } => Ok(Finding::Read {
            judged: judge(alloc, bytes.as_slice())?,
            sum: tile_sum(bytes.as_slice()),
            bad_record: *bad_record,
        }),
    }
}

/// What is told of a tile that waits.
fn judge_one(alloc: Global, tile: &Waiting) -> Result<AuditedTile, AllocError>
    ensures { IfOk result (λ told. IsTileOf tile.now told) }
{
    Ok(AuditedTile {
        slot: tile.slot,
        entry: tile.entry,
        finding: finding_of(alloc, &tile.content)?,
    })
}

/// Adds what is told of the next tile.
fn add_next(alloc: Global, told: &mut Vec<AuditedTile>, tile: &Waiting) -> Result<(), AllocError>
    ensures { OnOk result ((next : AuditedTile)
        × (IsTileOf tile.now next × (told.new.items ≡ told.old.items ++ next ∷ []))) }
{
    let next = judge_one(alloc, tile)?;
    told.push(next)?;
    Ok(())
}

/// What is told of a run of tiles, judged one after the other, of which the first has the number
/// `first`.
fn judge_run<G: Gate>(
    alloc: Global,
    tiles: &[Waiting],
    first: usize,
    gate: &G,
) -> Result<Vec<AuditedTile>, AllocError>
    requires few { first + length tiles.now ≤ 16384 }
    ensures { IfOk result (λ told. AllZip IsTileOf tiles.now told.items) }
{
    let mut told = Vec::new(alloc);
    for (i, tile) in tiles.iter().enumerate() {
        gate.pass(first + i);
        add_next(alloc, &mut told, tile)?;
    }
    Ok(told)
}

/// What is told of a run of tiles, judged by so many workers: half of them take the front half. A
/// worker calls `gate.pass(at)` before it judges tile number `at`. Want of memory is the only
/// error.
pub(crate) fn judge_all<R: Threads + Sync, G: Gate>(
    rt: &R,
    alloc: Global,
    tiles: &[Waiting],
    first: usize,
    workers: usize,
    gate: &G,
) -> Result<Vec<AuditedTile>, AllocError>
    requires workers { (1 ≤ workers) × (workers ≤ 64) }
    requires few { first + length tiles.now ≤ 16384 }
    ensures { IfOk result (λ told. AllZip IsTileOf tiles.now told.items) }
{
    if workers == 1 || tiles.len() < 2 {
        return judge_run(alloc, tiles, first, gate);
    }
    let low = workers / 2;
    let high = workers - low;
    let middle = tiles.len() * low / workers;
    let (front, back) = tiles.split_at(middle);
    let (these, those) = join(
        rt,
        || -> Result<Vec<AuditedTile>, AllocError>
            requires { IsSync R.row × (IsSync G.row × (((1 ≤ low) × (low ≤ 64))
                × (first + length front.now ≤ 16384))) }
            ensures { IfOk result (λ told. AllZip IsTileOf front.entry.now told.items) }
        { judge_all(rt, alloc, front, first, low, gate) },
        || -> Result<Vec<AuditedTile>, AllocError>
            requires { IsSync R.row × (IsSync G.row × (((1 ≤ high) × (high ≤ 64))
                × (first + middle + length back.now ≤ 16384))) }
            ensures { IfOk result (λ told. AllZip IsTileOf back.entry.now told.items) }
        { judge_all(rt, alloc, back, first + middle, high, gate) },
    );
    let mut told = these?;
    let mut later = those?;
    told.append(&mut later)?;
    Ok(told)
}
