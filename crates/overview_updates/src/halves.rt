//! Halves of the four tiles of coarse places, made by several workers at once.

ghost use Rattle.std.specs.Prelude.{◌≡◌, ℕ, ◌<◌, ◌≤◌, ◌++◌, ◌∷◌, [], All, IfOk, List, OnOk, length};
ghost use Rattle.std.specs.List.{AllZip};
ghost use Rattle.std.specs.Thread.{IsSync};
ghost use Rattle.overview_updates.specs.inside.Fours.{HalfFits, HalfSays, IsFour, IsHalved, IsReadable};

use crate::quarters::{Four, first_laid, lay_four, slot_of};
use crate::stop::OverviewStop;
use lerc_header::Version;
use raster_values::Bands;
use std::alloc::{AllocError, Global};
use std::thread::{Threads, join};
use tile_workers::bands_need_v4;

/// What the four tiles of a coarse place come to.
#[derive(Drop)]
pub(crate) enum Half {
    /// None of them is there.
    Nothing,
    /// Their half.
    Coarse(Bands),
    /// One of them is refused, or their half is.
    Refused(OverviewStop),
}

/// Half of the four tiles of a coarse place. It is refused where the version has no place for its
/// depths, which are those of the four.
fn half_of(alloc: Global, four: &Four, version: Version) -> Result<Half, AllocError>
    requires { IsReadable four.now }
    ensures says { (bundle : List ℕ) → IsFour bundle four.now
        → IfOk result (λ half. HalfSays bundle version four.now.place half) }
    ensures fits { IfOk result (λ half. HalfFits version half) }
{
    let mosaic = match lay_four(alloc, four) {
        Ok(Some(mosaic)) => mosaic,
        Ok(None) => return Ok(Half::Nothing),
        Err(stop) => {
            return match stop {
                OverviewStop::OutOfMemory => Err(AllocError),
                _ => Ok(Half::Refused(stop)),
            };
        }
    };
    let slot = slot_of(four.place, first_laid(&mosaic));
    let half = mosaic.half(alloc)?;
    if bands_need_v4(version, &half) {
        return Ok(Half::Refused(OverviewStop::DepthNeedsV4 { slot }));
    }
    Ok(Half::Coarse(half))
}

/// Adds the half of the next place.
fn add_half(
    alloc: Global,
    halves: &mut Vec<Half>,
    four: &Four,
    version: Version,
) -> Result<(), AllocError>
    requires { IsReadable four.now }
    ensures { OnOk result ((next : Half)
        × (IsHalved version four.now next × (halves.new.items ≡ halves.old.items ++ next ∷ []))) }
{
    let next = half_of(alloc, four, version)?;
    halves.push(next)?;
    Ok(())
}

/// The halves of a run of coarse places, made one after the other.
fn halve_run(alloc: Global, fours: &[Four], version: Version) -> Result<Vec<Half>, AllocError>
    requires { All IsReadable fours.now }
    ensures { IfOk result (λ halves. AllZip (IsHalved version) fours.now halves.items) }
{
    let mut halves = Vec::new(alloc);
    for four in fours.iter() {
        add_half(alloc, &mut halves, four, version)?;
    }
    Ok(halves)
}

/// The halves of a run of coarse places, made by so many workers: half of them take the front half.
pub(crate) fn halve<R: Threads + Sync>(
    rt: &R,
    alloc: Global,
    fours: &[Four],
    version: Version,
    workers: usize,
) -> Result<Vec<Half>, AllocError>
    requires workers { (1 ≤ workers) × (workers ≤ 64) }
    requires few { length fours.now ≤ 4096 }
    requires readable { All IsReadable fours.now }
    ensures { IfOk result (λ halves. AllZip (IsHalved version) fours.now halves.items) }
{
    if workers == 1 || fours.len() < 2 {
        return halve_run(alloc, fours, version);
    }
    let low = workers / 2;
    let high = workers - low;
    let middle = fours.len() * low / workers;
    let (front, back) = fours.split_at(middle);
    let (these, those) = join(
        rt,
        || -> Result<Vec<Half>, AllocError>
            requires { IsSync R.row × (((1 ≤ low) × (low ≤ 64))
                × ((length front.now ≤ 4096) × All IsReadable front.now)) }
            ensures { IfOk result (λ halves. AllZip (IsHalved version) front.entry.now
                halves.items) }
        { halve(rt, alloc, front, version, low) },
        || -> Result<Vec<Half>, AllocError>
            requires { IsSync R.row × (((1 ≤ high) × (high ≤ 64))
                × ((length back.now ≤ 4096) × All IsReadable back.now)) }
            ensures { IfOk result (λ halves. AllZip (IsHalved version) back.entry.now
                halves.items) }
        { halve(rt, alloc, back, version, high) },
    );
    let mut halves = these?;
    let mut later = those?;
    halves.append(&mut later)?;
    Ok(halves)
}
