//! Packing.

ghost use Rattle.std.specs.Prelude.{◌≡◌, ◌≤◌, List, IsTrue, IfErr, IfOk, OnOk, All, Err, length};
ghost use Rattle.outside_io.specs.streams.Faults.{IsCause};
ghost use Rattle.outside_io.specs.declared.volume.VolFile.TheVariants.{Bundle, Journal};
ghost use Rattle.outside_io.specs.volume.History.{contents, current};
ghost use Rattle.bundle_store.specs.declared.fault.StoreFault.TheVariants.{Device};
ghost use Rattle.bundle_store.specs.Build.{EachFits};
ghost use Rattle.bundle_store.specs.Images.{StandsFor};
ghost use Rattle.bundle_store.specs.Tiles.{TileMap};
ghost use Rattle.bundle_pack.specs.Files.{all_files, files_in};
ghost use Rattle.bundle_pack.specs.Merged.{StandFor};
ghost use Rattle.bundle_pack.specs.Opening.{StandsLeft};
ghost use Rattle.bundle_pack.specs.Packing.{HoldsMerged, IsOfSound, IsOfSources, OnTarget, OnUnpacked, PackSays, PacksMaps, TargetKeeps};
ghost use Rattle.bundle_pack.specs.Recovering.{AtMostRecovers};
ghost use Rattle.bundle_pack.specs.Refusals.{PackFails};
ghost use Rattle.bundle_pack.specs.Sources.{DeviceAt, Each, EachShut, SourceMoves};
ghost use Rattle.bundle_pack.specs.inside.Collecting.{ReadFails, ReadSays};

use crate::PackFault;
use crate::chosen::bytes_of_chosen;
use crate::collecting::collect_tiles;
use crate::fault::target_fault;
use crate::sources::open_sources;
use crate::target::write_target;
use bundle_store::{TileRec, built_size};
use outside_io::Volume;
use std::alloc::Global;

/// How many bytes the tiles that count have together at most: 2^30.
const MOST_BYTES: u64 = 1073741824;

/// What was packed.
#[derive(Clone, Copy, Debug, PartialEq, Eq)]
pub struct PackReport {
    /// How many slots have a tile.
    pub tiles: u32,
    /// How many bytes the target has.
    pub length: u64,
}

/// The tiles that count of all sources.
fn read_sources<V: Volume>(alloc: Global, from: &mut [V]) -> Result<Vec<TileRec>, PackFault>
    ensures sources { Each (λ i v w.
        SourceMoves V.told V.history V.faults (DeviceAt result i) v w) from.old from.new }
    ensures shut { EachShut V.told V.history result from.old from.new }
    ensures fits { IfOk result (λ tiles. EachFits tiles.items) }
    ensures says { All (λ v. IsTrue (V.told v)) from.old → ReadSays
        (all_files V.history from.old) result }
    ensures answers { IfErr result (λ f. ReadFails (length from.old) f) }
{
    let sessions = match open_sources(alloc, from) {
        Ok(sessions) => sessions,
        Err(fault) => return Err(fault),
    };
    let len = bytes_of_chosen(sessions.as_slice());
    if len > MOST_BYTES {
        return Err(PackFault::KeptTooMuch { len });
    }
    collect_tiles(alloc, sessions.as_slice(), from)
}

/// Packs the tiles of the sources into the target. In this order: each source is recovered and
/// opened; the chosen tiles have at most 2^30 bytes together; each is read, by slot; the target is
/// recovered and opened, and built, which wants it empty.
pub fn pack<V: Volume, W: Volume>(
    alloc: Global,
    from: &mut [V],
    to: &mut W,
) -> Result<PackReport, PackFault>
    requires some { 1 ≤ length from.old }
    requires few { length from.old ≤ 8 }
    ensures sources { Each (λ i v w.
        SourceMoves V.told V.history V.faults (DeviceAt result i) v w) from.old from.new }
    ensures shut { EachShut V.told V.history result from.old from.new }
    ensures says { All (λ v. IsTrue (V.told v)) from.old → IsTrue (W.told to.old) → PackSays
        (all_files V.history from.old) (files_in (W.history to.old)) result }
    ensures packed { All (λ v. IsTrue (V.told v)) from.old → IsTrue (W.told to.old) →
        OnOk result (HoldsMerged (all_files V.history from.old) (current (W.history to.new))) }
    ensures merges { (maps : List TileMap) → All (λ v. IsTrue (V.told v)) from.old →
        IsTrue (W.told to.old) → StandFor (all_files V.history from.old) maps →
        PacksMaps maps result (current (W.history to.new)) }
    ensures complete { (maps : List TileMap) (start : TileMap) →
        All (λ v. IsTrue (V.told v)) from.old → IsTrue (W.told to.old) →
        StandFor (all_files V.history from.old) maps →
        StandsFor (contents Bundle (W.history to.old)) (contents Journal (W.history to.old)) start →
        IfErr result (λ f. IsOfSound f) }
    ensures images { All (λ v. IsTrue (V.told v)) from.old → IsTrue (W.told to.old) →
        TargetKeeps (all_files V.history from.old) (files_in (W.history to.old))
        (W.history to.old) (W.history to.new) }
    ensures untouched { IsOfSources result → to.new ≡ to.old }
    ensures unpacked { IsTrue (W.told to.old) →
        OnUnpacked result (AtMostRecovers (W.history to.old) (W.history to.new)) }
    ensures left { IsTrue (W.told to.old) →
        OnTarget result (StandsLeft (W.history to.old) (W.history to.new)) }
    ensures answers { IfErr result (λ f. PackFails (length from.old) f) }
    ensures told { W.told to.new ≡ W.told to.old }
    ensures target { IsCause (result ≡ Err (PackFault.Target Device)) (W.faults to.old)
        (W.faults to.new) }
{
    let tiles = match read_sources(alloc, from) {
        Ok(tiles) => tiles,
        Err(fault) => return Err(fault),
    };
    let size = match built_size(alloc, tiles.as_slice()) {
        Ok(size) => size,
        Err(_) => return Err(PackFault::OutOfMemory),
    };
    match write_target(alloc, to, tiles.as_slice()) {
        Ok(()) => Ok(PackReport {
            tiles: size.tiles,
            length: size.len,
        }),
        Err(fault) => Err(target_fault(fault)),
    }
}
