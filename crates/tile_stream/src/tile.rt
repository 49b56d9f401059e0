ghost use Rattle.std.specs.Prelude.{◌≡◌, ℕ, ◌+◌, ◌^◌, ◌<◌, ◌≤◌, List, None, Some, IfOk, IfErr, OnErr, MatchResult, length};
ghost use Rattle.raster_grids.specs.Taken.{TookSome};
ghost use Rattle.tile_stream.specs.Tile.{CountsTileStop, IsTile, IsTileHead, IsToldStop, TookTile, tile_mark_faults};
ghost use Rattle.tile_stream.specs.inside.Stops.{stop_of};

use bundle_index::Slot;
use outside_io::{Failed, Source, take_all};
use raster_grids::{GridReason, GridStop, bands_read, bands_size};
use raster_values::Bands;
use std::alloc::Global;

/// Bands and the slot that they go to.
#[derive(Drop)]
pub struct Tile {
    pub slot: Slot,
    pub bands: Bands,
}

impl Tile {
    /// How many bytes the tile has in a stream.
    pub fn size(&self) -> u64
        ensures size { (bytes : List ℕ) → IsTile bytes self.now → result ≡ length bytes }
        ensures few { result ≤ 83886104 }
    {
        3 + bands_size(&self.bands)
    }
}

/// Why bytes do not begin with a tile.
#[derive(Clone, Copy, Debug, PartialEq, Eq)]
pub enum TileReason {
    /// The first byte is not `T`.
    BadTileMark,
    /// A row or a column is above 127.
    BadSlot,
    /// A fault of the grid, or the bytes end before it.
    Grid(GridReason),
}

/// What is wrong first in bytes that do not begin with a tile, and where.
#[derive(Clone, Copy, Debug, PartialEq, Eq)]
pub struct TileFault {
    pub reason: TileReason,
    pub place: u64,
}

/// Why no tile was read.
#[derive(Clone, Copy, Debug, PartialEq, Eq)]
pub enum TileStop {
    /// The bytes do not begin with a tile.
    Fault(TileFault),
    /// The source failed.
    Source,
    /// There is no memory for the bands.
    OutOfMemory,
}

/// A fault at a place.
fn fault(reason: TileReason, place: usize) -> TileFault
    ensures reason { result.reason ≡ reason }
    ensures place { result.place ≡ place }
{
    TileFault {
        reason,
        place: place as u64,
    }
}

/// The slot that the first bytes of a tile name.
fn slot_of(head: &[u8]) -> Result<Slot, TileFault>
    requires { length head.now ≤ 3 }
    ensures { MatchResult result (λ slot. IsTileHead head.now slot)
        (λ f. tile_mark_faults head.now f.place f.reason × (f.place ≤ 3)) }
{
    let cut = fault(TileReason::Grid(GridReason::Truncated), head.len());
    if head.is_empty() {
        return Err(cut);
    }
    if head[0] != b'T' {
        return Err(fault(TileReason::BadTileMark, 0));
    }
    if head.len() < 2 {
        return Err(cut);
    }
    if head[1] > 127 {
        return Err(fault(TileReason::BadSlot, 1));
    }
    if head.len() < 3 {
        return Err(cut);
    }
    match Slot::of(head[1], head[2]) {
        Some(slot) => Ok(slot),
        None => Err(fault(TileReason::BadSlot, 2)),
    }
}

/// The stop of a tile whose grid stops so.
fn grid_stop(stop: GridStop) -> TileStop
    ensures { result ≡ stop_of stop }
{
    match stop {
        GridStop::Fault(fault) => TileStop::Fault(TileFault {
            reason: TileReason::Grid(fault.reason),
            place: fault.place,
        }),
        GridStop::Source => TileStop::Source,
        GridStop::OutOfMemory => TileStop::OutOfMemory,
    }
}

/// Takes the next tile, which begins at the place `at` of the input. None where no byte is left.
pub fn next_tile<S: Source>(alloc: Global, src: &mut S, at: u64) -> Result<Option<Tile>, TileStop>
    requires { at < 2 ^ 59 }
    ensures ok { IfOk result (λ found. TookTile (S.left src.old) (S.left src.new) found) }
    ensures fault { IfErr result (λ stop. IsToldStop (S.left src.old) at stop) }
    ensures some { OnErr result (TookSome (S.left src.old) (S.left src.new)) }
    ensures counted { CountsTileStop result (S.faults src.old) (S.faults src.new) }
{
    let mut head = [0; 3];
    let taken = match take_all(src, &mut head) {
        Ok(taken) => taken,
        Err(Failed) => return Err(TileStop::Source),
    };
    if taken == 0 {
        return Ok(None);
    }
    let slot = match slot_of(&head[..taken]) {
        Ok(slot) => slot,
        Err(fault) => return Err(TileStop::Fault(TileFault {
            reason: fault.reason,
            place: at + fault.place,
        })),
    };
    match bands_read(alloc, src, at + 3) {
        Ok(bands) => Ok(Some(Tile { slot, bands })),
        Err(stop) => Err(grid_stop(stop)),
    }
}
