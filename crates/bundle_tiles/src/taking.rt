//! A stream, read and put group by group.

ghost use Rattle.std.specs.Prelude.{◌≡◌, ◌+◌, ◌*◌, ◌^◌, ◌<◌, ◌≤◌, Err, IfErr, IfOk, length};
ghost use Rattle.outside_io.specs.streams.Faults.{IsCause};
ghost use Rattle.bundle_store.specs.Build.{EachFits};
ghost use Rattle.bundle_store.specs.Serving.{ServingPuts};
ghost use Rattle.bundle_store.specs.Told.{Told};
ghost use Rattle.bundle_tiles.specs.Imported.{Imports};
ghost use Rattle.bundle_tiles.specs.RawTile.{CountsRawStop};
ghost use Rattle.bundle_tiles.specs.inside.Groups.{IsGroup, IsPutStop, IsToldStream, PutsGroup, put_stop_of, read_stop_of};

use crate::raw_tile::{RawFault, RawStop, next_raw};
use bundle_lines::{PutStop, put_all};
use bundle_store::{Session, TileRec};
use outside_io::{Marks, Sink, Source, Volume};
use std::alloc::Global;

/// How many tiles are read, and kept, before they are put.
pub const GROUP: usize = 64;

/// How many groups are read: with so many tiles there is no room left in a bundle.
const MOST_GROUPS: u64 = 4294967296;

/// Why an import ends before the end of its stream.
#[derive(Clone, Copy, Debug, PartialEq, Eq)]
pub enum ImportStop {
    /// The source's bytes are no stream.
    Stream(RawFault),
    /// The source failed.
    Source,
    /// The output failed.
    Output,
    /// The volume failed.
    Volume,
    /// Memory was refused.
    OutOfMemory,
    /// The bundle of `len` bytes has no room for the next tile.
    Full { len: u64 },
    /// The stream has 2^38 tiles, or more.
    TooManyTiles,
}

/// Some tiles of a stream, and the place behind them.
#[derive(Drop)]
struct Group {
    tiles: Vec<TileRec>,
    end: u64,
}

/// Why reading ends the import.
fn read_stop(stop: RawStop) -> ImportStop
    ensures { result ≡ read_stop_of stop }
{
    match stop {
        RawStop::Fault(fault) => ImportStop::Stream(fault),
        RawStop::Source => ImportStop::Source,
        RawStop::OutOfMemory => ImportStop::OutOfMemory,
    }
}

/// Why putting ends it.
fn put_stop(stop: PutStop) -> ImportStop
    ensures { result ≡ put_stop_of stop }
{
    match stop {
        PutStop::Output => ImportStop::Output,
        PutStop::Volume => ImportStop::Volume,
        PutStop::Full { len } => ImportStop::Full { len },
    }
}

/// Reads the next group, which begins at the place `at` of the input: 64 tiles, or fewer where
/// these are the last.
fn take_group<S: Source>(alloc: Global, src: &mut S, at: u64) -> Result<Group, RawStop>
    requires { at < 2 ^ 62 + 2 ^ 41 }
    ensures group { IfOk result (λ group. IsGroup (S.left src.old) (S.left src.new) at group) }
    ensures held { IfOk result (λ group. length group.tiles.items ≤ GROUP) }
    ensures fit { IfOk result (λ group. EachFits group.tiles.items) }
    ensures end { IfOk result (λ group. group.end
        ≤ at + 16777222 * length group.tiles.items) }
    ensures fault { IfErr result (λ stop. IsToldStream (S.left src.old) at stop) }
    ensures counted { CountsRawStop result (S.faults src.old) (S.faults src.new) }
{
    let mut tiles = Vec::new(alloc);
    let mut end = at;
    for _tile in 0..GROUP {
        match next_raw(alloc, src, end) {
            Ok(Some(tile)) => {
                end += 7 + tile.bytes.len() as u64;
                match tiles.push(tile) {
                    Ok(()) => {}
                    Err(_) => return Err(RawStop::OutOfMemory),
                }
            }
            Ok(None) => return Ok(Group { tiles, end }),
            Err(stop) => return Err(stop),
        }
    }
    Ok(Group { tiles, end })
}

/// Puts a group as `put` does, each tile with a mark, and its line once it is there.
fn put_group<V: Volume, K: Sink>(
    alloc: Global,
    session: &mut Session,
    vol: &mut V,
    tiles: &[TileRec],
    out: &mut K,
) -> Result<(), ImportStop>
    requires serving { ServingPuts V.told V.history session.old vol.old }
    requires fit { EachFits tiles.now }
    ensures puts { PutsGroup result tiles.now session.old session.new (V.told vol.old)
        (V.history vol.old) (V.history vol.new) (K.held out.old) (K.held out.new) }
    ensures told { Told V.told V.faults (IsCause (result ≡ Err ImportStop.Volume))
        vol.old vol.new }
    ensures output_failed { IsCause (result ≡ Err ImportStop.Output) (K.faults out.old)
        (K.faults out.new) }
    ensures never { IfErr result (λ stop. IsPutStop stop) }
{
    let mut marks = Marks::new(alloc);
    match marks.reserve(tiles.len()) {
        Ok(()) => {}
        Err(_) => return Err(ImportStop::OutOfMemory),
    }
    match put_all(session, vol, out, &mut marks, tiles) {
        Ok(()) => Ok(()),
        Err(stop) => Err(put_stop(stop)),
    }
}

/// Reads a stream up to the end of the source, and puts its tiles, group by group: each group is
/// read whole, then put at once, and then the lines of its tiles are given. So where the stream is
/// no stream, or is cut, or the source fails, the groups before stand, and the output has their
/// lines; of the group that was not read whole nothing is put. One group at a time takes memory.
pub fn import_all<S: Source, V: Volume, K: Sink>(
    alloc: Global,
    session: &mut Session,
    vol: &mut V,
    src: &mut S,
    out: &mut K,
) -> Result<(), ImportStop>
    requires serving { ServingPuts V.told V.history session.old vol.old }
    ensures ended { Imports result session.new (V.told vol.old) (V.history vol.old)
        (V.history vol.new) (S.left src.old) (K.held out.old) (K.held out.new) }
    ensures told { Told V.told V.faults (IsCause (result ≡ Err ImportStop.Volume))
        vol.old vol.new }
    ensures output_failed { IsCause (result ≡ Err ImportStop.Output) (K.faults out.old)
        (K.faults out.new) }
    ensures source_failed { IsCause (result ≡ Err ImportStop.Source) (S.faults src.old)
        (S.faults src.new) }
{
    let mut at = 0;
    for _turn in 0..MOST_GROUPS {
        let group = match take_group(alloc, src, at) {
            Ok(group) => group,
            Err(stop) => return Err(read_stop(stop)),
        };
        match put_group(alloc, session, vol, group.tiles.as_slice(), out) {
            Ok(()) => {}
            Err(stop) => return Err(stop),
        }
        if group.tiles.len() < GROUP {
            return Ok(());
        }
        at = group.end;
    }
    Err(ImportStop::TooManyTiles)
}
