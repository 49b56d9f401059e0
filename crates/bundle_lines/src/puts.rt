//! Tiles are put in groups, with a line for each.

ghost use Rattle.std.specs.Prelude.{◌≡◌, ◌+◌, ◌<◌, ◌≤◌, [], length, IsTrue, OnOk, OnErr, Err};
ghost use Rattle.outside_io.specs.declared.volume.VolFile.TheVariants.{Bundle};
ghost use Rattle.outside_io.specs.streams.Faults.{CountsFaults, IsCause};
ghost use Rattle.outside_io.specs.streams.Sink.{Holds, HoldsPrefix};
ghost use Rattle.outside_io.specs.volume.History.{During, contents};
ghost use Rattle.bundle_store.specs.Build.{EachFits};
ghost use Rattle.bundle_store.specs.GroupPuts.{AllOrNone};
ghost use Rattle.bundle_store.specs.Images.{EachImage};
ghost use Rattle.bundle_store.specs.Tiles.{IsReadable, tiles};
ghost use Rattle.bundle_lines.specs.Lines.{put_lines};
ghost use Rattle.bundle_lines.specs.Puts.{PutsEnd};
ghost use Rattle.bundle_lines.specs.inside.Turns.{Commits, IsFitting, IsNext, Turns, end_of, stop_of};
ghost use Rattle.bundle_store.specs.Told.{OnlyReads, Told};
ghost use Rattle.bundle_store.specs.Serving.{Serving, ServingPuts};
ghost use Rattle.bundle_store.specs.Fitting.{HasRoomFirst};

use crate::builds::add_marks;
use crate::lines::give_put;
use crate::stop::PutStop;
use bundle_index::INDEX_END;
use bundle_store::{Session, StoreFault, TileRec, count_fitting};
use outside_io::{Failed, Marks, Sink, Volume};

/// The greatest number of tiles that are put at once.
const MOST: usize = 64;

/// Where the first record behind a bundle of `len` bytes stands.
fn first_place(len: u64) -> u64
    ensures { result ≡ end_of len }
{
    if len == 0 { INDEX_END } else { len }
}

/// How many of the first tiles there is room for behind a bundle of `len` bytes, of 64 at most.
fn first_fitting(len: u64, updates: &[TileRec]) -> usize
    requires fit { EachFits updates.now }
    ensures { IsFitting len updates.now result }
{
    let most = updates.len().min(MOST);
    count_fitting(first_place(len), updates, most)
}

/// How many of the first tiles are put at once: as many as there is room for, of 64 at most.
fn next_group<V: Volume>(
    session: &Session,
    vol: &mut V,
    updates: &[TileRec],
) -> Result<usize, PutStop>
    requires serving { Serving V.told V.history session.now vol.old }
    requires some { 0 < length updates.now }
    requires fit { EachFits updates.now }
    ensures next { IsNext result updates.now (V.told vol.old)
        (length (contents Bundle (V.history vol.old))) }
    ensures reads { OnlyReads V.told V.history V.faults (IsCause (result ≡ Err PutStop.Volume))
        vol.old vol.new }
{
    let len = match session.length(vol) {
        Ok(len) => len,
        Err(_) => return Err(PutStop::Volume),
    };
    let count = first_fitting(len, updates);
    if count == 0 {
        return Err(PutStop::Full { len });
    }
    Ok(count)
}

/// Why puts end where the store refuses a group.
fn put_stop(fault: StoreFault) -> PutStop
    ensures { result ≡ stop_of fault }
{
    match fault {
        StoreFault::Full { len } => PutStop::Full { len },
        _ => PutStop::Volume,
    }
}

/// Puts a group of tiles at once.
fn commit<V: Volume>(session: &mut Session, vol: &mut V, group: &[TileRec]) -> Result<(), PutStop>
    requires serving { ServingPuts V.told V.history session.old vol.old }
    requires some { 0 < length group.now }
    requires most { length group.now ≤ 64 }
    requires fit { EachFits group.now }
    requires first { IsTrue (V.told vol.old) →
        HasRoomFirst (end_of (length (contents Bundle (V.history vol.old)))) group.now
        (length group.now) }
    ensures commits { Commits result group.now session.new (V.told vol.old) (V.history vol.old)
        (V.history vol.new) }
    ensures images { IsTrue (V.told vol.old) →
        During (λ d. IsReadable (contents Bundle (V.history vol.old)) →
        EachImage (AllOrNone group.now (tiles (contents Bundle (V.history vol.old)))) d)
        (V.history vol.old) (V.history vol.new) }
    ensures told { Told V.told V.faults (IsCause (result ≡ Err PutStop.Volume)) vol.old vol.new }
{
    match session.put_group(vol, group) {
        Ok(()) => Ok(()),
        Err(fault) => Err(put_stop(fault)),
    }
}

/// Gives the lines of tiles that were put, in their order. It takes no memory.
fn give_puts<K: Sink>(group: &[TileRec], out: &mut K) -> Result<(), Failed>
    ensures ok { OnOk result (Holds (K.held out.old) (K.held out.new) (put_lines group.now)) }
    ensures err { OnErr result (HoldsPrefix (K.held out.old) (K.held out.new)
        (put_lines group.now)) }
    ensures counted { CountsFaults result (K.faults out.old) (K.faults out.new) }
{
    for update in group {
        match give_put(update.slot, update.bytes.len(), out) {
            Ok(()) => {}
            Err(failed) => return Err(failed),
        }
    }
    Ok(())
}

/// Puts a group of tiles at once, keeps a mark of each, and then gives their lines.
fn put_some<V: Volume, K: Sink>(
    session: &mut Session,
    vol: &mut V,
    out: &mut K,
    marks: &mut Marks,
    group: &[TileRec],
) -> Result<(), PutStop>
    requires serving { ServingPuts V.told V.history session.old vol.old }
    requires some { 0 < length group.now }
    requires most { length group.now ≤ 64 }
    requires fit { EachFits group.now }
    requires first { IsTrue (V.told vol.old) →
        HasRoomFirst (end_of (length (contents Bundle (V.history vol.old)))) group.now
        (length group.now) }
    requires room { length group.now ≤ marks.old.spare }
    ensures turn { Turns result group.now session.new marks.old.marks marks.new.marks
        (V.told vol.old) (V.history vol.old) (V.history vol.new) (K.held out.old) (K.held out.new) }
    ensures images { IsTrue (V.told vol.old) →
        During (λ d. IsReadable (contents Bundle (V.history vol.old)) →
        EachImage (AllOrNone group.now (tiles (contents Bundle (V.history vol.old)))) d)
        (V.history vol.old) (V.history vol.new) }
    ensures spare { marks.old.spare ≤ marks.new.spare + length group.now }
    ensures told { Told V.told V.faults (IsCause (result ≡ Err PutStop.Volume)) vol.old vol.new }
    ensures output_failed { IsCause (result ≡ Err PutStop.Output) (K.faults out.old)
        (K.faults out.new) }
{
    match commit(session, vol, group) {
        Ok(()) => {}
        Err(stop) => return Err(stop),
    }
    add_marks(marks, group.len(), vol.moment());
    match give_puts(group, out) {
        Ok(()) => Ok(()),
        Err(_) => Err(PutStop::Output),
    }
}

/// Puts the updates in their order, in groups of up to 64. A group ends before the first tile for
/// which there is no room. Each update of a group gets the same mark, the volume's moment right
/// after the group's commit, and then their lines are given. It ends at the first group that the
/// volume refuses, or whose lines the output does, and before the first tile without room, and
/// takes no memory.
pub fn put_all<V: Volume, K: Sink>(
    session: &mut Session,
    vol: &mut V,
    out: &mut K,
    marks: &mut Marks,
    updates: &[TileRec],
) -> Result<(), PutStop>
    requires serving { ServingPuts V.told V.history session.old vol.old }
    requires fit { EachFits updates.now }
    requires none { marks.old.marks ≡ [] }
    requires room { length updates.now ≤ marks.old.spare }
    ensures ended { PutsEnd result updates.now marks.new.marks session.new (V.told vol.old)
        (V.history vol.old) (V.history vol.new) (K.held out.old) (K.held out.new) }
    ensures told { Told V.told V.faults (IsCause (result ≡ Err PutStop.Volume)) vol.old vol.new }
    ensures output_failed { IsCause (result ≡ Err PutStop.Output) (K.faults out.old)
        (K.faults out.new) }
{
    let mut done = 0;
    while done < updates.len() {
        let rest = &updates[done..];
        let count = match next_group(session, vol, rest) {
            Ok(count) => count,
            Err(stop) => return Err(stop),
        };
        match put_some(session, vol, out, marks, &rest[..count]) {
            Ok(()) => {}
            Err(stop) => return Err(stop),
        }
        done += count;
    }
    Ok(())
}
