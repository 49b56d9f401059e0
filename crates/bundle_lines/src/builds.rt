//! A bundle is built, with the line of what it holds.

ghost use Rattle.std.specs.Prelude.{◌≡◌, ◌↔◌, ◌+◌, ◌<◌, ◌≤◌, ◌++◌, true, [], length, replicate, IsTrue, IsErrOf, Err};
ghost use Rattle.outside_io.specs.declared.volume.VolFile.TheVariants.{Bundle};
ghost use Rattle.outside_io.specs.streams.Faults.{IsCause};
ghost use Rattle.outside_io.specs.volume.History.{During, contents, current};
ghost use Rattle.bundle_store.specs.Build.{EachFits};
ghost use Rattle.bundle_store.specs.Session.{IsReadyToPut};
ghost use Rattle.bundle_store.specs.Tiles.{IsReadable, tiles};
ghost use Rattle.bundle_lines.specs.Builds.{BuildGave, BuildKeeps, BuildMarks, BuildReads, KeepsSomeLength, OnBuildAnswer, OnNoBuild};
ghost use Rattle.bundle_lines.specs.inside.Raising.{Raises, build_stop_of};
ghost use Rattle.bundle_store.specs.Told.{Told};
ghost use Rattle.bundle_store.specs.Serving.{ServingPuts};

use crate::lines::give_built;
use crate::stop::BuildStop;
use bundle_store::{Session, StoreFault, TileRec, built_size};
use outside_io::{Marks, Sink, Volume};
use std::alloc::Global;

/// Why a build ends where the store refuses it.
fn build_stop(fault: StoreFault) -> BuildStop
    ensures { result ≡ build_stop_of fault }
{
    match fault {
        StoreFault::NotEmpty { len } => BuildStop::NotEmpty { len },
        StoreFault::OutOfMemory => BuildStop::OutOfMemory,
        _ => BuildStop::Volume,
    }
}

/// Builds the bundle.
fn raise<V: Volume>(
    session: &mut Session,
    vol: &mut V,
    updates: &[TileRec],
) -> Result<(), BuildStop>
    requires serving { ServingPuts V.told V.history session.old vol.old }
    requires fit { EachFits updates.now }
    ensures raises { Raises result updates.now (V.told vol.old) (V.history vol.old)
        (V.history vol.new) }
    ensures images { IsTrue (V.told vol.old) → IsReadable (contents Bundle (V.history vol.old)) →
        BuildKeeps (tiles (contents Bundle (V.history vol.old))) updates.now []
        (V.history vol.old) (V.history vol.new) }
    ensures kept { IsTrue (V.told vol.old) → OnNoBuild result
        (During (λ d. d ≡ current (V.history vol.old)) (V.history vol.old) (V.history vol.new)) }
    ensures ready { IsTrue (V.told vol.old) → OnBuildAnswer result
        (IsReadyToPut session.new (current (V.history vol.new))) }
    ensures stops { session.new.stopped ≡ true ↔ IsErrOf result BuildStop.Volume }
    ensures later { IsTrue (V.told vol.old) →
        (V.history vol.old).moment ≤ (V.history vol.new).moment }
    ensures told { Told V.told V.faults (IsCause (result ≡ Err BuildStop.Volume)) vol.old vol.new }
{
    match session.build(vol, updates) {
        Ok(()) => Ok(()),
        Err(fault) => Err(build_stop(fault)),
    }
}

/// Adds the same mark so many times.
pub(crate) fn add_marks(marks: &mut Marks, count: usize, mark: u64)
    requires room { count ≤ marks.old.spare }
    ensures marks { marks.new.marks ≡ marks.old.marks ++ replicate count mark }
    ensures spare { marks.old.spare ≤ marks.new.spare + count }
{
    for _turn in 0..count {
        marks.add(mark);
    }
}

/// Builds the bundle of each slot's last tile in the place of an empty one. Once it stands, each
/// update gets a mark, the volume's moment then, and the line of the bundle is given. Memory is
/// taken before the volume is changed, and then no more.
pub fn build_all<V: Volume, K: Sink>(
    alloc: Global,
    session: &mut Session,
    vol: &mut V,
    out: &mut K,
    marks: &mut Marks,
    updates: &[TileRec],
) -> Result<(), BuildStop>
    requires serving { ServingPuts V.told V.history session.old vol.old }
    requires fit { EachFits updates.now }
    requires none { marks.old.marks ≡ [] }
    requires room { length updates.now ≤ marks.old.spare }
    ensures gave { BuildGave result updates.now (out.new ≡ out.old) (K.held out.old)
        (K.held out.new) }
    ensures marks { BuildMarks result updates.now marks.new.marks (V.history vol.new).moment }
    ensures reads { IsTrue (V.told vol.old) → BuildReads result updates.now
        (contents Bundle (V.history vol.old)) (contents Bundle (V.history vol.new)) }
    ensures not_empty { KeepsSomeLength result }
    ensures images { IsTrue (V.told vol.old) → IsReadable (contents Bundle (V.history vol.old)) →
        BuildKeeps (tiles (contents Bundle (V.history vol.old))) updates.now marks.new.marks
        (V.history vol.old) (V.history vol.new) }
    ensures kept { IsTrue (V.told vol.old) → OnNoBuild result
        (During (λ d. d ≡ current (V.history vol.old)) (V.history vol.old) (V.history vol.new)) }
    ensures ready { IsTrue (V.told vol.old) → OnBuildAnswer result
        (IsReadyToPut session.new (current (V.history vol.new))) }
    ensures stops { session.new.stopped ≡ true ↔ IsErrOf result BuildStop.Volume }
    ensures later { IsTrue (V.told vol.old) →
        (V.history vol.old).moment ≤ (V.history vol.new).moment }
    ensures told { Told V.told V.faults (IsCause (result ≡ Err BuildStop.Volume)) vol.old vol.new }
    ensures output_failed { IsCause (result ≡ Err BuildStop.Output) (K.faults out.old)
        (K.faults out.new) }
{
    let size = match built_size(alloc, updates) {
        Ok(size) => size,
        Err(_) => return Err(BuildStop::OutOfMemory),
    };
    match raise(session, vol, updates) {
        Ok(()) => {}
        Err(stop) => return Err(stop),
    }
    add_marks(marks, updates.len(), vol.moment());
    match give_built(size.tiles.into(), size.len, out) {
        Ok(()) => Ok(()),
        Err(_) => Err(BuildStop::Output),
    }
}
