//! A bundle is built in the place of an empty one, under an open journal.

ghost use Rattle.std.specs.Prelude.{◌≡◌, ◌<◌, [], length, IsTrue, IsErrOf, IfErr, OnOk};
ghost use Rattle.outside_io.specs.declared.volume.VolFile.TheVariants.{Bundle};
ghost use Rattle.outside_io.specs.streams.Faults.{CountsFaults};
ghost use Rattle.outside_io.specs.volume.History.{During, contents, current};
ghost use Rattle.bundle_store.specs.inside.Parts.{IsAtRest, IsBegun, IsIdle};
ghost use Rattle.bundle_store.specs.inside.Table.{HasRoom, NumbersTiles, table_map};
ghost use Rattle.bundle_store.specs.Build.{EachFits};
ghost use Rattle.bundle_store.specs.Causes.{CountsDevice, OnRefusal, UnlessDevice};
ghost use Rattle.bundle_store.specs.Session.{BuildFails, KeepsLength};
ghost use Rattle.bundle_store.specs.Images.{EachImage, EmptyOr, HoldsClosed};
ghost use Rattle.bundle_store.specs.Kept.{Keeps};
ghost use Rattle.bundle_store.specs.Layout.{layout};
ghost use Rattle.bundle_store.specs.Tiles.{Opens, no_tiles};
ghost use Rattle.bundle_store.specs.Told.{Changes};

pub(crate) mod laying;
pub(crate) mod size;

use crate::front::Front;
use crate::{StoreFault, TileRec};
use laying::write_layout;
use outside_io::{Failed, VolFile, Volume};
use side_journal::{Body, arm, close_gate, open_gate, prepare};

/// Opens the journal of a bundle that is being built, beside an empty bundle.
fn begin<V: Volume>(vol: &mut V) -> Result<(), Failed>
    requires empty { IsTrue (V.told vol.old) → contents Bundle (V.history vol.old) ≡ [] }
    requires idle { IsTrue (V.told vol.old) → IsIdle (current (V.history vol.old)) }
    ensures bundle { IsTrue (V.told vol.old) → (current (V.history vol.new)).bundle
        ≡ (current (V.history vol.old)).bundle }
    ensures journal { IsTrue (V.told vol.old) →
        OnOk result (IsBegun (current (V.history vol.new))) }
    ensures changes { Changes V.told V.history V.faults (CountsFaults result)
        (λ _. EachImage (λ map. map ≡ no_tiles)) vol.old vol.new }
{
    prepare(vol)?;
    arm(vol, &Body::Build)?;
    open_gate(vol)
}

/// Builds a bundle of the tiles that the table numbers in the place of an empty one, of which
/// `front` then has the header and the index.
pub(crate) fn build_empty<V: Volume>(
    vol: &mut V,
    tiles: &[TileRec],
    table: &[Option<usize>],
    buffer: &mut [u8],
    front: &mut Front,
) -> Result<(), Failed>
    requires buffer { HasRoom tiles.now (length buffer.old) }
    requires table { NumbersTiles tiles.now table.now }
    requires empty { IsTrue (V.told vol.old) → contents Bundle (V.history vol.old) ≡ [] }
    requires idle { IsTrue (V.told vol.old) → IsIdle (current (V.history vol.old)) }
    ensures done { IsTrue (V.told vol.old) →
        OnOk result (HoldsClosed (layout (table_map tiles.now table.now))
        (current (V.history vol.new))) }
    ensures keeps { OnOk result (Keeps front.new (layout (table_map tiles.now table.now))) }
    ensures changes { Changes V.told V.history V.faults (CountsFaults result)
        (λ _. EachImage (EmptyOr (table_map tiles.now table.now))) vol.old vol.new }
{
    begin(vol)?;
    write_layout(vol, tiles, table, buffer, front)?;
    close_gate(vol)
}

/// Builds the bundle, if the file is empty; `front` then has its header and its index.
pub(crate) fn build_on<V: Volume>(
    vol: &mut V,
    tiles: &[TileRec],
    table: &[Option<usize>],
    buffer: &mut [u8],
    front: &mut Front,
) -> Result<(), StoreFault>
    requires buffer { HasRoom tiles.now (length buffer.old) }
    requires table { NumbersTiles tiles.now table.now }
    requires fits { EachFits tiles.now }
    requires rest { IsTrue (V.told vol.old) → IsAtRest front.old (current (V.history vol.old)) }
    ensures done { IsTrue (V.told vol.old) →
        OnOk result (HoldsClosed (layout (table_map tiles.now table.now))
        (current (V.history vol.new))) }
    ensures answers { IfErr result (λ f. BuildFails tiles.now f) }
    ensures empty { IsTrue (V.told vol.old) → OnOk result (contents Bundle (V.history vol.old)
        ≡ []) }
    ensures not_empty { IsTrue (V.told vol.old) →
        IfErr result (λ f. KeepsLength (length (contents Bundle (V.history vol.old))) f) }
    ensures kept { IsTrue (V.told vol.old) → OnRefusal result
        (During (λ d. d ≡ current (V.history vol.old)) (V.history vol.old) (V.history vol.new)) }
    ensures beside { IsTrue (V.told vol.old) → 0 < length (contents Bundle (V.history vol.old)) →
        During (λ d. d ≡ current (V.history vol.old)) (V.history vol.old) (V.history vol.new) }
    ensures rest { IsTrue (V.told vol.old) → UnlessDevice result
        (IsAtRest front.new (current (V.history vol.new))) }
    ensures running { ¬ IsErrOf result StoreFault.Stopped }
    ensures ample { ¬ IsErrOf result StoreFault.OutOfMemory }
    ensures changes { Changes V.told V.history V.faults (CountsDevice result)
        (λ old d. old.bundle.now ≡ []
        → EachImage (EmptyOr (table_map tiles.now table.now)) d) vol.old vol.new }
{
    let len = vol.len(VolFile::Bundle)?;
    if len != 0 {
        return Err(StoreFault::NotEmpty { len });
    }
    build_empty(vol, tiles, table, buffer, front)?;
    Ok(())
}
