//! The four tiles of a coarse tile, read, decoded and laid.

ghost use Rattle.std.specs.Prelude.{◌≡◌, ◌⊎◌, ℕ, ◌+◌, ◌<◌, ◌/◌, ◌%◌, Err, IfErr, IfOk, IfSome, IsTrue, List, OnOk, Some, true, false, get_or};
ghost use Rattle.outside_io.specs.declared.volume.VolFile.TheVariants.{Bundle};
ghost use Rattle.outside_io.specs.volume.History.{contents};
ghost use Rattle.bundle_store.specs.Ahead.{IsAheadOf};
ghost use Rattle.bundle_store.specs.Tiles.{tiles};
ghost use Rattle.outside_io.specs.streams.Faults.{IsCause};
ghost use Rattle.overview_tiles.specs.Sums.{AreSums, IsTileOf, Kept};
ghost use Rattle.overview_tiles.specs.Tiles.{Tiles, no_tiles, with_tile};
ghost use Rattle.overview_updates.specs.inside.Fours.{IsFour, IsReadAt, IsReadable, LayFails, QuarterFits, QuarterSays, StopsAt};
ghost use Rattle.overview_updates.specs.inside.SoFar.{IsToldAtOnce};
ghost use Rattle.overview_updates.specs.inside.Reads.{CanRead, IsAhead};
ghost use Rattle.overview_updates.specs.inside.Laid.{HasTiles, IsFirstLaid, IsFreeBehind};
ghost use Rattle.overview_updates.specs.Overview.{IsQuarter, LiesWhole, place_of, quarter_slot};
ghost use Rattle.overview_updates.specs.Refusals.{QuarterStops};
ghost use Rattle.bundle_store.specs.Told.{OnlyReads};
ghost use Rattle.bundle_store.specs.Serving.{Serving};

use crate::reading::Reading;
use crate::stop::OverviewStop;
use bundle_index::{Entry, Slot};
use bundle_store::{Ahead, Session, StoreFault};
use lerc_decode::{BandsStop, decode_bands};
use outside_io::{Bytes, Volume};
use overview_tiles::Mosaic;
use raster_values::Bands;
use std::alloc::Global;

/// How many coarse places a row has.
pub(crate) const ROW_PLACES: u16 = 64;

/// What was read of one of the four tiles of a coarse place.
#[derive(Drop)]
pub(crate) enum Quarter {
    /// There is none.
    Nothing,
    /// Its bytes.
    Tile(Bytes),
    /// Its entry names bytes beyond the bundle's end, of which `got` are there.
    Beyond { entry: Entry, got: u64 },
}

/// What was read of the four tiles of the coarse place of a number.
#[derive(Drop)]
pub(crate) struct Four {
    pub(crate) place: u16,
    pub(crate) quarters: [Quarter; 4],
}

/// Reads the tile in a slot.
fn read_quarter<V: Volume>(
    session: &Session,
    vol: &mut V,
    ahead: &mut Ahead,
    slot: Slot,
) -> Result<Quarter, OverviewStop>
    requires serving { Serving V.told V.history session.now vol.old }
    requires ahead { IsAhead V.told V.history ahead.old vol.old }
    ensures ahead { IsTrue (V.told vol.old) → IsAheadOf (contents Bundle (V.history vol.old))
        ahead.new }
    ensures quarter { IsTrue (V.told vol.old) → IfOk result
        (λ quarter. QuarterSays (contents Bundle (V.history vol.old)) slot quarter) }
    ensures fits { IfOk result (λ quarter. QuarterFits quarter) }
    ensures at_once { IfErr result (λ stop. IsToldAtOnce stop) }
    ensures reads { OnlyReads V.told V.history V.faults
        (IsCause (result ≡ Err OverviewStop.Volume)) vol.old vol.new }
{
    match session.get_ahead(vol, slot, ahead) {
        Ok(bytes) => Ok(Quarter::Tile(bytes)),
        Err(StoreFault::NoTile) => Ok(Quarter::Nothing),
        Err(StoreFault::OutOfMemory) => Err(OverviewStop::OutOfMemory),
        Err(StoreFault::Beyond { entry, got }) => Ok(Quarter::Beyond { entry, got }),
        Err(_) => Err(OverviewStop::Volume),
    }
}

/// The bands of the tile in the slot, of which this was read, or None where there is none.
fn decode_quarter(
    alloc: Global,
    slot: Slot,
    quarter: &Quarter,
) -> Result<Option<Bands>, OverviewStop>
    requires { QuarterFits quarter.now }
    ensures quarter { (bundle : List ℕ) → QuarterSays bundle slot quarter.now
        → IfOk result (λ tile. IsQuarter (tiles bundle slot) tile) }
    ensures whole { (bundle : List ℕ) → QuarterSays bundle slot quarter.now
        → OnOk result (LiesWhole bundle slot) }
    ensures refused { (bundle : List ℕ) → QuarterSays bundle slot quarter.now
        → IfErr result (λ stop. QuarterStops bundle slot stop) }
    ensures answers { IfErr result (λ stop. LayFails stop) }
{
    let bytes = match quarter {
        Quarter::Nothing => return Ok(None),
        Quarter::Tile(bytes) => bytes,
        Quarter::Beyond { entry, got } => {
            return Err(OverviewStop::Beyond {
                slot,
                entry: *entry,
                got: *got,
            });
        }
    };
    match decode_bands(alloc, bytes.as_slice()) {
        Ok(bands) => Ok(Some(bands)),
        Err(BandsStop::OutOfMemory) => Err(OverviewStop::OutOfMemory),
        Err(BandsStop::Fault(fault)) => Err(OverviewStop::BadTile { slot, fault }),
    }
}

/// The slot of a quarter of the coarse tile of a place.
pub(crate) fn slot_of(place: u16, quarter: u8) -> Slot
    requires place { place < 4096 }
    requires quarter { quarter < 4 }
    ensures { result ≡ quarter_slot (place_of place).0 (place_of place).1 quarter }
{
    let row = (place / ROW_PLACES) as u8;
    let col = (place % ROW_PLACES) as u8;
    match Slot::of(2 * row + quarter / 2, 2 * col + quarter % 2) {
        Some(slot) => slot,
        None => unreachable!(),
    }
}

/// A mosaic of this tile alone.
fn first_mosaic(alloc: Global, quarter: u8, tile: &Bands) -> Result<Mosaic, OverviewStop>
    requires { quarter < 4 }
    ensures laid { IfOk result (λ m. AreSums m (with_tile quarter tile.now no_tiles)) }
    ensures later { IfOk result (λ m. IsFreeBehind quarter m) }
    ensures stops { IfErr result (λ stop. stop ≡ OverviewStop.OutOfMemory) }
{
    match Mosaic::new(alloc, tile) {
        Ok(mut mosaic) => {
            mosaic.lay(quarter, tile);
            Ok(mosaic)
        }
        Err(_) => Err(OverviewStop::OutOfMemory),
    }
}

/// Lays a tile into the mosaic of those before it, which the first tile makes.
fn lay_quarter(
    alloc: Global,
    mosaic: Option<Mosaic>,
    quarter: u8,
    slot: Slot,
    tile: &Bands,
) -> Result<Mosaic, OverviewStop>
    requires quarter { quarter < 4 }
    requires free { IfSome mosaic (λ m. get_or m.laid quarter true ≡ false) }
    requires later { IfSome mosaic (λ m. IsFreeBehind quarter m) }
    ensures later { IfOk result (λ next. IsFreeBehind quarter next) }
    ensures laid { (tiles : Tiles) → HasTiles mosaic tiles
        → IfOk result (λ m. AreSums m (with_tile quarter tile.now tiles)) }
    ensures unlike { IfErr result (λ stop. (stop ≡ OverviewStop.OutOfMemory)
        ⊎ ((m : Kept) × ((mosaic ≡ Some m) × ((¬ IsTileOf m tile.now)
        × (stop ≡ OverviewStop.Unlike slot))))) }
{
    let mut mosaic = match mosaic {
        Some(mosaic) => mosaic,
        None => return first_mosaic(alloc, quarter, tile),
    };
    if !mosaic.takes(tile) {
        return Err(OverviewStop::Unlike { slot });
    }
    mosaic.lay(quarter, tile);
    Ok(mosaic)
}

/// Reads the four tiles of a coarse place.
pub(crate) fn read_four<V: Volume>(
    reading: &mut Reading<'_>,
    vol: &mut V,
    place: u16,
) -> Result<Four, OverviewStop>
    requires place { place < 4096 }
    requires reading { CanRead V.told V.history reading.old vol.old }
    ensures reading { OnOk result (CanRead V.told V.history reading.new vol.new) }
    ensures four { IsTrue (V.told vol.old) → IfOk result
        (λ four. IsFour (contents Bundle (V.history vol.old)) four) }
    ensures place { IfOk result (λ four. four.place ≡ place) }
    ensures readable { IfOk result (λ four. IsReadable four) }
    ensures at_once { IfErr result (λ stop. IsToldAtOnce stop) }
    ensures reads { OnlyReads V.told V.history V.faults
        (IsCause (result ≡ Err OverviewStop.Volume)) vol.old vol.new }
{
    let session = reading.session;
    let first = match read_quarter(session, vol, &mut reading.upper, slot_of(place, 0)) {
        Ok(first) => first,
        Err(stop) => return Err(stop),
    };
    let second = match read_quarter(session, vol, &mut reading.upper, slot_of(place, 1)) {
        Ok(second) => second,
        Err(stop) => return Err(stop),
    };
    let third = match read_quarter(session, vol, &mut reading.lower, slot_of(place, 2)) {
        Ok(third) => third,
        Err(stop) => return Err(stop),
    };
    let last = match read_quarter(session, vol, &mut reading.lower, slot_of(place, 3)) {
        Ok(last) => last,
        Err(stop) => return Err(stop),
    };
    Ok(Four {
        place,
        quarters: [first, second, third, last],
    })
}

/// Decodes the next one of the four tiles of a coarse tile, and lays it where there is one.
fn add_quarter(
    alloc: Global,
    four: &Four,
    quarter: u8,
    mosaic: Option<Mosaic>,
) -> Result<Option<Mosaic>, OverviewStop>
    requires readable { IsReadable four.now }
    requires quarter { quarter < 4 }
    requires free { IfSome mosaic (λ m. get_or m.laid quarter true ≡ false) }
    requires later { IfSome mosaic (λ m. IsFreeBehind quarter m) }
    ensures read { (bundle : List ℕ) → IsFour bundle four.now
        → IsReadAt bundle four.now.place quarter mosaic
        → IfOk result (λ next. IsReadAt bundle four.now.place (quarter + 1) next) }
    ensures refused { (bundle : List ℕ) → IsFour bundle four.now
        → IsReadAt bundle four.now.place quarter mosaic
        → IfErr result (λ stop. StopsAt bundle four.now.place stop) }
    ensures later { IfOk result (λ next. IfSome next (λ m. IsFreeBehind quarter m)) }
    ensures answers { IfErr result (λ stop. LayFails stop) }
{
    let slot = slot_of(four.place, quarter);
    let tile = match decode_quarter(alloc, slot, &four.quarters[quarter as usize]) {
        Ok(Some(tile)) => tile,
        Ok(None) => return Ok(mosaic),
        Err(stop) => return Err(stop),
    };
    match lay_quarter(alloc, mosaic, quarter, slot, &tile) {
        Ok(next) => Ok(Some(next)),
        Err(stop) => Err(stop),
    }
}

/// Decodes the tiles of a coarse place, one by one, and lays those that are there; or says why the
/// first one is refused.
pub(crate) fn lay_four(alloc: Global, four: &Four) -> Result<Option<Mosaic>, OverviewStop>
    requires { IsReadable four.now }
    ensures read { (bundle : List ℕ) → IsFour bundle four.now
        → IfOk result (λ mosaic. IsReadAt bundle four.now.place 4 mosaic) }
    ensures refused { (bundle : List ℕ) → IsFour bundle four.now
        → IfErr result (λ stop. StopsAt bundle four.now.place stop) }
    ensures answers { IfErr result (λ stop. LayFails stop) }
{
    let first = match add_quarter(alloc, four, 0, None) {
        Ok(first) => first,
        Err(stop) => return Err(stop),
    };
    let second = match add_quarter(alloc, four, 1, first) {
        Ok(second) => second,
        Err(stop) => return Err(stop),
    };
    let third = match add_quarter(alloc, four, 2, second) {
        Ok(third) => third,
        Err(stop) => return Err(stop),
    };
    add_quarter(alloc, four, 3, third)
}

/// The first of the four quarters into which a tile was laid. Where none of the first three was, it
/// is the last.
pub(crate) fn first_laid(mosaic: &Mosaic) -> u8
    ensures few { result < 4 }
    ensures first { IsFirstLaid mosaic.now result }
{
    if mosaic.has(0) {
        return 0;
    }
    if mosaic.has(1) {
        return 1;
    }
    if mosaic.has(2) {
        return 2;
    }
    3
}
