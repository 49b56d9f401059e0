//! How many tiles of each verdict there are, and how many bytes and pixels.

ghost use Rattle.std.specs.Prelude.{◌≡◌, ◌+◌, ◌<◌, ◌≤◌, ◌++◌, ◌∷◌, [], List, false, length};
ghost use Rattle.tile_audit.specs.Audit.{damaged_count, is_damaged, is_foreign, is_summed, is_unread, is_whole};
ghost use Rattle.tile_audit.specs.Gave.{AreTotals};
ghost use Rattle.tile_audit.specs.Lines.{pixels_in};
ghost use Rattle.tile_audit.specs.declared.told.AuditedTile.{AuditedTile};

use crate::judged::Judged;
use crate::told::{AuditedTile, Finding};
use crate::totals::Totals;

/// Whether the tile is whole, and its entry is good.
pub(crate) fn finds_whole(finding: &Finding) -> bool
    ensures { result ≡ is_whole finding.now }
{
    matches!(
        finding,
        Finding::Read {
            judged: Judged::Whole(_),
            bad_record: false,
            ..
        }
    )
}

/// The same of one of floating-point numbers.
pub(crate) fn finds_summed(finding: &Finding) -> bool
    ensures { result ≡ is_summed finding.now }
{
    matches!(
        finding,
        Finding::Read {
            judged: Judged::Summed,
            bad_record: false,
            ..
        }
    )
}

/// The same of one of another format.
fn finds_foreign(finding: &Finding) -> bool
    ensures { result ≡ is_foreign finding.now }
{
    matches!(
        finding,
        Finding::Read {
            judged: Judged::Foreign,
            bad_record: false,
            ..
        }
    )
}

/// The same of one of another version.
fn finds_unread(finding: &Finding) -> bool
    ensures { result ≡ is_unread finding.now }
{
    matches!(
        finding,
        Finding::Read {
            judged: Judged::Unread,
            bad_record: false,
            ..
        }
    )
}

/// Whether it is none of these.
fn finds_damage(finding: &Finding) -> bool
    ensures { result ≡ is_damaged false finding.now }
{
    match finding {
        Finding::Failed => true,
        Finding::Beyond { .. } => true,
        Finding::Read {
            judged,
            bad_record,
            ..
        } => *bad_record || matches!(judged, Judged::Damaged(_)),
    }
}

/// How many pixels its bands have, where it is whole.
fn count_pixels(finding: &Finding) -> u64
    ensures value { result ≡ pixels_in finding.now }
    ensures few { result ≤ 16777216 }
{
    match finding {
        Finding::Read {
            judged: Judged::Whole(shape),
            bad_record: false,
            ..
        } => u64::from(shape.rows) * u64::from(shape.cols) * u64::from(shape.bands),
        _ => 0,
    }
}

/// How many bytes its entry says that it has.
fn size_of(tile: &AuditedTile) -> u64
    ensures value { result ≡ tile.now.entry.size }
    ensures few { result ≤ 4294967295 }
{
    u64::from(tile.entry.size)
}

impl Totals {
    /// Those of no tile.
    pub(crate) fn none() -> Totals
        ensures { AreTotals [] result }
    {
        Totals {
            tiles: 0,
            bytes: 0,
            whole: 0,
            summed: 0,
            foreign: 0,
            unread: 0,
            damaged: 0,
            pixels: 0,
        }
    }

    /// Those with one tile more.
    fn with_tile(&self, tile: &AuditedTile) -> Totals
        requires { self.now.tiles < 16384 }
        ensures tiles { result.tiles ≡ self.now.tiles + 1 }
        ensures totals { (before : List AuditedTile) → AreTotals before self.now →
            AreTotals (before ++ tile.now ∷ []) result }
    {
        let finding = &tile.finding;
        Totals {
            tiles: self.tiles + 1,
            bytes: self.bytes + size_of(tile),
            whole: self.whole + finds_whole(finding) as u32,
            summed: self.summed + finds_summed(finding) as u32,
            foreign: self.foreign + finds_foreign(finding) as u32,
            unread: self.unread + finds_unread(finding) as u32,
            damaged: self.damaged + finds_damage(finding) as u32,
            pixels: self.pixels + count_pixels(finding),
        }
    }

    /// Those with some tiles more.
    pub(crate) fn with_tiles(&self, tiles: &[AuditedTile]) -> Totals
        requires { self.now.tiles + length tiles.now ≤ 16384 }
        ensures { (before : List AuditedTile) → AreTotals before self.now →
            AreTotals (before ++ tiles.now) result }
    {
        let mut totals = *self;
        for tile in tiles {
            totals = totals.with_tile(tile);
        }
        totals
    }

    /// How many tiles are damaged: where that is strict, those of another format and of another
    /// version, too.
    pub fn damage(&self, strict: bool) -> u32
        ensures value { (tiles : List AuditedTile) → AreTotals tiles self.now →
            result ≡ damaged_count strict tiles }
        ensures few { result ≤ self.now.tiles }
    {
        if strict {
            self.damaged + self.foreign + self.unread
        } else {
            self.damaged
        }
    }
}
