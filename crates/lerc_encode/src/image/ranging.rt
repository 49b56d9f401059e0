//! The least and the greatest value of a raster and of each of its depths.

ghost use Rattle.std.specs.Prelude.{◌≡◌, ◌<◌, ◌&&◌, ℕ, pos, get_or, length};
ghost use Rattle.std.specs.Int.{int_max, int_min};
ghost use Rattle.std.specs.Ordering.{int_eq};
ghost use Rattle.micro_block.specs.ChosenBlock.{least_value};
ghost use Rattle.lerc_encode.specs.Ranges.{depth_values, greatest_value};
ghost use Rattle.lerc_encode.specs.inside.Choosing.{AreRanges};

use raster_access::View;

/// The least and the greatest of values.
#[derive(Clone, Copy)]
pub(crate) struct Range {
    pub(crate) least: i64,
    pub(crate) greatest: i64,
}

/// The range of the values of two.
fn join(a: Range, b: Range) -> Range
    ensures least { result.least ≡ int_min a.least b.least }
    ensures greatest { result.greatest ≡ int_max a.greatest b.greatest }
{
    Range {
        least: a.least.min(b.least),
        greatest: a.greatest.max(b.greatest),
    }
}

/// Whether a range is that of one value.
fn is_single(range: Range) -> bool
    ensures { result ≡ int_eq range.least range.greatest }
{
    range.least == range.greatest
}

/// The range of the values at a depth, which is from 0 to 0 where no pixel is valid.
fn range_of<V: View>(raster: &V, d: u32) -> Range
    requires { d < (V.pixels raster.now).depth }
    ensures least { result.least ≡ least_value (depth_values (V.pixels raster.now) d) }
    ensures greatest { result.greatest ≡ greatest_value (depth_values (V.pixels raster.now) d) }
{
    match raster.range(d) {
        Some((least, greatest)) => Range { least, greatest },
        None => Range {
            least: 0,
            greatest: 0,
        },
    }
}

/// Of how many depths the ranges are kept: those of later ones are found again where they are
/// wanted, so that they take no memory.
const KEPT: usize = 16;

/// What is known of the ranges of the depths.
#[derive(Clone, Copy)]
pub(crate) struct Ranges {
    /// The range of all values.
    pub(crate) whole: Range,
    /// Whether each depth has one value.
    pub(crate) equal: bool,
    /// The least and the greatest value of each of the first depths.
    pub(crate) leasts: [i64; KEPT],
    pub(crate) greatests: [i64; KEPT],
}

/// What is known of one depth.
fn known_of(found: Range) -> Ranges
    ensures least { result.whole.least ≡ found.least }
    ensures greatest { result.whole.greatest ≡ found.greatest }
    ensures equal { result.equal ≡ int_eq found.least found.greatest }
    ensures kept_least { get_or result.leasts 0 (pos 0) ≡ found.least }
    ensures kept_greatest { get_or result.greatests 0 (pos 0) ≡ found.greatest }
{
    Ranges {
        whole: found,
        equal: is_single(found),
        leasts: [found.least; KEPT],
        greatests: [found.greatest; KEPT],
    }
}

/// Keeps the value of depth number `d` if that is one of the first, and leaves all others.
fn keep(values: &mut [i64], d: usize, value: i64)
    ensures room { length values.new ≡ length values.old }
    ensures this { d < length values.old → get_or values.new d (pos 0) ≡ value }
    ensures others { (k : ℕ) → (k ≡ d → ⊥)
        → get_or values.new k (pos 0) ≡ get_or values.old k (pos 0) }
{
    if d < values.len() {
        values[d] = value;
    }
}

/// Adds the range of depth number `d`.
fn add(ranges: &mut Ranges, d: u32, found: Range)
    ensures least { ranges.new.whole.least ≡ int_min ranges.old.whole.least found.least }
    ensures greatest { ranges.new.whole.greatest
        ≡ int_max ranges.old.whole.greatest found.greatest }
    ensures equal { ranges.new.equal ≡ (ranges.old.equal && int_eq found.least found.greatest) }
    ensures kept_least { d < 16 → get_or ranges.new.leasts d (pos 0) ≡ found.least }
    ensures kept_greatest { d < 16 → get_or ranges.new.greatests d (pos 0) ≡ found.greatest }
    ensures other_leasts { (k : ℕ) → (k ≡ d → ⊥)
        → get_or ranges.new.leasts k (pos 0) ≡ get_or ranges.old.leasts k (pos 0) }
    ensures other_greatests { (k : ℕ) → (k ≡ d → ⊥)
        → get_or ranges.new.greatests k (pos 0) ≡ get_or ranges.old.greatests k (pos 0) }
{
    let single = is_single(found);
    ranges.whole = join(ranges.whole, found);
    ranges.equal = ranges.equal && single;
    keep(&mut ranges.leasts, d as usize, found.least);
    keep(&mut ranges.greatests, d as usize, found.greatest);
}

/// What is known of the ranges of a raster's depths, each of which is looked at once.
pub(crate) fn ranges_of<V: View>(raster: &V) -> Ranges
    ensures { AreRanges (V.pixels raster.now) result }
{
    let depth = raster.depth();
    let mut ranges = known_of(range_of(raster, 0));
    for d in 1..depth {
        add(&mut ranges, d, range_of(raster, d));
    }
    ranges
}

/// The range of the values at a depth: the one that is kept, and found again at a later depth.
pub(crate) fn range_at<V: View>(ranges: &Ranges, raster: &V, d: u32) -> Range
    requires ranges { AreRanges (V.pixels raster.now) ranges.now }
    requires depth { d < (V.pixels raster.now).depth }
    ensures least { result.least ≡ least_value (depth_values (V.pixels raster.now) d) }
    ensures greatest { result.greatest ≡ greatest_value (depth_values (V.pixels raster.now) d) }
{
    let place = d as usize;
    if place < KEPT {
        Range {
            least: ranges.leasts[place],
            greatest: ranges.greatests[place],
        }
    } else {
        range_of(raster, d)
    }
}
