//! What a block's least and greatest value tell of it.

ghost use Rattle.std.specs.Prelude.{◌≡◌, ◌<◌, ◌≤◌, ℕ, [], length, All};
ghost use Rattle.raster_cells.specs.Distance.{IsDistance};
ghost use Rattle.raster_cells.specs.Step.{IsTwiceError};
ghost use Rattle.micro_block.specs.inside.Stepping.{IsSpread};

use crate::distances::ends;
use crate::stepping::{Rule, rule_for, steps_at};
use raster_cells::PixelType;

/// What is known of a block without a further look at its values.
#[derive(Clone, Copy)]
pub(crate) struct Spread {
    /// The least distance, and that of 0 where there is none.
    pub(crate) least: u32,
    /// How many steps the greatest is from it.
    pub(crate) most: u32,
    /// How the numbers of steps are found.
    pub(crate) rule: Rule,
}

/// What is known of no values.
fn no_spread(kind: PixelType) -> Spread
    ensures { (step : ℕ) → 0 < step → step ≤ 8589934592 → IsSpread kind step [] result }
{
    Spread {
        least: (-kind.least()) as u32,
        most: 0,
        rule: Rule::Divide,
    }
}

/// What is known of some values.
fn some_spread(distances: &[u32], kind: PixelType, step: u64) -> Spread
    requires some { 0 < length distances.now }
    requires in_range { All (IsDistance kind) distances.now }
    requires step { IsTwiceError step }
    ensures { IsSpread kind step distances.now result }
{
    let (least, greatest) = ends(distances);
    let rule = rule_for(step, greatest - least);
    let most = steps_at(greatest, least, rule, step);
    Spread { least, most, rule }
}

/// What the least and the greatest value tell.
pub(crate) fn spread_of(distances: &[u32], kind: PixelType, step: u64) -> Spread
    requires in_range { All (IsDistance kind) distances.now }
    requires step { IsTwiceError step }
    ensures { IsSpread kind step distances.now result }
{
    if distances.is_empty() {
        no_spread(kind)
    } else {
        some_spread(distances, kind, step)
    }
}
