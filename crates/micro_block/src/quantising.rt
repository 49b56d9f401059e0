//! Quantised values.

ghost use Rattle.std.specs.Prelude.{◌≡◌, ℤ, pos, ◌+◌, ◌*◌, ◌/◌, ◌≤ℤ◌, ◌≤◌, ◌<◌, length, map, All};
ghost use Rattle.std.specs.Prelude.{unsigned_abs};
ghost use Rattle.lane_kernels.specs.Kernels.{IsSmall};
ghost use Rattle.raster_cells.specs.Step.{IsTwiceError};
ghost use Rattle.micro_block.specs.Near.{quantised};
ghost use Rattle.micro_block.specs.inside.Products.{rounded_steps, AreUpTo};

use crate::stepping::{round_steps, rule_for, steps_at};
use lane_kernels::{minus, range};

/// Puts for each distance the number of steps, rounded to the nearest, halves upwards: by the rule
/// by which a block's distances of 32 bits are made into numbers of steps.
fn near_each(distances: &mut [i64], reach: u32, step: u64)
    requires step { IsTwiceError step }
    requires near { AreUpTo reach distances.old }
    ensures { distances.new ≡ map (λ d. pos (rounded_steps step (unsigned_abs d))) distances.old }
{
    let rule = rule_for(step, reach);
    for i in 0..distances.len() {
        distances[i] = i64::from(steps_at(distances[i] as u32, 0, rule, step));
    }
}

/// The same of distances of any size, by a division for each.
fn far_each(distances: &mut [i64], step: u64)
    requires step { IsTwiceError step }
    requires far { AreUpTo 8589934592 distances.old }
    ensures { distances.new ≡ map (λ d. pos (rounded_steps step (unsigned_abs d))) distances.old }
{
    for i in 0..distances.len() {
        distances[i] = round_steps(distances[i] as u64, step) as i64;
    }
}

/// Puts for each distance the number of steps.
fn step_each(distances: &mut [i64], step: u64)
    requires step { IsTwiceError step }
    requires far { AreUpTo 8589934592 distances.old }
    ensures { distances.new ≡ map (λ d. pos (rounded_steps step (unsigned_abs d))) distances.old }
{
    match range(distances) {
        Some((_, reach)) if reach <= 4294967295 => near_each(distances, reach as u32, step),
        _ => far_each(distances, step),
    }
}

/// Writes the number of steps from `least` to each value, rounded to the nearest, halves upwards,
/// over `out`. No value is below `least`, all are at most 2^32 in absolute value, and the step is
/// one that a block may have.
pub fn quantise(values: &[i64], least: i64, step: u64, out: &mut [i64])
    requires lengths { length out.old ≡ length values.now }
    requires small { All IsSmall values.now }
    requires small_least { IsSmall least }
    requires order { All (λ v. least ≤ℤ v) values.now }
    requires step { IsTwiceError step }
    ensures { out.new ≡ map (λ v. pos (quantised step least v)) values.now }
{
    minus(values, least, out);
    step_each(out, step);
}
