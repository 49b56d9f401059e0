//! Numbers of steps told apart by their remainders modulo 64.

ghost use Rattle.std.specs.Prelude.{◌≡◌, ℕ, ◌<◌, ◌≤◌, length, map, IfSome, IsNone};
ghost use Rattle.lut_stuff.specs.Tables.{distinct_above_0};
ghost use Rattle.micro_block.specs.inside.Remainders.{AreAdded};
ghost use Rattle.micro_block.specs.inside.Stepping.{AreStepped, steps_above};

use crate::stepping::{Rule, steps_at};

/// How many numbers are looked at before it is asked whether they show enough.
const PIECE: usize = 16;

/// A set of remainders, one bit each, with those of more numbers of steps.
fn with_remainders(bits: u64, distances: &[u32], least: u32, rule: Rule, step: u64) -> u64
    requires { AreStepped step least rule distances.now }
    ensures { AreAdded bits (map (steps_above step least) distances.now) result }
{
    let mut with = bits;
    for distance in distances {
        with |= 1u64 << (steps_at(*distance, least, rule, step) % 64);
    }
    with
}

/// The set of the remainders of numbers of steps and of 0, one bit each. None where remainders show
/// that more different numbers above 0 than the bound are among them.
pub(crate) fn remainders_within(
    distances: &[u32],
    least: u32,
    rule: Rule,
    step: u64,
    bound: usize,
) -> Option<u64>
    requires few { length distances.now ≤ 256 }
    requires stepped { AreStepped step least rule distances.now }
    requires bound { bound ≤ 256 }
    ensures more { IsNone result
        → bound < distinct_above_0 (map (steps_above step least) distances.now) }
    ensures set { IfSome result (AreAdded 1 (map (steps_above step least) distances.now)) }
{
    let count = distances.len();
    let mut bits = 1;
    for i in 0..(count + PIECE - 1) / PIECE {
        let from = PIECE * i;
        let upto = (from + PIECE).min(count);
        bits = with_remainders(bits, &distances[from..upto], least, rule, step);
        if bits.count_ones() as usize > bound + 1 {
            return None;
        }
    }
    Some(bits)
}
