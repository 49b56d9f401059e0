//! How long a block is in each form.

ghost use Rattle.std.specs.Prelude.{◌≡◌, ℕ, ◌+◌, ◌≤◌, ◌<◌, ◌^◌, ◌⊎◌, length, map, true, All};
ghost use Rattle.std.specs.Prelude.{IfSome, None};
ghost use Rattle.bit_stuff.specs.Head.{head_size};
ghost use Rattle.bit_stuff.specs.Simple.{binary_digits, width_of};
ghost use Rattle.bit_stuff.specs.Stuffed.{stuffed_size};
ghost use Rattle.lut_stuff.specs.Tables.{distinct_above_0, table_size};
ghost use Rattle.micro_block.specs.ChosenBlock as chosen_block;
ghost use Rattle.micro_block.specs.Fewest.{allowed};
ghost use Rattle.micro_block.specs.inside.Sizes.{closed_sizes, IsTabledLength};
ghost use Rattle.micro_block.specs.inside.Stepping.{AreListable, IsSpread, steps_above};
ghost use Rattle.micro_block.specs.inside.Stepping.{values_above};

use crate::remainders::remainders_within;
use crate::shorter::{has_more, most_entries};
use crate::spreading::Spread;
use crate::stepping::{Rule, steps_each};
use bit_stuff::{digit_count, head_len, stuffed_len};
use lut_stuff::{known_len, table_len};
use raster_cells::PixelType;

fn holds(kind: PixelType, value: i64) -> bool
    ensures { result ≡ chosen_block.holds kind value }
{
    kind.least() <= value && value <= kind.greatest()
}

/// The narrowest type in which the offset may stand, behind its code.
pub(crate) fn narrowest_type(kind: PixelType, value: i64) -> (u8, PixelType)
    ensures named { result ≡ chosen_block.narrowest kind value }
    ensures code { result.0 < 4 }
{
    match kind {
        PixelType::I8 | PixelType::U8 => (0, kind),
        PixelType::I16 => {
            if holds(PixelType::I8, value) {
                (2, PixelType::I8)
            } else if holds(PixelType::U8, value) {
                (1, PixelType::U8)
            } else {
                (0, kind)
            }
        }
        PixelType::U16 => {
            if holds(PixelType::U8, value) {
                (1, PixelType::U8)
            } else {
                (0, kind)
            }
        }
        PixelType::I32 => {
            if holds(PixelType::U8, value) {
                (3, PixelType::U8)
            } else if holds(PixelType::I16, value) {
                (2, PixelType::I16)
            } else if holds(PixelType::U16, value) {
                (1, PixelType::U16)
            } else {
                (0, kind)
            }
        }
        PixelType::U32 => {
            if holds(PixelType::U8, value) {
                (2, PixelType::U8)
            } else if holds(PixelType::U16, value) {
                (1, PixelType::U16)
            } else {
                (0, kind)
            }
        }
    }
}

fn some_where(test: bool, size: usize) -> Option<usize>
    ensures { result ≡ allowed test size }
{
    if test { Some(size) } else { None }
}

/// How many bytes the simple list of `count` numbers takes, the greatest of which is `most`.
fn list_size(count: usize, most: u32) -> usize
    requires count { count ≤ 256 }
    requires most { most < 2 ^ 30 }
    ensures value { result ≡ head_size count + stuffed_size count (binary_digits most) }
    ensures few { result ≤ 2000 }
{
    head_len(count as u32) + stuffed_len(count, digit_count(most))
}

/// How many bytes the block of `count` values takes in each form, the least of which is `least` and
/// the greatest of which has `most` steps: None where the form may not be.
#[inline(always)]
pub(crate) fn form_sizes(
    count: usize,
    kind: PixelType,
    least: i64,
    most: u32,
    tabled: Option<usize>,
) -> [Option<usize>; 5]
    requires few { count ≤ 256 }
    requires tabled { IfSome tabled (λ n. n ≤ 2000) }
    ensures { result ≡ closed_sizes kind count least most tabled }
{
    let flat = most == 0;
    let offset = narrowest_type(kind, least).1.bytes();
    let stuffable = !flat && most < 1 << 30;
    let simple = if stuffable {
        Some(1 + offset + list_size(count, most))
    } else {
        None
    };
    [
        some_where(flat && least == 0, 1),
        some_where(flat && count > 0, 1 + offset),
        Some(1 + count * kind.bytes()),
        simple,
        tabled.map(|n| 1 + offset + n),
    ]
}

/// How many bytes the numbers of steps take in the table form, with room for them.
fn table_within(
    distances: &[u32],
    least: u32,
    rule: Rule,
    step: u64,
    qs: &mut [u32],
) -> Option<usize>
    requires lengths { length qs.old ≡ length distances.now }
    requires listable { AreListable step least rule distances.now }
    ensures value { result ≡ table_size (map (steps_above step least) distances.now) }
    ensures short { IfSome result (λ n. n ≤ 2000) }
{
    steps_each(distances, least, rule, step, qs);
    table_len(qs)
}

/// The same, with room that it makes.
fn table_of(distances: &[u32], least: u32, rule: Rule, step: u64) -> Option<usize>
    requires listable { AreListable step least rule distances.now }
    ensures value { result ≡ table_size (map (steps_above step least) distances.now) }
    ensures short { IfSome result (λ n. n ≤ 2000) }
{
    let count = distances.len();
    if count <= 64 {
        let mut qs = [0; 64];
        table_within(distances, least, rule, step, &mut qs[..count])
    } else {
        let mut qs = [0; 256];
        table_within(distances, least, rule, step, &mut qs[..count])
    }
}

/// Whether more different numbers of steps above 0 than the bound are found, told apart by their
/// remainders modulo `N`, with room for the numbers.
fn has_more_with<const N: usize>(
    distances: &[u32],
    least: u32,
    rule: Rule,
    step: u64,
    bound: usize,
    qs: &mut [u32],
) -> bool
    requires lengths { length qs.old ≡ length distances.now }
    requires places { 0 < N }
    requires listable { AreListable step least rule distances.now }
    requires bound { bound ≤ 256 }
    ensures { result ≡ true →
        bound < distinct_above_0 (map (steps_above step least) distances.now) }
{
    steps_each(distances, least, rule, step, qs);
    has_more::<N>(qs, bound)
}

/// The same of the first `M` alone, with room that it makes.
fn marked_front_has_more<const M: usize, const N: usize>(
    distances: &[u32],
    least: u32,
    rule: Rule,
    step: u64,
    bound: usize,
) -> bool
    requires front { M ≤ 256 }
    requires places { 0 < N }
    requires listable { AreListable step least rule distances.now }
    requires bound { bound ≤ 256 }
    ensures { result ≡ true →
        bound < distinct_above_0 (map (steps_above step least) distances.now) }
{
    let count = distances.len().min(M);
    let mut qs = [0; M];
    has_more_with::<N>(
        &distances[..count],
        least,
        rule,
        step,
        bound,
        &mut qs[..count],
    )
}

/// Whether more different numbers of steps above 0 than the bound are found: among as few as may
/// show it, so that most lists are not quantised to their end.
fn has_more_steps(distances: &[u32], least: u32, rule: Rule, step: u64, bound: usize) -> bool
    requires listable { AreListable step least rule distances.now }
    requires bound { bound ≤ 256 }
    ensures { result ≡ true →
        bound < distinct_above_0 (map (steps_above step least) distances.now) }
{
    if bound <= 42 {
        return remainders_within(distances, least, rule, step, bound).is_none();
    }
    if bound <= 85 && marked_front_has_more::<128, 256>(distances, least, rule, step, bound) {
        return true;
    }
    distances.len() > 64 && marked_front_has_more::<256, 1024>(distances, least, rule, step, bound)
}

/// How many bytes the list takes in the table form, where all numbers of steps are below 64 and the
/// greatest has `width` binary digits. None where more different ones above 0 than the bound are
/// found.
fn small_table(
    distances: &[u32],
    least: u32,
    rule: Rule,
    step: u64,
    width: u32,
    bound: usize,
) -> Option<usize>
    requires listable { AreListable step least rule distances.now }
    requires small { All (λ d. steps_above step least d < 64) distances.now }
    requires width { width ≡ width_of (map (steps_above step least) distances.now) }
    requires bound { bound ≤ 256 }
    ensures value { let qs = map (steps_above step least) distances.now in
        (result ≡ table_size qs) ⊎ ((result ≡ None) × (bound < distinct_above_0 qs)) }
    ensures short { IfSome result (λ n. n ≤ 2000) }
{
    let bits = remainders_within(distances, least, rule, step, bound)?;
    known_len(distances.len(), width, bits.count_ones() as usize - 1)
}

/// How many bytes the list takes in the table form, where it may stand and is shorter than in the
/// simple form. Where it is not, it may be that None is answered.
pub(crate) fn tabled_len(
    distances: &[u32],
    kind: PixelType,
    spread: Spread,
    step: u64,
) -> Option<usize>
    requires count { length distances.now ≤ 256 }
    requires spread { IsSpread kind step distances.now spread }
    ensures value { IsTabledLength step (values_above kind distances.now) result }
    ensures short { IfSome result (λ n. n ≤ 2000) }
{
    let (least, most, rule) = (spread.least, spread.most, spread.rule);
    if most == 0 || most >= 1 << 30 {
        return None;
    }
    let width = digit_count(most);
    let bound = most_entries(distances.len(), width);
    if bound == 0 {
        return None;
    }
    if most < 64 {
        return small_table(distances, least, rule, step, width, bound);
    }
    if has_more_steps(distances, least, rule, step, bound) {
        return None;
    }
    table_of(distances, least, rule, step)
}
