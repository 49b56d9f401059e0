//! The form that is chosen for a block.

ghost use Rattle.std.specs.Prelude.{◌≡◌, ◌+◌, ◌*◌, ℕ, ℤ, ◌≤◌, ◌≤ℤ◌, ◌↔◌, ◌≢◌, length, map, All};
ghost use Rattle.std.specs.Prelude.{IsTrue, IfSome};
ghost use Rattle.raster_cells.specs.Distance.{IsDistance, value_above};
ghost use Rattle.raster_cells.specs.PixelType.{InRange, bytes_of};
ghost use Rattle.micro_block.specs.ChosenBlock as chosen_block;
ghost use Rattle.raster_cells.specs.Step.{IsTwiceError};
ghost use Rattle.micro_block.specs.inside.Sizes.{IsFirst, IsTabledLength};
ghost use Rattle.micro_block.specs.inside.Forms as inside;
ghost use Rattle.micro_block.specs.inside.Forms.{IsChosen, named};
ghost use Rattle.micro_block.specs.inside.Stepping.{IsSpread, values_above};

use crate::context::BlockCtx;
use crate::distances::{distances_of, value_of};
use crate::first::first_least;
use crate::sizes::{form_sizes, tabled_len};
use crate::spreading::{Spread, spread_of};
use raster_cells::PixelType;

/// The forms of a block, in the order in which they are tried.
#[derive(Clone, Copy)]
pub(crate) enum BlockForm {
    /// All values are 0, and nothing is written of them.
    Zero,
    /// All values are the offset.
    Constant,
    /// The values as they are.
    Raw,
    /// An offset, and a list in the simple form.
    Simple,
    /// An offset, and a list in the table form.
    Table,
}

impl BlockForm {
    /// Whether it is the form with a table.
    pub(crate) fn is_table(self) -> bool
        ensures { IsTrue result ↔ (named self ≡ chosen_block.table) }
    {
        match self {
            BlockForm::Table => true,
            BlockForm::Zero | BlockForm::Constant | BlockForm::Raw | BlockForm::Simple => false,
        }
    }
}

/// What is chosen for a block.
#[derive(Clone, Copy)]
pub(crate) struct Chosen {
    /// The form.
    pub(crate) form: BlockForm,
    /// How many bytes the block takes.
    pub(crate) size: usize,
    /// The least value, and 0 of none.
    pub(crate) least: i64,
}

/// The form at a place in their order.
fn form_at(place: usize) -> BlockForm
    ensures { result ≡ inside.form_at place }
{
    match place {
        0 => BlockForm::Zero,
        1 => BlockForm::Constant,
        2 => BlockForm::Raw,
        3 => BlockForm::Simple,
        _ => BlockForm::Table,
    }
}

/// The form of the fewest bytes among those that may be, the first of such, for so many values of
/// which so much is known.
pub(crate) fn fewest(count: usize, kind: PixelType, spread: Spread, tabled: Option<usize>) -> Chosen
    requires few { count ≤ 256 }
    requires least { IsDistance kind spread.least }
    requires tabled { IfSome tabled (λ n. n ≤ 2000) }
    ensures first { IsFirst kind count (value_above kind spread.least) spread.most tabled result }
    ensures least { result.least ≡ value_above kind spread.least }
{
    let least = value_of(kind, spread.least);
    let sizes = form_sizes(count, kind, least, spread.most, tabled);
    let (place, size) = first_least(&sizes).unwrap_or((2, 0));
    Chosen {
        form: form_at(place),
        size,
        least,
    }
}

/// The form that is chosen for the values, and what is known of it.
fn choose(distances: &[u32], kind: PixelType, step: u64) -> Chosen
    requires few { length distances.now ≤ 256 }
    requires in_range { All (IsDistance kind) distances.now }
    requires step { IsTwiceError step }
    ensures { (col : ℕ) → IsChosen kind col step (values_above kind distances.now) result }
{
    let spread = spread_of(distances, kind, step);
    let tabled = tabled_len(distances, kind, spread, step);
    fewest(distances.len(), kind, spread, tabled)
}

/// The form that is chosen for the values where it has no table, and what is known of it.
pub(crate) fn choose_plain(distances: &[u32], ctx: &BlockCtx, spread: Spread) -> Chosen
    requires few { length distances.now ≤ 256 }
    requires spread { IsSpread ctx.now.kind ctx.now.step distances.now spread }
    requires plain { let values = values_above ctx.now.kind distances.now in
        chosen_block.chosen_form ctx.now.kind ctx.now.col ctx.now.step values ≢ chosen_block.table }
    ensures { let values = values_above ctx.now.kind distances.now in
        IsChosen ctx.now.kind ctx.now.col ctx.now.step values result }
{
    fewest(distances.len(), ctx.kind, spread, None)
}

/// How long the chosen block of values is, and whether it has a table.
#[derive(Clone, Copy, Debug, PartialEq, Eq)]
pub struct BlockSize {
    /// How many bytes the block takes.
    pub len: usize,
    /// Whether its list is in the table form.
    pub has_table: bool,
}

/// How long the chosen block is of the values that are so far above the least value of the type,
/// and whether it has a table, which `write_distances` wants to know.
pub fn block_size(distances: &[u32], ctx: &BlockCtx) -> BlockSize
    requires few { length distances.now ≤ 256 }
    requires in_range { All (IsDistance ctx.now.kind) distances.now }
    requires capped { All (λ v. v ≤ℤ ctx.now.top) (map (value_above ctx.now.kind) distances.now) }
    ensures length { let values = map (value_above ctx.now.kind) distances.now in
        result.len ≡ length
        (chosen_block.block_bytes ctx.now.kind ctx.now.col ctx.now.step values) }
    ensures table { let values = map (value_above ctx.now.kind) distances.now in
        IsTrue result.has_table
        ↔ (chosen_block.chosen_form ctx.now.kind ctx.now.col ctx.now.step values
        ≡ chosen_block.table) }
    ensures short { result.len ≤ 1 + length distances.now * bytes_of ctx.now.kind }
{
    let chosen = choose(distances, ctx.kind, ctx.step);
    BlockSize {
        len: chosen.size,
        has_table: chosen.form.is_table(),
    }
}

/// How many bytes the chosen block of the values takes: that of the fewest bytes among the forms
/// zero, constant, raw, stuffed with a simple list and stuffed with a table, of which the first
/// where two take as many.
pub fn block_len(values: &[i64], ctx: &BlockCtx) -> usize
    requires few { length values.now ≤ 256 }
    requires in_range { All (InRange ctx.now.kind) values.now }
    requires capped { All (λ v. v ≤ℤ ctx.now.top) values.now }
    ensures length { result
        ≡ length (chosen_block.block_bytes ctx.now.kind ctx.now.col ctx.now.step values.now) }
    ensures short { result ≤ 1 + length values.now * bytes_of ctx.now.kind }
{
    let mut room = [0; 256];
    let distances = &mut room[..values.len()];
    distances_of(ctx.kind, values, distances);
    block_size(distances, ctx).len
}
