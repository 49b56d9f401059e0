//! The chosen blocks of a raster: how many bytes they take, which have a table, and their bytes.

ghost use Rattle.std.specs.Prelude.{◌≡◌, ℕ, ◌+◌, ◌*◌, ◌<◌, ◌≤◌, ◌≤ℤ◌, ◌↔◌, ◌++◌, All, drop, length};
ghost use Rattle.std.specs.Prelude.{map, take, Contains, IsTrue};
ghost use Rattle.lut_stuff.specs.Facts.{Rises};
ghost use Rattle.lut_stuff.specs.Names.{named_values};
ghost use Rattle.micro_block.specs.ChosenBlock as micro;
ghost use Rattle.micro_block.specs.ChosenBlock.{chosen_form};
ghost use Rattle.raster_cells.specs.Distance.{IsDistance, value_above};
ghost use Rattle.lerc_grammar.specs.Blocks.{blocks_across, coded_blocks};
ghost use Rattle.lerc_encode.specs.Images.{blocks_bytes};
ghost use Rattle.lerc_encode.specs.inside.Blocked.{AreFlags, HasTableAt, IsContext};
ghost use Rattle.lerc_encode.specs.inside.Blocked.{IsBlockAt, IsWithin, bytes_at, values_at};

use crate::blocks::block_view::BlockView;
use crate::blocks::flags::{Flags, are_single, is_marked};
use lut_stuff::{Names, Ranks};
use micro_block::{BlockCtx, block_size, write_ranked};
use raster_access::View;

/// The most values that a block may have.
pub(crate) const MOST: usize = 256;

/// Where a coded block stands: its first row and column, and its depth.
#[derive(Clone, Copy)]
pub(crate) struct BlockAt {
    pub(crate) row: u32,
    pub(crate) col: u32,
    pub(crate) d: u32,
}

/// Where the first block stands.
pub(crate) const FIRST: BlockAt = BlockAt {
    row: 0,
    col: 0,
    d: 0,
};

/// At most 256 values in rising order.
#[derive(Clone, Copy)]
pub(crate) struct Sorted {
    values: [u32; MOST],
    count: usize,
}

impl Sorted {
    /// The values.
    pub(crate) fn as_slice(&self) -> &[u32]
        requires { self.now.count ≤ 256 }
        ensures { result.now ≡ take self.now.count self.now.values }
    {
        &self.values[..self.count]
    }
}

/// What is known of all chosen blocks before they are written.
#[derive(Drop)]
pub(crate) struct Measured {
    /// How many bytes they take together.
    pub(crate) size: usize,
    /// In which groups of them one has a table: it would take long to find that again for each.
    pub(crate) tables: Flags,
    /// The different values, as how far they are above the least of their type, in rising order,
    /// where these are few and far apart; else none.
    pub(crate) values: Sorted,
}

/// How many blocks stand side by side.
pub(crate) fn across<V: View>(blocks: &BlockView<V>) -> usize
    ensures value { result ≡ blocks_across blocks.now.header.now }
    ensures within { result ≤ blocks.now.header.now.cols }
    ensures some { 0 < result }
{
    let h = blocks.header;
    let (cols, side) = (h.cols as usize, h.side as usize);
    (cols + side - 1) / side
}

/// How many blocks are coded.
pub(crate) fn count<V: View>(blocks: &BlockView<V>) -> usize
    ensures value { result ≡ coded_blocks blocks.now.header.now }
    ensures few { result ≤ 16777216 }
{
    let h = blocks.header;
    let (rows, side) = (h.rows as usize, h.side as usize);
    (rows + side - 1) / side * across(blocks) * h.depth as usize
}

/// Where the block behind this one stands: at the next depth, else to the right, else at the left
/// end of the next row of blocks.
pub(crate) fn next_block<V: View>(blocks: &BlockView<V>, spot: BlockAt) -> BlockAt
    requires within { IsWithin blocks.now.header.now spot }
    ensures { (k : ℕ) → IsBlockAt blocks.now.header.now k spot
        → IsBlockAt blocks.now.header.now (k + 1) result }
{
    let h = blocks.header;
    let d = spot.d + 1;
    if d < h.depth {
        return BlockAt { d, ..spot };
    }
    let col = spot.col + h.side;
    if col < h.cols {
        return BlockAt {
            row: spot.row,
            col,
            d: 0,
        };
    }
    BlockAt {
        row: spot.row + h.side,
        col: 0,
        d: 0,
    }
}

/// What a block depends on besides its values. Its bytes do not depend on the top.
pub(crate) fn context<V: View>(blocks: &BlockView<V>, col: u32) -> BlockCtx
    ensures { IsContext blocks.now.header.now col result }
{
    let h = blocks.header;
    BlockCtx {
        kind: h.kind,
        col,
        step: h.step,
        top: h.kind.greatest(),
    }
}

/// Puts the values of the block at a spot in front of `distances`, as how far each is above the
/// least of its type, and answers how many these are.
pub(crate) fn gather<V: View>(blocks: &BlockView<V>, spot: BlockAt, distances: &mut [u32]) -> usize
    requires within { IsWithin blocks.now.header.now spot }
    requires room { blocks.now.header.now.side * blocks.now.header.now.side ≤ length distances.old }
    ensures few { result ≤ blocks.now.header.now.side * blocks.now.header.now.side }
    ensures fit { All (IsDistance blocks.now.header.now.kind) (take result distances.new) }
    ensures are { map (value_above blocks.now.header.now.kind) (take result distances.new)
        ≡ values_at blocks.now.header.now (V.pixels blocks.now.raster.now) spot }
{
    let side = blocks.header.side;
    blocks
        .raster
        .gather_distances(spot.row, spot.col, side, spot.d, distances)
}

/// What is known of a block's table before its values are looked at.
#[derive(Clone, Copy)]
struct TableFlag {
    /// Whether the flag of its group is set: a block of that has a table.
    is_set: bool,
    /// Whether its group has no other block.
    is_alone: bool,
}

/// Whether a block of values has a table. Where the flag of its group is set that is found again,
/// unless the group has no other block.
fn has_table(flag: TableFlag, distances: &[u32], ctx: &BlockCtx) -> bool
    requires few { length distances.now ≤ 256 }
    requires in_range { All (IsDistance ctx.now.kind) distances.now }
    requires capped { All (λ v. v ≤ℤ ctx.now.top) (map (value_above ctx.now.kind) distances.now) }
    requires flag { let values = map (value_above ctx.now.kind) distances.now in
        (chosen_form ctx.now.kind ctx.now.col ctx.now.step values ≡ micro.table)
        → IsTrue flag.is_set }
    requires alone { let values = map (value_above ctx.now.kind) distances.now in
        IsTrue flag.is_alone → IsTrue flag.is_set
        → chosen_form ctx.now.kind ctx.now.col ctx.now.step values ≡ micro.table }
    ensures { let values = map (value_above ctx.now.kind) distances.now in
        IsTrue result ↔ (chosen_form ctx.now.kind ctx.now.col ctx.now.step values ≡ micro.table) }
{
    flag.is_set && (flag.is_alone || block_size(distances, ctx).has_table)
}

/// Writes the block at a spot over the front of `out`, and answers how many bytes it takes.
fn write_at<V: View>(
    blocks: &BlockView<V>,
    spot: BlockAt,
    flag: TableFlag,
    ranks: &mut Ranks,
    distances: &mut [u32],
    out: &mut [u8],
) -> usize
    requires within { IsWithin blocks.now.header.now spot }
    requires room { length distances.old ≡ 256 }
    requires flag { HasTableAt blocks.now.header.now (V.pixels blocks.now.raster.now) spot
        → IsTrue flag.is_set }
    requires alone { IsTrue flag.is_alone → IsTrue flag.is_set
        → HasTableAt blocks.now.header.now (V.pixels blocks.now.raster.now) spot }
    requires fits { length (bytes_at blocks.now.header.now (V.pixels blocks.now.raster.now) spot)
        ≤ length out.old }
    ensures count { result
        ≡ length (bytes_at blocks.now.header.now (V.pixels blocks.now.raster.now) spot) }
    ensures bytes { out.new ≡ bytes_at blocks.now.header.now (V.pixels blocks.now.raster.now) spot
        ++ drop (length (bytes_at blocks.now.header.now (V.pixels blocks.now.raster.now) spot))
        out.old }
{
    let n = gather(blocks, spot, distances);
    let ctx = context(blocks, spot.col);
    let has_table = has_table(flag, &distances[..n], &ctx);
    write_ranked(&distances[..n], &ctx, has_table, ranks, out)
}

/// The values that have a name, in rising order, and none where there were too many.
pub(crate) fn sorted_values(names: &Names) -> Sorted
    ensures rises { Rises (take result.count result.values) }
    ensures few { result.count ≤ 256 }
    ensures none { IsTrue names.now.spent → result.count ≡ 0 }
    ensures members { ¬ IsTrue names.now.spent → (v : ℕ)
        → Contains (take result.count result.values) v ↔ Contains (named_values names.now) v }
{
    let mut values = [0; MOST];
    if names.is_spent() {
        return Sorted { values, count: 0 };
    }
    let count = names.count();
    names.sort_into(&mut values[..count]);
    Sorted { values, count }
}

/// Writes all blocks into `out`, which has as many bytes as they take. The lists of tables of these
/// values are found by their ranks.
pub(crate) fn write_blocks<V: View>(
    blocks: &BlockView<V>,
    tables: &Flags,
    values: &[u32],
    out: &mut [u8],
)
    requires tables { AreFlags blocks.now.header.now (V.pixels blocks.now.raster.now)
        (coded_blocks blocks.now.header.now) tables.now }
    requires rises { Rises values.now }
    requires few { length values.now ≤ 256 }
    requires room { length out.old
        ≡ length (blocks_bytes blocks.now.header.now (V.pixels blocks.now.raster.now)) }
    ensures { out.new ≡ blocks_bytes blocks.now.header.now (V.pixels blocks.now.raster.now) }
{
    let is_alone = are_single(tables);
    let mut ranks = Ranks::new(values);
    let mut distances = [0; MOST];
    let mut spot = FIRST;
    let mut at = 0;
    for k in 0..count(blocks) {
        let is_set = is_marked(tables, k);
        let flag = TableFlag { is_set, is_alone };
        at += write_at(
            blocks,
            spot,
            flag,
            &mut ranks,
            &mut distances,
            &mut out[at..],
        );
        spot = next_block(blocks, spot);
    }
}
