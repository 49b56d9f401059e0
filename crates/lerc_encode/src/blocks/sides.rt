//! The blocks of both sides from one walk: with each block of 16 rows and columns those of 8 in it.

ghost use Rattle.std.specs.Prelude.{◌≡◌, ℕ, ◌+◌, ◌*◌, ◌/◌, ◌%◌, ◌^◌, ◌<◌, ◌≤◌, ◌↔◌, ◌⊎◌, ◌++◌, All};
ghost use Rattle.std.specs.Prelude.{length, map, take, IfOk, IsTrue, MatchOption};
ghost use Rattle.lut_stuff.specs.Names.{KeepsNames};
ghost use Rattle.lut_stuff.specs.Facts.{Rises};
ghost use Rattle.micro_block.specs.Named.{AreNamed};
ghost use Rattle.micro_block.specs.ChosenBlock as micro;
ghost use Rattle.micro_block.specs.ChosenBlock.{block_bytes, chosen_form};
ghost use Rattle.raster_cells.specs.Distance.{IsDistance, value_above};
ghost use Rattle.raster_values.specs.Block.{block_values};
ghost use Rattle.raster_cells.specs.PixelType.{InRange};
ghost use Rattle.lerc_grammar.specs.Blocks.{blocks_across, blocks_down, coded_blocks};
ghost use Rattle.lerc_encode.specs.Images.{blocks_bytes};
ghost use Rattle.lerc_encode.specs.inside.Flags.{IsMarked, room_of};
ghost use Rattle.lerc_encode.specs.inside.Blocked.{HasTableAt, IsMeasured, IsBlockAt};
ghost use Rattle.lerc_encode.specs.inside.Blocked.{IsWithin, bytes_at};
ghost use Rattle.lerc_encode.specs.inside.Sides as inside;
ghost use Rattle.lerc_encode.specs.inside.Sides.{AreFlaggedAt, AreMore, IsFlaggedAt, IsMore};
ghost use Rattle.lerc_encode.specs.inside.Sides.{IsPartBlockAt, four_sizes, four_values, number_at};
ghost use Rattle.lerc_encode.specs.inside.Tallies.{AreGathered, IsTallied, values_in};

use crate::blocks::block_view::{BlockView, BlockWalk, BothSides};
use crate::blocks::chosen_blocks::{
    BlockAt, FIRST, MOST, Measured, across, context, count, gather, next_block, sorted_values,
};
use crate::blocks::flags::{Flags, mark_where, no_flags};
use lerc_header::Header;
use lut_stuff::Names;
use micro_block::{BlockSize, size_and_names};
use raster_access::View;
use std::alloc::{AllocError, Global};

/// What is known of the blocks of a side that were looked at: how many bytes they take, and in
/// which groups of them one has a table.
#[derive(Drop)]
pub(crate) struct Tally {
    size: usize,
    tables: Flags,
}

/// What is known of the blocks of both sides; none of a side whose blocks take too many bytes.
#[derive(Drop)]
pub(crate) struct Sides {
    /// Of those of 8 rows and columns.
    pub(crate) small: Option<Measured>,
    /// Of those of 16.
    pub(crate) large: Option<Measured>,
}

/// The most flags of a row of blocks, those of all depths together.
const MOST_FLAGS: usize = 1024;

/// A coded block: where it stands, and its number.
#[derive(Clone, Copy)]
struct CodedBlock {
    spot: BlockAt,
    k: usize,
}

/// The values of blocks, gathered one behind the other as how far each is above the least of its
/// type, and their names as far as these are known.
#[derive(Drop)]
struct Gathered {
    distances: [u32; MOST],
    found: [u8; MOST],
    /// How many values there are.
    count: usize,
    names: Names,
    /// Whether the names of all of them are known.
    known: bool,
}

/// How many blocks, one behind the other, have one flag: as few as leave a row of blocks no more
/// flags than that.
fn group_of<V: View>(blocks: &BlockView<V>) -> usize
    ensures value { result
        ≡ (blocks_across blocks.now.header.now * blocks.now.header.now.depth + 1023) / 1024 }
    ensures some { 0 < result }
    ensures few { result < 2 ^ 31 }
{
    (across(blocks) * blocks.header.depth as usize + MOST_FLAGS - 1) / MOST_FLAGS
}

/// Nothing is known yet of the blocks of a side.
fn no_tally<V: View>(alloc: Global, blocks: &BlockView<V>) -> Result<Tally, AllocError>
    ensures size { IfOk result (λ t. t.size ≡ 0) }
    ensures few { IfOk result (λ t. length t.tables.words.items
        ≤ 16 * blocks_down blocks.now.header.now) }
    ensures room { IfOk result (λ t. coded_blocks blocks.now.header.now ≤ room_of t.tables) }
    ensures none { IfOk result (λ t. (k : ℕ) → IsMarked t.tables k → ⊥) }
{
    let tables = no_flags(alloc, count(blocks), group_of(blocks))?;
    Ok(Tally { size: 0, tables })
}

/// The number of the block of 8 at a spot.
fn number_of<V: View>(blocks: &BlockView<V>, spot: BlockAt) -> usize
    requires part { IsPartBlockAt blocks.now.header.now spot }
    requires within { IsWithin blocks.now.header.now spot }
    ensures value { result ≡ number_at blocks.now.header.now spot }
    ensures within { result < coded_blocks blocks.now.header.now }
    ensures spot { IsBlockAt blocks.now.header.now result spot }
{
    let h = blocks.header;
    let across = (h.cols as usize + 7) / 8;
    let block = (spot.row / 8) as usize * across + (spot.col / 8) as usize;
    block * h.depth as usize + spot.d as usize
}

/// Adds what was found of a block, by its number.
fn add(tally: &mut Tally, k: usize, found: BlockSize)
    requires few { tally.old.size ≤ 67108865 }
    requires short { found.len ≤ 1025 }
    requires within { k < room_of tally.old.tables }
    ensures size { tally.new.size ≡ tally.old.size + found.len }
    ensures room { room_of tally.new.tables ≡ room_of tally.old.tables }
    ensures group { tally.new.tables.group ≡ tally.old.tables.group }
    ensures this { IsMarked tally.new.tables k
        ↔ (IsMarked tally.old.tables k ⊎ IsTrue found.has_table) }
    ensures others { (i : ℕ) → (i / tally.old.tables.group ≡ k / tally.old.tables.group → ⊥)
        → IsMarked tally.new.tables i ↔ IsMarked tally.old.tables i }
{
    tally.size += found.len;
    mark_where(&mut tally.tables, k, found.has_table);
}

/// Looks at a block whose values, in some order, are gathered, unless the blocks before it take too
/// many bytes. Their names are sought only where they are needed and not known.
fn tally_block<V: View>(
    walk: &BlockWalk<V>,
    block: CodedBlock,
    distances: &[u32],
    tally: &mut Tally,
    names: &mut Names,
    found: &mut [u8],
    known: &mut bool,
)
    requires spot { IsBlockAt walk.now.header.now block.k block.spot }
    requires few { length distances.now ≤ 256 }
    requires fit { All (IsDistance walk.now.header.now.kind) distances.now }
    requires values { All (InRange walk.now.header.now.kind)
        (map (value_above walk.now.header.now.kind) distances.now) }
    requires long { length (block_bytes walk.now.header.now.kind block.spot.col
        walk.now.header.now.step (map (value_above walk.now.header.now.kind) distances.now))
        ≡ length (bytes_at walk.now.header.now (V.pixels walk.now.raster.now) block.spot) }
    requires table { (chosen_form walk.now.header.now.kind block.spot.col
        walk.now.header.now.step (map (value_above walk.now.header.now.kind) distances.now)
        ≡ micro.table)
        ↔ HasTableAt walk.now.header.now (V.pixels walk.now.raster.now) block.spot }
    requires within { block.k < room_of tally.old.tables }
    requires room { length found.old ≡ length distances.now }
    requires known { IsTrue known.old → AreNamed names.old distances.now found.old }
    ensures kept { KeepsNames names.old names.new }
    ensures known { IsTrue known.new → AreNamed names.new distances.now found.new }
    ensures size { IsMore walk.now.most
        (length (bytes_at walk.now.header.now (V.pixels walk.now.raster.now) block.spot))
        tally.old.size tally.new.size }
    ensures tables { AreMore walk.now.header.now (V.pixels walk.now.raster.now)
        tally.old.tables tally.new.tables }
    ensures this { tally.new.size ≤ walk.now.most
        → HasTableAt walk.now.header.now (V.pixels walk.now.raster.now) block.spot
        → IsMarked tally.new.tables block.k }
{
    if tally.size > walk.most {
        return;
    }
    let blocks = BlockView {
        header: walk.header,
        raster: walk.raster,
    };
    let ctx = context(&blocks, block.spot.col);
    let size = size_and_names(distances, &ctx, names, found, known);
    add(tally, block.k, size);
}

/// Gathers the values of the block of 8 at a spot and looks at it, where one stands there, and
/// answers how many values these are, and whether their names are known then.
fn tally_part<V: View>(
    walk: &BlockWalk<V>,
    spot: BlockAt,
    tally: &mut Tally,
    names: &mut Names,
    distances: &mut [u32],
    found: &mut [u8],
    known: &mut bool,
) -> usize
    requires part { IsPartBlockAt walk.now.header.now spot }
    requires room { 64 ≤ length distances.old }
    requires beside { length found.old ≡ length distances.old }
    requires tables { coded_blocks walk.now.header.now ≤ room_of tally.old.tables }
    ensures kept { KeepsNames names.old names.new }
    ensures few { result ≤ 64 }
    ensures known { IsTrue known.new
        → AreNamed names.new (take result distances.new) (take result found.new) }
    ensures fit { All (IsDistance walk.now.header.now.kind) (take result distances.new) }
    ensures are { map (value_above walk.now.header.now.kind) (take result distances.new)
        ≡ block_values (V.pixels walk.now.raster.now) spot.row spot.col 8 spot.d }
    ensures size { IsMore walk.now.most
        (inside.size_at walk.now.header.now (V.pixels walk.now.raster.now) spot)
        tally.old.size tally.new.size }
    ensures tables { AreMore walk.now.header.now (V.pixels walk.now.raster.now)
        tally.old.tables tally.new.tables }
    ensures this { tally.new.size ≤ walk.now.most
        → IsFlaggedAt walk.now.header.now (V.pixels walk.now.raster.now) spot
        tally.new.tables }
{
    let h = walk.header;
    if spot.row >= h.rows || spot.col >= h.cols {
        *known = true;
        return 0;
    }
    let blocks = BlockView {
        header: walk.header,
        raster: walk.raster,
    };
    let n = gather(&blocks, spot, distances);
    let k = number_of(&blocks, spot);
    *known = false;
    tally_block(
        walk,
        CodedBlock { spot, k },
        &distances[..n],
        tally,
        names,
        &mut found[..n],
        known,
    );
    n
}

/// Does this with the values put behind those that are gathered.
fn tally_behind<V: View>(
    walk: &BlockWalk<V>,
    spot: BlockAt,
    tally: &mut Tally,
    gathered: &mut Gathered,
)
    requires part { IsPartBlockAt walk.now.header.now spot }
    requires room { gathered.old.count + 64 ≤ 256 }
    requires gathered { AreGathered walk.now.header.now.kind gathered.old }
    requires tables { coded_blocks walk.now.header.now ≤ room_of tally.old.tables }
    ensures few { gathered.new.count ≤ gathered.old.count + 64 }
    ensures gathered { AreGathered walk.now.header.now.kind gathered.new }
    ensures are { values_in walk.now.header.now.kind gathered.new
        ≡ values_in walk.now.header.now.kind gathered.old
        ++ block_values (V.pixels walk.now.raster.now) spot.row spot.col 8 spot.d }
    ensures tallied { IsTallied walk.now.header.now (V.pixels walk.now.raster.now) walk.now.most
        (inside.size_at walk.now.header.now (V.pixels walk.now.raster.now) spot)
        (IsFlaggedAt walk.now.header.now (V.pixels walk.now.raster.now) spot)
        tally.old tally.new }
{
    let at = gathered.count;
    let distances = &mut gathered.distances[..];
    let found = &mut gathered.found[..];
    let mut more = false;
    let n = tally_part(
        walk,
        spot,
        tally,
        &mut gathered.names,
        &mut distances[at..],
        &mut found[at..],
        &mut more,
    );
    let were_known = gathered.known;
    let known = were_known && more;
    gathered.known = known;
    gathered.count = at + n;
}

/// Does this of the up to four blocks of 8 in the block of 16 at a spot, row by row of blocks:
/// their values are those that are gathered then.
fn tally_parts<V: View>(
    walk: &BlockWalk<V>,
    spot: BlockAt,
    tally: &mut Tally,
    gathered: &mut Gathered,
)
    requires within { IsWithin walk.now.header.now spot }
    requires part { IsPartBlockAt walk.now.header.now spot }
    requires tables { coded_blocks walk.now.header.now ≤ room_of tally.old.tables }
    ensures few { gathered.new.count ≤ 256 }
    ensures gathered { AreGathered walk.now.header.now.kind gathered.new }
    ensures are { values_in walk.now.header.now.kind gathered.new
        ≡ four_values (V.pixels walk.now.raster.now) spot }
    ensures tallied { IsTallied walk.now.header.now (V.pixels walk.now.raster.now) walk.now.most
        (four_sizes walk.now.header.now (V.pixels walk.now.raster.now) spot)
        (AreFlaggedAt walk.now.header.now (V.pixels walk.now.raster.now) spot)
        tally.old tally.new }
{
    let right = BlockAt {
        col: spot.col + 8,
        ..spot
    };
    let below = BlockAt {
        row: spot.row + 8,
        ..spot
    };
    let corner = BlockAt {
        row: spot.row + 8,
        col: spot.col + 8,
        d: spot.d,
    };
    gathered.count = 0;
    gathered.known = true;
    tally_behind(walk, spot, tally, gathered);
    tally_behind(walk, right, tally, gathered);
    tally_behind(walk, below, tally, gathered);
    tally_behind(walk, corner, tally, gathered);
}

/// Looks at a block of 16, and before at the blocks of 8 in it.
fn tally_both<V: View>(
    sides: &BothSides<V>,
    block: CodedBlock,
    eights: &mut Tally,
    sixteens: &mut Tally,
    gathered: &mut Gathered,
)
    requires sixteen { sides.now.large.now ≡ record sides.now.small.now { side = 16 } }
    requires spot { IsBlockAt sides.now.large.now block.k block.spot }
    requires within { block.k < coded_blocks sides.now.large.now }
    requires eights { coded_blocks sides.now.small.now ≤ room_of eights.old.tables }
    requires sixteens { coded_blocks sides.now.large.now ≤ room_of sixteens.old.tables }
    ensures small { IsTallied sides.now.small.now (V.pixels sides.now.raster.now) sides.now.most
        (four_sizes sides.now.small.now (V.pixels sides.now.raster.now) block.spot)
        (AreFlaggedAt sides.now.small.now (V.pixels sides.now.raster.now) block.spot)
        eights.old eights.new }
    ensures large { IsTallied sides.now.large.now (V.pixels sides.now.raster.now) sides.now.most
        (length (bytes_at sides.now.large.now (V.pixels sides.now.raster.now) block.spot))
        (λ tables. HasTableAt sides.now.large.now (V.pixels sides.now.raster.now) block.spot
        → IsMarked tables block.k)
        sixteens.old sixteens.new }
{
    let small = BlockWalk {
        header: sides.small,
        raster: sides.raster,
        most: sides.most,
    };
    let large = BlockWalk {
        header: sides.large,
        raster: sides.raster,
        most: sides.most,
    };
    tally_parts(&small, block.spot, eights, gathered);
    let n = gathered.count;
    let found = &mut gathered.found[..];
    tally_block(
        &large,
        block,
        &gathered.distances[..n],
        sixteens,
        &mut gathered.names,
        &mut found[..n],
        &mut gathered.known,
    );
}

/// What is known of all blocks of a side, unless they take more than `most` bytes.
fn measured_of(tally: Tally, most: usize, names: &Names) -> Option<Measured>
    ensures { MatchOption result (most < tally.size)
        (λ m. (m.size ≡ tally.size) × ((tally.size ≤ most) × ((m.tables ≡ tally.tables)
        × (Rises (take m.values.count m.values.values) × (m.values.count ≤ 256))))) }
{
    if tally.size > most {
        return None;
    }
    Some(Measured {
        size: tally.size,
        tables: tally.tables,
        values: sorted_values(names),
    })
}

/// What is known of all blocks of both sides; none of a side where its blocks take too many bytes,
/// for then they are not looked at to the end.
pub(crate) fn measure_sides<V: View>(
    alloc: Global,
    sides: &BothSides<V>,
) -> Result<Sides, AllocError>
    requires sixteen { sides.now.large.now ≡ record sides.now.small.now { side = 16 } }
    ensures small { IfOk result (λ found. MatchOption found.small
        (sides.now.most < length (blocks_bytes sides.now.small.now (V.pixels sides.now.raster.now)))
        (IsMeasured sides.now.small.now (V.pixels sides.now.raster.now))) }
    ensures large { IfOk result (λ found. MatchOption found.large
        (sides.now.most < length (blocks_bytes sides.now.large.now (V.pixels sides.now.raster.now)))
        (IsMeasured sides.now.large.now (V.pixels sides.now.raster.now))) }
{
    let most = sides.most;
    let parts = BlockView {
        header: sides.small,
        raster: sides.raster,
    };
    let wholes = BlockView {
        header: sides.large,
        raster: sides.raster,
    };
    let mut eights = no_tally(alloc, &parts)?;
    let mut sixteens = no_tally(alloc, &wholes)?;
    let mut gathered = Gathered {
        distances: [0; MOST],
        found: [0; MOST],
        count: 0,
        names: Names::new(),
        known: false,
    };
    let mut spot = FIRST;
    for k in 0..count(&wholes) {
        tally_both(
            sides,
            CodedBlock { spot, k },
            &mut eights,
            &mut sixteens,
            &mut gathered,
        );
        if eights.size > most && sixteens.size > most {
            return Ok(Sides {
                small: None,
                large: None,
            });
        }
        spot = next_block(&wholes, spot);
    }
    let small = measured_of(eights, most, &gathered.names);
    let large = measured_of(sixteens, most, &gathered.names);
    Ok(Sides { small, large })
}
