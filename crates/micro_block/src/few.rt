//! Blocks at step 1 of values of which few are different and that are far apart: these are counted
//! by names, and listed by ranks.

ghost use Rattle.std.specs.Prelude.{◌≡◌, ◌+◌, ◌*◌, ◌≤◌, ◌≤ℤ◌, ◌↔◌, ◌++◌, All, IfSome, IsTrue, Some};
ghost use Rattle.std.specs.Prelude.{drop, length, map, suc};
ghost use Rattle.bit_stuff.specs.Simple.{greatest_number};
ghost use Rattle.lut_stuff.specs.Names.{KeepsNames};
ghost use Rattle.lut_stuff.specs.Tables.{distinct_above_0, table_bytes, table_size};
ghost use Rattle.raster_cells.specs.Distance.{IsDistance, value_above};
ghost use Rattle.raster_cells.specs.PixelType.{bytes_of};
ghost use Rattle.micro_block.specs.ChosenBlock as chosen_block;
ghost use Rattle.micro_block.specs.ChosenBlock.{block_bytes, written_form_bytes};
ghost use Rattle.micro_block.specs.Named.{AreNamed, HasNameRoom};
ghost use Rattle.micro_block.specs.inside.Sizes.{IsTabledLength};
ghost use Rattle.micro_block.specs.inside.Stepping.{AreListable, IsSpread, steps_above};
ghost use Rattle.micro_block.specs.inside.Stepping.{values_above};

use crate::choosing::{BlockSize, fewest};
use crate::context::BlockCtx;
use crate::distances::value_of;
use crate::sizes::tabled_len;
use crate::spreading::{Spread, spread_of};
use crate::writing::{write_distances, write_offset, write_table_list};
use bit_stuff::digit_count;
use lut_stuff::{NameSet, Names, Ranks, known_len};
use raster_cells::PixelType;

/// Values that are no further apart are counted by a mark for each number.
const NEAR: u32 = 1024;

/// How many different names there are.
fn different_of(names: &[u8]) -> usize
    ensures { result ≡ distinct_above_0 (map suc names.now) }
{
    let mut set = NameSet::new();
    set.add_all(names);
    set.count()
}

/// Finds the names of values, unless they are known, and tells whether there are enough.
fn find_names(distances: &[u32], names: &mut Names, found: &mut [u8], known: bool) -> bool
    requires found { HasNameRoom names.old distances.now found.old known }
    ensures kept { KeepsNames names.old names.new }
    ensures known { IsTrue result → AreNamed names.new distances.now found.new }
{
    known || names.name_all(distances, found)
}

/// How many different values there are, each of which gets a name. None where no name is left for
/// one.
fn count_named(
    distances: &[u32],
    names: &mut Names,
    found: &mut [u8],
    known: &mut bool,
) -> Option<usize>
    requires found { HasNameRoom names.old distances.now found.old known.old }
    ensures kept { KeepsNames names.old names.new }
    ensures known { IsTrue known.new → AreNamed names.new distances.now found.new }
    ensures count { IfSome result (λ n. n ≡ distinct_above_0 (map suc distances.now)) }
{
    *known = find_names(distances, names, found, *known);
    if *known {
        Some(different_of(found))
    } else {
        None
    }
}

/// The answer of `tabled_len`. Where the step is 1 and the values are far apart they are counted by
/// their names, as long as there are names.
fn named_len(
    distances: &[u32],
    kind: PixelType,
    spread: Spread,
    step: u64,
    names: &mut Names,
    found: &mut [u8],
    known: &mut bool,
) -> Option<usize>
    requires count { length distances.now ≤ 256 }
    requires spread { IsSpread kind step distances.now spread }
    requires in_range { All (IsDistance kind) distances.now }
    requires found { HasNameRoom names.old distances.now found.old known.old }
    ensures kept { KeepsNames names.old names.new }
    ensures known { IsTrue known.new → AreNamed names.new distances.now found.new }
    ensures value { IsTabledLength step (values_above kind distances.now) result }
    ensures short { IfSome result (λ n. n ≤ 2000) }
{
    if step == 1 && spread.most >= NEAR && spread.most < 1 << 30 {
        if let Some(different) = count_named(distances, names, found, known) {
            return known_len(distances.len(), digit_count(spread.most), different - 1);
        }
    }
    tabled_len(distances, kind, spread, step)
}

/// The answer of `named_size`, which leaves the values' names in `found` where it needed them:
/// `known` tells whether they stand there. Where they stood there before, none is sought again.
pub fn size_and_names(
    distances: &[u32],
    ctx: &BlockCtx,
    names: &mut Names,
    found: &mut [u8],
    known: &mut bool,
) -> BlockSize
    requires few { length distances.now ≤ 256 }
    requires in_range { All (IsDistance ctx.now.kind) distances.now }
    requires capped { All (λ v. v ≤ℤ ctx.now.top) (map (value_above ctx.now.kind) distances.now) }
    requires room { length found.old ≡ length distances.now }
    requires known { IsTrue known.old → AreNamed names.old distances.now found.old }
    ensures kept { KeepsNames names.old names.new }
    ensures known { IsTrue known.new → AreNamed names.new distances.now found.new }
    ensures length { let values = map (value_above ctx.now.kind) distances.now in
        result.len ≡ length
        (chosen_block.block_bytes ctx.now.kind ctx.now.col ctx.now.step values) }
    ensures table { let values = map (value_above ctx.now.kind) distances.now in
        IsTrue result.has_table
        ↔ (chosen_block.chosen_form ctx.now.kind ctx.now.col ctx.now.step values
        ≡ chosen_block.table) }
    ensures short { result.len ≤ 1 + length distances.now * bytes_of ctx.now.kind }
{
    let spread = spread_of(distances, ctx.kind, ctx.step);
    let tabled = named_len(distances, ctx.kind, spread, ctx.step, names, found, known);
    let chosen = fewest(distances.len(), ctx.kind, spread, tabled);
    BlockSize {
        len: chosen.size,
        has_table: chosen.form.is_table(),
    }
}

/// The answer of `block_size`. Where the step is 1, values far apart of which few are different,
/// here and in the blocks before, are counted by their names.
pub fn named_size(distances: &[u32], ctx: &BlockCtx, names: &mut Names) -> BlockSize
    requires few { length distances.now ≤ 256 }
    requires in_range { All (IsDistance ctx.now.kind) distances.now }
    requires capped { All (λ v. v ≤ℤ ctx.now.top) (map (value_above ctx.now.kind) distances.now) }
    ensures length { let values = map (value_above ctx.now.kind) distances.now in
        result.len ≡ length
        (chosen_block.block_bytes ctx.now.kind ctx.now.col ctx.now.step values) }
    ensures table { let values = map (value_above ctx.now.kind) distances.now in
        IsTrue result.has_table
        ↔ (chosen_block.chosen_form ctx.now.kind ctx.now.col ctx.now.step values
        ≡ chosen_block.table) }
    ensures short { result.len ≤ 1 + length distances.now * bytes_of ctx.now.kind }
{
    let mut found = [0; 256];
    let mut known = false;
    size_and_names(
        distances,
        ctx,
        names,
        &mut found[..distances.len()],
        &mut known,
    )
}

/// Writes the list of the distances above the least in the table form over the front of `out`, by
/// their ranks where each has one; how many bytes it takes.
fn write_ranked_list(
    distances: &[u32],
    spread: Spread,
    step: u64,
    ranks: &mut Ranks,
    out: &mut [u8],
) -> usize
    requires exact { step ≡ 1 }
    requires listable { AreListable step spread.least spread.rule distances.now }
    requires most { spread.most
        ≡ greatest_number (map (steps_above step spread.least) distances.now) }
    requires table { let qs = map (steps_above step spread.least) distances.now in
        table_size qs ≡ Some (length (table_bytes qs)) }
    requires room { length (table_bytes (map (steps_above step spread.least) distances.now))
        ≤ length out.old }
    ensures count { result
        ≡ length (table_bytes (map (steps_above step spread.least) distances.now)) }
    ensures bytes { out.new ≡ table_bytes (map (steps_above step spread.least) distances.now)
        ++ drop result out.old }
{
    let width = digit_count(spread.most);
    if let Some(used) = ranks.write_above(spread.least, width, distances, out) {
        return used;
    }
    write_table_list(distances, spread.least, spread.rule, step, out)
}

/// Writes the form with a table over the front of `out`; how many bytes it takes.
fn write_ranked_form(
    distances: &[u32],
    ctx: &BlockCtx,
    spread: Spread,
    ranks: &mut Ranks,
    out: &mut [u8],
) -> usize
    requires exact { ctx.now.step ≡ 1 }
    requires spread { IsSpread ctx.now.kind ctx.now.step distances.now spread }
    requires listable { AreListable ctx.now.step spread.least spread.rule distances.now }
    requires table { let qs = map (steps_above ctx.now.step spread.least) distances.now in
        table_size qs ≡ Some (length (table_bytes qs)) }
    requires room { let values = values_above ctx.now.kind distances.now in
        length (written_form_bytes ctx.now.kind ctx.now.col ctx.now.step values chosen_block.table)
        ≤ length out.old }
    ensures count { let values = values_above ctx.now.kind distances.now in result
        ≡ length (written_form_bytes ctx.now.kind ctx.now.col ctx.now.step values
        chosen_block.table) }
    ensures bytes { let values = values_above ctx.now.kind distances.now in
        out.new ≡ written_form_bytes ctx.now.kind ctx.now.col ctx.now.step values chosen_block.table
        ++ drop result out.old }
{
    let used = write_offset(1, ctx.col, ctx.kind, value_of(ctx.kind, spread.least), out);
    used + write_ranked_list(distances, spread, ctx.step, ranks, &mut out[used..])
}

/// Writes what `write_distances` writes. Where the step is 1 and the values are far apart, the
/// entries and the indexes of a table are found by ranks, as long as each value has one.
pub fn write_ranked(
    distances: &[u32],
    ctx: &BlockCtx,
    has_table: bool,
    ranks: &mut Ranks,
    out: &mut [u8],
) -> usize
    requires few { length distances.now ≤ 256 }
    requires in_range { All (IsDistance ctx.now.kind) distances.now }
    requires capped { All (λ v. v ≤ℤ ctx.now.top) (map (value_above ctx.now.kind) distances.now) }
    requires table { let values = map (value_above ctx.now.kind) distances.now in
        IsTrue has_table
        ↔ (chosen_block.chosen_form ctx.now.kind ctx.now.col ctx.now.step values
        ≡ chosen_block.table) }
    requires room { let values = map (value_above ctx.now.kind) distances.now in
        length (block_bytes ctx.now.kind ctx.now.col ctx.now.step values) ≤ length out.old }
    ensures count { let values = map (value_above ctx.now.kind) distances.now in
        result ≡ length (block_bytes ctx.now.kind ctx.now.col ctx.now.step values) }
    ensures bytes { let values = map (value_above ctx.now.kind) distances.now in
        out.new ≡ block_bytes ctx.now.kind ctx.now.col ctx.now.step values ++ drop result out.old }
{
    if has_table && ctx.step == 1 && ranks.count() > 0 {
        let spread = spread_of(distances, ctx.kind, ctx.step);
        if spread.most >= NEAR {
            return write_ranked_form(distances, ctx, spread, ranks, out);
        }
    }
    write_distances(distances, ctx, has_table, out)
}
