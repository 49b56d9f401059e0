//! Writing blocks.

ghost use Rattle.std.specs.Prelude.{◌≡◌, ◌≢◌, ◌+◌, ◌*◌, ◌<◌, ◌≤◌, ◌≤ℤ◌, ◌∷◌, [], ◌++◌, ℕ, ℤ, pos};
ghost use Rattle.std.specs.Prelude.{All, Some, length, map, get_or, take, drop, IsTrue, ◌↔◌};
ghost use Rattle.bit_stuff.specs.Simple.{greatest_number, simple_bytes};
ghost use Rattle.lut_stuff.specs.Tables.{table_bytes, table_size};
ghost use Rattle.raster_cells.specs.Distance.{IsDistance, value_above};
ghost use Rattle.raster_cells.specs.PixelType.{InRange, bytes_of};
ghost use Rattle.raster_cells.specs.Values.{values_bytes};
ghost use Rattle.micro_block.specs.Block.{IsBlock};
ghost use Rattle.micro_block.specs.ChosenBlock as chosen_block;
ghost use Rattle.micro_block.specs.ChosenBlock.{block_bytes, written_form_bytes, kept, narrow_code};
ghost use Rattle.micro_block.specs.ChosenBlock.{narrow_type, offset_bytes};
ghost use Rattle.micro_block.specs.ChosenBlock.{tag_byte};
ghost use Rattle.micro_block.specs.Frame.{frame_of};
ghost use Rattle.micro_block.specs.Near.{IsNear};
ghost use Rattle.micro_block.specs.inside.Forms.{IsChosen};
ghost use Rattle.micro_block.specs.inside.Stepping.{AreListable, IsSpread, steps_above};
ghost use Rattle.micro_block.specs.inside.Stepping.{values_above};

use crate::choosing::{BlockForm, Chosen, block_size, choose_plain};
use crate::context::BlockCtx;
use crate::distances::{distances_of, value_of};
use crate::sizes::narrowest_type;
use crate::spreading::{Spread, spread_of};
use crate::stepping::{Rule, steps_each};
use bit_stuff::{digit_count, stuff, write_head};
use lut_stuff::write_table_front;
use raster_cells::PixelType;

/// The tag of a block.
fn tag(col: u32, form: u8, code: u8) -> u8
    requires form { form < 4 }
    requires code { code < 4 }
    ensures { result ≡ tag_byte col form code }
{
    form + 4 * (col / 8 % 16) as u8 + 64 * code
}

/// Writes the tag and the offset of a form over the front of `out`; how many bytes that took.
pub(crate) fn write_offset(form: u8, col: u32, kind: PixelType, least: i64, out: &mut [u8]) -> usize
    requires form { form < 4 }
    requires fits { InRange kind least }
    requires room { 1 + bytes_of (narrow_type kind least) ≤ length out.old }
    ensures used { result ≡ 1 + bytes_of (narrow_type kind least) }
    ensures bytes { out.new ≡ tag_byte col form (narrow_code kind least)
        ∷ (offset_bytes kind least ++ drop (1 + bytes_of (narrow_type kind least)) out.old) }
{
    let (code, narrow) = narrowest_type(kind, least);
    out[0] = tag(col, form, code);
    narrow.write_value(least, &mut out[1..]);
    1 + narrow.bytes()
}

/// Writes the bytes of the values that are so far above the least of the type.
#[inline(always)]
fn write_each(kind: PixelType, distances: &[u32], out: &mut [u8])
    requires room { length out.old ≡ length distances.now * bytes_of kind }
    requires in_range { All (IsDistance kind) distances.now }
    ensures { out.new ≡ values_bytes kind (values_above kind distances.now) }
{
    let size = kind.bytes();
    for (i, distance) in distances.iter().enumerate() {
        kind.write_value(value_of(kind, *distance), &mut out[i * size..]);
    }
}

/// The same, by a loop for each type.
fn write_values(kind: PixelType, distances: &[u32], out: &mut [u8])
    requires room { length out.old ≡ length distances.now * bytes_of kind }
    requires in_range { All (IsDistance kind) distances.now }
    ensures { out.new ≡ values_bytes kind (values_above kind distances.now) }
{
    match kind {
        PixelType::I8 => write_each(PixelType::I8, distances, out),
        PixelType::U8 => write_each(PixelType::U8, distances, out),
        PixelType::I16 => write_each(PixelType::I16, distances, out),
        PixelType::U16 => write_each(PixelType::U16, distances, out),
        PixelType::I32 => write_each(PixelType::I32, distances, out),
        PixelType::U32 => write_each(PixelType::U32, distances, out),
    }
}

/// Writes the zero form.
fn write_zero(col: u32, out: &mut [u8])
    requires room { length out.old ≡ 1 }
    ensures { out.new ≡ tag_byte col 2 0 ∷ [] }
{
    out[0] = tag(col, 2, 0);
}

/// Writes the constant form.
fn write_constant(col: u32, kind: PixelType, least: i64, out: &mut [u8])
    requires fits { InRange kind least }
    requires room { length out.old ≡ 1 + bytes_of (narrow_type kind least) }
    ensures { out.new ≡ tag_byte col 3 (narrow_code kind least) ∷ offset_bytes kind least }
{
    write_offset(3, col, kind, least, out);
}

/// Writes the raw form.
fn write_raw(distances: &[u32], col: u32, kind: PixelType, out: &mut [u8])
    requires in_range { All (IsDistance kind) distances.now }
    requires room { length out.old ≡ 1 + length distances.now * bytes_of kind }
    ensures { out.new ≡ tag_byte col 0 0 ∷ values_bytes kind (values_above kind distances.now) }
{
    out[0] = tag(col, 0, 0);
    write_values(kind, distances, &mut out[1..]);
}

/// Writes the list of the numbers of steps in the simple form, with room for the numbers. The
/// greatest of them, which is known, tells the width.
fn write_simple_steps(distances: &[u32], spread: Spread, step: u64, qs: &mut [u32], out: &mut [u8])
    requires lengths { length qs.old ≡ length distances.now }
    requires listable { AreListable step spread.least spread.rule distances.now }
    requires most { spread.most
        ≡ greatest_number (map (steps_above step spread.least) distances.now) }
    requires room { length out.old
        ≡ length (simple_bytes (map (steps_above step spread.least) distances.now)) }
    ensures { out.new ≡ simple_bytes (map (steps_above step spread.least) distances.now) }
{
    steps_each(distances, spread.least, spread.rule, step, qs);
    let width = digit_count(spread.most);
    let used = write_head(width, false, qs.len() as u32, out);
    stuff(qs, width, &mut out[used..]);
}

/// Writes the list of the numbers of steps in the simple form.
fn write_simple_list(distances: &[u32], spread: Spread, step: u64, out: &mut [u8])
    requires listable { AreListable step spread.least spread.rule distances.now }
    requires most { spread.most
        ≡ greatest_number (map (steps_above step spread.least) distances.now) }
    requires room { length out.old
        ≡ length (simple_bytes (map (steps_above step spread.least) distances.now)) }
    ensures { out.new ≡ simple_bytes (map (steps_above step spread.least) distances.now) }
{
    let count = distances.len();
    if count <= 64 {
        let mut qs = [0; 64];
        write_simple_steps(distances, spread, step, &mut qs[..count], out);
    } else {
        let mut qs = [0; 256];
        write_simple_steps(distances, spread, step, &mut qs[..count], out);
    }
}

/// Writes the list of the numbers of steps in the table form over the front of `out`, with room
/// for the numbers; how many bytes it takes.
fn write_table_steps(
    distances: &[u32],
    least: u32,
    rule: Rule,
    step: u64,
    qs: &mut [u32],
    out: &mut [u8],
) -> usize
    requires lengths { length qs.old ≡ length distances.now }
    requires listable { AreListable step least rule distances.now }
    requires table { let qs = map (steps_above step least) distances.now in
        table_size qs ≡ Some (length (table_bytes qs)) }
    requires room { length (table_bytes (map (steps_above step least) distances.now))
        ≤ length out.old }
    ensures count { result ≡ length (table_bytes (map (steps_above step least) distances.now)) }
    ensures bytes { out.new ≡ table_bytes (map (steps_above step least) distances.now)
        ++ drop result out.old }
{
    steps_each(distances, least, rule, step, qs);
    write_table_front(qs, out)
}

/// Writes the list of the numbers of steps in the table form over the front of `out`; how many
/// bytes it takes.
pub(crate) fn write_table_list(
    distances: &[u32],
    least: u32,
    rule: Rule,
    step: u64,
    out: &mut [u8],
) -> usize
    requires listable { AreListable step least rule distances.now }
    requires table { let qs = map (steps_above step least) distances.now in
        table_size qs ≡ Some (length (table_bytes qs)) }
    requires room { length (table_bytes (map (steps_above step least) distances.now))
        ≤ length out.old }
    ensures count { result ≡ length (table_bytes (map (steps_above step least) distances.now)) }
    ensures bytes { out.new ≡ table_bytes (map (steps_above step least) distances.now)
        ++ drop result out.old }
{
    let count = distances.len();
    if count <= 64 {
        let mut qs = [0; 64];
        write_table_steps(distances, least, rule, step, &mut qs[..count], out)
    } else {
        let mut qs = [0; 256];
        write_table_steps(distances, least, rule, step, &mut qs[..count], out)
    }
}

/// Writes the form with a simple list.
fn write_simple_form(distances: &[u32], ctx: &BlockCtx, spread: Spread, out: &mut [u8])
    requires spread { IsSpread ctx.now.kind ctx.now.step distances.now spread }
    requires listable { AreListable ctx.now.step spread.least spread.rule distances.now }
    requires room { let values = values_above ctx.now.kind distances.now in length out.old
        ≡ length (written_form_bytes ctx.now.kind ctx.now.col ctx.now.step values
        chosen_block.simple) }
    ensures { let values = values_above ctx.now.kind distances.now in
        out.new ≡ written_form_bytes ctx.now.kind ctx.now.col ctx.now.step values
        chosen_block.simple }
{
    let used = write_offset(1, ctx.col, ctx.kind, value_of(ctx.kind, spread.least), out);
    write_simple_list(distances, spread, ctx.step, &mut out[used..]);
}

/// Writes the form with a table over the front of `out`; how many bytes it takes.
fn write_table_form(distances: &[u32], ctx: &BlockCtx, spread: Spread, out: &mut [u8]) -> usize
    requires spread { IsSpread ctx.now.kind ctx.now.step distances.now spread }
    requires listable { AreListable ctx.now.step spread.least spread.rule distances.now }
    requires table { let qs = map (steps_above ctx.now.step spread.least) distances.now in
        table_size qs ≡ Some (length (table_bytes qs)) }
    requires room { let values = values_above ctx.now.kind distances.now in
        length (written_form_bytes ctx.now.kind ctx.now.col ctx.now.step values chosen_block.table)
        ≤ length out.old }
    ensures count { let values = values_above ctx.now.kind distances.now in result
        ≡ length (written_form_bytes ctx.now.kind ctx.now.col ctx.now.step values
        chosen_block.table) }
    ensures bytes { let values = values_above ctx.now.kind distances.now in
        out.new ≡ written_form_bytes ctx.now.kind ctx.now.col ctx.now.step values chosen_block.table
        ++ drop result out.old }
{
    let (least, rule) = (spread.least, spread.rule);
    let used = write_offset(1, ctx.col, ctx.kind, value_of(ctx.kind, least), out);
    used + write_table_list(distances, least, rule, ctx.step, &mut out[used..])
}

/// Writes the chosen form, which has no table, over all of `out`.
fn write_plain(distances: &[u32], ctx: &BlockCtx, spread: Spread, chosen: Chosen, out: &mut [u8])
    requires few { length distances.now ≤ 256 }
    requires in_range { All (IsDistance ctx.now.kind) distances.now }
    requires spread { IsSpread ctx.now.kind ctx.now.step distances.now spread }
    requires chosen { let values = values_above ctx.now.kind distances.now in
        IsChosen ctx.now.kind ctx.now.col ctx.now.step values chosen }
    requires plain { let values = values_above ctx.now.kind distances.now in
        chosen_block.chosen_form ctx.now.kind ctx.now.col ctx.now.step values ≢ chosen_block.table }
    requires room { length out.old ≡ chosen.size }
    ensures { let values = values_above ctx.now.kind distances.now in
        out.new ≡ block_bytes ctx.now.kind ctx.now.col ctx.now.step values }
{
    let (kind, col, least) = (ctx.kind, ctx.col, chosen.least);
    match chosen.form {
        BlockForm::Zero => write_zero(col, out),
        BlockForm::Constant => write_constant(col, kind, least, out),
        BlockForm::Raw => write_raw(distances, col, kind, out),
        BlockForm::Simple => write_simple_form(distances, ctx, spread, out),
        BlockForm::Table => unreachable!(),
    }
}

/// Writes the chosen block of the values that are so far above the least value of the type over the
/// front of `out`, whose rest stays; how many bytes it takes, which is the length of `block_size`.
/// It is told whether that block has a table.
pub fn write_distances(distances: &[u32], ctx: &BlockCtx, has_table: bool, out: &mut [u8]) -> usize
    requires few { length distances.now ≤ 256 }
    requires in_range { All (IsDistance ctx.now.kind) distances.now }
    requires capped { All (λ v. v ≤ℤ ctx.now.top) (map (value_above ctx.now.kind) distances.now) }
    requires table { let values = map (value_above ctx.now.kind) distances.now in
        IsTrue has_table
        ↔ (chosen_block.chosen_form ctx.now.kind ctx.now.col ctx.now.step values
        ≡ chosen_block.table) }
    requires room { let values = map (value_above ctx.now.kind) distances.now in
        length (block_bytes ctx.now.kind ctx.now.col ctx.now.step values) ≤ length out.old }
    ensures count { let values = map (value_above ctx.now.kind) distances.now in
        result ≡ length (block_bytes ctx.now.kind ctx.now.col ctx.now.step values) }
    ensures bytes { let values = map (value_above ctx.now.kind) distances.now in
        out.new ≡ block_bytes ctx.now.kind ctx.now.col ctx.now.step values ++ drop result out.old }
{
    let spread = spread_of(distances, ctx.kind, ctx.step);
    if has_table {
        return write_table_form(distances, ctx, spread, out);
    }
    let chosen = choose_plain(distances, ctx, spread);
    write_plain(distances, ctx, spread, chosen, &mut out[..chosen.size]);
    chosen.size
}

/// Writes the chosen block of the values over the front of `out`, whose rest stays; how many bytes
/// it takes, which is `block_len`.
///
/// The block stands for numbers that are within half a step of the values, for the values
/// themselves at step 1.
pub fn write_block(values: &[i64], ctx: &BlockCtx, out: &mut [u8]) -> usize
    requires few { length values.now ≤ 256 }
    requires in_range { All (InRange ctx.now.kind) values.now }
    requires capped { All (λ v. v ≤ℤ ctx.now.top) values.now }
    requires room { length (block_bytes ctx.now.kind ctx.now.col ctx.now.step values.now)
        ≤ length out.old }
    ensures count { result
        ≡ length (block_bytes ctx.now.kind ctx.now.col ctx.now.step values.now) }
    ensures bytes { out.new ≡ block_bytes ctx.now.kind ctx.now.col ctx.now.step values.now
        ++ drop result out.old }
    ensures stands { IsBlock (frame_of ctx.now (length values.now)) (take result out.new)
        (map (kept ctx.now.kind ctx.now.col ctx.now.step ctx.now.top values.now) values.now) }
    ensures near { (i : ℕ) → i < length values.now → let v = get_or values.now i (pos 0) in
        IsNear ctx.now.step v
        (kept ctx.now.kind ctx.now.col ctx.now.step ctx.now.top values.now v) }
    ensures exact { ctx.now.step ≡ 1 →
        IsBlock (frame_of ctx.now (length values.now)) (take result out.new) values.now }
{
    let mut room = [0; 256];
    let distances = &mut room[..values.len()];
    distances_of(ctx.kind, values, distances);
    let size = block_size(distances, ctx);
    write_distances(distances, ctx, size.has_table, out)
}
