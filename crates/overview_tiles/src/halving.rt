//! The means of a band's numbers, and a raster that is given them.

ghost use Rattle.std.specs.Prelude.{◌≡◌, ℕ, ℤ, pos, ◌+◌, ◌↔◌, ◌*◌, ◌*ℤ◌, ◌≤ℤ◌, ◌/◌, ◌<◌, ◌≤◌, All, IfOk, IsTrue, get_or, length, map, nat_lt, true};
ghost use Rattle.raster_cells.specs.declared.kind.PixelType.{PixelType as Kind};
ghost use Rattle.raster_cells.specs.PixelType.{InRange};
ghost use Rattle.raster_values.specs.Raster.{IsRaster, blank, valid_count};
ghost use Rattle.raster_cells.specs.Masks.{mask_bit};
ghost use Rattle.raster_cells.specs.Shapes.{IsShape};
ghost use Rattle.overview_tiles.specs.Half.{mean_of};
ghost use Rattle.overview_tiles.specs.inside.Comes.{IsWithin};
ghost use Rattle.overview_tiles.specs.inside.Means.{Counted, Fills, HaveMeans, byte_bit, mean_at};
ghost use Rattle.overview_tiles.specs.inside.Reach.{reach_of};

use super::sum::{Sum, mean_or_zero};
use raster_values::{PixelType, Raster};
use std::alloc::{AllocError, Global};

/// How many means are put at once.
const PIECE: usize = 256;

/// Whether no count is 0.
fn are_some(counts: &[u8]) -> bool
    ensures { result ≡ true → (k : ℕ) → k < length counts.now → 0 < get_or counts.now k 0 }
{
    counts.iter().all(|count| *count > 0)
}

/// At most eight pixels as the bits of a byte, the highest first: 1 where the count is not 0.
fn mark_byte(counts: &[u8]) -> u8
    requires { length counts.now ≤ 8 }
    ensures { (q : ℕ) → q < 8 → byte_bit result q ≡ nat_lt 0 (get_or counts.now q 0) }
{
    let mut byte = 0u8;
    for (q, count) in counts.iter().enumerate() {
        if *count > 0 {
            byte |= 1u8 << (7 - q);
        }
    }
    byte
}

/// Writes the mask of pixels that are valid where their count is not 0.
fn write_marks(counts: &[u8], mask: &mut [u8])
    requires few { length counts.now ≤ 16777216 }
    requires size { length mask.old ≡ (length counts.now + 7) / 8 }
    ensures { (k : ℕ) → k < length counts.now
        → mask_bit mask.new k ≡ nat_lt 0 (get_or counts.now k 0) }
{
    for (i, byte) in mask.iter_mut().enumerate() {
        let end = counts.len().min(8 * i + 8);
        *byte = mark_byte(&counts[8 * i..end]);
    }
}

/// Makes the pixels of a raster, of which none is valid, valid where their count is not 0. The room
/// for their mask is lent.
fn mark_by_counts(raster: &mut Raster, counts: &[u8], mask: &mut [u8])
    requires size { length mask.old ≡ (length counts.now + 7) / 8 }
    requires count { length counts.now ≡ raster.old.rows * raster.old.cols }
    requires none { valid_count raster.old ≡ 0 }
    requires few { length counts.now ≤ 16777216 }
    requires cols { 0 < raster.old.cols }
    ensures { Counted counts.now raster.old raster.new }
{
    write_marks(counts, mask);
    raster.mark_from_bits(mask);
}

/// The raster, of which no pixel is valid, with those pixels valid whose count is not 0.
fn mark_counted(alloc: Global, unmarked: Raster, counts: &[u8]) -> Result<Raster, AllocError>
    requires count { length counts.now ≡ unmarked.rows * unmarked.cols }
    requires none { valid_count unmarked ≡ 0 }
    requires few { length counts.now ≤ 16777216 }
    requires cols { 0 < unmarked.cols }
    ensures { IfOk result (λ r. Counted counts.now unmarked r) }
{
    let mut raster = unmarked;
    if are_some(counts) {
        raster.mark_all();
        return Ok(raster);
    }
    let mut mask = vec![in alloc; 0u8; (counts.len() + 7) / 8]?;
    mark_by_counts(&mut raster, counts, &mut mask);
    Ok(raster)
}

/// Whether bytes are the same.
fn are_same(one: &[u8], other: &[u8]) -> bool
    ensures { IsTrue result ↔ (one.now ≡ other.now) }
{
    *one == *other
}

/// Whether all four are valid of each pixel, of at most 256.
fn are_four(counts: &[u8]) -> bool
    requires { length counts.now ≤ 256 }
    ensures { result ≡ true → (k : ℕ) → k < length counts.now → get_or counts.now k 0 ≡ 4 }
{
    let fours = [4u8; PIECE];
    are_same(counts, &fours[..counts.len()])
}

/// The means at a depth of pixels of which all four are valid.
fn means_of_four<S: Sum>(sums: &[S], depth: usize, d: usize, place: usize, out: &mut [i64])
    requires depth { d < depth }
    requires small { length sums.now ≤ 16777216 }
    requires room { (i : ℕ) → i < length out.old
        → (place + i) * depth + d < length sums.now }
    requires within { (i : ℕ) → i < length out.old → IsWithin (4 * S.reach)
        (get_or (map S.number sums.now) ((place + i) * depth + d) (pos 0)) }
    ensures values { (i : ℕ) → i < length out.old → get_or out.new i (pos 0)
        ≡ mean_of (get_or (map S.number sums.now) ((place + i) * depth + d) (pos 0)) (pos 4) }
    ensures least { (i : ℕ) (least : ℤ) → i < length out.old
        → (pos 4 *ℤ least) ≤ℤ get_or (map S.number sums.now) ((place + i) * depth + d) (pos 0)
        → least ≤ℤ get_or out.new i (pos 0) }
    ensures greatest { (i : ℕ) (greatest : ℤ) → i < length out.old
        → get_or (map S.number sums.now) ((place + i) * depth + d) (pos 0) ≤ℤ (pos 4 *ℤ greatest)
        → get_or out.new i (pos 0) ≤ℤ greatest }
{
    for (i, value) in out.iter_mut().enumerate() {
        *value = sums[(place + i) * depth + d].mean(4);
    }
}

/// The means at a depth of the pixels from number `place` on, 0 where none of the four is valid.
fn means_of_each<S: Sum>(
    counts: &[u8],
    sums: &[S],
    depth: usize,
    d: usize,
    place: usize,
    out: &mut [i64],
)
    requires depth { d < depth }
    requires small { length sums.now ≤ 16777216 }
    requires sums { length sums.now ≡ length counts.now * depth }
    requires within { place + length out.old ≤ length counts.now }
    requires few { (k : ℕ) → get_or counts.now k 0 ≤ 4 }
    requires bounded { (kind : Kind) × ((S.reach ≡ reach_of kind)
        × HaveMeans kind (length counts.now) depth counts.now (map S.number sums.now)) }
    ensures values { (i : ℕ) → i < length out.old → get_or out.new i (pos 0)
        ≡ mean_at depth counts.now (map S.number sums.now) d (place + i) }
    ensures in_range { (kind : Kind)
        → HaveMeans kind (length counts.now) depth counts.now (map S.number sums.now)
        → All (InRange kind) out.new }
{
    for (i, value) in out.iter_mut().enumerate() {
        *value = mean_or_zero(sums[(place + i) * depth + d], counts[place + i]);
    }
}

/// The same, by one kind of means where all four are valid of each pixel.
fn means<S: Sum>(counts: &[u8], sums: &[S], depth: usize, d: usize, place: usize, out: &mut [i64])
    requires piece { length out.old ≤ 256 }
    requires depth { d < depth }
    requires small { length sums.now ≤ 16777216 }
    requires sums { length sums.now ≡ length counts.now * depth }
    requires within { place + length out.old ≤ length counts.now }
    requires few { (k : ℕ) → get_or counts.now k 0 ≤ 4 }
    requires bounded { (kind : Kind) × ((S.reach ≡ reach_of kind)
        × HaveMeans kind (length counts.now) depth counts.now (map S.number sums.now)) }
    ensures values { (i : ℕ) → i < length out.old → get_or out.new i (pos 0)
        ≡ mean_at depth counts.now (map S.number sums.now) d (place + i) }
    ensures in_range { (kind : Kind)
        → HaveMeans kind (length counts.now) depth counts.now (map S.number sums.now)
        → All (InRange kind) out.new }
{
    if are_four(&counts[place..place + out.len()]) {
        means_of_four(sums, depth, d, place, out);
    } else {
        means_of_each(counts, sums, depth, d, place, out);
    }
}

/// Gives the valid ones among `count` pixels from number `place` on their means at each depth. The
/// room for one depth of them is lent.
fn fill_depths<S: Sum>(
    raster: &mut Raster,
    counts: &[u8],
    sums: &[S],
    place: usize,
    count: usize,
    room: &mut [i64],
)
    requires size { length room.old ≡ count }
    requires few { count ≤ 256 }
    requires reach { S.reach ≡ reach_of raster.old.kind }
    requires means { HaveMeans raster.old.kind (raster.old.rows * raster.old.cols)
        raster.old.depth counts.now (map S.number sums.now) }
    requires within { place + count ≤ raster.old.rows * raster.old.cols }
    ensures { Fills counts.now (map S.number sums.now) place count raster.old raster.new }
{
    let depth = raster.depth();
    for d in 0..depth {
        means(counts, sums, depth as usize, d as usize, place, room);
        raster.put_from(place, d, room);
    }
}

/// Gives the valid pixels their means.
pub(crate) fn fill<S: Sum>(raster: &mut Raster, counts: &[u8], sums: &[S])
    requires reach { S.reach ≡ reach_of raster.old.kind }
    requires means { HaveMeans raster.old.kind (raster.old.rows * raster.old.cols) raster.old.depth
        counts.now (map S.number sums.now) }
    ensures fills { Fills counts.now (map S.number sums.now) 0 (raster.old.rows * raster.old.cols)
        raster.old raster.new }
    ensures sound { IsRaster raster.new }
{
    let places = raster.rows() as usize * raster.cols() as usize;
    let mut room = [0i64; PIECE];
    let mut place = 0;
    while place < places {
        let count = PIECE.min(places - place);
        fill_depths(raster, counts, sums, place, count, &mut room[..count]);
        place += count;
    }
    // What holds of each raster is known once one of its numbers was read.
    let _rows = raster.rows();
}

/// A raster of which those pixels are valid whose count is not 0.
pub(crate) fn counted_raster(
    alloc: Global,
    kind: PixelType,
    rows: u32,
    cols: u32,
    depth: u32,
    counts: &[u8],
) -> Result<Raster, AllocError>
    requires shape { IsShape rows cols depth }
    requires count { length counts.now ≡ rows * cols }
    ensures { IfOk result (λ r. Counted counts.now (blank kind rows cols depth) r) }
{
    match Raster::new(alloc, kind, rows, cols, depth) {
        Ok(raster) => mark_counted(alloc, raster, counts),
        Err(_) => Err(AllocError),
    }
}
