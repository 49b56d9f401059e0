//! The numbers of one band of a mosaic, a raster laid into them, and the raster of their means.

ghost use Rattle.std.specs.Prelude.{◌≡◌, ℕ, pos, ◌+◌, ◌*◌, ◌/◌, ◌%◌, ◌<◌, ◌≤◌, ◌^◌, ◌+ℤ◌, ◌≤ℤ◌, None, is_some, length, get_or, map, replicate, IfOk, true, false};
ghost use Rattle.raster_cells.specs.Shapes.{IsShape};
ghost use Rattle.raster_values.specs.Raster.{IsRaster};
ghost use Rattle.overview_tiles.specs.inside.Comes.{GrowsCounts, comes, in_row, marks_amount, ones, total_at};
ghost use Rattle.overview_tiles.specs.inside.Layers.{HasWidth, listed};
ghost use Rattle.overview_tiles.specs.inside.Lays.{AreWithin, CanLay, CountsFit, IsPlaced, LaysAll, LaysMarks, LaysValues};
ghost use Rattle.overview_tiles.specs.inside.Means.{HasMeans, HaveMeans};
ghost use Rattle.overview_tiles.specs.inside.Numbers.{zero_numbers};
ghost use Rattle.overview_tiles.specs.inside.Reach.{reach_of};

use super::halving::{counted_raster, fill};
use super::sum::Sum;
use super::values::{Piece, add_values};
use raster_values::{PixelType, Raster};
use std::alloc::{AllocError, Global};
use std::marker::Model;

/// How many pixels are laid at once.
const PIECE: usize = 256;

/// The sums of a band's values, of 32 bits where these have at most 16.
#[derive(Drop)]
enum SumList {
    Narrow(Vec<i32>),
    Wide(Vec<i64>),
}

/// The numbers of one band: of each pixel of the half how many of its four are valid, and the sums
/// of their values, the depths innermost.
#[derive(Drop)]
pub(crate) struct Layer {
    kind: PixelType,
    counts: Vec<u8>,
    sums: SumList,
}

impl Model for Layer {
    ghost use Rattle.overview_tiles.specs.inside.Numbers.{Numbers};

    ghost Value = { Numbers };

    ghost use Rattle.overview_tiles.specs.inside.Layers.{IsLayer, seen_layer};

    ghost view = { seen_layer };

    ghost invariant = { IsLayer };
}

/// Where a quarter lies: its columns and depths, and the place of its first pixel in the mosaic.
#[derive(Clone, Copy)]
pub(crate) struct Frame {
    pub cols: usize,
    pub depth: usize,
    pub top: usize,
    pub left: usize,
}

/// Adds 1 to the count of each marked pixel of a row, one by one: the pixel of the first mark
/// stands in the column `col` of the mosaic, and the counts of its row begin at `base`.
fn add_each_mark(marks: &[bool], base: usize, col: usize, counts: &mut [u8])
    requires low { base < 2 ^ 32 }
    requires left { col < 2 ^ 32 }
    requires few { length marks.now ≤ 256 }
    requires room { (i : ℕ) → i < length marks.now → in_row base col i < length counts.old }
    requires fits { (t : ℕ) → t < length counts.old → (pos (get_or counts.old t 0)
        +ℤ comes (in_row base col) (marks_amount marks.now) t (length marks.now)) ≤ℤ pos 255 }
    ensures { GrowsCounts (in_row base col) (marks_amount marks.now) (length marks.now)
        counts.old counts.new }
{
    for (i, mark) in marks.iter().enumerate() {
        if *mark {
            counts[base + (col + i) / 2] += 1;
        }
    }
}

/// The same, where the first pixel stands in an even column and their number is even: each two
/// pixels come to one count.
fn add_mark_pairs(marks: &[bool], base: usize, col: usize, counts: &mut [u8])
    requires low { base < 2 ^ 32 }
    requires left { col < 2 ^ 32 }
    requires few { length marks.now ≤ 256 }
    requires room { (i : ℕ) → i < length marks.now → in_row base col i < length counts.old }
    requires fits { (t : ℕ) → t < length counts.old → (pos (get_or counts.old t 0)
        +ℤ comes (in_row base col) (marks_amount marks.now) t (length marks.now)) ≤ℤ pos 255 }
    requires even { col % 2 ≡ 0 }
    requires pairs { length marks.now % 2 ≡ 0 }
    ensures { GrowsCounts (in_row base col) (marks_amount marks.now) (length marks.now)
        counts.old counts.new }
{
    let first = base + col / 2;
    for k in 0..marks.len() / 2 {
        counts[first + k] += u8::from(marks[2 * k]) + u8::from(marks[2 * k + 1]);
    }
}

/// The same of `count` pixels that are all valid.
fn add_whole_pairs(count: usize, base: usize, col: usize, counts: &mut [u8])
    requires low { base < 2 ^ 32 }
    requires left { col < 2 ^ 32 }
    requires few { count ≤ 256 }
    requires room { (i : ℕ) → i < count → in_row base col i < length counts.old }
    requires fits { (t : ℕ) → t < length counts.old → (pos (get_or counts.old t 0)
        +ℤ comes (in_row base col) ones t count) ≤ℤ pos 255 }
    requires even { col % 2 ≡ 0 }
    requires pairs { count % 2 ≡ 0 }
    ensures { GrowsCounts (in_row base col) ones count counts.old counts.new }
{
    let first = base + col / 2;
    for k in 0..count / 2 {
        counts[first + k] += 2;
    }
}

/// Adds 1 to the count of each marked pixel of a row.
fn add_marks(marks: &[bool], base: usize, col: usize, counts: &mut [u8])
    requires low { base < 2 ^ 32 }
    requires left { col < 2 ^ 32 }
    requires few { length marks.now ≤ 256 }
    requires room { (i : ℕ) → i < length marks.now → in_row base col i < length counts.old }
    requires fits { (t : ℕ) → t < length counts.old → (pos (get_or counts.old t 0)
        +ℤ comes (in_row base col) (marks_amount marks.now) t (length marks.now)) ≤ℤ pos 255 }
    ensures { GrowsCounts (in_row base col) (marks_amount marks.now) (length marks.now)
        counts.old counts.new }
{
    if col % 2 == 0 && marks.len() % 2 == 0 {
        add_mark_pairs(marks, base, col, counts);
    } else {
        add_each_mark(marks, base, col, counts);
    }
}

/// Adds the values of `count` pixels of a row to their sums at each depth.
fn lay_values<S: Sum>(
    raster: &Raster,
    frame: Frame,
    row: usize,
    col: usize,
    count: usize,
    sums: &mut [S],
)
    requires row { row < raster.now.rows }
    requires cols { col + count ≤ frame.cols }
    requires few { count ≤ 256 }
    requires placed { IsPlaced frame raster.now }
    requires reach { S.reach ≡ reach_of raster.now.kind }
    requires sums { length sums.old ≡ raster.now.rows * raster.now.cols * raster.now.depth }
    requires within { AreWithin (1024 * S.reach) (raster.now.rows * raster.now.cols) frame.depth
        (map S.number sums.old) }
    ensures { LaysValues frame raster.now (row * frame.cols + col) count
        (raster.now.rows * raster.now.cols) (map S.number sums.old) (map S.number sums.new) }
{
    let samples = raster.samples();
    let cells = samples.read();
    let first = row * frame.cols + col;
    let base = (frame.top + row) / 2 * frame.cols;
    for d in 0..frame.depth {
        let piece = Piece {
            first,
            count,
            depth: frame.depth,
            d,
            base,
            col: frame.left + col,
        };
        add_values(&cells, piece, sums);
    }
}

/// Whether all of `count` pixels from number `place` on are valid.
fn is_whole(raster: &Raster, place: usize, count: usize) -> bool
    requires within { place + count ≤ raster.now.rows * raster.now.cols }
    requires raster { IsRaster raster.now }
    ensures { result ≡ true → (i : ℕ) → i < count
        → is_some (get_or raster.now.pixels (place + i) None) ≡ true }
{
    let run = raster.next_run(place, place + count);
    run.start == place && run.end == place + count
}

/// Adds 1 to the counts of the valid ones among `count` pixels of a row. The room for their marks
/// is lent.
fn lay_marks(
    raster: &Raster,
    frame: Frame,
    row: usize,
    col: usize,
    count: usize,
    room: &mut [bool],
    counts: &mut [u8],
)
    requires row { row < raster.now.rows }
    requires cols { col + count ≤ frame.cols }
    requires few { count ≤ 256 }
    requires size { length room.old ≡ count }
    requires placed { IsPlaced frame raster.now }
    requires counts { length counts.old ≡ raster.now.rows * raster.now.cols }
    requires fits { CountsFit frame raster.now (row * frame.cols + col) count counts.old }
    ensures { LaysMarks frame raster.now (row * frame.cols + col) count counts.old counts.new }
{
    let place = row * frame.cols + col;
    let base = (frame.top + row) / 2 * frame.cols;
    let at = frame.left + col;
    if at % 2 == 0 && count % 2 == 0 && is_whole(raster, place, count) {
        add_whole_pairs(count, base, at, counts);
    } else {
        raster.marks_from(place, room);
        add_marks(room, base, at, counts);
    }
}

/// Lays `count` pixels of a row.
fn lay_piece<S: Sum>(
    raster: &Raster,
    frame: Frame,
    row: usize,
    col: usize,
    count: usize,
    counts: &mut [u8],
    sums: &mut [S],
)
    requires row { row < raster.now.rows }
    requires cols { col + count ≤ frame.cols }
    requires few { count ≤ 256 }
    requires placed { IsPlaced frame raster.now }
    requires reach { S.reach ≡ reach_of raster.now.kind }
    requires counts { length counts.old ≡ raster.now.rows * raster.now.cols }
    requires sums { length sums.old ≡ raster.now.rows * raster.now.cols * raster.now.depth }
    requires fits { CountsFit frame raster.now (row * frame.cols + col) count counts.old }
    requires within { AreWithin (1024 * S.reach) (raster.now.rows * raster.now.cols) frame.depth
        (map S.number sums.old) }
    ensures counts { LaysMarks frame raster.now (row * frame.cols + col) count
        counts.old counts.new }
    ensures sums { LaysValues frame raster.now (row * frame.cols + col) count
        (raster.now.rows * raster.now.cols) (map S.number sums.old) (map S.number sums.new) }
{
    let mut marks = [false; PIECE];
    lay_marks(raster, frame, row, col, count, &mut marks[..count], counts);
    lay_values(raster, frame, row, col, count, sums);
}

/// How many of the next `left` pixels of a row, of which the first stands in this column of the
/// mosaic, are laid at once: one, or pairs that come to one pixel each.
fn piece_of(col: usize, left: usize) -> usize
    requires { 0 < left }
    ensures some { 0 < result }
    ensures few { result ≤ 256 }
    ensures within { result ≤ left }
{
    if col % 2 == 1 || left == 1 {
        1
    } else {
        PIECE.min(left / 2 * 2)
    }
}

/// Lays the pixels of a row.
fn lay_row<S: Sum>(raster: &Raster, frame: Frame, row: usize, counts: &mut [u8], sums: &mut [S])
    requires row { row < raster.now.rows }
    requires placed { IsPlaced frame raster.now }
    requires reach { S.reach ≡ reach_of raster.now.kind }
    requires counts { length counts.old ≡ raster.now.rows * raster.now.cols }
    requires sums { length sums.old ≡ raster.now.rows * raster.now.cols * raster.now.depth }
    requires fits { CountsFit frame raster.now (row * frame.cols) frame.cols counts.old }
    requires within { AreWithin (512 * S.reach) (raster.now.rows * raster.now.cols) frame.depth
        (map S.number sums.old) }
    ensures counts { LaysMarks frame raster.now (row * frame.cols) frame.cols
        counts.old counts.new }
    ensures sums { LaysValues frame raster.now (row * frame.cols) frame.cols
        (raster.now.rows * raster.now.cols) (map S.number sums.old) (map S.number sums.new) }
{
    let mut col = 0;
    while col < frame.cols {
        let count = piece_of(frame.left + col, frame.cols - col);
        lay_piece(raster, frame, row, col, count, counts, sums);
        col += count;
    }
}

/// Lays all pixels of a raster.
fn lay_rows<S: Sum>(raster: &Raster, frame: Frame, counts: &mut [u8], sums: &mut [S])
    requires placed { IsPlaced frame raster.now }
    requires reach { S.reach ≡ reach_of raster.now.kind }
    requires counts { length counts.old ≡ raster.now.rows * raster.now.cols }
    requires sums { length sums.old ≡ raster.now.rows * raster.now.cols * raster.now.depth }
    requires fits { CountsFit frame raster.now 0 (raster.now.rows * raster.now.cols) counts.old }
    requires within { AreWithin (256 * S.reach) (raster.now.rows * raster.now.cols) frame.depth
        (map S.number sums.old) }
    ensures counts { LaysMarks frame raster.now 0 (raster.now.rows * raster.now.cols)
        counts.old counts.new }
    ensures sums { LaysValues frame raster.now 0 (raster.now.rows * raster.now.cols)
        (raster.now.rows * raster.now.cols) (map S.number sums.old) (map S.number sums.new) }
{
    let rows = raster.rows() as usize;
    for row in 0..rows {
        lay_row(raster, frame, row, counts, sums);
    }
}

/// So many sums of no values.
fn zero_list(alloc: Global, kind: PixelType, count: usize) -> Result<SumList, AllocError>
    requires { count ≤ 16777216 }
    ensures { IfOk result (λ sums. HasWidth kind sums × (listed sums ≡ replicate count (pos 0))) }
{
    match kind {
        PixelType::I32 | PixelType::U32 => Ok(SumList::Wide(vec![in alloc; 0i64; count]?)),
        _ => Ok(SumList::Narrow(vec![in alloc; 0i32; count]?)),
    }
}

impl Layer {
    /// The numbers of a band of this type of which nothing was laid.
    pub(crate) fn new(
        alloc: Global,
        kind: PixelType,
        places: usize,
        depth: usize,
    ) -> Result<Layer, AllocError>
        requires { places * depth ≤ 16777216 }
        ensures { IfOk result (λ l. l ≡ zero_numbers kind places depth) }
    {
        let counts = vec![in alloc; 0u8; places]?;
        let sums = zero_list(alloc, kind, places * depth)?;
        Ok(Layer { kind, counts, sums })
    }

    /// Lays a raster of the band's type.
    pub(crate) fn lay(&mut self, raster: &Raster, frame: Frame)
        requires kind { self.old.kind ≡ raster.now.kind }
        requires fits { CanLay frame raster.now self.old.sums }
        ensures kind { self.new.kind ≡ self.old.kind }
        ensures sums { LaysAll frame raster.now self.old.sums self.new.sums }
    {
        let counts = self.counts.as_mut_slice();
        match &mut self.sums {
            SumList::Narrow(sums) => lay_rows(raster, frame, counts, sums.as_mut_slice()),
            SumList::Wide(sums) => lay_rows(raster, frame, counts, sums.as_mut_slice()),
        }
    }

    /// The raster that has the means of the band's numbers.
    pub(crate) fn half(
        &self,
        alloc: Global,
        rows: u32,
        cols: u32,
        depth: u32,
    ) -> Result<Raster, AllocError>
        requires shape { IsShape rows cols depth }
        requires means { HaveMeans self.now.kind (rows * cols) depth
            self.now.sums.counts self.now.sums.sums }
        ensures { IfOk result (λ r. HasMeans self.now.kind rows cols depth self.now.sums r) }
    {
        let counts = self.counts.as_slice();
        let mut raster = counted_raster(alloc, self.kind, rows, cols, depth, counts)?;
        match &self.sums {
            SumList::Narrow(sums) => fill(&mut raster, counts, sums.as_slice()),
            SumList::Wide(sums) => fill(&mut raster, counts, sums.as_slice()),
        }
        Ok(raster)
    }
}
