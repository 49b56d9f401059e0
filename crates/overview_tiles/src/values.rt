//! The values of a row's pixels, added to their sums.

ghost use Rattle.std.specs.Prelude.{◌≡◌, ◌+◌, ◌*◌, ◌%◌, ◌<◌, ◌≤◌, length, map};
ghost use Rattle.overview_tiles.specs.inside.Comes.{GrowsSums, IsWithin, in_row, piece_amount};
ghost use Rattle.overview_tiles.specs.inside.Pieces.{CanAdd};

use super::sum::Sum;
use raster_cells::{CellBytes, PixelType, by_kind};

/// Pixels of a row at one depth: `count` from number `first` on, of which each has `depth` values.
/// The first one stands in the column `col` of the mosaic, and the sums of its row begin with that
/// number `base`.
#[derive(Clone, Copy)]
pub(crate) struct Piece {
    pub first: usize,
    pub count: usize,
    pub depth: usize,
    pub d: usize,
    pub base: usize,
    pub col: usize,
}

impl Piece {
    /// The same, where it is known that each has one value: they lie side by side, which the
    /// compiler is to know.
    #[inline(always)]
    fn of_one(self) -> Piece
        requires { self.depth ≡ 1 }
        ensures { result ≡ self }
    {
        Piece {
            first: self.first,
            count: self.count,
            depth: 1,
            d: self.d,
            base: self.base,
            col: self.col,
        }
    }
}

/// The value of pixel number `i` of a piece. The type is known before.
#[inline(always)]
fn value_of(kind: PixelType, cells: &CellBytes, piece: Piece, i: usize) -> i64
    requires kind { kind ≡ cells.now.kind }
    requires few { length cells.now.values ≤ 16777216 }
    requires depth { piece.d < piece.depth }
    requires there { (piece.first + piece.count) * piece.depth ≤ length cells.now.values }
    requires inside { i < piece.count }
    ensures value { result ≡ piece_amount piece.first piece.depth piece.d cells.now.values i }
    ensures small { IsWithin 4294967296 result }
{
    cells.value_as(kind, (piece.first + i) * piece.depth + piece.d)
}

/// Adds the values of a piece to their sums, one by one. The type is known before.
#[inline(always)]
fn add_each_value<S: Sum>(kind: PixelType, cells: &CellBytes, piece: Piece, sums: &mut [S])
    requires kind { kind ≡ cells.now.kind }
    requires fits { CanAdd S.reach piece cells.now.values (map S.number sums.old) }
    ensures { GrowsSums piece.depth piece.d (in_row piece.base piece.col)
        (piece_amount piece.first piece.depth piece.d cells.now.values) piece.count
        (map S.number sums.old) (map S.number sums.new) }
{
    for i in 0..piece.count {
        let value = value_of(kind, cells, piece, i);
        let at = (piece.base + (piece.col + i) / 2) * piece.depth + piece.d;
        sums[at] = sums[at].plus(value);
    }
}

/// The same, where the first pixel stands in an even column and their number is even: each two
/// pixels come to one sum.
#[inline(always)]
fn add_value_pairs<S: Sum>(kind: PixelType, cells: &CellBytes, piece: Piece, sums: &mut [S])
    requires kind { kind ≡ cells.now.kind }
    requires fits { CanAdd S.reach piece cells.now.values (map S.number sums.old) }
    requires even { piece.col % 2 ≡ 0 }
    requires pairs { piece.count % 2 ≡ 0 }
    ensures { GrowsSums piece.depth piece.d (in_row piece.base piece.col)
        (piece_amount piece.first piece.depth piece.d cells.now.values) piece.count
        (map S.number sums.old) (map S.number sums.new) }
{
    let first = piece.base + piece.col / 2;
    for k in 0..piece.count / 2 {
        let one = value_of(kind, cells, piece, 2 * k);
        let other = value_of(kind, cells, piece, 2 * k + 1);
        let at = (first + k) * piece.depth + piece.d;
        sums[at] = sums[at].plus(one + other);
    }
}

/// The same, for pixels of one value as such.
#[inline(always)]
fn add_pairs_as<S: Sum>(kind: PixelType, cells: &CellBytes, piece: Piece, sums: &mut [S])
    requires kind { kind ≡ cells.now.kind }
    requires fits { CanAdd S.reach piece cells.now.values (map S.number sums.old) }
    requires even { piece.col % 2 ≡ 0 }
    requires pairs { piece.count % 2 ≡ 0 }
    ensures { GrowsSums piece.depth piece.d (in_row piece.base piece.col)
        (piece_amount piece.first piece.depth piece.d cells.now.values) piece.count
        (map S.number sums.old) (map S.number sums.new) }
{
    if piece.depth == 1 {
        add_value_pairs(kind, cells, piece.of_one(), sums);
    } else {
        add_value_pairs(kind, cells, piece, sums);
    }
}

/// Adds the values of a piece to their sums.
pub(crate) fn add_values<S: Sum>(cells: &CellBytes, piece: Piece, sums: &mut [S])
    requires fits { CanAdd S.reach piece cells.now.values (map S.number sums.old) }
    ensures { GrowsSums piece.depth piece.d (in_row piece.base piece.col)
        (piece_amount piece.first piece.depth piece.d cells.now.values) piece.count
        (map S.number sums.old) (map S.number sums.new) }
{
    if piece.col % 2 == 0 && piece.count % 2 == 0 {
        by_kind!(cells.kind(), kind => add_pairs_as(kind, cells, piece, sums))
    } else {
        add_each_value(cells.kind(), cells, piece, sums);
    }
}
