//! Windows of the pixels of a raster, and the values at one depth.

ghost use Rattle.std.specs.Prelude.{◌≡◌, ◌+◌, ◌*◌, ◌<◌, ◌≤◌, length};
ghost use Rattle.std.specs.Coded.{Coded-set};

use raster_cells::{CellBytes, LentMask, PixelType};

/// `high` rows of `wide` pixels from (row, col) on, of rows of `cols` pixels.
#[derive(Clone, Copy)]
pub struct Window {
    pub cols: usize,
    pub row: usize,
    pub col: usize,
    pub high: usize,
    pub wide: usize,
    ghost across: { col + wide ≤ cols },
}

impl Window {
    ghost use Rattle.raster_values.specs.inside.Windows.{IsBlockOf, IsOneRowOf};

    /// The block of `side` rows and columns from (row, col) on, cut off at the lower and right
    /// edges.
    pub fn block(rows: u32, cols: u32, row: u32, col: u32, side: u32) -> Window
        requires row { row < rows }
        requires col { col < cols }
        ensures { IsBlockOf rows cols row col side result }
    {
        Window {
            cols: cols as usize,
            row: row as usize,
            col: col as usize,
            high: side.min(rows - row) as usize,
            wide: side.min(cols - col) as usize,
        }
    }

    /// The same, where it is known how wide it is.
    #[inline(always)]
    pub fn of_width(self, wide: usize) -> Window
        requires { self.wide ≡ wide }
        ensures { result ≡ self }
    {
        Window {
            cols: self.cols,
            row: self.row,
            col: self.col,
            high: self.high,
            wide,
        }
    }

    /// The same pixels as one row, where the rows are whole: they lie one behind another.
    pub fn one_row(self) -> Window
        requires whole { self.wide ≡ self.cols }
        requires rows { self.row + self.high ≤ 16777216 }
        requires few { (self.row + self.high) * self.cols ≤ 16777216 }
        ensures { IsOneRowOf self result }
    {
        Window {
            cols: (self.row + self.high) * self.cols,
            row: 0,
            col: self.row * self.cols,
            high: 1,
            wide: self.high * self.cols,
        }
    }
}

/// The values at depth `d` of pixels with marks, of which each has `depth` values of a type.
#[derive(Drop)]
pub struct Channel<'a, M> {
    pub marks: &'a M,
    pub kind: PixelType,
    pub depth: usize,
    pub d: usize,
    ghost below: { d < depth },
}

/// The values at depth `d` of pixels with marks, which are read, of `depth` values each.
#[derive(Drop)]
pub struct Plane<'a> {
    pub marks: &'a LentMask<'a>,
    pub samples: &'a CellBytes<'a>,
    pub kind: PixelType,
    pub depth: usize,
    pub d: usize,
    ghost kind_is: { kind ≡ samples.now.kind } by { Coded-set kind-code kind samples.now.kind },
    ghost size: { length samples.now.values ≡ length marks.now * depth },
    ghost few: { length samples.now.values ≤ 16777216 },
    ghost below: { d < depth },
}
