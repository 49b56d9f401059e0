//! A raster in the arrays of a row: as one with arrays of its own, and read where it lies.

ghost use Rattle.std.specs.Prelude.{◌≡◌, ◌≤◌, ◌*◌, length};
ghost use Rattle.raster_cells.specs.PixelType.{bytes_of};
ghost use Rattle.raster_cells.specs.Shapes.{IsShape};

use crate::fixtures::kind_at;
use case_rows::{CaseStop, Row};
use raster_values::{PixelType, Raster, RasterRef, is_shape};
use std::alloc::Global;

/// A raster's type and shape, a bit for each pixel or no byte where each is valid, and the bytes of
/// all values.
#[derive(Clone, Copy)]
pub(crate) struct Arrays<'r> {
    pub kind: PixelType,
    pub rows: u32,
    pub cols: u32,
    pub depth: u32,
    pub mask: &'r [u8],
    pub cells: &'r [u8],
    ghost shape: { IsShape rows cols depth },
    ghost cells_size: { length cells.now ≡ rows * cols * depth * bytes_of kind },
}

/// How many bytes a value of the type takes.
fn size_of_kind(kind: PixelType) -> usize
    ensures size { result ≡ bytes_of kind }
    ensures few { result ≤ 4 }
{
    kind.bytes()
}

/// The arrays of a row: the type is its first word, the shape stands from the third one on, the
/// mask and the values from the seventh.
pub(crate) fn arrays_in(row: &Row) -> Result<Arrays<'_>, CaseStop> {
    let kind = kind_at(row, 0)?;
    let (rows, cols, depth) = (row.number(2)?, row.number(3)?, row.number(4)?);
    let (mask, cells) = (row.bytes(6)?, row.bytes(7)?);
    if !is_shape(rows, cols, depth) || rows > 65536 || cols > 65536 || depth > 65536 {
        return Err(CaseStop::BadRow);
    }
    let size = rows as usize * cols as usize * depth as usize * size_of_kind(kind);
    if cells.len() != size {
        return Err(CaseStop::BadRow);
    }
    Ok(Arrays {
        kind,
        rows,
        cols,
        depth,
        mask,
        cells,
    })
}

impl<'r> Arrays<'r> {
    /// The raster, read where it lies.
    pub fn view(&self) -> Result<RasterRef<'r, 'r>, CaseStop> {
        let (kind, rows, cols, depth) = (self.kind, self.rows, self.cols, self.depth);
        if self.mask.is_empty() {
            return Ok(RasterRef::whole(kind, rows, cols, depth, self.cells));
        }
        if self.mask.len() != (rows as usize * cols as usize).div_ceil(8) {
            return Err(CaseStop::BadRow);
        }
        Ok(RasterRef::over(kind, rows, cols, depth, self.mask, self.cells))
    }

    /// The raster with arrays of its own.
    pub fn raster(&self, alloc: Global) -> Result<Raster, CaseStop> {
        if self.mask.is_empty() {
            return self.whole_raster(alloc);
        }
        let mut raster = self.masked_raster(alloc)?;
        self.give_cells(&mut raster)?;
        Ok(raster)
    }

    /// A raster of which each pixel is valid and has its values.
    fn whole_raster(&self, alloc: Global) -> Result<Raster, CaseStop> {
        let (rows, cols, depth) = (self.rows, self.cols, self.depth);
        match Raster::from_cells(alloc, self.kind, rows, cols, depth, self.cells) {
            Ok(raster) => Ok(raster),
            Err(_) => Err(CaseStop::BadRow),
        }
    }

    /// A raster with the mask. Its values are 0.
    fn masked_raster(&self, alloc: Global) -> Result<Raster, CaseStop> {
        let blank = Raster::new(alloc, self.kind, self.rows, self.cols, self.depth);
        let Ok(mut raster) = blank else {
            return Err(CaseStop::BadRow);
        };
        let pixels = raster.rows() as usize * raster.cols() as usize;
        if raster.valid_count() != 0 || self.mask.len() != pixels.div_ceil(8) {
            return Err(CaseStop::BadRow);
        }
        raster.mark_from_bits(self.mask);
        Ok(raster)
    }

    /// Gives the valid pixels of a raster the values.
    fn give_cells(&self, raster: &mut Raster) -> Result<(), CaseStop> {
        if raster.cells().len() != self.cells.len() {
            return Err(CaseStop::BadRow);
        }
        raster.put_cells(self.cells);
        Ok(())
    }
}
