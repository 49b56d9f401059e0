//! What a blob's mask may take of the raster before.

ghost use Rattle.std.specs.Prelude.{◌≡◌, ◌≤◌, ◌*◌, ℕ, IfOk, Some, false, length};
ghost use Rattle.raster_values.specs.Flat.{marks_of};
ghost use Rattle.raster_values.specs.Order.{IsMaskOf};
ghost use Rattle.raster_cells.specs.Masks.{marks_in, mask_bit};
ghost use Rattle.raster_values.specs.Raster.{blank};
ghost use Rattle.lerc_grammar.specs.Mask.{count_before, marks_before, mask_size, previous_of};
ghost use Rattle.lerc_decode.specs.inside.Body.{HasHeadShape};

use lerc_header::Header;
use raster_values::{Raster, clear_spare};
use std::alloc::{AllocError, Global};
use std::marker::Model;

/// The raster before, without its values.
#[derive(Drop)]
pub(crate) struct PreviousMask {
    rows: u32,
    cols: u32,
    valid: u32,
    // A bit for each pixel, as a mask has it.
    mask: Vec<u8>,
}

impl Model for PreviousMask {
    ghost use Rattle.lerc_grammar.specs.Mask.{Previous};

    ghost Value = { Previous };

    ghost use Rattle.lerc_decode.specs.inside.PreviousMask.{seen_before, IsKeptBefore};

    ghost view = { seen_before };

    ghost invariant = { IsKeptBefore };
}

/// The mask of a raster.
fn mask_of(alloc: Global, raster: &Raster) -> Result<Vec<u8>, AllocError>
    ensures { IfOk result (λ mask. IsMaskOf raster.now mask.items) }
{
    let pixels = raster.rows() as usize * raster.cols() as usize;
    let mut mask = vec![in alloc; 0u8; (pixels + 7) / 8]?;
    raster.mask_bytes(&mut mask);
    Ok(mask)
}

impl PreviousMask {
    /// What is kept of a raster.
    pub(crate) fn of(alloc: Global, raster: &Raster) -> Result<PreviousMask, AllocError>
        ensures { IfOk result (λ before. before ≡ previous_of raster.now) }
    {
        let mask = mask_of(alloc, raster)?;
        Ok(PreviousMask {
            rows: raster.rows(),
            cols: raster.cols(),
            valid: raster.valid_count(),
            mask,
        })
    }

    /// How many pixels are valid, where a blob with this header has as many rows and columns.
    pub(crate) fn count_for(&self, header: &Header) -> Option<u32>
        ensures { result ≡ count_before (marks_before (Some self.now) header.now.rows
            header.now.cols) }
    {
        if self.rows == header.rows && self.cols == header.cols {
            Some(self.valid)
        } else {
            None
        }
    }

    /// Makes the same pixels valid in a raster of which none is.
    pub(crate) fn mark(&self, header: &Header, raster: &mut Raster)
        requires blank { raster.old
            ≡ blank header.now.kind header.now.rows header.now.cols header.now.depth }
        requires rows { self.now.rows ≡ header.now.rows }
        requires cols { self.now.cols ≡ header.now.cols }
        ensures shape { HasHeadShape header.now raster.new }
        ensures marks { marks_of raster.new ≡ self.now.marks }
    {
        raster.mark_from_bits(&self.mask);
    }

    /// Copies a bit for each pixel, and clears those behind the last one.
    pub(crate) fn bits(&self, header: &Header, bits: &mut [u8])
        requires rows { self.now.rows ≡ header.now.rows }
        requires cols { self.now.cols ≡ header.now.cols }
        requires pixels { header.now.rows * header.now.cols ≤ 16777216 }
        requires room { length bits.old ≡ mask_size (header.now.rows * header.now.cols) }
        ensures marks { marks_in (header.now.rows * header.now.cols) bits.new ≡ self.now.marks }
        ensures spare { (k : ℕ) → header.now.rows * header.now.cols ≤ k
            → mask_bit bits.new k ≡ false }
    {
        bits.copy_from_slice(&self.mask);
        clear_spare(bits, header.rows as usize * header.cols as usize);
    }
}
