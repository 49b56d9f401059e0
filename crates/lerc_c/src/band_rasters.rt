//! Rasters made of arrays, for bands.

ghost use Rattle.std.specs.Prelude.{◌≡◌, [], IfSome, length};
ghost use Rattle.raster_values.specs.Raster.{blank};
ghost use Rattle.lerc_c.specs.Arrays.{GivesSizes, IsGiven, mask_array_size};
ghost use Rattle.lerc_c.specs.inside.Given.{IsGivenBy};
ghost use Rattle.lerc_c.specs.inside.Marked.{IsMarked};

use crate::arrays::FitArrays;
use raster_values::Raster;
use std::alloc::Global;

/// Makes the pixels valid whose bits are 1.
fn mark_bits(raster: &mut Raster, mask: &[u8])
    requires blank { raster.old
        ≡ blank raster.old.kind raster.old.rows raster.old.cols raster.old.depth }
    requires some { length mask.now ≡ 0 → ⊥ }
    requires size { length mask.now ≡ mask_array_size raster.old.rows raster.old.cols }
    ensures { IsMarked raster.old.kind raster.old.rows raster.old.cols raster.old.depth
        mask.now raster.new }
{
    raster.mark_from_bits(mask);
}

/// Makes a raster with no valid pixel the raster that the arrays are.
fn fill(raster: &mut Raster, values: &[u8], mask: &[u8])
    requires blank { raster.old
        ≡ blank raster.old.kind raster.old.rows raster.old.cols raster.old.depth }
    requires some { length mask.now ≡ 0 → ⊥ }
    requires sizes { GivesSizes raster.old.kind raster.old.rows raster.old.cols raster.old.depth
        (length values.now) (length mask.now) }
    ensures { IsGiven raster.old.kind raster.old.rows raster.old.cols raster.old.depth
        values.now mask.now raster.new }
{
    mark_bits(raster, mask);
    raster.put_cells(values);
}

/// The raster that the arrays are, where there is a mask. None where memory is refused.
fn masked_raster(alloc: Global, fit: FitArrays) -> Option<Raster>
    requires { length fit.arrays.mask.now ≡ 0 → ⊥ }
    ensures { IfSome result (λ r. IsGivenBy fit.entry.arrays r) }
{
    let a = fit.arrays;
    let mut raster = Raster::new(alloc, a.kind, a.rows, a.cols, a.depth).ok()?;
    fill(&mut raster, a.values, a.mask);
    Some(raster)
}

/// The raster with these values of which every pixel is valid. None where memory is refused.
fn whole_raster(alloc: Global, fit: FitArrays) -> Option<Raster>
    ensures { IfSome result (λ r. IsGiven fit.entry.arrays.kind fit.entry.arrays.rows
        fit.entry.arrays.cols fit.entry.arrays.depth fit.entry.arrays.values.now [] r) }
{
    let a = fit.arrays;
    match Raster::from_cells(alloc, a.kind, a.rows, a.cols, a.depth, a.values) {
        Ok(raster) => Some(raster),
        Err(_) => None,
    }
}

/// The raster that the arrays are. None where memory is refused.
pub(crate) fn raster_given(alloc: Global, fit: FitArrays) -> Option<Raster>
    ensures { IfSome result (λ r. IsGivenBy fit.entry.arrays r) }
{
    if fit.arrays.mask.is_empty() {
        return whole_raster(alloc, fit);
    }
    masked_raster(alloc, fit)
}
