//! Bands of one tile: rasters of one type and shape.

ghost use Rattle.std.specs.Prelude.{◌≡◌, ◌<◌, [], ◌∷◌, ◌++◌, IfOk, OnOk, OnErr, Some, length, slice_get};
ghost use Rattle.raster_values.specs.Bands.{AreBands, MayBeBands};

use crate::rasters::raster::Raster;
use std::alloc::{AllocError, Global};
use std::marker::Model;

/// The bands of a tile: 1 to 16 rasters of one type, rows, columns and depth, which have at most
/// 2^24 values together. A contract sees the list of the rasters.
#[derive(Drop)]
pub struct Bands {
    bands: Vec<Raster>,
}

impl Model for Bands {
    ghost use Rattle.std.specs.Prelude.{List};
    ghost use Rattle.raster_values.specs.Raster.{Pixels};

    ghost Value = { List Pixels };

    ghost use Rattle.raster_values.specs.Bands.{AreBands};

    ghost view = { λ b. b.bands.items };

    ghost invariant = { λ b. AreBands b.bands.items };
}

impl Bands {
    /// One band.
    pub fn of(alloc: Global, first: Raster) -> Result<Bands, AllocError>
        ensures { IfOk result (λ b. b ≡ first ∷ []) }
    {
        // What holds of each raster is known once one of its numbers was read.
        let _rows = first.rows();
        let mut bands = Vec::with_capacity(alloc, 1)?;
        bands.push(first)?;
        Ok(Bands { bands })
    }

    /// One band more behind the others. Where there is no memory for it nothing changes, and it is
    /// dropped.
    pub fn push(&mut self, band: Raster) -> Result<(), AllocError>
        requires { MayBeBands (self.old ++ band ∷ []) }
        ensures ok { OnOk result (self.new ≡ self.old ++ band ∷ []) }
        ensures kept { OnErr result (self.new ≡ self.old) }
    {
        self.bands.push(band)?;
        Ok(())
    }

    /// How many bands there are.
    pub fn len(&self) -> usize
        ensures value { result ≡ length self.now }
        ensures sound { AreBands self.now }
    {
        self.bands.len()
    }

    /// The band with number i, counted from 0.
    pub fn at(&self, i: usize) -> &Raster
        requires { i < length self.now }
        ensures { slice_get self.now i ≡ Some result.now }
    {
        &self.bands[i]
    }
}
