ghost use Rattle.raster_grids.specs.ReadGrid.{WrittenGridStands, GridsAreParts, GridsAreDecided};
ghost use Rattle.raster_grids.specs.BandsGrid.{GridsAreOfBands, WrittenBandsStand, BandsGridsAreParts, BandsGridsAreDecided};
ghost use Rattle.raster_grids.specs.Grid.{GridDetermines};

/// A law: a grid has one raster. Two rasters with the same grid are equal.
pub fn grid_determines()
    ensures { GridDetermines }
{}

/// A law: what is written of a raster is its grid; a grid is read in one way, whatever follows it;
/// bytes that begin with one have no fault, and all others have one first fault.
pub fn grids_are_parts()
    ensures written { WrittenGridStands }
    ensures part { GridsAreParts }
    ensures decided { GridsAreDecided }
{}

/// A law: what has a grid are bands; what is written of bands is their grid; a grid of bands is
/// read in one way, whatever follows it; bytes that begin with one have no fault, and all others
/// have one first fault.
pub fn bands_grids_are_parts()
    ensures bands { GridsAreOfBands }
    ensures written { WrittenBandsStand }
    ensures part { BandsGridsAreParts }
    ensures decided { BandsGridsAreDecided }
{}
