//! Laws of symbols. Each function does nothing: its contract is the law.

ghost use Rattle.delta_mode.specs.Laws.{OneDepth, OnePlain, OneRaster, DepthIsThere, RasterIsThere};
ghost use Rattle.delta_mode.specs.Laws.{PlainIsThere, DeltasAreSymbols, PlainAreSymbols};

/// The symbols of a depth have one list of values, for a mask.
pub fn symbols_have_one_depth()
    ensures { OneDepth }
{}

/// The symbols of all depths, or plain symbols, have one raster of a type, a shape and a mask.
pub fn symbols_have_one_raster()
    ensures deltas { OneRaster }
    ensures plain { OnePlain }
{}

/// A raster of bytes may be given any symbols, as many as it has valid pixels at a depth, at all
/// depths, or as many as values in plain mode; no other lists are symbols of it.
pub fn symbols_have_a_raster()
    ensures depth { DepthIsThere }
    ensures deltas { RasterIsThere }
    ensures plain { PlainIsThere }
    ensures deltas_are_symbols { DeltasAreSymbols }
    ensures plain_are_symbols { PlainAreSymbols }
{}
