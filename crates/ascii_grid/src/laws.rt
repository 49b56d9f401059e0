//! Laws over the definitions.

ghost use Rattle.ascii_grid.specs.Laws.{CanonStands, GridHasNoFault, IsEither, IsEitherLga, LgaHasNoFault, LgaIsLawful, LgaStands, OneFault, OneGrid, OneLga, OneLgaFault, OneTokens};

/// What is written of a grid is a text of it.
pub fn canon_stands()
    ensures { CanonStands }
{}

/// A text has one list of tokens, and one grid at most.
pub fn one_grid()
    ensures tokens { OneTokens }
    ensures grid { OneGrid }
{}

/// A text has one first fault at most, and none where it is that of a grid.
pub fn one_fault()
    ensures fault { OneFault }
    ensures grid { GridHasNoFault }
{}

/// A text is that of a grid, or it has a first fault.
pub fn is_either()
    ensures { IsEither }
{}

/// What is written of a grid as `LGA1` is that of it.
pub fn lga_stands()
    ensures { LgaStands }
{}

/// Bytes are the `LGA1` of one grid at most, and that is lawful.
pub fn one_lga()
    ensures grid { OneLga }
    ensures lawful { LgaIsLawful }
{}

/// Bytes have one first fault at most, and none where they are an `LGA1`.
pub fn one_lga_fault()
    ensures fault { OneLgaFault }
    ensures grid { LgaHasNoFault }
{}

/// Bytes are an `LGA1`, or they have a first fault.
pub fn lga_is_either()
    ensures { IsEitherLga }
{}
