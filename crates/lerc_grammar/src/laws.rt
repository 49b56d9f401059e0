//! Laws of the definitions.

ghost use Rattle.lerc_grammar.specs.Laws.{NoTwoRasters, RastersArePrevious, OneFirstFault, OneVerdict, SomeVerdict, OneWholeVerdict, SomeWholeVerdict, VerdictStays, OneBandsVerdict, NoTwoBands, SomeBandsVerdict, BandsFaultStays};
ghost use Rattle.lerc_grammar.specs.Laws.{BandsFaultIsWithin, FaultIsWithin};
ghost use Rattle.lerc_grammar.specs.Near.{NearItself, NearBothWays, NearJoined, NearWider, NearestIsSame};

/// A law: behind one raster no bytes have two rasters.
pub fn no_two_rasters()
    ensures one { NoTwoRasters }
    ensures previous { RastersArePrevious }
{}

/// A law: bytes have one first fault at most.
pub fn one_first_fault()
    ensures { OneFirstFault }
{}

/// A law: bytes have one verdict at most.
pub fn one_verdict()
    ensures { OneVerdict }
{}

/// A law: a verdict other than More stays, whatever follows.
pub fn verdicts_stay()
    ensures { VerdictStays }
{}

/// A law: bytes have a verdict.
pub fn some_verdict()
    ensures { SomeVerdict }
{}

/// A law: a whole input has one verdict at most.
pub fn one_whole_verdict()
    ensures { OneWholeVerdict }
{}

/// A law: a whole input has a verdict.
pub fn some_whole_verdict()
    ensures { SomeWholeVerdict }
{}

/// A law: a raster is near itself, near rasters are near both ways and by every greater step, and
/// over a third raster the steps add up.
pub fn near_is_a_distance()
    ensures itself { NearItself }
    ensures both_ways { NearBothWays }
    ensures joined { NearJoined }
    ensures wider { NearWider }
{}

/// A law: rasters that are near by a step of 1, which stands for no error, are equal.
pub fn nearest_is_same()
    ensures { NearestIsSame }
{}

/// A law: a whole input has one verdict of bands at most, and no two lists of bands.
pub fn one_bands_verdict()
    ensures one { OneBandsVerdict }
    ensures bands { NoTwoBands }
{}

/// A law: a whole input has a verdict of bands.
pub fn some_bands_verdict()
    ensures { SomeBandsVerdict }
{}

/// A law: a fault of bands that is decided is the verdict whatever follows.
pub fn bands_faults_stay()
    ensures { BandsFaultStays }
{}

/// A law: a first fault stands within the bytes, and no further on than the greatest blob is long;
/// that of bands no further on than 17 of these.
pub fn faults_are_within()
    ensures blob { FaultIsWithin }
    ensures bands { BandsFaultIsWithin }
{}
