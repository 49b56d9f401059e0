//! Laws of the definitions. Each function does nothing: its contract is the law.

ghost use Rattle.bundle_tiles.specs.Laws.{ExportsImportWhole, StreamsAreOfOneMap};
ghost use Rattle.bundle_tiles.specs.RawStream.{RawStreamsHaveNoFault, RawStreamsHaveOneFault, RawStreamsHaveOneList};
ghost use Rattle.bundle_tiles.specs.RawTile.{RawTilesAreDecided, RawTilesAreParts};

/// A tile is read in one way, whatever follows it; where one stands nothing is wrong; and bytes
/// have one first fault at most. Bytes that do not begin with one have a fault.
pub fn raw_tiles_are_parts()
    ensures part { RawTilesAreParts }
    ensures decided { RawTilesAreDecided }
{}

/// Bytes are a stream of one list of tiles at most, and then have no fault; others have one first
/// fault at most.
pub fn raw_streams_have_one_list_of_tiles()
    ensures list { RawStreamsHaveOneList }
    ensures fault { RawStreamsHaveOneFault }
    ensures no_fault { RawStreamsHaveNoFault }
{}

/// A map that is exported, and imported where there is nothing, is there again, without slack; and
/// bytes are the stream of one map at most.
pub fn exports_import_whole()
    ensures whole { ExportsImportWhole }
    ensures one { StreamsAreOfOneMap }
{}
