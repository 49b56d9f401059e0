// Laws of the definitions, for the crates above. Each function does nothing: its contract is the
// law.

ghost use Rattle.tile_stream.specs.Stream.{StreamsHaveOneList};
ghost use Rattle.tile_stream.specs.Tile.{TilesAreDecided, TilesAreParts};

/// A tile is read in one way, whatever follows it; where one stands nothing is wrong; and bytes
/// have one first fault at most. Bytes that do not begin with one have a fault.
pub fn tiles_are_parts()
    ensures part { TilesAreParts }
    ensures decided { TilesAreDecided }
{}

/// Bytes are a stream of one list of tiles at most.
pub fn streams_have_one_list_of_tiles()
    ensures { StreamsHaveOneList }
{}
