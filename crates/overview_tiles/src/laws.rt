ghost use Rattle.overview_tiles.specs.Half.{HalfIsOne};

/// A law: four quarters, of which one is there, have one half.
pub fn half_is_one()
    ensures { HalfIsOne }
{}
