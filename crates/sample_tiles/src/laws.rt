//! Laws over the definitions.

ghost use Rattle.sample_tiles.specs.Laws.{SumsAreOnce};

/// A law: a sample comes to one thing.
pub fn samples_are_one()
    ensures { SumsAreOnce }
{}
