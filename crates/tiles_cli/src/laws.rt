//! Laws over the definitions. Each function does nothing: its contract is the law.

ghost use Rattle.tiles_cli.specs.CutRuns.{SurvivesCuts};

/// Kills and crashes that cut off one import after the other, each begun on what was handed on, hand
/// on what stands for the tiles after some of the first tiles of each stream, at least those that
/// had a mark.
pub fn survives_cuts()
    ensures { SurvivesCuts }
{}
