//! Laws of runs that begin where something is pending.

// Each function does nothing: its contract is the law.

ghost use Rattle.std.specs.Prelude.{◌≡◌, ℕ, List, []};
ghost use Rattle.outside_io.specs.declared.volume.VolFile.TheVariants.{Bundle, Journal};
ghost use Rattle.outside_io.specs.volume.Disk.{IsQuiet};
ghost use Rattle.outside_io.specs.volume.History.{During, History, contents, current};
ghost use Rattle.bundle_store.specs.declared.tile_rec.TileRec.{TileRec};
ghost use Rattle.bundle_store.specs.Images.{EachImage, StandsFor};
ghost use Rattle.bundle_store.specs.Starts.{CouldBe, KeepsStart};
ghost use Rattle.bundle_store.specs.Tiles.{TileMap};
ghost use Rattle.bundle_lines.specs.Builds.{BuildKeeps, BuildKeepsFrom};
ghost use Rattle.bundle_lines.specs.Chains.{KeepsFirst, SurvivesCuts};
ghost use Rattle.bundle_lines.specs.Puts.{PutsKeep, PutsKeepFrom};

/// Over any runs, each begun on what a kill or a crash handed on, each image stands for a map that
/// one stood for first, with the first few updates of each run done, one run after the other: at
/// least those that were acknowledged.
pub fn bundles_survive_cuts()
    ensures { SurvivesCuts }
{}

/// What puts, a build and a reading promise is what the law on cuts asks of a run.
pub fn runs_keep_their_first_updates()
    ensures puts { (bundle : List ℕ) (updates : List TileRec) (marks : List ℕ) (start : TileMap)
        (old new : History) → CouldBe (current old) start
        → PutsKeepFrom bundle start updates marks old new → KeepsFirst updates marks old new }
    ensures build { (updates : List TileRec) (marks : List ℕ) (start : TileMap)
        (old new : History) → CouldBe (current old) start
        → BuildKeepsFrom start updates marks old new → KeepsFirst updates marks old new }
    ensures reading { (updates : List TileRec) (old new : History) → KeepsStart old new
        → KeepsFirst updates [] old new }
{}

/// Where nothing is pending at the start, what such runs keep is the one map that is read there,
/// with updates done.
pub fn runs_from_rest_keep_one_map()
    ensures puts { (bundle : List ℕ) (updates : List TileRec) (marks : List ℕ) (start : TileMap)
        (old new : History) → IsQuiet (current old)
        → StandsFor (contents Bundle old) (contents Journal old) start
        → PutsKeepFrom bundle start updates marks old new
        → PutsKeep bundle start updates marks old new }
    ensures build { (updates : List TileRec) (marks : List ℕ) (start : TileMap)
        (old new : History) → IsQuiet (current old)
        → StandsFor (contents Bundle old) (contents Journal old) start
        → BuildKeepsFrom start updates marks old new → BuildKeeps start updates marks old new }
    ensures reading { (start : TileMap) (old new : History) → IsQuiet (current old)
        → StandsFor (contents Bundle old) (contents Journal old) start → KeepsStart old new
        → During (EachImage (λ map. map ≡ start)) old new }
{}
