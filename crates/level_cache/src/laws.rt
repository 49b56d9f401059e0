//! Laws over the definitions.

ghost use Rattle.std.specs.Prelude.{◌≡◌, ◌⊎◌, ◌≤◌, ◌<◌, ℕ, List, Option, None, Some, Result, Ok, Err, IsTrue, true, false, is_ok};
ghost use Rattle.outside_io.specs.volume.History.{History};
ghost use Rattle.bundle_store.specs.declared.fault.StoreFault.{StoreFault};
ghost use Rattle.bundle_store.specs.declared.fault.StoreFault.TheVariants.{NoTile};
ghost use Rattle.bundle_store.specs.Causes.{OnCause};
ghost use Rattle.level_cache.specs.declared.level.LevelFault.{LevelFault};
ghost use Rattle.level_cache.specs.declared.level.LevelFault.TheVariants.{Store};
ghost use Rattle.level_cache.specs.Places.{Corner, base_of, slot_of};
ghost use Rattle.level_cache.specs.Names.{IsName};
ghost use Rattle.level_cache.specs.Calls.{GetsFrom, Lends, LevelMoves, PutsIn};
ghost use Rattle.level_cache.specs.Crashes.Step.{Get, Put};
ghost use Rattle.level_cache.specs.Crashes.{IsStep, StepsKeepTiles, Tells, disks_of, with_disk};
ghost use Rattle.level_cache.specs.Maps.{AreMaps, AreQuiet, Maps, maps_with, tile_at};

use crate::Shelf;

/// A put that went well has put its tile in its place, and no other. One that was refused, but for
/// a volume or a shelf that failed, has changed none. Where nothing was pending as it began, any
/// put has done the one or the other.
pub fn puts_change_one_place<H: Shelf>()
    ensures done { (base : Corner) (slot : ℕ) (tile : List ℕ) (old new : Corner → Option H.Vol)
        (maps : Maps)
        → AreMaps H.Vol.told H.Vol.history old maps
        → LevelMoves (Ok tt) base old new
        (Lends H.Vol.told H.Vol.history H.Vol.faults (λ r h k. PutsIn r slot tile h k))
        → AreMaps H.Vol.told H.Vol.history new (maps_with base slot tile maps) }
    ensures refused { (fault : StoreFault) (base : Corner) (slot : ℕ) (tile : List ℕ)
        (old new : Corner → Option H.Vol) (maps : Maps)
        → AreMaps H.Vol.told H.Vol.history old maps
        → LevelMoves (Err (Store fault)) base old new
        (Lends H.Vol.told H.Vol.history H.Vol.faults (λ r h k. PutsIn r slot tile h k))
        → OnCause fault (AreMaps H.Vol.told H.Vol.history new maps) }
    ensures either { (result : Result (Unit {0}) LevelFault) (base : Corner) (slot : ℕ)
        (tile : List ℕ) (old new : Corner → Option H.Vol) (maps : Maps)
        → AreMaps H.Vol.told H.Vol.history old maps → AreQuiet H.Vol.history old
        → LevelMoves result base old new
        (Lends H.Vol.told H.Vol.history H.Vol.faults (λ r h k. PutsIn r slot tile h k))
        → AreMaps H.Vol.told H.Vol.history new maps
        ⊎ AreMaps H.Vol.told H.Vol.history new (maps_with base slot tile maps) }
{}

/// A get changes no place, whatever it answers, where nothing was pending as it began. Where it
/// goes well it gives the tile of its place, and NoTile comes where the place has none.
pub fn gets_change_nothing<H: Shelf>()
    ensures unchanged { (result : Result (List ℕ) LevelFault) (base : Corner) (slot : ℕ)
        (old new : Corner → Option H.Vol) (maps : Maps)
        → AreMaps H.Vol.told H.Vol.history old maps → AreQuiet H.Vol.history old
        → LevelMoves result base old new
        (Lends H.Vol.told H.Vol.history H.Vol.faults (λ r h k. GetsFrom r slot h k))
        → AreMaps H.Vol.told H.Vol.history new maps }
    ensures gives { (tile : List ℕ) (place : Corner) (old new : Corner → Option H.Vol) (maps : Maps)
        → AreMaps H.Vol.told H.Vol.history old maps
        → LevelMoves (Ok tile) (base_of place) old new
        (Lends H.Vol.told H.Vol.history H.Vol.faults (λ r h k. GetsFrom r (slot_of place) h k))
        → tile_at maps place ≡ Some tile }
    ensures none { (place : Corner) (old new : Corner → Option H.Vol) (maps : Maps)
        → AreMaps H.Vol.told H.Vol.history old maps
        → LevelMoves (Err (Store NoTile)) (base_of place) old new
        (Lends H.Vol.told H.Vol.history H.Vol.faults (λ r h k. GetsFrom r (slot_of place) h k))
        → tile_at maps place ≡ None }
{}

/// What is read of the volumes of a shelf stands for one level.
pub fn maps_are_once<H: Shelf>()
    ensures { (volumes : Corner → Option H.Vol) (one two : Maps)
        → AreMaps H.Vol.told H.Vol.history volumes one
        → AreMaps H.Vol.told H.Vol.history volumes two → (place : Corner)
        → tile_at one place ≡ tile_at two place }
{}

/// Two bases have two names.
pub fn two_bases_have_two_names()
    ensures { (one two : Corner) (name : List ℕ) → IsName one name → IsName two name → one ≡ two }
{}

/// A put makes such a step of what a crash may leave of the volumes: at each moment of the volume
/// that was lent one that is not acknowledged, and as it returns, Ok being its acknowledgement.
pub fn puts_are_steps<H: Shelf>()
    ensures within { (base : Corner) (slot : ℕ) (tile : List ℕ) (r : Result (Unit {0}) StoreFault)
        (old new : Corner → Option H.Vol)
        → Tells H.Vol.told old
        → (l : Lends H.Vol.told H.Vol.history H.Vol.faults (λ q h k. PutsIn q slot tile h k) r
        (old base) (new base))
        → (t : ℕ) → (H.Vol.history l.lent).moment ≤ t → t ≤ (H.Vol.history l.back).moment
        → IsStep (Put base slot tile false) (disks_of H.Vol.history old)
        (with_disk base ((H.Vol.history l.back).disk_at t) (disks_of H.Vol.history old)) }
    ensures returned { (base : Corner) (slot : ℕ) (tile : List ℕ)
        (result : Result (Unit {0}) LevelFault) (old new : Corner → Option H.Vol)
        → Tells H.Vol.told old
        → LevelMoves result base old new
        (Lends H.Vol.told H.Vol.history H.Vol.faults (λ r h k. PutsIn r slot tile h k))
        → IsStep (Put base slot tile (is_ok result)) (disks_of H.Vol.history old)
        (disks_of H.Vol.history new) }
{}

/// So does a get.
pub fn gets_are_steps<H: Shelf>()
    ensures within { (base : Corner) (slot : ℕ) (r : Result (List ℕ) StoreFault)
        (old new : Corner → Option H.Vol)
        → Tells H.Vol.told old
        → (l : Lends H.Vol.told H.Vol.history H.Vol.faults (λ q h k. GetsFrom q slot h k) r
        (old base) (new base))
        → (t : ℕ) → (H.Vol.history l.lent).moment ≤ t → t ≤ (H.Vol.history l.back).moment
        → IsStep Get (disks_of H.Vol.history old)
        (with_disk base ((H.Vol.history l.back).disk_at t) (disks_of H.Vol.history old)) }
    ensures returned { (base : Corner) (slot : ℕ) (result : Result (List ℕ) LevelFault)
        (old new : Corner → Option H.Vol)
        → Tells H.Vol.told old
        → LevelMoves result base old new
        (Lends H.Vol.told H.Vol.history H.Vol.faults (λ r h k. GetsFrom r slot h k))
        → IsStep Get (disks_of H.Vol.history old) (disks_of H.Vol.history new) }
{}

/// Over any puts, gets, kills and crashes each image of a shelf stands for a level in which each
/// place has the last tile that was put there and acknowledged, or a later one that was not
/// acknowledged.
pub fn calls_survive_crashes()
    ensures { StepsKeepTiles }
{}
