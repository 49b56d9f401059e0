//! Laws of images, of layouts, of puts and of recoveries.

// Laws of the definitions, for the crates above. Each function does nothing: its contract is the
// law.

ghost use Rattle.std.specs.Prelude.{◌≡◌, ◌≢◌, ◌++◌, ◌+◌, ◌^◌, ◌<◌, ◌≤◌, ℕ, List, [], Result, Err, length, replicate};
ghost use Rattle.outside_io.specs.volume.Disk.{Disk, IsQuiet};
ghost use Rattle.bundle_index.specs.Entry.{entry_at};
ghost use Rattle.bundle_index.specs.Header.{fresh_header};
ghost use Rattle.bundle_index.specs.Sizes.{index_end, slot_count};
ghost use Rattle.side_journal.specs.Groups.{NewEntry};
ghost use Rattle.bundle_store.specs.declared.fault.StoreFault.{StoreFault};
ghost use Rattle.bundle_store.specs.declared.fault.StoreFault.TheVariants.{Device};
ghost use Rattle.bundle_store.specs.declared.recovery.Recovery.{Recovery};
ghost use Rattle.bundle_store.specs.declared.tile_rec.TileRec.{TileRec};
ghost use Rattle.bundle_store.specs.Appended.{bundle_after_put};
ghost use Rattle.bundle_store.specs.Build.{map_after};
ghost use Rattle.bundle_store.specs.Check.{bad_count};
ghost use Rattle.bundle_store.specs.FirstImages.{StoodFor};
ghost use Rattle.bundle_store.specs.GroupPuts.{AreSlots, AreTilesIn, HasRoomFor, bundle_with_tiles, group_records, new_entries, with_entries};
ghost use Rattle.bundle_store.specs.Images.{StandsFor};
ghost use Rattle.bundle_store.specs.Layout.{layout};
ghost use Rattle.bundle_store.specs.Recover.{ClosedStays, Leaves, RecoverySays};
ghost use Rattle.bundle_store.specs.Starts.{CouldBe, EachIsSound};
ghost use Rattle.bundle_store.specs.Tiles.{AreTiles, IsBundle, IsReadable, Opens, TileMap, no_tiles, tiles, with_tile};

/// An image stands for one map at most.
pub fn images_stand_for_one_map()
    ensures { (bundle journal : List ℕ) (one two : TileMap) →
        StandsFor bundle journal one → StandsFor bundle journal two → one ≡ two }
{}

/// A new bundle of a map is one, and its tiles are the map.
pub fn layouts_hold_their_map()
    ensures bundle { (map : TileMap) → AreTiles map → IsBundle (layout map) }
    ensures tiles { (map : TileMap) → AreTiles map → tiles (layout map) ≡ map }
{}

/// An empty file has no tiles.
pub fn empty_files_have_no_tiles()
    ensures { tiles [] ≡ no_tiles }
{}

/// A put on a readable bundle leaves a readable one, with the one tile replaced.
pub fn puts_replace_one_tile()
    ensures readable { (bundle tile : List ℕ) (slot : ℕ) → IsReadable bundle → slot < slot_count →
        0 < length tile → length tile < 2 ^ 24 → length bundle + 4 + length tile ≤ 2 ^ 40 →
        IsReadable (bundle_after_put bundle slot tile) }
    ensures tiles { (bundle tile : List ℕ) (slot : ℕ) → IsReadable bundle → slot < slot_count →
        0 < length tile → length tile < 2 ^ 24 → length bundle + 4 + length tile ≤ 2 ^ 40 →
        tiles (bundle_after_put bundle slot tile) ≡ with_tile slot tile (tiles bundle) }
{}

/// Tiles put at once, by one header and their entries laid over their records, are tiles put one
/// after the other; laid over twice is laid over once.
pub fn groups_are_puts()
    ensures bundle { (bundle : List ℕ) (tiles : List TileRec) → index_end ≤ length bundle →
        AreTilesIn tiles → (header : List ℕ) × ((length header ≡ 64) ×
        (bundle_with_tiles bundle tiles ≡ with_entries header (new_entries (length bundle) tiles)
        (bundle ++ group_records tiles))) }
    ensures twice { (header bundle : List ℕ) (es : List NewEntry) → length header ≡ 64 →
        AreSlots es → index_end ≤ length bundle →
        with_entries header es (with_entries header es bundle) ≡ with_entries header es bundle }
    ensures readable { (bundle : List ℕ) (us : List TileRec) → IsBundle bundle → AreTilesIn us →
        HasRoomFor (length bundle) us → IsBundle (bundle_with_tiles bundle us) }
    ensures tiles { (bundle : List ℕ) (us : List TileRec) → IsBundle bundle → AreTilesIn us →
        HasRoomFor (length bundle) us →
        tiles (bundle_with_tiles bundle us) ≡ map_after (tiles bundle) us }
{}

/// An image that was sound before journals had a second form stands for the same map, unless its
/// journal has the second form's 1,112 bytes, which no journal had then.
pub fn images_of_the_first_form_stand_for_the_same()
    ensures { (bundle journal : List ℕ) (map : TileMap) → length journal ≢ 1112 →
        StoodFor bundle journal map → StandsFor bundle journal map }
{}

/// Lists of tiles one after the other are as good as one list.
pub fn lists_of_tiles_join()
    ensures { (map : TileMap) (first second : List TileRec) →
        map_after map (first ++ second) ≡ map_after (map_after map first) second }
{}

/// A bundle that opens and has no bad entry is readable.
pub fn bundles_without_bad_entries_are_readable()
    ensures { (bundle : List ℕ) → Opens bundle → bad_count bundle slot_count ≡ 0
        → IsReadable bundle }
{}

/// The tiles of a readable bundle are all there.
pub fn readable_bundles_have_their_tiles()
    ensures { (bundle : List ℕ) (slot : ℕ) → IsReadable bundle → slot < slot_count →
        0 < (entry_at bundle slot).size →
        (entry_at bundle slot).offset + (entry_at bundle slot).size ≤ length bundle }
{}

/// The bundle of no tiles is a fresh header and an index of zeros.
pub fn the_bundle_of_no_tiles_is_fresh()
    ensures { layout no_tiles ≡ fresh_header 0 index_end ++ replicate 131072 0 }
{}

/// No two answers of a recovery but Device say something that holds of the same files. So each of
/// them comes exactly where the files say so.
pub fn recoveries_have_one_answer()
    ensures { (bundle journal : List ℕ) (one two : Result Recovery StoreFault) →
        RecoverySays bundle journal one → RecoverySays bundle journal two →
        one ≢ Err Device → two ≢ Err Device → one ≡ two }
{}

/// Recoveries of the same files do the same, and leave the same bundle.
pub fn recoveries_leave_one_bundle()
    ensures { (bundle journal : List ℕ) (one two : Recovery) (left other : List ℕ) →
        Leaves bundle journal one left → Leaves bundle journal two other →
        (one ≡ two) × (left ≡ other) }
{}

/// Beside a journal that is not open all that a recovery makes of both files is what they are.
pub fn closed_journals_stay()
    ensures { ClosedStays }
{}

/// Where nothing is pending, and what is read stands for a map, each image is sound, and could be
/// that map alone.
pub fn quiet_starts_have_one_map()
    ensures sound { (d : Disk) (start : TileMap) → IsQuiet d →
        StandsFor d.bundle.now d.journal.now start → EachIsSound d }
    ensures one { (d : Disk) (start map : TileMap) → IsQuiet d →
        StandsFor d.bundle.now d.journal.now start → CouldBe d map → map ≡ start }
{}
