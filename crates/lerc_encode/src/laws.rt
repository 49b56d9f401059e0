//! Laws of the definitions.

ghost use Rattle.std.specs.Prelude.{◌≡◌, ℕ, ◌*◌, ◌≤◌, Bool, List, length};
ghost use Rattle.first_fault.specs.Parts.{AreBytes};
ghost use Rattle.huff_codes.specs.Written.{IsFilled, IsShortestRun, IsWrittenTable};
ghost use Rattle.lerc_encode.specs.Codings.{code_table_bytes, filled_words, shortest_run};
ghost use Rattle.lerc_encode.specs.Laws.{BandsDecode, BandsDeclare, ChoicesDecode};
ghost use Rattle.lerc_encode.specs.Laws.{ChoicesDecodeAfter, ChoicesDeclare, MasksAreTaken};
ghost use Rattle.lerc_encode.specs.Laws.{OwnIsBehindNone};
ghost use Rattle.lerc_encode.specs.Sizes.{BandsAreSmall, BlobsAreSmall, TilesAreSmall};

/// A law: no blob is longer than type and shape allow, nor are those of bands together.
pub fn blobs_are_small()
    ensures blobs { BlobsAreSmall }
    ensures bands { BandsAreSmall }
    ensures tiles { TilesAreSmall }
{}

/// A law: the mask of the raster before is taken exactly where it is the same and has runs.
pub fn masks_are_taken()
    ensures taken { MasksAreTaken }
    ensures own { OwnIsBehindNone }
{}

/// A law: the chosen blob of every raster is one of exactly one raster, which is near it, and
/// declares its version and step; behind the blob of another raster, too.
pub fn choices_decode()
    ensures own { ChoicesDecode }
    ensures after { ChoicesDecodeAfter }
    ensures declare { ChoicesDeclare }
{}

/// A law: the chosen blobs of bands are those of exactly one list of bands, each near the given
/// one, and declare their version and step.
pub fn bands_decode()
    ensures bands { BandsDecode }
    ensures declare { BandsDeclare }
{}

/// A law: the range, the words and the table of a coding are those that the relations of code
/// tables have, and no other bytes are.
pub fn codings_are_written()
    ensures range { (lengths : List ℕ) → IsShortestRun lengths (shortest_run lengths) }
    ensures words { (n : ℕ) (bits : List Bool) → length bits ≤ 32 * n →
        IsFilled n bits (filled_words n bits) }
    ensures only_words { (n : ℕ) (bits : List Bool) (bytes : List ℕ) → length bits ≤ 32 * n →
        AreBytes bytes → IsFilled n bits bytes → bytes ≡ filled_words n bits }
    ensures table { (lengths : List ℕ) → IsWrittenTable lengths (code_table_bytes lengths) }
    ensures only_table { (lengths bytes : List ℕ) → AreBytes bytes →
        IsWrittenTable lengths bytes → bytes ≡ code_table_bytes lengths }
{}
