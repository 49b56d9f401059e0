//! Laws of the definitions, for the crates above. Each function does nothing: its contract is the
//! law.

ghost use Rattle.std.specs.Prelude.{◌≡◌, ◌≤◌, ℕ, List, Bool, All, length};
ghost use Rattle.first_fault.specs.Parts.{IsDecided, IsPart};
ghost use Rattle.huff_codes.specs.Tree.{lengths_of, used_count};
ghost use Rattle.huff_codes.specs.Codes.{AreCodes, AreLengths, HasCode, IsPrefixFree};
ghost use Rattle.huff_codes.specs.Codes.{canonical_codes};
ghost use Rattle.huff_codes.specs.Laws.{CanonicalCodesCountUp, JoinsTakeTheLeast};
ghost use Rattle.huff_codes.specs.Laws.{CountedHaveLengths, WrittenTablesAreTables};
ghost use Rattle.huff_codes.specs.Laws.{WrittenTablesAreOnce, WrittenWordsAreOnce};
ghost use Rattle.huff_codes.specs.Table.{IsCoding, IsTable, coding_faults, table_faults};
ghost use Rattle.huff_codes.specs.Words.{AreWords, word_faults};
ghost use Rattle.huff_codes.specs.Written.{AreWritten};

/// Words of codes have one reading, whatever follows them; bytes that begin with words have no
/// fault of them, and all others have one first fault.
pub fn words_are_a_part()
    ensures part { (codes : List (List Bool)) (n : ℕ)
        → IsPrefixFree codes → IsPart (AreWords codes n) (word_faults codes n) }
    ensures decided { (codes : List (List Bool)) (n : ℕ)
        → AreCodes codes → IsDecided (AreWords codes n) (word_faults codes n) }
{}

/// Tables have one reading, whatever follows them; bytes that begin with a table have no fault of
/// it, and all others have one first fault. So have a table and words behind it.
pub fn tables_are_a_part()
    ensures table { IsPart IsTable table_faults }
    ensures coding { (n : ℕ) → IsPart (IsCoding n) (coding_faults n) }
    ensures table_decided { IsDecided IsTable table_faults }
    ensures coding_decided { (n : ℕ) → IsDecided (IsCoding n) (coding_faults n) }
{}

/// The codes of a table are codes: of which none is the front of another.
pub fn tables_have_codes()
    ensures { (bytes : List ℕ) (codes : List (List Bool)) → IsTable bytes codes → AreCodes codes }
{}

/// The canonical codes of lengths whose shares fill all words are codes.
pub fn canonical_codes_are_codes()
    ensures { (lengths : List ℕ) → AreLengths lengths → AreCodes (canonical_codes lengths) }
{}

/// Canonical codes count up in the order of length and symbol: the first is zeros, and each next
/// one is the one before plus 1, with zeros appended.
pub fn canonical_codes_count_up()
    ensures { CanonicalCodesCountUp }
{}

/// The trees stand in order of weight and least symbol before each join, so the two that are joined
/// are the least of all.
pub fn joins_take_the_least()
    ensures { JoinsTakeTheLeast }
{}

/// The lengths of two used symbols or more are lengths, where none is above 32.
pub fn chosen_lengths_are_lengths()
    ensures { (counts : List ℕ) → 2 ≤ used_count counts
        → All (λ l. l ≤ 32) (lengths_of counts) → AreLengths (lengths_of counts) }
{}

/// What is written is words of its symbols.
pub fn written_words_are_words()
    ensures { (codes : List (List Bool)) (symbols bytes : List ℕ) → All (HasCode codes) symbols
        → AreWritten codes symbols bytes → AreWords codes (length symbols) bytes symbols }
{}

/// What is written of lengths is a table of their canonical codes, so it is read back.
pub fn written_tables_are_tables()
    ensures { WrittenTablesAreTables }
{}

/// Where two symbols or more are used, those that are counted have lengths, and no others have.
pub fn counted_symbols_have_lengths()
    ensures { CountedHaveLengths }
{}

/// What is written of symbols, and of lengths, is one list of bytes.
pub fn written_bytes_are_once()
    ensures words { WrittenWordsAreOnce }
    ensures table { WrittenTablesAreOnce }
{}
