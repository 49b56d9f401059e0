//! Laws of runs, of their faults and of the chosen pieces.

ghost use Rattle.std.specs.Prelude.{◌≡◌, ◌⊎◌, All, ℕ, ◌<◌, ◌≤◌, List, [], ◌∷◌, length, drop};
ghost use Rattle.mask_runs.specs.Runs.{MaskPiece, Runs, piece_content};
ghost use Rattle.mask_runs.specs.Fault.{FirstRunFault};
ghost use Rattle.mask_runs.specs.Chosen.{AreChosenPieces, equal_bytes, before_repeat, first_piece, chosen_pieces};

/// A law: bytes are runs of at most one mask, and go wrong first at one place at most; and bytes
/// that are runs of a mask go wrong nowhere, as runs of a mask of that length.
pub fn runs_are_determined()
    ensures one_mask { (bytes mask other : List ℕ)
        → Runs bytes mask → Runs bytes other → mask ≡ other }
    ensures one_fault { (bytes : List ℕ) (n place other : ℕ)
        → FirstRunFault bytes n place → FirstRunFault bytes n other → place ≡ other }
    ensures either { (bytes mask : List ℕ) (place : ℕ)
        → Runs bytes mask → FirstRunFault bytes (length mask) place → ⊥ }
{}

/// A law: all bytes are runs of a mask of the wanted length, or go wrong first at some place.
pub fn bytes_are_runs_or_go_wrong()
    ensures { (bytes : List ℕ) (n : ℕ) → All (λ byte. byte < 256) bytes →
        ((mask : List ℕ) × (Runs bytes mask × (length mask ≡ n)))
        ⊎ ((place : ℕ) × FirstRunFault bytes n place) }
{}

/// A law: the chosen pieces of a mask are its first piece and then those of what that piece leaves.
pub fn pieces_go_on()
    ensures none { chosen_pieces [] ≡ [] }
    ensures more { (mask : List ℕ) → 0 < length mask → chosen_pieces mask
        ≡ first_piece mask ∷ chosen_pieces (drop (length (piece_content (first_piece mask))) mask) }
{}

/// A law: the chosen pieces of a mask are those that are chosen for it, and no others are.
pub fn pieces_are_chosen()
    ensures are { (mask : List ℕ) → AreChosenPieces (chosen_pieces mask) mask }
    ensures only { (mask : List ℕ) (pieces : List MaskPiece) → AreChosenPieces pieces mask →
        pieces ≡ chosen_pieces mask }
{}

/// A law: the bytes before the next repeat end at the first place from which five or more are
/// equal.
pub fn repeats_are_found()
    ensures none_before { (mask : List ℕ) (k : ℕ)
        → k < before_repeat mask → equal_bytes (drop k mask) < 5 }
    ensures there { (mask : List ℕ) → before_repeat mask < length mask
        → 5 ≤ equal_bytes (drop (before_repeat mask) mask) }
{}
