//! Laws of the definitions, for the crates above. Each function does nothing: its contract is the
//! law.

ghost use Rattle.std.specs.Prelude.{◌≡◌, ◌^◌, ◌<◌, ◌≤◌, ℕ, List, All, length, slice_index};
ghost use Rattle.first_fault.specs.Parts.{IsDecided, IsPart};
ghost use Rattle.bit_stuff.specs.Head.{IsListHeadOf, list_head_faults};
ghost use Rattle.bit_stuff.specs.Simple.{IsSimpleList, simple_bytes};
ghost use Rattle.bit_stuff.specs.Stuffed.{HasClearSpareBits, IsStuffed, stuffed_bytes, stuffed_size};

/// More numbers, or wider ones, take no fewer bytes.
pub fn length_is_monotone()
    ensures { (count more width wider : ℕ) → count ≤ more → width ≤ wider →
        stuffed_size count width ≤ stuffed_size more wider }
{}

/// Stuffed bytes of one count and width stand for one list, and so many bytes stand for some.
pub fn stuffed_bytes_have_one_list()
    ensures one { (bytes xs ys : List ℕ) (width : ℕ) →
        IsStuffed bytes width xs → IsStuffed bytes width ys → length xs ≡ length ys → xs ≡ ys }
    ensures some { (bytes : List ℕ) (width n : ℕ) → length bytes ≡ stuffed_size n width →
        (values : List ℕ) × ((length values ≡ n) × IsStuffed bytes width values) }
{}

/// A value that is stuffed in `width` bits is below `2 ^ width`.
pub fn stuffed_values_are_below()
    ensures { (bytes values : List ℕ) (width : ℕ) →
        IsStuffed bytes width values → All (λ v. v < 2 ^ width) values }
{}

/// What `stuff` writes is stuffed of its values, and has clear spare bits.
pub fn written_bytes_are_stuffed()
    ensures stuffed { (values : List ℕ) (width : ℕ) → All (λ v. v < 2 ^ width) values →
        IsStuffed (stuffed_bytes width values) width values }
    ensures spare { (values : List ℕ) (width : ℕ) → All (λ v. v < 2 ^ width) values →
        HasClearSpareBits (stuffed_bytes width values) width (length values) }
{}

/// No other bytes with clear spare bits are stuffed of these values.
pub fn clear_bytes_are_written_bytes()
    ensures { (bytes values : List ℕ) (width : ℕ) →
        ((i : ℕ) → slice_index bytes i < 256) → IsStuffed bytes width values →
        HasClearSpareBits bytes width (length values) → bytes ≡ stuffed_bytes width values }
{}

/// The bytes that `write_simple` chooses are a list of their values.
pub fn simple_bytes_are_a_list()
    ensures { (values : List ℕ) → length values < 2 ^ 32 → All (λ v. v < 2 ^ 31) values →
        IsSimpleList (simple_bytes values) values }
{}

/// Bytes are a list in the simple form of one list of values at most.
pub fn simple_lists_have_one_list()
    ensures { (bytes xs ys : List ℕ) → IsSimpleList bytes xs → IsSimpleList bytes ys → xs ≡ ys }
{}

/// A head is read in one way, whatever follows it, and it stands or has one first fault.
pub fn heads_stand_or_have_one_fault()
    ensures part { (n : ℕ) → IsPart (IsListHeadOf n) (list_head_faults n) }
    ensures decided { (n : ℕ) → IsDecided (IsListHeadOf n) (list_head_faults n) }
{}
