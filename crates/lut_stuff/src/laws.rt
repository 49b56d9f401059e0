//! Laws of the definitions, for the crates above. Each function does nothing: its contract is the
//! law.

ghost use Rattle.std.specs.Prelude.{◌^◌, ◌<◌, ◌≤◌, ◌↔◌, ℕ, List, All, Contains, length};
ghost use Rattle.std.specs.List.Sorted.{IsStrictlyIncreasing};
ghost use Rattle.bit_stuff.specs.Simple.{IsSimpleList, greatest_number};
ghost use Rattle.first_fault.specs.Parts.{IsDecided, IsPart};
ghost use Rattle.lut_stuff.specs.Faults.{list_faults};
ghost use Rattle.lut_stuff.specs.Lists.{IsList, IsListOf};
ghost use Rattle.lut_stuff.specs.Ranked.{RanksRise};
ghost use Rattle.lut_stuff.specs.Tables.{distinct_above_0, entries_of, table_bytes};

/// A list of so many numbers is read in one way, whatever follows it, and bytes begin with one or
/// have one first fault.
pub fn lists_stand_or_have_one_fault()
    ensures part { (n : ℕ) → IsPart (IsListOf n) (list_faults n) }
    ensures decided { (n : ℕ) → IsDecided (IsListOf n) (list_faults n) }
{}

/// A list in the simple form is a list.
pub fn simple_lists_are_lists()
    ensures { (bytes values : List ℕ) → IsSimpleList bytes values → IsList bytes values }
{}

/// The entries of the chosen table are the different values above 0, in rising order.
pub fn entries_are_the_different_values()
    ensures rising { (values : List ℕ) → IsStrictlyIncreasing (entries_of values) }
    ensures members { (values : List ℕ) (v : ℕ) →
        Contains (entries_of values) v ↔ ((0 < v) × Contains values v) }
{}

/// Where some value is above 0, and at most 254 different ones are, the bytes that `write_table`
/// chooses are a list of the values.
pub fn table_bytes_are_a_list()
    ensures list { (values : List ℕ) → length values < 2 ^ 32 → All (λ v. v < 2 ^ 31) values →
        0 < distinct_above_0 values → distinct_above_0 values ≤ 254 →
        IsList (table_bytes values) values }
    ensures some { (values : List ℕ) →
        (0 < distinct_above_0 values) ↔ (0 < greatest_number values) }
{}

/// Equal values have equal ranks, and ranks rise with values.
pub fn ranks_rise_with_values()
    ensures { RanksRise }
{}
