//! Laws of the words, for a reader. The crates above cite the lemmas in `proofs/`, which are about
//! parts and faults of every kind; a contract can speak of those whose tests are decided.

ghost use Rattle.first_fault.specs.Laws.{OrderIsSingle, RowsAreDecided, RowsArePart};

/// Parts in a row are a part: they are read in one way, and stand or have one first fault.
pub fn parts_in_a_row_are_a_part()
    ensures part { RowsArePart }
    ensures decided { RowsAreDecided }
{}

/// A part, and what may be wrong behind it, have one first fault.
pub fn a_part_and_its_rest_have_one_first_fault()
    ensures { OrderIsSingle }
{}
