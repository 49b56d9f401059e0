//! Laws of the definitions, for the crates above. Each function does nothing: its contract is the
//! law.

ghost use Rattle.std.specs.Prelude.{◌≡◌, ℕ, ℤ, pos, ◌<◌, ◌≤ℤ◌, List, All, Some, Option, length};
ghost use Rattle.std.specs.Prelude.{get_or, map};
ghost use Rattle.first_fault.specs.Parts.{AreBytes, IsDecided, IsPart};
ghost use Rattle.micro_block.specs.Block.{IsBlock};
ghost use Rattle.micro_block.specs.Faults.{block_faults};
ghost use Rattle.micro_block.specs.ChosenBlock.{WrittenForm, block_bytes, kept, least_value};
ghost use Rattle.micro_block.specs.Fewest.{IsFirstLeast, first_least};
ghost use Rattle.micro_block.specs.Frame.{AreWritable, Frame};
ghost use Rattle.micro_block.specs.Near.{IsNear};
ghost use Rattle.raster_cells.specs.PixelType.{InRange};

/// A block is read in one way, whatever follows it, and bytes begin with one or have one first
/// fault.
pub fn blocks_stand_or_have_one_fault()
    ensures part { (f : Frame) → IsPart (IsBlock f) (block_faults f) }
    ensures decided { (f : Frame) → IsDecided (IsBlock f) (block_faults f) }
{}

/// The values of a block are the type's, where its top is.
pub fn block_values_are_in_range()
    ensures { (f : Frame) (bytes : List ℕ) (values : List ℤ) → AreBytes bytes →
        InRange f.kind f.top → IsBlock f bytes values → All (InRange f.kind) values }
{}

/// The written block stands for what is kept of its values, each within half a step of the value,
/// not below the least of them and not above the top. At step 1 it stands for the values
/// themselves.
pub fn written_blocks_stand()
    ensures stands { (f : Frame) (values : List ℤ) → AreWritable f values →
        IsBlock f (block_bytes f.kind f.col f.step values)
        (map (kept f.kind f.col f.step f.top values) values) }
    ensures near { (f : Frame) (values : List ℤ) → AreWritable f values →
        (i : ℕ) → i < length values → IsNear f.step (get_or values i (pos 0))
        (kept f.kind f.col f.step f.top values (get_or values i (pos 0))) }
    ensures capped { (f : Frame) (values : List ℤ) → AreWritable f values →
        (i : ℕ) → i < length values → (least_value values
        ≤ℤ kept f.kind f.col f.step f.top values (get_or values i (pos 0)))
        × (kept f.kind f.col f.step f.top values (get_or values i (pos 0)) ≤ℤ f.top) }
    ensures exact { (f : Frame) (values : List ℤ) → AreWritable f values → f.step ≡ 1 →
        map (kept f.kind f.col f.step f.top values) values ≡ values }
{}

/// What is taken of candidates is the one that is there, not larger than any, and smaller than each
/// before it.
pub fn first_least_is_first()
    ensures { (size : WrittenForm
        → ℕ) (candidates : List (Option WrittenForm)) (k : ℕ) (x : WrittenForm) →
        IsFirstLeast size candidates k x → first_least size candidates ≡ Some x }
{}
