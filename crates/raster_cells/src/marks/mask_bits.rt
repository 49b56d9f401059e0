//! The bits of a mask in a caller's bytes: a bit for each pixel, row by row and the highest of each
//! byte first. Those behind the last pixel are spare.

ghost use Rattle.std.specs.Prelude.{◌≡◌, ℕ, ◌+◌, ◌*◌, ◌/◌, ◌≤◌, length, replicate, true, false};
ghost use Rattle.raster_cells.specs.Masks.{marks_in, mask_bit};
ghost use Rattle.raster_cells.specs.Masks.{count_of};

use crate::marks::bits::clear_spare;
use crate::marks::counting::count_bits;

/// Gives all bytes one value.
fn fill_bytes(bytes: &mut [u8], byte: u8)
    ensures { bytes.new ≡ replicate (length bytes.old) byte }
{
    bytes.fill(byte);
}

/// Clears all bits.
pub fn clear_bits(bits: &mut [u8], pixels: usize)
    ensures size { length bits.new ≡ length bits.old }
    ensures marks { marks_in pixels bits.new ≡ replicate pixels false }
    ensures spare { (k : ℕ) → mask_bit bits.new k ≡ false }
{
    fill_bytes(bits, 0);
}

/// Sets the bits of all pixels, and clears the spare ones.
pub fn set_bits(bits: &mut [u8], pixels: usize)
    requires few { pixels ≤ 16777216 }
    requires size { length bits.old ≡ (pixels + 7) / 8 }
    ensures size { length bits.new ≡ length bits.old }
    ensures marks { marks_in pixels bits.new ≡ replicate pixels true }
    ensures spare { (k : ℕ) → pixels ≤ k → mask_bit bits.new k ≡ false }
{
    fill_bytes(bits, 255);
    clear_spare(bits, pixels);
}

/// How many pixels have a bit that is 1.
pub fn count_marked(bits: &[u8], pixels: usize) -> usize
    requires few { pixels ≤ 16777216 }
    requires within { pixels ≤ 8 * length bits.now }
    ensures value { result ≡ count_of (marks_in pixels bits.now) }
    ensures within { result ≤ pixels }
{
    count_bits(bits, 0, pixels)
}
