//! The mask of a raster.

ghost use Rattle.std.specs.Prelude.{◌≡◌, ℕ, ◌+◌, ◌-◌, ◌*◌, ◌/◌, ◌%◌, ◌^◌, ◌<◌, ◌≤◌, ◌&&◌, [], None};
ghost use Rattle.std.specs.Prelude.{Some, false, get_or, is_some, length, nat_eq, nat_lt};
ghost use Rattle.mask_runs.specs.Ending.{ending_with};
ghost use Rattle.raster_values.specs.Raster.{valid_count};
ghost use Rattle.raster_cells.specs.Masks.{mask_bit};
ghost use Rattle.raster_values.specs.Flat.{marks_of};
ghost use Rattle.lerc_grammar.specs.Mask.{previous_of};
ghost use Rattle.lerc_encode.specs.Masks.{are_alike, mask_part, packed, runs_unless, takes_mask};

use byteorder::{ByteOrder, LittleEndian};
use mask_runs::{runs_len_with, write_runs_with};
use raster_access::View;
use raster_values::Raster;

/// Whether no pixel of a raster is valid, or every one.
fn is_alike<V: View>(raster: &V) -> bool
    ensures value { result ≡ are_alike (marks_of (V.pixels raster.now)) }
    ensures mixed { result ≡ false → valid_count (V.pixels raster.now)
        < (V.pixels raster.now).rows * (V.pixels raster.now).cols }
{
    let valid = raster.valid_count();
    valid == 0 || valid == raster.rows() * raster.cols()
}

/// Whether the mask of a raster is taken from the one before, which has the same.
pub(crate) fn takes_mask(previous: &Raster, raster: &Raster) -> bool
    ensures { result ≡ takes_mask (Some (previous_of previous.now)) raster.now }
{
    !is_alike(raster)
        && previous.rows() == raster.rows()
        && previous.cols() == raster.cols()
        && previous.has_mask_of(raster)
}

/// The byte with its last bits cleared.
fn without_last(byte: u8, count: usize) -> u8
    requires { count < 8 }
    ensures { (q : ℕ) → q < 8 → nat_eq (result / 2 ^ (7 - q) % 2) 1
        ≡ (nat_lt q (8 - count) && nat_eq (byte / 2 ^ (7 - q) % 2) 1) }
{
    byte & (255u8 << count)
}

/// The last byte of the mask of a raster, of these bytes: its bits behind the last pixel are
/// cleared.
fn last_of<V: View>(raster: &V, mask: &[u8]) -> u8
    requires size { length mask.now
        ≡ ((V.pixels raster.now).rows * (V.pixels raster.now).cols + 7) / 8 }
    requires bits { (k : ℕ) → k < (V.pixels raster.now).rows * (V.pixels raster.now).cols
        → mask_bit mask.now k ≡ is_some (get_or (V.pixels raster.now).pixels k None) }
    ensures packed { ending_with mask.now result ≡ packed (marks_of (V.pixels raster.now)) }
    ensures few { length mask.now ≤ 2097152 }
{
    let pixels = raster.rows() as usize * raster.cols() as usize;
    without_last(mask[mask.len() - 1], 8 * mask.len() - pixels)
}

/// How many bytes the runs of a raster's mask take: none where pixels are alike, nor where the mask
/// is taken from the raster before.
pub(crate) fn runs_size<V: View>(raster: &V, taken: bool) -> usize
    ensures value { result ≡ length (runs_unless taken (marks_of (V.pixels raster.now))) }
    ensures few { result ≤ 6291458 }
{
    if taken || is_alike(raster) {
        return 0;
    }
    let mask = raster.mask_slice();
    let last = last_of(raster, mask);
    runs_len_with(mask, last)
}

/// Writes the length of no runs.
pub(crate) fn write_no_mask(out: &mut [u8])
    requires { length out.old ≡ 4 }
    ensures { out.new ≡ mask_part [] }
{
    LittleEndian::write_u32(out, 0);
}

/// Writes the length of the mask's runs, and these, which are made from the mask's bytes where they
/// lie.
pub(crate) fn write_mask<V: View>(raster: &V, taken: bool, size: usize, out: &mut [u8])
    requires size { size ≡ length (runs_unless taken (marks_of (V.pixels raster.now))) }
    requires few { size ≤ 6291458 }
    requires room { length out.old ≡ 4 + size }
    ensures { out.new ≡ mask_part (runs_unless taken (marks_of (V.pixels raster.now))) }
{
    if taken || is_alike(raster) {
        write_no_mask(out);
        return;
    }
    let mask = raster.mask_slice();
    let last = last_of(raster, mask);
    LittleEndian::write_u32(out, size as u32);
    write_runs_with(mask, last, &mut out[4..]);
}
