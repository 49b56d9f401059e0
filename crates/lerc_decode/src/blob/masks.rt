//! The mask of a blob, as bits: one for each pixel, row by row and the highest of each byte first,
//! and the bits behind the last pixel 0.

ghost use Rattle.std.specs.Prelude.{◌≡◌, ◌≤◌, ◌*◌, ◌+◌, ◌-◌, ◌<◌, ◌^◌, ℕ, IfErr, OnOk, Some, drop};
ghost use Rattle.std.specs.Prelude.{false, length, take};
ghost use Rattle.first_fault.specs.Faults.{moved};
ghost use Rattle.raster_cells.specs.Masks.{marks_in, mask_bit};
ghost use Rattle.lerc_header.specs.Head.{head_length};
ghost use Rattle.lerc_grammar.specs.Blob.{blob_faults};
ghost use Rattle.lerc_grammar.specs.Mask.{IsMaskAfter, count_before, mask_size, runs_faults};
ghost use Rattle.lerc_grammar.specs.Outline.{image_place};
ghost use Rattle.lerc_decode.specs.inside.Body.{IsFaultIn, IsMarkedBy, IsMaskFormFor, marks_for};

use crate::blob::faults::refuse;
use crate::blob::previous_mask::PreviousMask;
use crate::blob::summed::SummedBlob;
use lerc_grammar::MaskForm;
use lerc_header::{BlobFault, BlobReason, Header};
use mask_runs::read_runs;
use raster_values::{clear_bits, clear_spare, count_marked, set_bits};

/// Reads the bits that the runs say, which begin at this place of the blob.
pub(crate) fn bits_of_runs(
    runs: &[u8],
    place: usize,
    header: &Header,
    bits: &mut [u8],
) -> Result<(), BlobFault>
    requires pixels { header.now.rows * header.now.cols ≤ 16777216 }
    requires room { length bits.old ≡ mask_size (header.now.rows * header.now.cols) }
    requires few { place + length runs.now < 2 ^ 62 }
    ensures ok { OnOk result (IsMarkedBy (header.now.rows * header.now.cols) header.now.valid
        runs.now (marks_in (header.now.rows * header.now.cols) bits.new)) }
    ensures spare { OnOk result ((k : ℕ) → header.now.rows * header.now.cols ≤ k
        → mask_bit bits.new k ≡ false) }
    ensures fault { IfErr result (λ fault. IsFaultIn (moved place
        (runs_faults (header.now.rows * header.now.cols) header.now.valid runs.now)) fault) }
{
    if let Err(fault) = read_runs(runs, bits) {
        return refuse(BlobReason::BadRun, place + fault.at);
    }
    let pixels = header.rows as usize * header.cols as usize;
    clear_spare(bits, pixels);
    let counted = count_marked(bits, pixels) as u32;
    if counted != header.valid {
        return refuse(
            BlobReason::BadMaskCount {
                header: header.valid,
                counted,
            },
            place,
        );
    }
    Ok(())
}

/// Copies the bits of the raster before, which has the header's rows and columns.
fn bits_before(before: &Option<PreviousMask>, header: &Header, bits: &mut [u8])
    requires count { count_before (marks_for before.now header.now) ≡ Some header.now.valid }
    requires pixels { header.now.rows * header.now.cols ≤ 16777216 }
    requires room { length bits.old ≡ mask_size (header.now.rows * header.now.cols) }
    ensures marks { marks_for before.now header.now
        ≡ Some (marks_in (header.now.rows * header.now.cols) bits.new) }
    ensures spare { (k : ℕ) → header.now.rows * header.now.cols ≤ k
        → mask_bit bits.new k ≡ false }
{
    if let Some(before) = before {
        before.bits(header, bits);
    }
}

/// Reads the bits of the blob's mask.
pub(crate) fn mask_bits(
    blob: &SummedBlob,
    form: &MaskForm,
    before: &Option<PreviousMask>,
    bits: &mut [u8],
) -> Result<(), BlobFault>
    requires form { IsMaskFormFor before.now blob.now.header blob.now.bytes.now form.now }
    requires room { length bits.old ≡ mask_size (blob.now.header.rows * blob.now.header.cols) }
    ensures ok { OnOk result (IsMaskAfter (marks_for before.now blob.now.header)
        (blob.now.header.rows * blob.now.header.cols) blob.now.header.valid
        (take (image_place blob.now.header form.now - head_length blob.now.header.version)
        (drop (head_length blob.now.header.version) blob.now.bytes.now))
        (marks_in (blob.now.header.rows * blob.now.header.cols) bits.new)) }
    ensures spare { OnOk result ((k : ℕ) → blob.now.header.rows * blob.now.header.cols ≤ k
        → mask_bit bits.new k ≡ false) }
    ensures fault { IfErr result (λ fault.
        IsFaultIn (blob_faults before.now blob.now.header blob.now.bytes.now) fault) }
{
    let header = &blob.header;
    let pixels = header.rows as usize * header.cols as usize;
    match *form {
        MaskForm::Empty => {
            clear_bits(bits, pixels);
            Ok(())
        }
        MaskForm::Full => {
            set_bits(bits, pixels);
            Ok(())
        }
        MaskForm::Runs { len, .. } => {
            let place = header.version.head_length() + 4;
            bits_of_runs(
                &blob.bytes[place..place + len as usize],
                place,
                header,
                bits,
            )
        }
        MaskForm::Previous => {
            bits_before(before, header, bits);
            Ok(())
        }
    }
}
