//! A further blob of a tile, decoded into a caller's arrays: that of the mask begins as the mask of
//! the blob before.

ghost use Rattle.std.specs.Prelude.{◌≡◌, ◌≤◌, ◌<◌, ◌*◌, ◌-◌, ◌∷◌, ℕ, IfErr, IfOk, IfSome, IsNone};
ghost use Rattle.std.specs.Prelude.{List, OnOk, Option, Some, drop, false, get_or, length, take};
ghost use Rattle.raster_values.specs.Flat.{all_values, marks_of};
ghost use Rattle.raster_cells.specs.Values.{values_bytes};
ghost use Rattle.raster_values.specs.RasterMut.{array_of, bytes_in, lent_pixels};
ghost use Rattle.raster_cells.specs.Masks.{count_of, marks_in, mask_bit};
ghost use Rattle.raster_values.specs.Raster.{Pixels};
ghost use Rattle.lerc_header.specs.Head.{HeadAt, head_length};
ghost use Rattle.lerc_grammar.specs.Blob.{BlobAfter, blob_faults};
ghost use Rattle.lerc_grammar.specs.Mask.{IsMaskAfter, Previous, mask_size};
ghost use Rattle.lerc_grammar.specs.Bands.{unlike_faults};
ghost use Rattle.lerc_grammar.specs.declared.bands.BandReason.{BandReason};
ghost use Rattle.lerc_grammar.specs.Outline.{IsMaskForm, IsMaskFormAfter, image_place};
ghost use Rattle.lerc_decode.specs.Over.{HaveRoom};
ghost use Rattle.lerc_decode.specs.inside.Body.{HasHeadShape, IsFaultIn, IsMarkedAs, IsMarkedFor};
ghost use Rattle.lerc_decode.specs.inside.Body.{KeepsMarks, marks_for};
ghost use Rattle.lerc_decode.specs.inside.OverNext.{HaveOneShape, IsFaultBehind, IsHeldBehind};
ghost use Rattle.lerc_decode.specs.inside.OverNext.{IsMaskBehind, IsNextBand, IsNextFault};
ghost use Rattle.lerc_decode.specs.inside.OverNext.{IsScatteredAfter, MayFollow};

use crate::blob::body::image_of;
use crate::blob::masks::bits_of_runs;
use crate::blob::summed::SummedBlob;
use crate::over::{cut_fault, front_header};
use lerc_grammar::{BandReason, BandsFault, MaskForm, mask_part};
use lerc_header::{BlobFault, Header};
use raster_values::{RasterMut, clear_bits, clear_spare, count_marked, set_bits};

/// The form of the mask, where these bits are that of the blob before.
fn form_behind(blob: &SummedBlob, bits: &[u8]) -> Result<MaskForm, BlobFault>
    requires room { length bits.now ≡ mask_size (blob.now.header.rows * blob.now.header.cols) }
    ensures ok { IfOk result (λ form. IsMaskFormAfter
        (Some (count_of (marks_in (blob.now.header.rows * blob.now.header.cols) bits.now)))
        blob.now.header blob.now.bytes.now form) }
    ensures fault { IfErr result
        (λ fault. IsFaultBehind blob.now.header blob.now.bytes.now bits.now fault) }
{
    let header = &blob.header;
    let counted = count_marked(bits, header.rows as usize * header.cols as usize);
    mask_part(blob.bytes, header, Some(counted as u32))
}

/// Reads the bits of the blob's mask, in the place of those of the blob before.
fn bits_behind(blob: &SummedBlob, form: &MaskForm, bits: &mut [u8]) -> Result<(), BlobFault>
    requires form { IsMaskFormAfter
        (Some (count_of (marks_in (blob.now.header.rows * blob.now.header.cols) bits.old)))
        blob.now.header blob.now.bytes.now form.now }
    requires room { length bits.old ≡ mask_size (blob.now.header.rows * blob.now.header.cols) }
    ensures ok { OnOk result
        (IsMaskBehind blob.now.header blob.now.bytes.now form.now bits.old bits.new) }
    ensures spare { OnOk result ((k : ℕ) → blob.now.header.rows * blob.now.header.cols ≤ k
        → mask_bit bits.new k ≡ false) }
    ensures fault { IfErr result
        (λ fault. IsFaultBehind blob.now.header blob.now.bytes.now bits.old fault) }
{
    let header = &blob.header;
    let pixels = header.rows as usize * header.cols as usize;
    match *form {
        MaskForm::Empty => {
            clear_bits(bits, pixels);
            Ok(())
        }
        MaskForm::Full => {
            set_bits(bits, pixels);
            Ok(())
        }
        MaskForm::Runs { len, .. } => {
            let place = header.version.head_length() + 4;
            bits_of_runs(
                &blob.bytes[place..place + len as usize],
                place,
                header,
                bits,
            )
        }
        MaskForm::Previous => {
            clear_spare(bits, pixels);
            Ok(())
        }
    }
}

/// Gives the raster in the caller's arrays the values that the image says, whatever the raster
/// before is.
fn fill_behind(blob: &SummedBlob, form: &MaskForm, lent: &mut RasterMut) -> Result<(), BlobFault>
    requires form { IsMaskForm blob.now.header blob.now.bytes.now form.now }
    requires shape { HasHeadShape blob.now.header (lent_pixels lent.old) }
    requires valid { count_of (marks_of (lent_pixels lent.old)) ≡ blob.now.header.valid }
    ensures ok { OnOk result ((before : Option Previous) →
        IsMarkedFor before blob.now.header blob.now.bytes.now form.now (lent_pixels lent.old) →
        BlobAfter before blob.now.bytes.now (lent_pixels lent.new)) }
    ensures fault { IfErr result (λ fault. (before : Option Previous) →
        IsMarkedFor before blob.now.header blob.now.bytes.now form.now (lent_pixels lent.old) →
        IsFaultIn (blob_faults before blob.now.header blob.now.bytes.now) fault) }
    ensures marks { KeepsMarks (lent_pixels lent.old) (lent_pixels lent.new) }
    ensures bytes { bytes_in lent.new ≡ values_bytes (lent_pixels lent.new).kind
        (all_values (lent_pixels lent.new)) }
    ensures array { array_of lent.new ≡ array_of lent.old }
{
    image_of(blob, form, lent)
}

/// Reads the image into the array of values, behind a mask that stands.
fn scatter_behind(
    blob: &SummedBlob,
    form: &MaskForm,
    mask: &[u8],
    values: &mut [u8],
) -> Result<(), BlobFault>
    requires form { IsMaskForm blob.now.header blob.now.bytes.now form.now }
    requires room { HaveRoom blob.now.header (length values.old) (length mask.now) }
    requires valid { count_of (marks_in (blob.now.header.rows * blob.now.header.cols) mask.now)
        ≡ blob.now.header.valid }
    ensures bytes { (k : ℕ) → get_or mask.now k 0 < 256 }
    ensures ok { OnOk result ((before : Option Previous) →
        IsMaskAfter (marks_for before blob.now.header)
        (blob.now.header.rows * blob.now.header.cols) blob.now.header.valid
        (take (image_place blob.now.header form.now - head_length blob.now.header.version)
        (drop (head_length blob.now.header.version) blob.now.bytes.now))
        (marks_in (blob.now.header.rows * blob.now.header.cols) mask.now) →
        IsScatteredAfter before blob.now.header blob.now.bytes.now mask.now values.new) }
    ensures fault { IfErr result (λ fault. (before : Option Previous) →
        IsMaskAfter (marks_for before blob.now.header)
        (blob.now.header.rows * blob.now.header.cols) blob.now.header.valid
        (take (image_place blob.now.header form.now - head_length blob.now.header.version)
        (drop (head_length blob.now.header.version) blob.now.bytes.now))
        (marks_in (blob.now.header.rows * blob.now.header.cols) mask.now) →
        IsFaultIn (blob_faults before blob.now.header blob.now.bytes.now) fault) }
{
    let header = &blob.header;
    let mut lent = RasterMut::over(
        header.kind,
        header.rows,
        header.cols,
        header.depth,
        mask,
        values,
    );
    fill_behind(blob, form, &mut lent)
}

/// Decodes a whole blob, whose header and checksum stand, into arrays of the lengths that it asks
/// for.
fn summed_behind(blob: &SummedBlob, values: &mut [u8], mask: &mut [u8]) -> Result<(), BlobFault>
    requires room { HaveRoom blob.now.header (length values.old) (length mask.old) }
    ensures ok { OnOk result
        (IsHeldBehind blob.now.header blob.now.bytes.now mask.old values.new mask.new) }
    ensures fault { IfErr result
        (λ fault. IsFaultBehind blob.now.header blob.now.bytes.now mask.old fault) }
{
    let form = form_behind(blob, mask)?;
    bits_behind(blob, &form, mask)?;
    scatter_behind(blob, &form, mask, values)
}

/// The same, where it is not known that the checksum stands.
fn body_behind(
    blob: &[u8],
    header: &Header,
    values: &mut [u8],
    mask: &mut [u8],
) -> Result<(), BlobFault>
    requires head { HeadAt blob.now header.now }
    requires size { length blob.now ≡ header.now.size }
    requires room { HaveRoom header.now (length values.old) (length mask.old) }
    ensures ok { OnOk result (IsHeldBehind header.now blob.now mask.old values.new mask.new) }
    ensures fault { IfErr result (λ fault. IsFaultBehind header.now blob.now mask.old fault) }
{
    match SummedBlob::of(blob, header) {
        Ok(summed) => summed_behind(&summed, values, mask),
        Err(fault) => Err(fault),
    }
}

/// Where a header differs from the first one in type or shape.
fn unlike_place(first: &Header, header: &Header) -> Option<usize>
    ensures place { IfSome result (λ place. (r : Pixels) (more : List Pixels) →
        HasHeadShape first.now r → unlike_faults (r ∷ more) header.now place BandReason.BadBand) }
    ensures none { IsNone result → HaveOneShape header.now first.now }
{
    let head = header.version.head_length();
    if header.rows != first.rows {
        return Some(14);
    }
    if header.cols != first.cols {
        return Some(18);
    }
    if header.depth != first.depth {
        return Some(head - 44);
    }
    if header.kind != first.kind {
        return Some(head - 28);
    }
    None
}

/// A fault of a blob as one of a tile.
pub(crate) fn tile_fault(fault: BlobFault) -> BandsFault
    ensures { result ≡ record { reason = BandReason.Blob fault.reason; place = fault.place } }
{
    BandsFault {
        reason: BandReason::Blob(fault.reason),
        place: fault.place,
    }
}

/// Decodes the blob with which these bytes begin, behind others of the first header's type and
/// shape, and answers how many bytes it has. The array of the mask begins as the mask of the blob
/// before.
pub(crate) fn next_over(
    rest: &[u8],
    first: &Header,
    values: &mut [u8],
    mask: &mut [u8],
) -> Result<usize, BandsFault>
    requires room { HaveRoom first.now (length values.old) (length mask.old) }
    ensures ok { IfOk result (λ size. (bands : List Pixels) → MayFollow bands first.now mask.old →
        IsNextBand bands first.now rest.now size values.new mask.new) }
    ensures fault { IfErr result (λ fault. (bands : List Pixels) →
        MayFollow bands first.now mask.old → IsNextFault bands rest.now fault) }
{
    let header = match front_header(rest) {
        Ok(header) => header,
        Err(fault) => return Err(tile_fault(fault)),
    };
    if let Some(place) = unlike_place(first, &header) {
        return Err(BandsFault {
            reason: BandReason::BadBand,
            place: place as u64,
        });
    }
    let size = header.size as usize;
    if rest.len() < size {
        return Err(tile_fault(cut_fault(rest)));
    }
    match body_behind(&rest[..size], &header, values, mask) {
        Ok(()) => Ok(size),
        Err(fault) => Err(tile_fault(fault)),
    }
}
