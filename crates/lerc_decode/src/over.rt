//! Decoding into a caller's arrays.

ghost use Rattle.std.specs.Prelude.{◌≡◌, ◌≤◌, ◌<◌, ◌*◌, ◌-◌, ◌↔◌, ℕ, IfErr, IfOk, IsErrOf, IsTrue};
ghost use Rattle.std.specs.Prelude.{None, OnOk, drop, get_or, length, take};
ghost use Rattle.raster_values.specs.Flat.{all_values};
ghost use Rattle.raster_cells.specs.Values.{values_bytes};
ghost use Rattle.raster_values.specs.RasterMut.{array_of, bytes_in, lent_pixels};
ghost use Rattle.raster_cells.specs.Masks.{marks_in};
ghost use Rattle.raster_cells.specs.Shapes.{IsShape};
ghost use Rattle.raster_values.specs.Raster.{Pixels};
ghost use Rattle.lerc_header.specs.Head.{HeadAt, head_length};
ghost use Rattle.lerc_header.specs.HeadFaults.{HasKey, HasVersion};
ghost use Rattle.lerc_header.specs.declared.header.Header.{Header};
ghost use Rattle.lerc_grammar.specs.Blob.{Blob, blob_faults};
ghost use Rattle.lerc_grammar.specs.Mask.{IsMaskAfter};
ghost use Rattle.lerc_grammar.specs.Outline.{IsMaskForm, image_place};
ghost use Rattle.lerc_decode.specs.Over.{AskOtherRoom, HaveRoom, HoldRaster, IsDecodedOver};
ghost use Rattle.lerc_decode.specs.Over.{IsFaultOf, IsOverStop};
ghost use Rattle.lerc_decode.specs.inside.Body.{IsFaultIn, IsMarkedFor, IsScatteredOver, KeepsMarks};

use crate::blob::body::{image_of, mask_form};
use crate::blob::front::{header_at, version_at};
use crate::blob::masks::mask_bits;
use crate::blob::previous_mask::PreviousMask;
use crate::blob::summed::SummedBlob;
use lerc_grammar::MaskForm;
use lerc_header::{BlobFault, BlobReason, Header, Version};
use raster_values::RasterMut;

/// Why no blob was decoded into a caller's arrays.
#[derive(Clone, Copy, Debug, PartialEq, Eq)]
pub enum OverFault {
    /// What is wrong with the blob first, or that the bytes end too early.
    Blob(BlobFault),
    /// The header asks for arrays of other lengths.
    Sizes,
}

/// The bytes end too early.
pub(crate) fn cut_fault(blob: &[u8]) -> BlobFault
    ensures { result ≡ record { reason = BlobReason.Truncated; place = length blob.now } }
{
    BlobFault {
        reason: BlobReason::Truncated,
        place: blob.len() as u64,
    }
}

/// The header with which the bytes begin, whose key and version stand.
fn header_behind(blob: &[u8], version: Version) -> Result<Header, BlobFault>
    requires ten { 10 ≤ length blob.now }
    requires key { HasKey (take 10 blob.now) }
    requires version { HasVersion (take 10 blob.now) version }
    ensures ok { IfOk result (λ h. HeadAt blob.now h) }
    ensures fault { IfErr result (λ f. IsFaultOf blob.now f) }
    ensures none { IfErr result (λ f. (h : Header) → ¬ HeadAt blob.now h) }
{
    let size = version.head_length();
    if blob.len() < size {
        return Err(cut_fault(blob));
    }
    header_at(version, &blob[..size])
}

/// The header with which the bytes begin.
pub(crate) fn front_header(blob: &[u8]) -> Result<Header, BlobFault>
    ensures ok { IfOk result (λ h. HeadAt blob.now h) }
    ensures fault { IfErr result (λ f. IsFaultOf blob.now f) }
    ensures none { IfErr result (λ f. (h : Header) → ¬ HeadAt blob.now h) }
{
    if blob.len() < 10 {
        return Err(cut_fault(blob));
    }
    match version_at(blob) {
        Ok(version) => header_behind(blob, version),
        Err(fault) => Err(fault),
    }
}

/// Whether arrays of these lengths are those of a raster of the header's type and shape.
fn have_room(header: &Header, values: usize, mask: usize) -> bool
    requires { IsShape header.now.rows header.now.cols header.now.depth }
    ensures { IsTrue result ↔ HaveRoom header.now values mask }
{
    let pixels = header.rows as usize * header.cols as usize;
    let size = pixels * header.depth as usize * header.kind.bytes();
    values == size && mask == (pixels + 7) / 8
}

/// Gives the raster in the caller's arrays the values that the image says.
fn fill_lent(blob: &SummedBlob, form: &MaskForm, lent: &mut RasterMut) -> Result<(), BlobFault>
    requires form { IsMaskForm blob.now.header blob.now.bytes.now form.now }
    requires marked { IsMarkedFor None blob.now.header blob.now.bytes.now form.now
        (lent_pixels lent.old) }
    ensures ok { OnOk result (Blob blob.now.bytes.now (lent_pixels lent.new)) }
    ensures fault { IfErr result
        (λ fault. IsFaultIn (blob_faults None blob.now.header blob.now.bytes.now) fault) }
    ensures marks { KeepsMarks (lent_pixels lent.old) (lent_pixels lent.new) }
    ensures bytes { bytes_in lent.new ≡ values_bytes (lent_pixels lent.new).kind
        (all_values (lent_pixels lent.new)) }
    ensures array { array_of lent.new ≡ array_of lent.old }
{
    image_of(blob, form, lent)
}

/// Reads the image into the array of values, behind a mask that stands.
fn scatter_over(
    blob: &SummedBlob,
    form: &MaskForm,
    mask: &[u8],
    values: &mut [u8],
) -> Result<(), BlobFault>
    requires form { IsMaskForm blob.now.header blob.now.bytes.now form.now }
    requires room { HaveRoom blob.now.header (length values.old) (length mask.now) }
    requires mask { IsMaskAfter None (blob.now.header.rows * blob.now.header.cols)
        blob.now.header.valid
        (take (image_place blob.now.header form.now - head_length blob.now.header.version)
        (drop (head_length blob.now.header.version) blob.now.bytes.now))
        (marks_in (blob.now.header.rows * blob.now.header.cols) mask.now) }
    ensures bytes { (k : ℕ) → get_or mask.now k 0 < 256 }
    ensures ok { OnOk result
        (IsScatteredOver blob.now.header blob.now.bytes.now mask.now values.new) }
    ensures fault { IfErr result
        (λ fault. IsFaultIn (blob_faults None blob.now.header blob.now.bytes.now) fault) }
{
    let header = &blob.header;
    let mut lent = RasterMut::over(
        header.kind,
        header.rows,
        header.cols,
        header.depth,
        mask,
        values,
    );
    fill_lent(blob, form, &mut lent)
}

/// Decodes a whole blob, whose header and checksum stand, into arrays of the lengths that it asks
/// for.
fn summed_over(blob: &SummedBlob, values: &mut [u8], mask: &mut [u8]) -> Result<(), BlobFault>
    requires room { HaveRoom blob.now.header (length values.old) (length mask.old) }
    ensures ok { OnOk result ((r : Pixels) × (Blob blob.now.bytes.now r
        × HoldRaster r values.new mask.new)) }
    ensures fault { IfErr result
        (λ fault. IsFaultIn (blob_faults None blob.now.header blob.now.bytes.now) fault) }
{
    let before: Option<PreviousMask> = None;
    let form = mask_form(blob, &before)?;
    mask_bits(blob, &form, &before, mask)?;
    scatter_over(blob, &form, mask, values)
}

/// The same, where it is not known that the checksum stands.
fn body_over(
    blob: &[u8],
    header: &Header,
    values: &mut [u8],
    mask: &mut [u8],
) -> Result<(), BlobFault>
    requires head { HeadAt blob.now header.now }
    requires size { length blob.now ≡ header.now.size }
    requires room { HaveRoom header.now (length values.old) (length mask.old) }
    ensures ok { OnOk result ((r : Pixels) × (Blob blob.now r
        × HoldRaster r values.new mask.new)) }
    ensures fault { IfErr result (λ fault. IsFaultIn (blob_faults None header.now blob.now) fault) }
{
    match SummedBlob::of(blob, header) {
        Ok(summed) => summed_over(&summed, values, mask),
        Err(fault) => Err(fault),
    }
}

/// Decodes the blob with which the bytes begin into a caller's arrays, and answers how many bytes
/// it has: the bytes of all values, row by row and the depths innermost, in the bytes of the type,
/// little-endian and 0 where a pixel is invalid, and a bit for each pixel, row by row and the
/// highest of each byte first, the bits behind the last pixel 0. How long they have to be the
/// header says, which is asked first.
///
/// No memory is taken. Where the answer is `Sizes` the arrays stay as they were; where there is no
/// blob they hold anything.
pub fn decode_over(blob: &[u8], values: &mut [u8], mask: &mut [u8]) -> Result<usize, OverFault>
    ensures ok { IfOk result (λ size. IsDecodedOver blob.now size values.new mask.new) }
    ensures stop { IfErr result (λ stop.
        IsOverStop blob.now (length values.old) (length mask.old) stop) }
    ensures sizes { IsErrOf result OverFault.Sizes
        ↔ AskOtherRoom blob.now (length values.old) (length mask.old) }
    ensures kept { IsErrOf result OverFault.Sizes
        → (values.new ≡ values.old) × (mask.new ≡ mask.old) }
{
    let header = match front_header(blob) {
        Ok(header) => header,
        Err(fault) => return Err(OverFault::Blob(fault)),
    };
    if !have_room(&header, values.len(), mask.len()) {
        return Err(OverFault::Sizes);
    }
    let size = header.size as usize;
    if blob.len() < size {
        return Err(OverFault::Blob(cut_fault(blob)));
    }
    match body_over(&blob[..size], &header, values, mask) {
        Ok(()) => Ok(size),
        Err(fault) => Err(OverFault::Blob(fault)),
    }
}
