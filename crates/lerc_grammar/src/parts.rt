//! What stands in a blob before its runs and its values: the forms of its mask and of its image.

ghost use Rattle.std.specs.Prelude.{◌≡◌, ◌≢◌, ◌^◌, ℕ, pos, ◌≤◌, ◌+◌, ◌*◌, ◌<◌, ◌⊎◌, IsTrue, ◌↔◌, IfOk, IfErr, List, [], length, drop, take, Option, Some, None, ◌∷◌, ◌++◌};
ghost use Rattle.raster_cells.specs.PixelType.{bytes_of};
ghost use Rattle.first_fault.specs.Faults.{choice, ends, none};
ghost use Rattle.lerc_header.specs.Head.{HeadAt, i32_at, head_length};
ghost use Rattle.lerc_grammar.specs.Mask.{IsAlike, mask_faults_of, taken_faults};
ghost use Rattle.lerc_grammar.specs.Image.{Ends, HasMode, IsBare, mode_faults, coded_faults, front_faults, greatest_mode, image_faults_of, mode_byte_faults, no_value_faults};
ghost use Rattle.lerc_grammar.specs.Outline.{IsFormOf, IsImageForm, IsMaskForm, IsMaskFormAfter, image_part_faults, image_place, mask_part_faults};
ghost use Rattle.lerc_header.specs.declared.fault.BlobFault.{BlobFault};
ghost use Rattle.lerc_grammar.specs.declared.parts.ImageForm.{ImageForm};
ghost use Rattle.lerc_grammar.specs.declared.parts.MaskForm.{MaskForm};
ghost use Rattle.lerc_grammar.specs.inside.Spans.{IsFormBehind, IsFormTold, IsFrontSpan, IsMaskSpan, IsZeroTold};

use lerc_header::{BlobFault, BlobReason, Header, Version, signed_at};

/// The form of a blob's mask.
#[derive(Clone, Copy, Debug, PartialEq, Eq)]
pub enum MaskForm {
    /// No pixel is valid.
    Empty,
    /// Every pixel is valid.
    Full,
    /// `len` bytes of runs, the first of them at the place `at`.
    Runs { at: u64, len: u32 },
    /// The mask of the blob before.
    Previous,
}

/// The form of a blob's image. `at` is the place of the first byte of what tells the values.
#[derive(Clone, Copy, Debug, PartialEq, Eq)]
pub enum ImageForm {
    /// No pixel is valid, and there are no bytes.
    Empty,
    /// All values are one, and there are no bytes.
    Constant,
    /// All pixels have one list, which stands twice.
    Ranges,
    /// The values as they are.
    Sweep { at: u64 },
    /// Blocks.
    Blocks { at: u64 },
    /// A code table, and the differences between pixels.
    Delta { at: u64 },
    /// A code table, and the values.
    Plain { at: u64 },
}

/// What a blob says of itself in front of its runs and its values.
#[derive(Clone, Copy, Debug, PartialEq, Eq)]
pub struct Outline {
    pub header: Header,
    pub mask: MaskForm,
    pub image: ImageForm,
}

/// A fault, as an answer.
fn refuse<T: Drop>(reason: BlobReason, place: u64) -> Result<T, BlobFault>
    ensures { result ≡ Err (record { reason = reason; place = place }) }
{
    Err(BlobFault { reason, place })
}

/// A fault so many bytes further on.
fn later(fault: BlobFault, by: usize) -> BlobFault
    requires { by + fault.place < 2 ^ 64 }
    ensures { result ≡ record { reason = fault.reason; place = by + fault.place } }
{
    BlobFault {
        reason: fault.reason,
        place: by as u64 + fault.place,
    }
}

/// Whether no pixel or every pixel is valid.
fn are_alike(pixels: u64, valid: u64) -> bool
    ensures { IsTrue result ↔ IsAlike pixels valid }
{
    valid == 0 || valid == pixels
}

/// No runs, where some pixels are valid and some are not: the mask is the one before, where there
/// is one and as many of its pixels are valid.
fn taken_span(valid: u32, before: Option<u32>) -> Result<u32, BlobFault>
    ensures ok { IfOk result (λ n. (n ≡ 0) × (before ≡ Some valid)) }
    ensures fault { IfErr result (λ f. taken_faults before valid f.place f.reason) }
    ensures near { IfErr result (λ f. f.place ≡ 0) }
{
    let Some(counted) = before else {
        return refuse(BlobReason::MaskMissing, 0);
    };
    if counted != valid {
        return refuse(
            BlobReason::BadMaskCount {
                header: valid,
                counted,
            },
            0,
        );
    }
    Ok(0)
}

/// How many bytes of runs stand behind the mask's length.
fn mask_span(rest: &[u8], pixels: u64, valid: u32, before: Option<u32>) -> Result<u32, BlobFault>
    ensures ok { IfOk result (λ n. IsMaskSpan before pixels valid rest.now n) }
    ensures fault { IfErr result (λ f.
        mask_faults_of before (λ runs. none) pixels valid rest.now f.place f.reason) }
    ensures near { IfErr result (λ f. f.place ≤ 4) }
{
    if rest.len() < 4 {
        return refuse(BlobReason::PastEnd, 0);
    }
    let number = signed_at(rest, 0);
    let alike = are_alike(pixels, u64::from(valid));
    if number < 0 || (alike && number != 0) {
        return refuse(BlobReason::BadMaskLength, 0);
    }
    if alike {
        return Ok(0);
    }
    if number == 0 {
        return taken_span(valid, before);
    }
    let size = number as u32;
    if size as usize > rest.len() - 4 {
        return refuse(BlobReason::PastEnd, 4);
    }
    Ok(size)
}

/// The form of the mask, or what is wrong with it first.
fn first_mask_form(blob: &[u8], header: &Header, before: Option<u32>) -> Result<MaskForm, BlobFault>
    requires long { head_length header.now.version ≤ length blob.now }
    ensures ok { IfOk result (λ form. IsMaskFormAfter before header.now blob.now form) }
    ensures fault { IfErr result (λ f.
        mask_part_faults before header.now blob.now f.place f.reason) }
{
    let head = header.version.head_length();
    let pixels = u64::from(header.rows) * u64::from(header.cols);
    let len = match mask_span(&blob[head..], pixels, header.valid, before) {
        Ok(len) => len,
        Err(fault) => return Err(later(fault, head)),
    };
    if header.valid == 0 {
        return Ok(MaskForm::Empty);
    }
    if u64::from(header.valid) == pixels {
        return Ok(MaskForm::Full);
    }
    if len == 0 {
        return Ok(MaskForm::Previous);
    }
    Ok(MaskForm::Runs {
        at: head as u64 + 4,
        len,
    })
}

/// The form of the mask, or what is wrong first with its length.
///
/// It tests the length and that the runs lie within the blob, and does not look inside them. It
/// takes no memory. `before` is how many pixels are valid in the raster of the blob before, where
/// it has the same rows and columns.
pub fn mask_part(blob: &[u8], header: &Header, before: Option<u32>) -> Result<MaskForm, BlobFault>
    requires head { HeadAt blob.now header.now }
    requires size { length blob.now ≡ header.now.size }
    ensures ok { (form : MaskForm) →
        (result ≡ Ok form) ↔ IsMaskFormAfter before header.now blob.now form }
    ensures fault { (f : BlobFault) →
        (result ≡ Err f) ↔ mask_part_faults before header.now blob.now f.place f.reason }
{
    first_mask_form(blob, header, before)
}

/// How many bytes each of the two lists takes in version 4.
fn list_len(header: &Header) -> usize
    requires { header.now.depth ≤ 65536 }
    ensures size { result ≡ header.now.depth * bytes_of header.now.kind }
    ensures few { result ≤ 262144 }
{
    header.depth as usize * header.kind.bytes()
}

/// Whether the bytes are the same.
fn are_same(some: &[u8], others: &[u8]) -> bool
    ensures { IsTrue result ↔ (some.now ≡ others.now) }
{
    some == others
}

/// How many bytes the lists take, and whether they are equal.
fn front_span(rest: &[u8], header: &Header) -> Result<(usize, bool), BlobFault>
    requires { header.now.depth ≤ 65536 }
    ensures ok { IfOk result (λ span. IsFrontSpan header.now rest.now span.0 span.1) }
    ensures fault { IfErr result (λ f.
        front_faults header.now header.now.version rest.now f.place f.reason) }
    ensures near { IfErr result (λ f. f.place ≤ 262144) }
{
    match header.version {
        Version::V3 => Ok((0, false)),
        Version::V4 => {
            let size = list_len(header);
            if rest.len() < size {
                return refuse(BlobReason::PastEnd, 0);
            }
            if rest.len() - size < size {
                return refuse(BlobReason::PastEnd, size as u64);
            }
            Ok((2 * size, are_same(&rest[..size], &rest[size..2 * size])))
        }
    }
}

/// Whether a mode byte stands in front of coded values.
fn has_mode(header: &Header) -> bool
    ensures { IsTrue result ↔ HasMode header.now }
{
    header.kind.bytes() == 1 && header.step == 1
}

/// The greatest mode that a version has.
fn last_mode(version: Version) -> u8
    ensures { result ≡ greatest_mode version }
{
    match version {
        Version::V3 => 1,
        Version::V4 => 2,
    }
}

/// The form that a mode byte tells, which stands at this place of the blob.
fn mode_form(rest: &[u8], header: &Header, place: usize) -> Result<ImageForm, BlobFault>
    requires few { place + length rest.now < 2 ^ 63 }
    requires mode { HasMode header.now }
    ensures ok { IfOk result (λ form. IsZeroTold header.now place rest.now form) }
    ensures fault { IfErr result (λ f.
        mode_byte_faults (no_value_faults None) header.now rest.now f.place f.reason) }
    ensures near { IfErr result (λ f. f.place ≤ 1) }
{
    if rest.is_empty() {
        return refuse(BlobReason::PastEnd, 0);
    }
    let mode = rest[0];
    if mode > last_mode(header.version) {
        return refuse(BlobReason::BadMode, 0);
    }
    let at = place as u64 + 1;
    match mode {
        0 => Ok(ImageForm::Blocks { at }),
        1 => Ok(ImageForm::Delta { at }),
        _ => Ok(ImageForm::Plain { at }),
    }
}

/// The form of coded values behind a sweep byte 0, at this place of the blob.
fn zero_form(rest: &[u8], header: &Header, place: usize) -> Result<ImageForm, BlobFault>
    requires { place + length rest.now < 2 ^ 63 }
    ensures ok { IfOk result (λ form. IsZeroTold header.now place rest.now form) }
    ensures fault { IfErr result (λ f.
        mode_faults (no_value_faults None) header.now rest.now f.place f.reason) }
    ensures near { IfErr result (λ f. f.place ≤ 1) }
{
    if has_mode(header) {
        mode_form(rest, header, place)
    } else {
        Ok(ImageForm::Blocks { at: place as u64 })
    }
}

/// The form of values that are coded behind the lists, at this place of the blob.
fn coded_form(rest: &[u8], header: &Header, place: usize) -> Result<ImageForm, BlobFault>
    requires { place + length rest.now < 2 ^ 63 }
    ensures ok { IfOk result (λ form. IsFormTold header.now place rest.now form) }
    ensures fault { IfErr result (λ f.
        coded_faults (no_value_faults None) header.now rest.now f.place f.reason) }
    ensures near { IfErr result (λ f. f.place ≤ 2) }
{
    if rest.is_empty() {
        return refuse(BlobReason::PastEnd, 0);
    }
    match rest[0] {
        0 => match zero_form(&rest[1..], header, place + 1) {
            Ok(form) => Ok(form),
            Err(fault) => Err(later(fault, 1)),
        },
        1 => Ok(ImageForm::Sweep {
            at: place as u64 + 1,
        }),
        _ => refuse(BlobReason::BadSweep, 0),
    }
}

/// An early end of the image.
fn end_image(form: ImageForm, rest: &[u8]) -> Result<ImageForm, BlobFault>
    ensures ok { IfOk result (λ found. (found ≡ form) × (rest.now ≡ [])) }
    ensures fault { IfErr result (λ f. ends BlobReason.Leftover rest.now f.place f.reason) }
    ensures near { IfErr result (λ f. f.place ≡ 0) }
{
    if rest.is_empty() {
        Ok(form)
    } else {
        refuse(BlobReason::Leftover, 0)
    }
}

/// The form that is told behind the lists, which stand before this place of the blob.
fn form_behind(
    rest: &[u8],
    equal: bool,
    header: &Header,
    place: usize,
) -> Result<ImageForm, BlobFault>
    requires { place + length rest.now < 2 ^ 63 }
    ensures ok { IfOk result (λ form. IsFormBehind header.now equal place rest.now form) }
    ensures fault { IfErr result (λ f. choice (IsTrue equal) (ends BlobReason.Leftover rest.now)
        (coded_faults (no_value_faults None) header.now rest.now) f.place f.reason) }
    ensures near { IfErr result (λ f. f.place ≤ 2) }
{
    if equal {
        end_image(ImageForm::Ranges, rest)
    } else {
        coded_form(rest, header, place)
    }
}

/// Whether all values are one.
fn is_level(header: &Header) -> bool
    ensures { IsTrue result ↔ (header.now.least ≡ header.now.greatest) }
{
    header.least == header.greatest
}

/// The form of the image, whose bytes stand from this place of the blob on.
fn form_at(rest: &[u8], header: &Header, place: usize) -> Result<ImageForm, BlobFault>
    requires depth { header.now.depth ≤ 65536 }
    requires few { place + length rest.now < 2 ^ 63 }
    ensures ok { IfOk result (λ form.
        IsFormOf header.now (place + length rest.now) rest.now form) }
    ensures fault { IfErr result (λ f.
        image_faults_of no_value_faults header.now rest.now f.place f.reason) }
    ensures near { IfErr result (λ f. f.place < 2 ^ 63) }
{
    if header.valid == 0 {
        return end_image(ImageForm::Empty, rest);
    }
    if is_level(header) {
        return end_image(ImageForm::Constant, rest);
    }
    let (used, equal) = front_span(rest, header)?;
    match form_behind(&rest[used..], equal, header, place + used) {
        Ok(form) => Ok(form),
        Err(fault) => Err(later(fault, used)),
    }
}

/// The place behind a mask of this form, at which the image begins.
pub fn place_behind(header: &Header, mask: &MaskForm) -> usize
    ensures value { result ≡ image_place header.now mask.now }
    ensures few { result < 2 ^ 33 }
{
    let head = header.version.head_length() + 4;
    match *mask {
        MaskForm::Empty => head,
        MaskForm::Full => head,
        MaskForm::Runs { len, .. } => head + len as usize,
        MaskForm::Previous => head,
    }
}

/// The form of the image, or what is wrong with it first.
fn first_image_form(blob: &[u8], header: &Header, mask: &MaskForm) -> Result<ImageForm, BlobFault>
    requires depth { header.now.depth ≤ 65536 }
    requires mask { IsMaskForm header.now blob.now mask.now }
    ensures ok { IfOk result (λ form. IsImageForm header.now blob.now mask.now form) }
    ensures fault { IfErr result (λ f.
        image_part_faults header.now blob.now mask.now f.place f.reason) }
{
    let place = place_behind(header, mask);
    match form_at(&blob[place..], header, place) {
        Ok(form) => Ok(form),
        Err(fault) => Err(later(fault, place)),
    }
}

/// The form of the image, or what is wrong first with its lists or with the bytes that tell the
/// form.
///
/// It does not look at the values, but tells bytes that are left over where there are none. It
/// takes no memory.
pub fn image_part(blob: &[u8], header: &Header, mask: &MaskForm) -> Result<ImageForm, BlobFault>
    requires head { HeadAt blob.now header.now }
    requires size { length blob.now ≡ header.now.size }
    requires mask { IsMaskForm header.now blob.now mask.now }
    ensures ok { (form : ImageForm) →
        (result ≡ Ok form) ↔ IsImageForm header.now blob.now mask.now form }
    ensures fault { (f : BlobFault) → (result ≡ Err f) ↔
        image_part_faults header.now blob.now mask.now f.place f.reason }
{
    first_image_form(blob, header, mask)
}
