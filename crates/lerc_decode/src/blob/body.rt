//! The raster of a whole blob.

ghost use Rattle.std.specs.Prelude.{◌≡◌, ◌≤◌, ◌*◌, ◌+◌, ◌-◌, ◌<◌, ◌^◌, IfOk, IfErr, OnOk, IfSome};
ghost use Rattle.std.specs.Prelude.{Option, Some, length, take, drop, replicate};
ghost use Rattle.first_fault.specs.Faults.{moved};
ghost use Rattle.raster_cells.specs.PixelType.{InRange, bytes_of};
ghost use Rattle.raster_values.specs.Raster.{blank};
ghost use Rattle.raster_cells.specs.Shapes.{IsShape};
ghost use Rattle.raster_values.specs.Flat.{EachValid, marks_of};
ghost use Rattle.raster_cells.specs.Masks.{marks_in};
ghost use Rattle.lerc_header.specs.Head.{HeadAt, head_length};
ghost use Rattle.lerc_grammar.specs.Mask.{IsMaskAfter, Previous, count_before, count_of};
ghost use Rattle.lerc_grammar.specs.Mask.{mask_faults, mask_size, runs_faults};
ghost use Rattle.lerc_grammar.specs.Image.{sweep_faults, value_count};
ghost use Rattle.lerc_grammar.specs.Blob.{BlobAfter, blob_faults};
ghost use Rattle.lerc_grammar.specs.Outline.{IsImageForm, IsMaskForm, image_place};
ghost use Rattle.lerc_grammar.specs.declared.parts.ImageForm.{ImageForm};
ghost use Rattle.lerc_decode.specs.inside.Body.{HasHeadShape, IsFaultIn, IsFilledWith, IsMarkedAs};
ghost use Rattle.lerc_decode.specs.inside.Body.{IsMarkedBy, IsMarkedFor, IsMaskFormFor, IsShapedAs};
ghost use Rattle.lerc_decode.specs.inside.Body.{IsStopOf, IsSwept, KeepsFrame, ReadsImage};
ghost use Rattle.lerc_decode.specs.inside.Body.{marks_for};

use crate::blob::blocks::scatter_blocks;
use crate::blob::codes::{scatter_deltas, scatter_plain};
use crate::blob::faults::refuse;
use crate::blob::masks::bits_of_runs;
use crate::blob::maxima::Maxima;
use crate::blob::previous_mask::PreviousMask;
use crate::blob::summed::SummedBlob;
use lerc_grammar::{ImageForm, MaskForm, image_part, mask_part, place_behind};
use lerc_header::{BlobFault, BlobReason, Header};
use raster_access::Target;
use raster_values::Raster;
use std::alloc::Global;

/// Why the bytes of a blob give no raster.
#[derive(Clone, Copy, Debug)]
pub(crate) enum BodyStop {
    Fault(BlobFault),
    OutOfMemory,
}

/// A raster of the header's shape, with no pixel valid.
fn blank_raster(alloc: Global, header: &Header) -> Option<Raster>
    requires { IsShape header.now.rows header.now.cols header.now.depth }
    ensures { IfSome result (λ r.
        r ≡ blank header.now.kind header.now.rows header.now.cols header.now.depth) }
{
    Raster::new(alloc, header.kind, header.rows, header.cols, header.depth).ok()
}

/// So many bytes, where there is memory for them.
fn room_for(alloc: Global, size: usize) -> Option<Vec<u8>>
    ensures { IfSome result (λ room. length room.items ≡ size) }
{
    vec![in alloc; 0u8; size].ok()
}

/// Makes the pixels valid whose bits of the mask are 1.
fn mark_by(mask: &[u8], header: &Header, raster: &mut Raster)
    requires blank { raster.old
        ≡ blank header.now.kind header.now.rows header.now.cols header.now.depth }
    requires mask { length mask.now ≡ mask_size (header.now.rows * header.now.cols) }
    ensures shape { HasHeadShape header.now raster.new }
    ensures marks { marks_of raster.new ≡ marks_in (header.now.rows * header.now.cols) mask.now }
{
    raster.mark_from_bits(mask);
}

/// Makes the pixels valid that the runs say, which begin at this place of the blob.
fn mark_runs(
    alloc: Global,
    runs: &[u8],
    place: usize,
    header: &Header,
    raster: &mut Raster,
) -> Result<(), BodyStop>
    requires shape { IsShape header.now.rows header.now.cols header.now.depth }
    requires pixels { header.now.rows * header.now.cols ≤ 16777216 }
    requires blank { raster.old
        ≡ blank header.now.kind header.now.rows header.now.cols header.now.depth }
    requires few { place + length runs.now < 2 ^ 62 }
    ensures shape { HasHeadShape header.now raster.new }
    ensures ok { OnOk result (IsMarkedBy (header.now.rows * header.now.cols) header.now.valid
        runs.now (marks_of raster.new)) }
    ensures fault { IfErr result (λ stop. IsStopOf (moved place
        (runs_faults (header.now.rows * header.now.cols) header.now.valid runs.now)) stop) }
{
    let pixels = header.rows as usize * header.cols as usize;
    let Some(mut mask) = room_for(alloc, (pixels + 7) / 8) else {
        return Err(BodyStop::OutOfMemory);
    };
    match bits_of_runs(runs, place, header, &mut mask) {
        Ok(()) => {
            mark_by(&mask, header, raster);
            Ok(())
        }
        Err(fault) => Err(BodyStop::Fault(fault)),
    }
}

/// How many pixels are valid in the raster before, where there is one of the header's rows and
/// columns.
fn valid_before(before: &Option<PreviousMask>, header: &Header) -> Option<u32>
    ensures { result ≡ count_before (marks_for before.now header.now) }
{
    match before {
        Some(before) => before.count_for(header),
        None => None,
    }
}

/// Makes the same pixels valid as in the raster before, which has the header's rows and columns.
fn mark_as_before(before: &Option<PreviousMask>, header: &Header, raster: &mut Raster)
    requires blank { raster.old
        ≡ blank header.now.kind header.now.rows header.now.cols header.now.depth }
    requires count { count_before (marks_for before.now header.now) ≡ Some header.now.valid }
    ensures shape { HasHeadShape header.now raster.new }
    ensures marks { marks_for before.now header.now ≡ Some (marks_of raster.new) }
{
    if let Some(before) = before {
        before.mark(header, raster);
    }
}

/// Makes the pixels valid that the mask says.
fn read_mask(
    alloc: Global,
    blob: &SummedBlob,
    form: &MaskForm,
    before: &Option<PreviousMask>,
    raster: &mut Raster,
) -> Result<(), BodyStop>
    requires form { IsMaskFormFor before.now blob.now.header blob.now.bytes.now form.now }
    requires blank { raster.old
        ≡ blank blob.now.header.kind blob.now.header.rows blob.now.header.cols
        blob.now.header.depth }
    ensures shape { HasHeadShape blob.now.header raster.new }
    ensures ok { OnOk result (IsMaskAfter (marks_for before.now blob.now.header)
        (blob.now.header.rows * blob.now.header.cols) blob.now.header.valid
        (take (image_place blob.now.header form.now - head_length blob.now.header.version)
        (drop (head_length blob.now.header.version) blob.now.bytes.now)) (marks_of raster.new)) }
    ensures fault { IfErr result (λ stop. IsStopOf (moved (head_length blob.now.header.version)
        (mask_faults (count_before (marks_for before.now blob.now.header))
        (blob.now.header.rows * blob.now.header.cols) blob.now.header.valid
        (drop (head_length blob.now.header.version) blob.now.bytes.now))) stop) }
{
    match *form {
        MaskForm::Empty => Ok(()),
        MaskForm::Full => {
            raster.mark_all();
            Ok(())
        }
        MaskForm::Runs { len, .. } => {
            let place = blob.header.version.head_length() + 4;
            let runs = &blob.bytes[place..place + len as usize];
            mark_runs(alloc, runs, place, &blob.header, raster)
        }
        MaskForm::Previous => {
            mark_as_before(before, &blob.header, raster);
            Ok(())
        }
    }
}

/// Gives each valid pixel the one value that the header has.
fn fill_constant<T: Target>(header: &Header, raster: &mut T)
    requires shaped { IsShapedAs header.now (T.pixels raster.old) }
    requires in_range { InRange header.now.kind header.now.least }
    ensures filled { EachValid (T.pixels raster.new)
        (λ values. values ≡ replicate header.now.depth header.now.least) }
    ensures frame { KeepsFrame (T.pixels raster.old) (T.pixels raster.new)
        (T.kept raster.old) (T.kept raster.new) }
{
    raster.fill_value(header.least);
}

/// Gives each valid pixel the list that these bytes stand for.
fn fill_list<T: Target>(list: &[u8], header: &Header, raster: &mut T)
    requires shaped { IsShapedAs header.now (T.pixels raster.old) }
    requires size { length list.now ≡ header.now.depth * bytes_of header.now.kind }
    ensures filled { IsFilledWith header.now.kind list.now (T.pixels raster.new) }
    ensures frame { KeepsFrame (T.pixels raster.old) (T.pixels raster.new)
        (T.kept raster.old) (T.kept raster.new) }
{
    raster.fill_bytes(list);
}

/// How many bytes a sweep has.
fn sweep_len(header: &Header) -> usize
    requires { header.now.valid * header.now.depth ≤ 16777216 }
    ensures value { result ≡ value_count header.now * bytes_of header.now.kind }
    ensures few { result ≤ 67108864 }
{
    header.valid as usize * header.depth as usize * header.kind.bytes()
}

/// Gives the valid pixels the values of a sweep, which begins at this place of the blob.
fn scatter_sweep<T: Target>(
    sweep: &[u8],
    place: usize,
    header: &Header,
    raster: &mut T,
) -> Result<(), BlobFault>
    requires marked { IsMarkedAs header.now (T.pixels raster.old) }
    requires values { header.now.valid * header.now.depth ≤ 16777216 }
    requires few { place + length sweep.now < 2 ^ 62 }
    ensures ok { OnOk result (IsSwept header.now sweep.now (T.pixels raster.new)) }
    ensures fault { IfErr result (λ fault. IsFaultIn
        (moved place (sweep_faults header.now sweep.now)) fault) }
    ensures frame { KeepsFrame (T.pixels raster.old) (T.pixels raster.new)
        (T.kept raster.old) (T.kept raster.new) }
{
    let need = sweep_len(header);
    if sweep.len() < need {
        return refuse(BlobReason::PastEnd, place);
    }
    if sweep.len() > need {
        return refuse(BlobReason::Leftover, place + need);
    }
    raster.scatter(sweep);
    Ok(())
}

/// Gives the valid pixels the values of blocks, the first of which begins at this place.
fn read_blocks<T: Target>(
    blob: &SummedBlob,
    mask: &MaskForm,
    place: usize,
    raster: &mut T,
) -> Result<(), BlobFault>
    requires mask { IsMaskForm blob.now.header blob.now.bytes.now mask.now }
    requires form { IsImageForm blob.now.header blob.now.bytes.now mask.now
        (ImageForm.Blocks place) }
    requires shaped { IsShapedAs blob.now.header (T.pixels raster.old) }
    ensures read { ReadsImage blob.now.header blob.now.bytes.now mask.now (T.pixels raster.old)
        (T.pixels raster.new) result }
    ensures frame { KeepsFrame (T.pixels raster.old) (T.pixels raster.new)
        (T.kept raster.old) (T.kept raster.new) }
{
    let header = &blob.header;
    let start = place_behind(header, mask);
    let maxima = Maxima::of(&blob.bytes[start..], header);
    scatter_blocks(&blob.bytes[place..], place, header, &maxima, raster)
}

/// Gives the valid pixels the values of a code table and differences, which begin at this place.
fn read_deltas<T: Target>(
    blob: &SummedBlob,
    mask: &MaskForm,
    place: usize,
    raster: &mut T,
) -> Result<(), BlobFault>
    requires mask { IsMaskForm blob.now.header blob.now.bytes.now mask.now }
    requires form { IsImageForm blob.now.header blob.now.bytes.now mask.now
        (ImageForm.Delta place) }
    requires marked { IsMarkedAs blob.now.header (T.pixels raster.old) }
    ensures read { ReadsImage blob.now.header blob.now.bytes.now mask.now (T.pixels raster.old)
        (T.pixels raster.new) result }
    ensures frame { KeepsFrame (T.pixels raster.old) (T.pixels raster.new)
        (T.kept raster.old) (T.kept raster.new) }
{
    scatter_deltas(&blob.bytes[place..], place, &blob.header, raster)
}

/// Gives the valid pixels the values of a code table and words, which begin at this place.
fn read_plain<T: Target>(
    blob: &SummedBlob,
    mask: &MaskForm,
    place: usize,
    raster: &mut T,
) -> Result<(), BlobFault>
    requires mask { IsMaskForm blob.now.header blob.now.bytes.now mask.now }
    requires form { IsImageForm blob.now.header blob.now.bytes.now mask.now
        (ImageForm.Plain place) }
    requires marked { IsMarkedAs blob.now.header (T.pixels raster.old) }
    ensures read { ReadsImage blob.now.header blob.now.bytes.now mask.now (T.pixels raster.old)
        (T.pixels raster.new) result }
    ensures frame { KeepsFrame (T.pixels raster.old) (T.pixels raster.new)
        (T.kept raster.old) (T.kept raster.new) }
{
    scatter_plain(&blob.bytes[place..], place, &blob.header, raster)
}

/// Gives the valid pixels the values that the image says.
fn read_image<T: Target>(
    blob: &SummedBlob,
    mask: &MaskForm,
    form: &ImageForm,
    raster: &mut T,
) -> Result<(), BlobFault>
    requires mask { IsMaskForm blob.now.header blob.now.bytes.now mask.now }
    requires form { IsImageForm blob.now.header blob.now.bytes.now mask.now form.now }
    requires marked { IsMarkedAs blob.now.header (T.pixels raster.old) }
    ensures read { ReadsImage blob.now.header blob.now.bytes.now mask.now (T.pixels raster.old)
        (T.pixels raster.new) result }
    ensures frame { KeepsFrame (T.pixels raster.old) (T.pixels raster.new)
        (T.kept raster.old) (T.kept raster.new) }
{
    let header = &blob.header;
    match *form {
        ImageForm::Empty => Ok(()),
        ImageForm::Constant => {
            fill_constant(header, raster);
            Ok(())
        }
        ImageForm::Ranges => {
            let size = header.depth as usize * header.kind.bytes();
            let place = blob.bytes.len() - 2 * size;
            fill_list(&blob.bytes[place..place + size], header, raster);
            Ok(())
        }
        ImageForm::Sweep { at } => {
            let place = at as usize;
            scatter_sweep(&blob.bytes[place..], place, header, raster)
        }
        ImageForm::Blocks { at } => read_blocks(blob, mask, at as usize, raster),
        ImageForm::Delta { at } => read_deltas(blob, mask, at as usize, raster),
        ImageForm::Plain { at } => read_plain(blob, mask, at as usize, raster),
    }
}

/// The form of the mask.
pub(crate) fn mask_form(
    blob: &SummedBlob,
    before: &Option<PreviousMask>,
) -> Result<MaskForm, BlobFault>
    ensures ok { IfOk result (λ form. IsMaskFormFor before.now blob.now.header blob.now.bytes.now
        form) }
    ensures fault { IfErr result (λ fault.
        IsFaultIn (blob_faults before.now blob.now.header blob.now.bytes.now) fault) }
{
    let counted = valid_before(before, &blob.header);
    mask_part(blob.bytes, &blob.header, counted)
}

/// A raster whose pixels are valid as the mask says.
fn mark_raster(
    alloc: Global,
    blob: &SummedBlob,
    form: &MaskForm,
    before: &Option<PreviousMask>,
) -> Result<Raster, BodyStop>
    requires form { IsMaskFormFor before.now blob.now.header blob.now.bytes.now form.now }
    ensures ok { IfOk result (λ r. IsMarkedFor before.now blob.now.header blob.now.bytes.now
        form.now r) }
    ensures fault { IfErr result (λ stop.
        IsStopOf (blob_faults before.now blob.now.header blob.now.bytes.now) stop) }
{
    let Some(mut raster) = blank_raster(alloc, &blob.header) else {
        return Err(BodyStop::OutOfMemory);
    };
    match read_mask(alloc, blob, form, before, &mut raster) {
        Ok(()) => Ok(raster),
        Err(stop) => Err(stop),
    }
}

/// Gives the valid pixels the values that the image says, behind a mask that stands, whatever the
/// raster before is.
pub(crate) fn image_of<T: Target>(
    blob: &SummedBlob,
    mask: &MaskForm,
    raster: &mut T,
) -> Result<(), BlobFault>
    requires mask { IsMaskForm blob.now.header blob.now.bytes.now mask.now }
    requires marked { IsMarkedAs blob.now.header (T.pixels raster.old) }
    ensures ok { OnOk result ((before : Option Previous) →
        IsMarkedFor before blob.now.header blob.now.bytes.now mask.now (T.pixels raster.old) →
        BlobAfter before blob.now.bytes.now (T.pixels raster.new)) }
    ensures fault { IfErr result (λ fault. (before : Option Previous) →
        IsMarkedFor before blob.now.header blob.now.bytes.now mask.now (T.pixels raster.old) →
        IsFaultIn (blob_faults before blob.now.header blob.now.bytes.now) fault) }
    ensures frame { KeepsFrame (T.pixels raster.old) (T.pixels raster.new)
        (T.kept raster.old) (T.kept raster.new) }
{
    match image_part(blob.bytes, &blob.header, mask) {
        Ok(form) => read_image(blob, mask, &form, raster),
        Err(fault) => Err(fault),
    }
}

/// The raster with the values that the image says, behind a mask that stands, whatever the raster
/// before is.
fn fill_raster(blob: &SummedBlob, mask: &MaskForm, mut raster: Raster) -> Result<Raster, BlobFault>
    requires mask { IsMaskForm blob.now.header blob.now.bytes.now mask.now }
    requires shape { HasHeadShape blob.now.header raster }
    requires valid { count_of (marks_of raster) ≡ blob.now.header.valid }
    ensures ok { IfOk result (λ r. (before : Option Previous) →
        IsMarkedFor before blob.now.header blob.now.bytes.now mask.now raster
        → BlobAfter before blob.now.bytes.now r) }
    ensures fault { IfErr result (λ fault. (before : Option Previous) →
        IsMarkedFor before blob.now.header blob.now.bytes.now mask.now raster →
        IsFaultIn (blob_faults before blob.now.header blob.now.bytes.now) fault) }
{
    // for the proof: `rows` ensures that it is a raster
    let _ = raster.rows();
    image_of(blob, mask, &mut raster)?;
    Ok(raster)
}

/// The raster of a blob whose checksum stands.
fn raster_of(
    alloc: Global,
    blob: &SummedBlob,
    before: &Option<PreviousMask>,
) -> Result<Raster, BodyStop>
    ensures ok { IfOk result (λ r. BlobAfter before.now blob.now.bytes.now r) }
    ensures fault { IfErr result (λ stop.
        IsStopOf (blob_faults before.now blob.now.header blob.now.bytes.now) stop) }
{
    let mask = match mask_form(blob, before) {
        Ok(mask) => mask,
        Err(fault) => return Err(BodyStop::Fault(fault)),
    };
    let raster = mark_raster(alloc, blob, &mask, before)?;
    match fill_raster(blob, &mask, raster) {
        Ok(raster) => Ok(raster),
        Err(fault) => Err(BodyStop::Fault(fault)),
    }
}

/// The raster of a blob behind that of the raster before, or what is wrong with the blob first.
pub(crate) fn body(
    alloc: Global,
    blob: &[u8],
    header: &Header,
    before: &Option<PreviousMask>,
) -> Result<Raster, BodyStop>
    requires head { HeadAt blob.now header.now }
    requires size { length blob.now ≡ header.now.size }
    ensures ok { IfOk result (λ r. BlobAfter before.now blob.now r) }
    ensures fault { IfErr result (λ stop.
        IsStopOf (blob_faults before.now header.now blob.now) stop) }
{
    match SummedBlob::of(blob, header) {
        Ok(summed) => raster_of(alloc, &summed, before),
        Err(fault) => Err(BodyStop::Fault(fault)),
    }
}
