//! A header read field by field, each test in its order.

ghost use Rattle.std.specs.Prelude.{◌≡◌, ℕ, ℤ, pos, ◌+◌, ◌*◌, ◌<◌, ◌≤◌, ◌≤ℤ◌, ◌*ℤ◌, ◌↔◌, ◌⊎◌, IsTrue, IsNone, IfOk, IfErr, length};
ghost use Rattle.raster_cells.specs.declared.kind.PixelType.{PixelType};
ghost use Rattle.raster_cells.specs.PixelType.{InRange, code_of};
ghost use Rattle.raster_cells.specs.Shapes.{IsShape};
ghost use Rattle.double_bits.specs.Halves.{HalfDouble};
ghost use Rattle.lerc_header.specs.declared.fault.BlobFault.{BlobFault};
ghost use Rattle.lerc_header.specs.declared.header.Header.{Header};
ghost use Rattle.lerc_header.specs.declared.header.Version.{Version};
ghost use Rattle.raster_cells.specs.Step.{IsTwiceError};
ghost use Rattle.lerc_header.specs.Head.{i32_at, double_at, shift, head_length, depth_at, RangeAt, HeadAt};
ghost use Rattle.lerc_header.specs.HeadFaults.{HasKey, HasVersion, HasKind, IsWithin, field_faults, key_faults, whole_faults, header_faults};
ghost use Rattle.lerc_header.specs.Written.{IsHeader};
ghost use Rattle.lerc_header.specs.inside.Parts.{IsShapeAt, AreCountsAt, IsStepAt};
ghost use Rattle.lerc_header.specs.inside.Tails.{count_faults, kind_faults, step_faults, range_faults};

use crate::KEY;
use crate::fault::{BlobFault, BlobReason};
use crate::header::{Header, Version};
use crate::numbers::{bits_at, signed_at, unsigned_at};
use double_bits::halves_of;
use raster_cells::{GREATEST_DEPTH, PixelType, is_shape};

/// How many bytes hold the key and the version.
const FRONT_LENGTH: usize = 10;

/// The header of version 3 and the mask's length behind it.
const LEAST_SIZE: i32 = 66;

const GREATEST_SIZE: i32 = 134217728;

const GREATEST_STEP: i64 = 8589934590;

/// Rows, columns and depth.
#[derive(Clone, Copy)]
struct Shape {
    rows: u32,
    cols: u32,
    depth: u32,
}

/// The number of valid pixels, the side of a block and the blob's size.
#[derive(Clone, Copy)]
struct Counts {
    valid: u32,
    side: u32,
    size: u32,
}

/// A fault, as an answer.
fn refuse<T: Drop>(reason: BlobReason, place: usize) -> Result<T, BlobFault>
    ensures { result ≡ Err (record { reason = reason; place = place }) }
{
    Err(BlobFault {
        reason,
        place: place as u64,
    })
}

/// The depth, which is 1 in version 3.
fn depth_at(version: Version, bytes: &[u8]) -> i32
    requires { head_length version ≤ length bytes.now }
    ensures { result ≡ depth_at version bytes.now }
{
    match version {
        Version::V3 => 1,
        Version::V4 => signed_at(bytes, 22),
    }
}

/// Rows, columns and depth, where they are those of a raster.
fn shape_at(version: Version, bytes: &[u8]) -> Result<Shape, BlobFault>
    requires { head_length version ≤ length bytes.now }
    ensures ok { IfOk result (λ s. IsShapeAt version bytes.now s) }
    ensures fault { IfErr result (λ f. field_faults version bytes.now f.place f.reason) }
{
    let rows = signed_at(bytes, 14);
    if rows < 1 {
        return refuse(BlobReason::BadRows, 14);
    }
    let cols = signed_at(bytes, 18);
    if cols < 1 {
        return refuse(BlobReason::BadCols, 18);
    }
    let depth = depth_at(version, bytes);
    if depth < 1 || depth > GREATEST_DEPTH as i32 {
        return refuse(BlobReason::BadDepth, 22);
    }
    let shape = Shape {
        rows: rows as u32,
        cols: cols as u32,
        depth: depth as u32,
    };
    if !is_shape(shape.rows, shape.cols, shape.depth) {
        return refuse(BlobReason::TooLarge, 18 + version.shift());
    }
    Ok(shape)
}

/// How many pixels a raster of this shape has.
fn pixels_of(shape: &Shape) -> i64
    requires { IsShape shape.now.rows shape.now.cols shape.now.depth }
    ensures { result ≡ pos (shape.now.rows * shape.now.cols) }
{
    i64::from(shape.rows) * i64::from(shape.cols)
}

/// The counts behind the shape.
fn counts_at(version: Version, bytes: &[u8], shape: &Shape) -> Result<Counts, BlobFault>
    requires long { head_length version ≤ length bytes.now }
    requires shape { IsShapeAt version bytes.now shape.now }
    ensures ok { IfOk result (λ c. AreCountsAt version bytes.now shape.now c) }
    ensures fault { IfErr result (λ f. count_faults version bytes.now f.place f.reason) }
{
    let shift = version.shift();
    let valid = signed_at(bytes, 22 + shift);
    if valid < 0 || i64::from(valid) > pixels_of(shape) {
        return refuse(BlobReason::BadCount, 22 + shift);
    }
    let side = signed_at(bytes, 26 + shift);
    if side < 1 {
        return refuse(BlobReason::BadBlockSize, 26 + shift);
    }
    let size = signed_at(bytes, 30 + shift);
    if size < LEAST_SIZE + shift as i32 || size > GREATEST_SIZE {
        return refuse(BlobReason::BadBlobSize, 30 + shift);
    }
    Ok(Counts {
        valid: valid as u32,
        side: side as u32,
        size: size as u32,
    })
}

/// The pixel type that a number names.
pub fn kind_of(code: i64) -> Option<PixelType>
    ensures named { (kind : PixelType) → (result ≡ Some kind) ↔ (code ≡ pos (code_of kind)) }
    ensures none { IsNone result ↔ ¬ IsWithin (pos 0) (pos 5) code }
{
    PixelType::of_code(u8::try_from(code).ok()?)
}

/// The type of the values.
fn kind_at(version: Version, bytes: &[u8]) -> Result<PixelType, BlobFault>
    requires { head_length version ≤ length bytes.now }
    ensures ok { IfOk result (λ kind. HasKind version bytes.now kind) }
    ensures fault { IfErr result (λ f. kind_faults version bytes.now f.place f.reason) }
{
    let place = 34 + version.shift();
    let code = signed_at(bytes, place);
    if code == 6 || code == 7 {
        return refuse(BlobReason::FloatPixels, place);
    }
    match kind_of(i64::from(code)) {
        Some(kind) => Ok(kind),
        None => refuse(BlobReason::BadType, place),
    }
}

/// The double with these bits as a step, where a header may have it.
fn step_of_bits(bits: u64) -> Option<u64>
    ensures { (n : ℕ) → (result ≡ Some n) ↔ (HalfDouble bits (pos n) × IsTwiceError n) }
{
    let halves = halves_of(bits)?;
    if halves < 1 || halves > GREATEST_STEP || (halves != 1 && halves % 2 != 0) {
        return None;
    }
    Some(halves as u64)
}

/// Twice the greatest error.
fn step_at(version: Version, bytes: &[u8]) -> Result<u64, BlobFault>
    requires { head_length version ≤ length bytes.now }
    ensures ok { IfOk result (λ step. IsStepAt version bytes.now step) }
    ensures fault { IfErr result (λ f. step_faults version bytes.now f.place f.reason) }
{
    let place = 38 + version.shift();
    match step_of_bits(bits_at(bytes, place)) {
        Some(step) => Ok(step),
        None => refuse(BlobReason::BadError, place),
    }
}

/// Half of a number, where that is a whole one.
fn half(twice: i64) -> Option<i64>
    ensures { (z : ℤ) → (result ≡ Some z) ↔ (twice ≡ pos 2 *ℤ z) }
{
    if twice % 2 != 0 {
        return None;
    }
    Some(twice / 2)
}

/// Whether the value is one of the type.
fn is_in_range(kind: PixelType, value: i64) -> bool
    ensures { IsTrue result ↔ InRange kind value }
{
    kind.least() <= value && value <= kind.greatest()
}

/// The double at a place, where it is a whole number.
fn whole_at(bytes: &[u8], place: usize) -> Option<i64>
    requires { place + 8 ≤ length bytes.now }
    ensures { (z : ℤ) → (result ≡ Some z) ↔ HalfDouble (double_at bytes.now place) (pos 2 *ℤ z) }
{
    half(halves_of(bits_at(bytes, place))?)
}

/// The same, where it is a value of the type.
fn value_at(bytes: &[u8], place: usize, kind: PixelType) -> Option<i64>
    requires { place + 8 ≤ length bytes.now }
    ensures { (z : ℤ) → (result ≡ Some z)
        ↔ (HalfDouble (double_at bytes.now place) (pos 2 *ℤ z) × InRange kind z) }
{
    let value = whole_at(bytes, place)?;
    if is_in_range(kind, value) {
        Some(value)
    } else {
        None
    }
}

/// The least and the greatest value of the valid pixels, which are not looked at where there is
/// none.
fn range_at(
    version: Version,
    bytes: &[u8],
    kind: PixelType,
    valid: u32,
) -> Result<(i64, i64), BlobFault>
    requires long { head_length version ≤ length bytes.now }
    requires kind { HasKind version bytes.now kind }
    requires valid { i32_at bytes.now (22 + shift version) ≡ pos valid }
    ensures ok { IfOk result (λ ends.
        RangeAt bytes.now (46 + shift version) kind valid ends.0 ends.1) }
    ensures fault { IfErr result (λ f. range_faults version bytes.now f.place f.reason) }
{
    if valid == 0 {
        return Ok((0, 0));
    }
    let place = 46 + version.shift();
    let Some(least) = value_at(bytes, place, kind) else {
        return refuse(BlobReason::BadRange, place);
    };
    let Some(greatest) = value_at(bytes, place + 8, kind) else {
        return refuse(BlobReason::BadRange, place + 8);
    };
    if greatest < least {
        return refuse(BlobReason::BadRange, place + 8);
    }
    Ok((least, greatest))
}

/// The header, behind a key and this version.
fn read_fields(version: Version, bytes: &[u8]) -> Result<Header, BlobFault>
    requires long { head_length version ≤ length bytes.now }
    requires key { HasKey bytes.now }
    requires version { HasVersion bytes.now version }
    ensures ok { IfOk result (λ h. HeadAt bytes.now h) }
    ensures fault { IfErr result (λ f. field_faults version bytes.now f.place f.reason) }
{
    let shape = shape_at(version, bytes)?;
    let counts = counts_at(version, bytes, &shape)?;
    let kind = kind_at(version, bytes)?;
    let step = step_at(version, bytes)?;
    let (least, greatest) = range_at(version, bytes, kind, counts.valid)?;
    Ok(Header {
        version,
        checksum: unsigned_at(bytes, 10),
        rows: shape.rows,
        cols: shape.cols,
        depth: shape.depth,
        valid: counts.valid,
        side: counts.side,
        size: counts.size,
        kind,
        step,
        least,
        greatest,
    })
}

/// The same, where the bytes hold a whole header.
fn read_whole(version: Version, bytes: &[u8]) -> Result<Header, BlobFault>
    requires key { HasKey bytes.now }
    requires version { HasVersion bytes.now version }
    ensures ok { IfOk result (λ h. HeadAt bytes.now h) }
    ensures fault { IfErr result (λ f. whole_faults version bytes.now f.place f.reason) }
{
    if bytes.len() < version.head_length() {
        return refuse(BlobReason::Truncated, bytes.len());
    }
    read_fields(version, bytes)
}

/// Whether the bytes begin with the key.
fn has_key(bytes: &[u8]) -> bool
    requires { 6 ≤ length bytes.now }
    ensures { IsTrue result ↔ HasKey bytes.now }
{
    bytes[..6] == KEY[..]
}

/// The version, where it is one that is read.
fn version_at(bytes: &[u8]) -> Option<Version>
    requires { 10 ≤ length bytes.now }
    ensures { (v : Version) → (result ≡ Some v) ↔ HasVersion bytes.now v }
{
    Version::of_number(i64::from(signed_at(bytes, 6)))
}

/// Key and version in front of the bytes, or the first fault of them, with one clause for each
/// answer.
fn key_of(bytes: &[u8]) -> Result<Version, BlobFault>
    requires { 10 ≤ length bytes.now }
    ensures ok { IfOk result (λ v. HasKey bytes.now × HasVersion bytes.now v) }
    ensures fault { IfErr result (λ f. key_faults bytes.now f.place f.reason) }
{
    if !has_key(bytes) {
        return refuse(BlobReason::BadKey, 0);
    }
    match version_at(bytes) {
        Some(version) => Ok(version),
        None => refuse(BlobReason::BadVersion, 6),
    }
}

/// The version of the blob that the bytes begin with, behind its key, or what is wrong with these
/// two first: `BadKey` at 0, or `BadVersion` at 6. No other byte is looked at.
pub fn read_version(bytes: &[u8]) -> Result<Version, BlobFault>
    requires { 10 ≤ length bytes.now }
    ensures ok { (v : Version) →
        (result ≡ Ok v) ↔ (HasKey bytes.now × HasVersion bytes.now v) }
    ensures fault { (f : BlobFault) → (result ≡ Err f) ↔ key_faults bytes.now f.place f.reason }
{
    key_of(bytes)
}

/// The header or its first fault.
fn first_of(bytes: &[u8]) -> Result<Header, BlobFault>
    ensures ok { IfOk result (λ h. HeadAt bytes.now h) }
    ensures fault { IfErr result (λ f. header_faults bytes.now f.place f.reason) }
{
    if bytes.len() < FRONT_LENGTH {
        return refuse(BlobReason::Truncated, bytes.len());
    }
    let version = key_of(bytes)?;
    read_whole(version, bytes)
}

/// The header of version 3 or 4 with which the bytes begin, or its first fault.
///
/// The fields are taken in the order of their places, each with its tests; the first that fails is
/// the fault, and its place the field's. Where the bytes end before it, the fault is `Truncated`
/// at their length: before ten bytes there is no key and no version, and before the header's 62 or
/// 66 bytes no other field is looked at. Places and tests are in docs/FORMATS.md. Where no pixel
/// is valid, zMin and zMax are not looked at; the checksum is not tested. It takes no memory.
pub fn read_header(bytes: &[u8]) -> Result<Header, BlobFault>
    ensures ok { (h : Header) → (result ≡ Ok h) ↔ HeadAt bytes.now h }
    ensures fault { (f : BlobFault) → (result ≡ Err f) ↔ header_faults bytes.now f.place f.reason }
    ensures lawful { IfOk result (λ h. IsHeader h) }
    ensures pixels { IfOk result (λ h. h.rows * h.cols ≤ 16777216) }
    ensures in_range { IfOk result (λ h.
        InRange h.kind h.least × InRange h.kind h.greatest × (h.least ≤ℤ h.greatest)) }
{
    first_of(bytes)
}
