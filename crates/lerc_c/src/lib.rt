//! The C interface: blobs looked at, decoded into arrays, and made of arrays.
//!
//! It stands on `lerc_encode`, `lerc_decode`, `reason_names` and the layers below. Each export
//! calls the library and states its clauses again, over numbers and arrays; include/futskheri.h
//! says them to C.
#![tactic(auto)]

mod arrays;
mod band_decoding;
mod band_encoding;
mod band_rasters;
mod decoding;
mod encoding;
mod header_counting;
mod naming;
mod sizes;
#[cfg(test)]
mod tests;
mod told;

ghost use Rattle.std.specs.Prelude.{◌≡◌, ◌≢◌, ℕ, ◌*◌, ◌<◌, ◌≤◌, ◌⊎◌, ◌↔◌, ◌++◌, List, drop, length};
ghost use Rattle.std.specs.Prelude.{min, take};
ghost use Rattle.raster_cells.specs.Shapes.{HasZero, IsShape, IsTooLarge};
ghost use Rattle.raster_values.specs.Raster.{Pixels};
ghost use Rattle.lerc_grammar.specs.Bands.{BandsBlob};
ghost use Rattle.lerc_encode.specs.Sizes.{BlobsAreSmall, greatest_size};
ghost use Rattle.lerc_header.specs.declared.header.Header.{Header};
ghost use Rattle.lerc_header.specs.declared.fault.BlobFault.{BlobFault};
ghost use Rattle.lerc_header.specs.declared.fault.BlobReason.{BlobReason};
ghost use Rattle.lerc_header.specs.Head.{HeadAt, version_number};
ghost use Rattle.raster_cells.specs.declared.kind.PixelType.{PixelType};
ghost use Rattle.raster_cells.specs.PixelType.{code_of};
ghost use Rattle.lerc_header.specs.declared.header.Version.{Version};
ghost use Rattle.lerc_header.specs.HeadFaults.{header_faults};
ghost use Rattle.lerc_header.specs.Written.{step_of};
ghost use Rattle.lerc_decode.specs.Decoding.{HasHeader};
ghost use Rattle.lerc_decode.specs.Over.{AskOtherRoom};
ghost use Rattle.lerc_decode.specs.OverBands.{AreOtherBands, AskOtherBandsRoom};
ghost use Rattle.lerc_c.specs.Told.{reason_number, TellsBandsRefusal, TellsFault, TellsHead};
ghost use Rattle.lerc_c.specs.Told.{TellsRefusal};
ghost use Rattle.lerc_c.specs.Arrays.{AreDecoded, AreDecodedInto, AreNamed, GivesSizes};
ghost use Rattle.lerc_c.specs.Arrays.{IsAllowed, IsEncoded};
ghost use Rattle.lerc_c.specs.Arrays.{IsMisfit, IsTooLong, WithKind, WithVersion};
ghost use Rattle.lerc_c.specs.BandArrays.{AreAllowed, AreBandsDecoded, AreBandsDecodedInto};
ghost use Rattle.lerc_c.specs.BandArrays.{AreBandsMisfit};
ghost use Rattle.lerc_c.specs.BandArrays.{AreEncodedInto, AreTooLong, GiveBandSizes};
ghost use Rattle.lerc_c.specs.HeadedBands.{AreHeaded, TellsUnheaded};
ghost use Rattle.reason_names.specs.Names.{blob_name_of};
ghost use Rattle.lerc_c.specs.Names.{name_at};

use arrays::{BandArrays, RasterArrays};
use band_decoding::{BandsDecodeStop, count_of, decode_bands_into};
use band_encoding::encode_bands_into;
use decoding::{DecodeStop, decode_into};
use encoding::{EncodeStop, encode_into, kind_numbered, version_numbered};
use header_counting::count_headers;
use lerc_decode::{BandsOverFault, OverFault, decode_bands_over, decode_over};
use lerc_encode::blobs_are_small;
use lerc_header::read_header;
use naming::name_of;
use raster_values::is_shape;
use sizes::size_of;
use std::alloc::Global;
use told::{Fault, Head, fault_of, fault_of_bands, head_of};

/// The call did what it says.
const OK: u32 = 0;
/// The blob is refused; the fault says why.
const REFUSED: u32 = 1;
/// Memory was refused.
const NO_MEMORY: u32 = 2;
/// An array is not as long as the raster asks for.
const BAD_SIZES: u32 = 3;
/// No pixel type has the number.
const BAD_KIND: u32 = 4;
/// The version is neither 3 nor 4.
const BAD_VERSION: u32 = 5;
/// There are no rows, no columns or no depths.
const BAD_SHAPE: u32 = 6;
/// There are more than 65,536 depths, or more than 2^24 values.
const TOO_LARGE: u32 = 7;
/// Version 3 has no place for a second depth.
const DEPTH_NEEDS_V4: u32 = 8;
/// The blob is longer than the room for it.
const NO_ROOM: u32 = 9;

/// Reads the header with which the bytes begin.
///
/// 0: `head` has its numbers. 1: `fault` has the header's first fault. What is not named stays.
#[unsafe(no_mangle)]
pub extern "C" fn futskheri_header(blob: &[u8], head: &mut Head, fault: &mut Fault) -> u32
    ensures either { result ≤ 1 }
    ensures ok { result ≡ 0 → (h : Header)
        × (HeadAt blob.now h × (TellsHead head.new h × (fault.new ≡ fault.old))) }
    ensures refused { result ≡ 1 → (f : BlobFault) × (header_faults blob.now f.place f.reason
        × (TellsFault fault.new f.place f.reason × (head.new ≡ head.old))) }
{
    match read_header(blob) {
        Ok(header) => {
            *head = head_of(&header);
            OK
        }
        Err(found) => {
            *fault = fault_of(found);
            REFUSED
        }
    }
}

/// Decodes the blob with which the bytes begin, into arrays of all values and of the mask. Where
/// every pixel is valid the mask may have no bytes.
///
/// 0: the arrays have the raster. 1: `fault` has the blob's first fault. 2: memory was refused,
/// behind a whole header. 3: an array is not as long as the raster asks for. Where it is not 0 the
/// arrays stay as they were.
#[unsafe(no_mangle)]
pub extern "C" fn futskheri_decode(
    alloc: Global,
    blob: &[u8],
    values: &mut [u8],
    mask: &mut [u8],
    fault: &mut Fault,
) -> u32
    ensures status { result ≤ 3 }
    ensures ok { result ≡ 0 → AreDecodedInto blob.now values.new mask.new }
    ensures refused { result ≡ 1 → TellsRefusal blob.now fault.new }
    ensures memory { result ≡ 2 → HasHeader blob.now }
    ensures sizes { result ≡ 3 → IsMisfit blob.now (length values.old) (length mask.old) }
    ensures kept { result ≢ 0 → (values.new ≡ values.old) × (mask.new ≡ mask.old) }
    ensures no_fault { result ≢ 1 → fault.new ≡ fault.old }
{
    match decode_into(alloc, blob, values, mask) {
        Ok(()) => OK,
        Err(DecodeStop::Refused(found)) => {
            *fault = fault_of(found);
            REFUSED
        }
        Err(DecodeStop::OutOfMemory) => NO_MEMORY,
        Err(DecodeStop::Sizes) => BAD_SIZES,
    }
}

/// Decodes the blob with which the bytes begin, into arrays of all values and of the mask, where
/// the values lie at once: none is copied.
///
/// 0: the arrays have the raster. 1: `fault` has the blob's first fault. 3: an array is not as long
/// as the header asks for, which is tested before what follows the header. It takes no memory, so
/// it is never 2. Where it is 3 the arrays stay as they were, where it is 1 they may hold anything.
#[unsafe(no_mangle)]
pub extern "C" fn futskheri_decode_over(
    blob: &[u8],
    values: &mut [u8],
    mask: &mut [u8],
    fault: &mut Fault,
) -> u32
    ensures status { result ≤ 3 }
    ensures ok { result ≡ 0 → AreDecoded blob.now values.new mask.new }
    ensures refused { result ≡ 1 → TellsRefusal blob.now fault.new }
    ensures memory { result ≢ 2 }
    ensures sizes { (result ≡ 3) ↔ AskOtherRoom blob.now (length values.old) (length mask.old) }
    ensures kept { result ≡ 3 → (values.new ≡ values.old) × (mask.new ≡ mask.old) }
    ensures no_fault { result ≢ 1 → fault.new ≡ fault.old }
{
    match decode_over(blob, values, mask) {
        Ok(_) => OK,
        Err(OverFault::Blob(found)) => {
            *fault = fault_of(found);
            REFUSED
        }
        Err(OverFault::Sizes) => BAD_SIZES,
    }
}

/// A size that no blob of a raster of this type and shape passes, and 0 where there is no such
/// raster.
#[unsafe(no_mangle)]
pub extern "C" fn futskheri_greatest_size(kind: u32, rows: u32, cols: u32, depth: u32) -> u64
    ensures size { (k : PixelType) → kind ≡ code_of k → IsShape rows cols depth
        → result ≡ greatest_size k rows cols depth }
    ensures none { ¬ WithKind kind (λ _. IsShape rows cols depth) → result ≡ 0 }
    ensures few { result ≤ 134217728 }
    ensures law { BlobsAreSmall }
{
    blobs_are_small();
    let Some(kind) = kind_numbered(kind) else {
        return 0;
    };
    if !is_shape(rows, cols, depth) {
        return 0;
    }
    size_of(kind, rows, cols, depth)
}

/// Encodes the raster that the arrays are into the front of `out`. A mask of no bytes makes every
/// pixel valid.
///
/// 0: `size` is the blob's. 9: `size` is what the blob would have. 3 to 8 say what of the arguments
/// is wrong, which is tested first, 2 that memory was refused. Where it is not 0 `out` stays; where
/// it is neither 0 nor 9 `size` does.
#[unsafe(no_mangle)]
pub extern "C" fn futskheri_encode(
    alloc: Global,
    kind: u32,
    rows: u32,
    cols: u32,
    depth: u32,
    version: u32,
    error: u32,
    values: &[u8],
    mask: &[u8],
    out: &mut [u8],
    size: &mut u64,
) -> u32
    ensures status { result ≤ 9 }
    ensures ok { result ≡ 0 → WithKind kind (λ k. WithVersion version (λ v. IsEncoded
        k rows cols depth values.now mask.now v (step_of error) size.new out.old out.new)) }
    ensures no_room { result ≡ 9 → WithKind kind (λ k. WithVersion version (λ v. IsTooLong
        k rows cols depth values.now mask.now v (step_of error) size.new (length out.old))) }
    ensures bad_kind { result ≡ 4 → (k : PixelType) → kind ≢ code_of k }
    ensures bad_version { result ≡ 5
        → WithKind kind (λ _. (v : Version) → version ≢ version_number v) }
    ensures bad_shape { result ≡ 6 → HasZero rows cols depth }
    ensures too_large { result ≡ 7 → ¬ HasZero rows cols depth × IsTooLarge rows cols depth }
    ensures sizes { result ≡ 3 → IsAllowed rows cols depth × WithKind kind (λ k.
        ¬ GivesSizes k rows cols depth (length values.now) (length mask.now)) }
    ensures deep { result ≡ 8 → IsAllowed rows cols depth × (WithKind kind (λ k.
        GivesSizes k rows cols depth (length values.now) (length mask.now))
        × ((version ≡ 3) × (1 < depth))) }
    ensures memory { result ≡ 2 → IsAllowed rows cols depth × (WithKind kind (λ k.
        GivesSizes k rows cols depth (length values.now) (length mask.now))
        × (version ≡ 3 → depth ≡ 1)) }
    ensures named { result ≢ 4 → result ≢ 5 → AreNamed kind version }
    ensures kept { result ≢ 0 → out.new ≡ out.old }
    ensures size_kept { result ≢ 0 → result ≢ 9 → size.new ≡ size.old }
{
    let Some(kind) = kind_numbered(kind) else {
        return BAD_KIND;
    };
    let Some(version) = version_numbered(version) else {
        return BAD_VERSION;
    };
    let arrays = RasterArrays {
        kind,
        rows,
        cols,
        depth,
        values,
        mask,
    };
    match encode_into(alloc, arrays, version, error, out) {
        Ok(written) => {
            *size = written as u64;
            OK
        }
        Err(EncodeStop::NoRoom(wanted)) => {
            *size = wanted as u64;
            NO_ROOM
        }
        Err(EncodeStop::OutOfMemory) => NO_MEMORY,
        Err(EncodeStop::BadSizes) => BAD_SIZES,
        Err(EncodeStop::BadShape) => BAD_SHAPE,
        Err(EncodeStop::TooLarge) => TOO_LARGE,
        Err(EncodeStop::DepthNeedsV4) => DEPTH_NEEDS_V4,
    }
}

/// Counts the blobs of the tile that all the bytes are.
///
/// 0: `bands` is their number. 1: `fault` has what is wrong first. 2: memory was refused, behind a
/// whole header. What is not named stays.
#[unsafe(no_mangle)]
pub extern "C" fn futskheri_count_bands(
    alloc: Global,
    blob: &[u8],
    bands: &mut u32,
    fault: &mut Fault,
) -> u32
    ensures status { result ≤ 2 }
    ensures ok { result ≡ 0 → (rasters : List Pixels)
        × (BandsBlob blob.now rasters × (bands.new ≡ length rasters)) }
    ensures refused { result ≡ 1 → TellsBandsRefusal blob.now fault.new }
    ensures memory { result ≡ 2 → HasHeader blob.now }
    ensures kept { result ≢ 0 → bands.new ≡ bands.old }
    ensures no_fault { result ≢ 1 → fault.new ≡ fault.old }
{
    match count_of(alloc, blob) {
        Ok(count) => {
            *bands = count;
            OK
        }
        Err(BandsDecodeStop::Refused(found)) => {
            *fault = fault_of_bands(found);
            REFUSED
        }
        Err(_) => NO_MEMORY,
    }
}

/// Counts the blobs of the tile that all the bytes are, by their headers alone: nothing else of
/// them is looked at, and no memory is taken.
///
/// 0: `bands` is how many parts the bytes are, each as long as the header says with which it
/// begins: of a tile its bands. 1: `fault` says where there is no such part, and the bytes are no
/// tile. What is not named stays.
#[unsafe(no_mangle)]
pub extern "C" fn futskheri_bands_of_headers(blob: &[u8], bands: &mut u32, fault: &mut Fault) -> u32
    ensures status { result ≤ 1 }
    ensures ok { result ≡ 0 → AreHeaded blob.now bands.new }
    ensures some { result ≡ 0 → 1 ≤ bands.new }
    ensures few { result ≡ 0 → bands.new ≤ 16 }
    ensures tile { (rasters : List Pixels) → BandsBlob blob.now rasters
        → (result ≡ 0) × (bands.new ≡ length rasters) }
    ensures refused { result ≡ 1 → TellsUnheaded blob.now fault.new }
    ensures kept { result ≢ 0 → bands.new ≡ bands.old }
    ensures no_fault { result ≢ 1 → fault.new ≡ fault.old }
{
    match count_headers(blob) {
        Ok(count) => {
            *bands = count;
            OK
        }
        Err(found) => {
            *fault = fault_of(found);
            REFUSED
        }
    }
}

/// Decodes the tile that all the bytes are, of so many bands, into arrays of all values and of the
/// masks, band behind band. Where every pixel of each band is valid the masks may have no bytes.
///
/// 0: the arrays have the bands. 1: `fault` has what is wrong first. 2: memory was refused, behind
/// a whole header. 3: there are more or fewer bands, or an array is not as long as they ask for.
/// Where it is not 0 the arrays stay as they were.
#[unsafe(no_mangle)]
pub extern "C" fn futskheri_decode_bands(
    alloc: Global,
    blob: &[u8],
    bands: u32,
    values: &mut [u8],
    masks: &mut [u8],
    fault: &mut Fault,
) -> u32
    ensures status { result ≤ 3 }
    ensures ok { result ≡ 0 → AreBandsDecodedInto blob.now bands values.new masks.new }
    ensures refused { result ≡ 1 → TellsBandsRefusal blob.now fault.new }
    ensures memory { result ≡ 2 → HasHeader blob.now }
    ensures sizes { result ≡ 3 → AreBandsMisfit
        blob.now bands (length values.old) (length masks.old) }
    ensures kept { result ≢ 0 → (values.new ≡ values.old) × (masks.new ≡ masks.old) }
    ensures no_fault { result ≢ 1 → fault.new ≡ fault.old }
{
    match decode_bands_into(alloc, blob, bands, values, masks) {
        Ok(()) => OK,
        Err(BandsDecodeStop::Refused(found)) => {
            *fault = fault_of_bands(found);
            REFUSED
        }
        Err(BandsDecodeStop::OutOfMemory) => NO_MEMORY,
        Err(BandsDecodeStop::Sizes) => BAD_SIZES,
    }
}

/// Decodes the tile that all the bytes are, of so many bands, into arrays of all values and of the
/// masks, band behind band, where the values lie at once: none is copied.
///
/// 0: the arrays have the bands. 1: `fault` has what is wrong first. 3: a tile may not have so many
/// bands as its first one, or an array is not as long as they ask for, which is tested before what
/// follows the first header; the arrays stay as they were then. Or it is 3 since there are more or
/// fewer bands. It takes no memory, so it is never 2. Where it is neither 0 nor 3 by the first
/// header they may hold anything.
#[unsafe(no_mangle)]
pub extern "C" fn futskheri_decode_bands_over(
    blob: &[u8],
    bands: u32,
    values: &mut [u8],
    masks: &mut [u8],
    fault: &mut Fault,
) -> u32
    ensures status { result ≤ 3 }
    ensures ok { result ≡ 0 → AreBandsDecoded blob.now bands values.new masks.new }
    ensures refused { result ≡ 1 → TellsBandsRefusal blob.now fault.new }
    ensures memory { result ≢ 2 }
    ensures sizes { result ≡ 3 →
        AskOtherBandsRoom blob.now bands (length values.old) (length masks.old)
        ⊎ AreOtherBands blob.now bands }
    ensures asked { AskOtherBandsRoom blob.now bands (length values.old) (length masks.old)
        → (result ≡ 3) × ((values.new ≡ values.old) × (masks.new ≡ masks.old)) }
    ensures no_fault { result ≢ 1 → fault.new ≡ fault.old }
{
    match decode_bands_over(blob, bands, values, masks) {
        Ok(()) => OK,
        Err(BandsOverFault::Tile(found)) => {
            *fault = fault_of_bands(found);
            REFUSED
        }
        Err(BandsOverFault::Sizes) => BAD_SIZES,
        Err(BandsOverFault::Count) => BAD_SIZES,
    }
}

/// Encodes the bands that the arrays are, band behind band, into the front of `out`. No bytes of
/// masks make every pixel valid, those of one mask are of all bands.
///
/// 0: `size` is that of the blobs. 9: `size` is what they would have. 3 to 8 say what of the
/// arguments is wrong, which is tested first, 2 that memory was refused. Where it is not 0 `out`
/// stays; where it is neither 0 nor 9 `size` does.
#[unsafe(no_mangle)]
pub extern "C" fn futskheri_encode_bands(
    alloc: Global,
    kind: u32,
    rows: u32,
    cols: u32,
    depth: u32,
    bands: u32,
    version: u32,
    error: u32,
    values: &[u8],
    masks: &[u8],
    out: &mut [u8],
    size: &mut u64,
) -> u32
    ensures status { result ≤ 9 }
    ensures ok { result ≡ 0 → WithKind kind (λ k. WithVersion version (λ v. AreEncodedInto
        k rows cols depth bands values.now masks.now v (step_of error) size.new
        out.old out.new)) }
    ensures no_room { result ≡ 9 → WithKind kind (λ k. WithVersion version (λ v. AreTooLong
        k rows cols depth bands values.now masks.now v (step_of error) size.new
        (length out.old))) }
    ensures bad_kind { result ≡ 4 → (k : PixelType) → kind ≢ code_of k }
    ensures bad_version { result ≡ 5
        → WithKind kind (λ _. (v : Version) → version ≢ version_number v) }
    ensures bad_shape { result ≡ 6 → HasZero rows cols depth ⊎ (bands ≡ 0) }
    ensures too_large { result ≡ 7 → ¬ HasZero rows cols depth × ((0 < bands) × (IsTooLarge
        rows cols depth ⊎ ((16 < bands) ⊎ (16777216 < bands * (rows * cols * depth))))) }
    ensures sizes { result ≡ 3 → AreAllowed rows cols depth bands × WithKind kind (λ k.
        ¬ GiveBandSizes k rows cols depth bands (length values.now) (length masks.now)) }
    ensures deep { result ≡ 8 → AreAllowed rows cols depth bands × (WithKind kind (λ k.
        GiveBandSizes k rows cols depth bands (length values.now) (length masks.now))
        × ((version ≡ 3) × (1 < depth))) }
    ensures memory { result ≡ 2 → AreAllowed rows cols depth bands × (WithKind kind (λ k.
        GiveBandSizes k rows cols depth bands (length values.now) (length masks.now))
        × (version ≡ 3 → depth ≡ 1)) }
    ensures named { result ≢ 4 → result ≢ 5 → AreNamed kind version }
    ensures kept { result ≢ 0 → out.new ≡ out.old }
    ensures size_kept { result ≢ 0 → result ≢ 9 → size.new ≡ size.old }
{
    let Some(kind) = kind_numbered(kind) else {
        return BAD_KIND;
    };
    let Some(version) = version_numbered(version) else {
        return BAD_VERSION;
    };
    let arrays = BandArrays {
        kind,
        rows,
        cols,
        depth,
        count: bands,
        values,
        masks,
    };
    match encode_bands_into(alloc, arrays, version, error, out) {
        Ok(written) => {
            *size = written as u64;
            OK
        }
        Err(EncodeStop::NoRoom(wanted)) => {
            *size = wanted as u64;
            NO_ROOM
        }
        Err(EncodeStop::OutOfMemory) => NO_MEMORY,
        Err(EncodeStop::BadSizes) => BAD_SIZES,
        Err(EncodeStop::BadShape) => BAD_SHAPE,
        Err(EncodeStop::TooLarge) => TOO_LARGE,
        Err(EncodeStop::DepthNeedsV4) => DEPTH_NEEDS_V4,
    }
}

/// Writes the name of a reason, as much of it as there is room for, and answers how long it is: 0
/// where no reason has the number, as none has 0.
#[unsafe(no_mangle)]
pub extern "C" fn futskheri_reason_name(reason: u32, out: &mut [u8]) -> usize
    ensures reasons { (r : BlobReason) → reason ≡ reason_number r
        → name_at reason ≡ blob_name_of r }
    ensures size { result ≡ length (name_at reason) }
    ensures name { out.new ≡ take (length out.old) (name_at reason) ++ drop result out.old }
{
    let name = name_of(reason);
    let size = name.len().min(out.len());
    out[..size].copy_from_slice(&name[..size]);
    name.len()
}
