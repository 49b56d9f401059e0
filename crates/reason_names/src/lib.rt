//! The names of the reasons for which blobs and grids are refused, as programs tell them. It stands
//! on `lerc_header` and `raster_values`.
//!
//! The contract that the layer above uses: `blob_name` and `grid_name` answer the name, which is
//! short.
#![tactic(auto)]

ghost use Rattle.std.specs.Prelude.{◌≡◌, ◌≤◌, length};
ghost use Rattle.reason_names.specs.Names.{blob_name_of, grid_name_of};

use lerc_header::BlobReason;
use raster_grids::GridReason;

/// The name of a reason that a blob is refused for.
pub fn blob_name(reason: BlobReason) -> &'static [u8]
    ensures name { result.now ≡ blob_name_of reason }
    ensures short { length result.now ≤ 30 }
{
    match reason {
        BlobReason::Truncated => b"Truncated",
        BlobReason::BadKey => b"BadKey",
        BlobReason::BadVersion => b"BadVersion",
        BlobReason::BadRows => b"BadRows",
        BlobReason::BadCols => b"BadCols",
        BlobReason::BadDepth => b"BadDepth",
        BlobReason::TooLarge => b"TooLarge",
        BlobReason::BadCount => b"BadCount",
        BlobReason::BadBlockSize => b"BadBlockSize",
        BlobReason::BadBlobSize => b"BadBlobSize",
        BlobReason::FloatPixels => b"FloatPixels",
        BlobReason::BadType => b"BadType",
        BlobReason::BadError => b"BadError",
        BlobReason::BadRange => b"BadRange",
        BlobReason::BadChecksum { .. } => b"BadChecksum",
        BlobReason::BadMaskLength => b"BadMaskLength",
        BlobReason::BadRun => b"BadRun",
        BlobReason::BadMaskCount { .. } => b"BadMaskCount",
        BlobReason::MaskMissing => b"MaskMissing",
        BlobReason::BadSweep => b"BadSweep",
        BlobReason::BadMode => b"BadMode",
        BlobReason::BadBlockTag => b"BadBlockTag",
        BlobReason::BadOffsetCode => b"BadOffsetCode",
        BlobReason::BadListHead => b"BadListHead",
        BlobReason::BadListCount => b"BadListCount",
        BlobReason::BadTable => b"BadTable",
        BlobReason::BadIndex => b"BadIndex",
        BlobReason::BadCodeTable => b"BadCodeTable",
        BlobReason::NoCode => b"NoCode",
        BlobReason::PastEnd => b"PastEnd",
        BlobReason::Leftover => b"Leftover",
    }
}

/// The name of a reason that a grid is refused for.
pub fn grid_name(reason: GridReason) -> &'static [u8]
    ensures name { result.now ≡ grid_name_of reason }
    ensures short { length result.now ≤ 30 }
{
    match reason {
        GridReason::Truncated => b"Truncated",
        GridReason::BadMagic => b"BadMagic",
        GridReason::BadType => b"BadType",
        GridReason::BadSize => b"BadSize",
        GridReason::TooLarge => b"TooLarge",
        GridReason::BadMark => b"BadMark",
    }
}
