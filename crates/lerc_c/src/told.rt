//! What a call tells of a blob, as numbers that C reads.

ghost use Rattle.std.specs.Prelude.{◌≡◌};
ghost use Rattle.raster_cells.specs.PixelType.{code_of};
ghost use Rattle.lerc_c.specs.Told.{TellsFault, TellsBandsFault, TellsHead, found_of};
ghost use Rattle.lerc_c.specs.Told.{reason_number, stated_of};

use lerc_grammar::{BandReason, BandsFault};
use lerc_header::{BlobFault, BlobReason, Header};

/// The first fault of a blob.
#[repr(C)]
#[derive(Clone, Copy)]
pub struct Fault {
    /// Where the field begins that fails, in bytes from the blob's first.
    pub place: u64,
    /// The number of the reason, 1 to 31, or 33 where a blob is not like the first of its tile.
    pub reason: u32,
    /// Where two numbers do not agree: what the blob says, and what was found. Else 0.
    pub stated: u32,
    pub found: u32,
}

/// What the header of a blob says.
#[repr(C)]
#[derive(Clone, Copy)]
pub struct Head {
    /// Twice the greatest error of a value: at least 1; 1 where every value is exact.
    pub step: u64,
    /// The least and the greatest value, both 0 where no pixel is valid.
    pub least: i64,
    pub greatest: i64,
    /// 3 or 4.
    pub version: u32,
    /// The number of the pixel type: 0 to 5 for I8, U8, I16, U16, I32 and U32.
    pub kind: u32,
    pub rows: u32,
    pub cols: u32,
    pub depth: u32,
    /// How many pixels are valid.
    pub valid: u32,
    /// The side of a block.
    pub side: u32,
    /// How many bytes the blob has.
    pub size: u32,
    pub checksum: u32,
}

/// The numbers of a header.
pub(crate) fn head_of(header: &Header) -> Head
    ensures { TellsHead result header.now }
{
    Head {
        step: header.step,
        least: header.least,
        greatest: header.greatest,
        version: header.version.number(),
        kind: u32::from(header.kind.code()),
        rows: header.rows,
        cols: header.cols,
        depth: header.depth,
        valid: header.valid,
        side: header.side,
        size: header.size,
        checksum: header.checksum,
    }
}

/// The number of a reason, 1 to 31.
fn number_of_reason(reason: BlobReason) -> u32
    ensures { result ≡ reason_number reason }
{
    match reason {
        BlobReason::Truncated => 1,
        BlobReason::BadKey => 2,
        BlobReason::BadVersion => 3,
        BlobReason::BadRows => 4,
        BlobReason::BadCols => 5,
        BlobReason::BadDepth => 6,
        BlobReason::TooLarge => 7,
        BlobReason::BadCount => 8,
        BlobReason::BadBlockSize => 9,
        BlobReason::BadBlobSize => 10,
        BlobReason::FloatPixels => 11,
        BlobReason::BadType => 12,
        BlobReason::BadError => 13,
        BlobReason::BadRange => 14,
        BlobReason::BadChecksum { .. } => 15,
        BlobReason::BadMaskLength => 16,
        BlobReason::BadRun => 17,
        BlobReason::BadMaskCount { .. } => 18,
        BlobReason::MaskMissing => 19,
        BlobReason::BadSweep => 20,
        BlobReason::BadMode => 21,
        BlobReason::BadBlockTag => 22,
        BlobReason::BadOffsetCode => 23,
        BlobReason::BadListHead => 24,
        BlobReason::BadListCount => 25,
        BlobReason::BadTable => 26,
        BlobReason::BadIndex => 27,
        BlobReason::BadCodeTable => 28,
        BlobReason::NoCode => 29,
        BlobReason::PastEnd => 30,
        BlobReason::Leftover => 31,
    }
}

/// What the blob says, where two numbers do not agree.
fn number_stated(reason: BlobReason) -> u32
    ensures { result ≡ stated_of reason }
{
    match reason {
        BlobReason::BadChecksum { stored, .. } => stored,
        BlobReason::BadMaskCount { header, .. } => header,
        _ => 0,
    }
}

/// What was found, where two numbers do not agree.
fn number_found(reason: BlobReason) -> u32
    ensures { result ≡ found_of reason }
{
    match reason {
        BlobReason::BadChecksum { computed, .. } => computed,
        BlobReason::BadMaskCount { counted, .. } => counted,
        _ => 0,
    }
}

/// The numbers of a fault.
pub(crate) fn fault_of(fault: BlobFault) -> Fault
    ensures { TellsFault result fault.place fault.reason }
{
    Fault {
        place: fault.place,
        reason: number_of_reason(fault.reason),
        stated: number_stated(fault.reason),
        found: number_found(fault.reason),
    }
}

/// The numbers of a fault of a tile.
pub(crate) fn fault_of_bands(fault: BandsFault) -> Fault
    ensures { TellsBandsFault result fault.place fault.reason }
{
    match fault.reason {
        BandReason::Blob(reason) => fault_of(BlobFault {
            reason,
            place: fault.place,
        }),
        BandReason::BadBand => Fault {
            place: fault.place,
            reason: 33,
            stated: 0,
            found: 0,
        },
    }
}
