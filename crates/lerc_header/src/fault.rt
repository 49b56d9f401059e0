//! What a blob is refused for.

/// Why a blob is refused, in the order of a blob's parts.
#[derive(Clone, Copy, Debug, PartialEq, Eq)]
pub enum BlobReason {
    /// The bytes end before the key and version, the header or the blob does.
    Truncated,
    /// The first six bytes are not `Lerc2 `.
    BadKey,
    /// The version is not 3 or 4.
    BadVersion,
    /// There are fewer than one row.
    BadRows,
    /// There are fewer than one column.
    BadCols,
    /// The depth is not from 1 to 65,536.
    BadDepth,
    /// Rows times columns times depth is above 2 ^ 24.
    TooLarge,
    /// The valid pixels are fewer than none, or more than there are pixels.
    BadCount,
    /// The side of a block is below 1, or above 32 where blocks follow.
    BadBlockSize,
    /// The blob's size has no room for the header and a mask's length, or is above 2 ^ 27.
    BadBlobSize,
    /// The values are of one of the two types of floating-point numbers.
    FloatPixels,
    /// The number of the type names no type.
    BadType,
    /// maxZError is neither 0.5 nor a whole number from 1 to 2 ^ 32 - 1.
    BadError,
    /// zMin or zMax is no whole number of the type, or zMax is below zMin.
    BadRange,
    /// The stored checksum is not that of the bytes.
    BadChecksum { stored: u32, computed: u32 },
    /// The length of the mask is negative, or not 0 where no mask may follow.
    BadMaskLength,
    /// A run of the mask is wrong.
    BadRun,
    /// The mask marks another number of pixels than the header says.
    BadMaskCount { header: u32, counted: u32 },
    /// Some pixels are valid and some are not, and there is no mask.
    MaskMissing,
    /// The byte that tells a sweep from coded values is neither 1 nor 0.
    BadSweep,
    /// The byte of the mode names none that the version has.
    BadMode,
    /// The tag of a block does not agree with its column.
    BadBlockTag,
    /// The type code of a block's offset names no type.
    BadOffsetCode,
    /// The head of a list is wrong.
    BadListHead,
    /// A list has another count than is wanted.
    BadListCount,
    /// The table of a list is wrong.
    BadTable,
    /// An index of a list is not one of its table.
    BadIndex,
    /// The table of code lengths is wrong.
    BadCodeTable,
    /// The bits are no prefix of any code.
    NoCode,
    /// A field does not lie whole within the blob.
    PastEnd,
    /// Bytes are left behind the last field.
    Leftover,
}

/// The first fault of a blob: the reason, and the place of the field that fails, counted in bytes
/// from the blob's first.
#[derive(Clone, Copy, Debug, PartialEq, Eq)]
pub struct BlobFault {
    pub reason: BlobReason,
    pub place: u64,
}
