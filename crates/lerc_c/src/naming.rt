//! The names of the reasons that a blob is refused for.

ghost use Rattle.std.specs.Prelude.{◌≡◌, ◌⊎◌, ◌<◌, ◌≤◌, length};
ghost use Rattle.lerc_c.specs.Names.{name_at};
ghost use Rattle.lerc_c.specs.inside.Numbered.{HasReason};

use lerc_header::BlobReason;
use reason_names::blob_name;

/// The reason with this number, and none where no reason of a blob has it. The two numbers of one
/// that tells some are 0.
fn reason_at(number: u32) -> Option<BlobReason>
    ensures { HasReason number result }
{
    match number {
        1 => Some(BlobReason::Truncated),
        2 => Some(BlobReason::BadKey),
        3 => Some(BlobReason::BadVersion),
        4 => Some(BlobReason::BadRows),
        5 => Some(BlobReason::BadCols),
        6 => Some(BlobReason::BadDepth),
        7 => Some(BlobReason::TooLarge),
        8 => Some(BlobReason::BadCount),
        9 => Some(BlobReason::BadBlockSize),
        10 => Some(BlobReason::BadBlobSize),
        11 => Some(BlobReason::FloatPixels),
        12 => Some(BlobReason::BadType),
        13 => Some(BlobReason::BadError),
        14 => Some(BlobReason::BadRange),
        15 => Some(BlobReason::BadChecksum {
            stored: 0,
            computed: 0,
        }),
        16 => Some(BlobReason::BadMaskLength),
        17 => Some(BlobReason::BadRun),
        18 => Some(BlobReason::BadMaskCount {
            header: 0,
            counted: 0,
        }),
        19 => Some(BlobReason::MaskMissing),
        20 => Some(BlobReason::BadSweep),
        21 => Some(BlobReason::BadMode),
        22 => Some(BlobReason::BadBlockTag),
        23 => Some(BlobReason::BadOffsetCode),
        24 => Some(BlobReason::BadListHead),
        25 => Some(BlobReason::BadListCount),
        26 => Some(BlobReason::BadTable),
        27 => Some(BlobReason::BadIndex),
        28 => Some(BlobReason::BadCodeTable),
        29 => Some(BlobReason::NoCode),
        30 => Some(BlobReason::PastEnd),
        31 => Some(BlobReason::Leftover),
        _ => None,
    }
}

/// The name of a number that no reason of one blob has: that of a blob that is not like the first
/// of its tile, or none.
fn other_name(number: u32) -> &'static [u8]
    requires { (number ≡ 0) ⊎ (31 < number) }
    ensures name { result.now ≡ name_at number }
    ensures short { length result.now ≤ 30 }
{
    match number {
        33 => b"BadBand",
        _ => b"",
    }
}

/// The name of the reason with this number: none where no reason has it.
pub(crate) fn name_of(number: u32) -> &'static [u8]
    ensures name { result.now ≡ name_at number }
    ensures short { length result.now ≤ 30 }
{
    match reason_at(number) {
        Some(reason) => blob_name(reason),
        None => other_name(number),
    }
}
