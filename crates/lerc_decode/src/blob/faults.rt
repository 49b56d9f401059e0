//! Faults of a blob's parts, as faults of the blob.

ghost use Rattle.std.specs.Prelude.{◌≡◌};
ghost use Rattle.lerc_grammar.specs.Reasons.{block_reason, code_reason, list_reason};

use bit_stuff::ListReason;
use huff_codes::CodeReason;
use lerc_header::{BlobFault, BlobReason};
use micro_block::BlockReason;

/// A fault, as an answer.
pub(crate) fn refuse<T: Drop>(reason: BlobReason, place: usize) -> Result<T, BlobFault>
    ensures { result ≡ Err (record { reason = reason; place = place }) }
{
    Err(BlobFault {
        reason,
        place: place as u64,
    })
}

/// The reason of a list's fault.
fn reason_of_list(reason: ListReason) -> BlobReason
    ensures { result ≡ list_reason reason }
{
    match reason {
        ListReason::Cut => BlobReason::PastEnd,
        ListReason::BadHead => BlobReason::BadListHead,
        ListReason::BadCount => BlobReason::BadListCount,
        ListReason::BadTable => BlobReason::BadTable,
        ListReason::BadIndex => BlobReason::BadIndex,
    }
}

/// The reason of a block's fault.
pub(crate) fn reason_of_block(reason: BlockReason) -> BlobReason
    ensures { result ≡ block_reason reason }
{
    match reason {
        BlockReason::Cut => BlobReason::PastEnd,
        BlockReason::BadTag => BlobReason::BadBlockTag,
        BlockReason::BadOffset => BlobReason::BadOffsetCode,
        BlockReason::List(reason) => reason_of_list(reason),
    }
}

/// The reason of a fault of codes.
pub(crate) fn reason_of_code(reason: CodeReason) -> BlobReason
    ensures { result ≡ code_reason reason }
{
    match reason {
        CodeReason::Cut => BlobReason::PastEnd,
        CodeReason::BadTable => BlobReason::BadCodeTable,
        CodeReason::NoCode => BlobReason::NoCode,
        CodeReason::List(reason) => reason_of_list(reason),
    }
}
