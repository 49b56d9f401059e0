//! A blob whose header and checksum stand.

ghost use Rattle.std.specs.Prelude.{◌≡◌, IfErr, IfOk, Option, length};
ghost use Rattle.first_fault.specs.Parts.{AreBytes};
ghost use Rattle.lerc_header.specs.Head.{HeadAt};
ghost use Rattle.lerc_header.specs.HeadProps.{HeadAt-prop};
ghost use Rattle.lerc_grammar.specs.Blob.{blob_faults};
ghost use Rattle.lerc_grammar.specs.Mask.{Previous};
ghost use Rattle.lerc_decode.specs.inside.Body.{HasSum, IsFaultIn};

use crate::blob::faults::refuse;
use lerc_header::{BlobFault, BlobReason, Header, sum_behind};

/// The bytes of a blob, and the header with which they begin.
#[derive(Clone, Copy)]
pub(crate) struct SummedBlob<'a> {
    pub(crate) bytes: &'a [u8],
    pub(crate) header: Header,
    ghost are_bytes: { AreBytes bytes.now },
    ghost head: { HeadAt bytes.now header } by { HeadAt-prop bytes.now header },
    ghost size: { length bytes.now ≡ header.size },
    ghost sum: { HasSum header bytes.now },
}

impl<'a> SummedBlob<'a> {
    /// The blob, where the checksum stands.
    pub(crate) fn of(bytes: &'a [u8], header: &Header) -> Result<SummedBlob<'a>, BlobFault>
        requires head { HeadAt bytes.now header.now }
        requires size { length bytes.now ≡ header.now.size }
        ensures ok { IfOk result (λ blob. (blob.bytes.now ≡ bytes.now)
            × (blob.header ≡ header.now)) }
        ensures fault { IfErr result (λ fault. (before : Option Previous) →
            IsFaultIn (blob_faults before header.now bytes.now) fault) }
    {
        let computed = sum_behind(bytes);
        if header.checksum != computed {
            return refuse(
                BlobReason::BadChecksum {
                    stored: header.checksum,
                    computed,
                },
                10,
            );
        }
        let blob = SummedBlob {
            bytes,
            header: *header,
        };
        Ok(blob)
    }
}
