//! Decoding a blob that lies whole in memory.

ghost use Rattle.std.specs.Prelude.{IfErr, IfOk};
ghost use Rattle.lerc_grammar.specs.Verdict.{IsDone};
ghost use Rattle.lerc_decode.specs.Over.{IsDecodeStop};

use crate::blob::body::{BodyStop, body};
use crate::over::{cut_fault, front_header};
use crate::streams::decoder::DecodeFault;
use crate::streams::from_source::Decoded;
use std::alloc::Global;

/// Decodes the blob with which the bytes begin, and answers how many bytes it has. Its bytes are
/// read where they lie. Memory is wanted only where a lawful header stands whole.
pub fn decode(alloc: Global, blob: &[u8]) -> Result<Decoded, DecodeFault>
    ensures ok { IfOk result (λ d. IsDone blob.now d.raster d.size) }
    ensures stop { IfErr result (λ stop. IsDecodeStop blob.now stop) }
{
    let header = match front_header(blob) {
        Ok(header) => header,
        Err(fault) => return Err(DecodeFault::Blob(fault)),
    };
    let size = header.size as usize;
    if blob.len() < size {
        return Err(DecodeFault::Blob(cut_fault(blob)));
    }
    match body(alloc, &blob[..size], &header, &None) {
        Ok(raster) => Ok(Decoded { raster, size }),
        Err(BodyStop::Fault(fault)) => Err(DecodeFault::Blob(fault)),
        Err(BodyStop::OutOfMemory) => Err(DecodeFault::OutOfMemory),
    }
}
