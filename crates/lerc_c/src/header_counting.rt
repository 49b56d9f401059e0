//! The blobs of a tile, as far as their headers say.

ghost use Rattle.std.specs.Prelude.{◌≡◌, ◌+◌, ◌<◌, ◌≤◌, ◌^◌, IfErr, IfOk};
ghost use Rattle.lerc_c.specs.HeadedBands.{AreHeaded, IsUnheaded, headed_faults};
ghost use Rattle.lerc_c.specs.inside.Headed.{IsHeadedBy};

use lerc_header::{BlobFault, BlobReason, read_header};
use raster_values::GREATEST_BANDS;

/// The size of the blob with whose header the bytes begin, where so many are there.
fn headed_size(rest: &[u8]) -> Result<usize, BlobFault>
    ensures ok { IfOk result (λ size. IsHeadedBy rest.now size) }
    ensures fault { IfErr result (λ f. headed_faults rest.now f.place f.reason) }
{
    let header = match read_header(rest) {
        Ok(header) => header,
        Err(fault) => return Err(fault),
    };
    let size = header.size as usize;
    if rest.len() < size {
        return Err(BlobFault {
            reason: BlobReason::Truncated,
            place: rest.len() as u64,
        });
    }
    Ok(size)
}

/// A fault so many bytes further on.
fn fault_behind(fault: BlobFault, at: usize) -> BlobFault
    requires { at + fault.place < 2 ^ 64 }
    ensures { result ≡ record { reason = fault.reason; place = at + fault.place } }
{
    BlobFault {
        reason: fault.reason,
        place: at as u64 + fault.place,
    }
}

/// Bytes that follow as many blobs as a tile may have.
fn left_over(at: usize) -> BlobFault
    ensures { result ≡ record { reason = BlobReason.Leftover; place = at } }
{
    BlobFault {
        reason: BlobReason::Leftover,
        place: at as u64,
    }
}

/// How many blobs the headers say that the bytes are: each is as long as its header says, and no
/// byte is left. Nothing else of them is looked at.
pub(crate) fn count_headers(tile: &[u8]) -> Result<u32, BlobFault>
    ensures some { IfOk result (λ n. 1 ≤ n) }
    ensures few { IfOk result (λ n. n ≤ 16) }
    ensures ok { IfOk result (λ n. AreHeaded tile.now n) }
    ensures fault { IfErr result (λ f. IsUnheaded tile.now f.place f.reason) }
{
    let mut at = headed_size(tile)?;
    let mut count = 1;
    while at < tile.len() {
        if count == GREATEST_BANDS {
            return Err(left_over(at));
        }
        match headed_size(&tile[at..]) {
            Ok(size) => {
                at += size;
                count += 1;
            }
            Err(fault) => return Err(fault_behind(fault, at)),
        }
    }
    Ok(count)
}
