//! Blobs of floating-point numbers, judged by their checksums.

ghost use Rattle.std.specs.Prelude.{◌≡◌, ◌↔◌, ◌+◌, ◌<◌, ◌≤◌, ◌^◌, IfErr, IfOk, IsTrue, MatchOption, length, take};
ghost use Rattle.lerc_header.specs.Head.{shift, u32_at};
ghost use Rattle.lerc_header.specs.HeadFaults.{HasKey};
ghost use Rattle.lerc_header.specs.declared.header.Version.{Version};
ghost use Rattle.tile_audit.specs.Sums.{AreSummed, FloatFault, IsFloatHead, IsFloats, IsNext, IsSummed, SumFaultAt, next_sum_faults};
ghost use Rattle.tile_audit.specs.Verdicts.{IsJudged};

use crate::judged::Judged;
use byteorder::{ByteOrder, LittleEndian};
use lerc_grammar::{BandReason, BandsFault};
use lerc_header::{BlobReason, Header, Version, read_header, signed_at, sum_behind};

/// How many blobs a tile has at most.
const MOST_BLOBS: u8 = 16;

/// A fault of a blob.
fn fault_of(reason: BlobReason, place: usize) -> BandsFault
    ensures { result ≡ record { reason = BandReason.Blob reason; place = place } }
{
    BandsFault {
        reason: BandReason::Blob(reason),
        place: place as u64,
    }
}

/// The version of a blob whose header's type stands at this place.
fn version_by(type_place: u64) -> Version
    ensures { (v : Version) → type_place ≡ 34 + shift v → result ≡ v }
{
    if type_place == 34 {
        Version::V3
    } else {
        Version::V4
    }
}

/// The checksum that the header states.
#[tactic(auto, unfolding(lerc_header::specs::Head::u32_at))]
fn stored_sum(rest: &[u8]) -> u32
    requires { 14 ≤ length rest.now }
    ensures { result ≡ u32_at rest.now 10 }
{
    LittleEndian::read_u32(&rest[10..])
}

/// How many bytes the blob of this version has that begins here, where they are all there with
/// their checksum. The header ends 32 bytes behind the size.
fn summed_size(rest: &[u8], version: Version) -> Result<usize, BandsFault>
    requires floats { IsFloatHead version rest.now }
    ensures ok { IfOk result (λ n.
        (0 < n) × ((n ≤ length rest.now) × IsSummed (take n rest.now))) }
    ensures fault { IfErr result (λ f. FloatFault rest.now f.place f.reason) }
    ensures near { IfErr result (λ f. f.place ≤ length rest.now) }
{
    let size = signed_at(rest, version.head_length() - 32) as usize;
    if rest.len() < size {
        return Err(fault_of(BlobReason::Truncated, rest.len()));
    }
    let stored = stored_sum(rest);
    let computed = sum_behind(&rest[..size]);
    if stored != computed {
        return Err(fault_of(BlobReason::BadChecksum { stored, computed }, 10));
    }
    Ok(size)
}

/// The fault of a blob of whole numbers behind one of floating-point numbers, at its type, which
/// stands 28 bytes before the end of the header.
fn unlike(header: &Header) -> BandsFault
    ensures { result ≡ record {
      reason = BandReason.BadBand;
      place = 34 + shift header.now.version;
    } }
{
    BandsFault {
        reason: BandReason::BadBand,
        place: header.version.head_length() as u64 - 28,
    }
}

/// How many bytes the blob has that begins here, if it is one of floating-point numbers whose
/// checksum stands; or what is wrong with it first.
fn float_size(rest: &[u8]) -> Result<usize, BandsFault>
    ensures ok { IfOk result (λ n.
        (0 < n) × ((n ≤ length rest.now) × IsSummed (take n rest.now))) }
    ensures fault { IfErr result (λ f. FloatFault rest.now f.place f.reason) }
    ensures near { IfErr result (λ f. f.place ≤ length rest.now) }
{
    match read_header(rest) {
        Ok(header) => Err(unlike(&header)),
        Err(fault) => match fault.reason {
            BlobReason::FloatPixels => summed_size(rest, version_by(fault.place)),
            _ => Err(fault_of(fault.reason, fault.place as usize)),
        },
    }
}

/// Whether the bytes begin with a blob's key.
fn has_key(rest: &[u8]) -> bool
    ensures { IsTrue result ↔ HasKey rest.now }
{
    rest.len() >= 6 && &rest[..6] == b"Lerc2 ".as_slice()
}

/// Whether behind so many blobs another one begins.
fn is_next(rest: &[u8], count: u8) -> bool
    ensures { IsTrue result ↔ IsNext count rest.now }
{
    count == 0 || (count < MOST_BLOBS && has_key(rest))
}

/// The same of the blob behind so many others, where one begins; none of more than 16 does.
fn next_size(rest: &[u8], count: u8) -> Result<usize, BandsFault>
    requires count { count ≤ 16 }
    requires some { 0 < length rest.now }
    ensures ok { IfOk result (λ n. IsNext count rest.now
        × ((0 < n) × ((n ≤ length rest.now) × IsSummed (take n rest.now)))) }
    ensures fault { IfErr result (λ f. next_sum_faults count rest.now f.place f.reason) }
    ensures near { IfErr result (λ f. f.place ≤ length rest.now) }
{
    if !is_next(rest, count) {
        return Err(fault_of(BlobReason::Leftover, 0));
    }
    float_size(rest)
}

/// A fault so many bytes further on.
fn later(fault: BandsFault, by: usize) -> BandsFault
    requires { by + fault.place < 2 ^ 64 }
    ensures { result ≡ record { reason = fault.reason; place = by + fault.place } }
{
    BandsFault {
        reason: fault.reason,
        place: by as u64 + fault.place,
    }
}

/// What is wrong first with the blobs of floating-point numbers that the bytes are; none where each
/// has its checksum.
fn first_sum_fault(bytes: &[u8]) -> Option<BandsFault>
    requires { IsFloats bytes.now }
    ensures { MatchOption result (AreSummed bytes.now)
        (λ f. SumFaultAt bytes.now f.place f.reason) }
{
    let mut at = 0;
    let mut count = 0;
    while at < bytes.len() {
        match next_size(&bytes[at..], count) {
            Ok(size) => at += size,
            Err(fault) => return Some(later(fault, at)),
        }
        count += 1;
    }
    None
}

/// Judges bytes that begin with the header of a blob of floating-point numbers. It takes no memory.
pub(crate) fn judge_sums(bytes: &[u8]) -> Judged
    requires { IsFloats bytes.now }
    ensures { IsJudged bytes.now result }
{
    match first_sum_fault(bytes) {
        None => Judged::Summed,
        Some(fault) => Judged::Damaged(fault),
    }
}
