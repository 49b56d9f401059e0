//! The verdict on the bytes of a tile.

ghost use Rattle.std.specs.Prelude.{◌≡◌, ◌↔◌, IfOk, IsTrue, sum_by};
ghost use Rattle.raster_values.specs.Raster.{valid_count};
ghost use Rattle.lerc_grammar.specs.Bands.{BandsFaultAt};
ghost use Rattle.tile_audit.specs.Sums.{IsFloats};
ghost use Rattle.tile_audit.specs.Verdicts.{IsForeign, IsJudged, IsShapeOf};

use crate::judged::{Judged, Shape};
use crate::sums::judge_sums;
use lerc_decode::{BandsStop, decode_bands};
use lerc_grammar::{BandReason, BandsFault};
use lerc_header::{BlobReason, read_header};
use raster_values::Bands;
use std::alloc::{AllocError, Global};

/// The first bytes of each blob.
const KEY: &[u8] = b"Lerc2 ";

/// Whether the bytes do not begin as a blob does.
fn begins_otherwise(bytes: &[u8]) -> bool
    ensures { IsTrue result ↔ IsForeign bytes.now }
{
    let len = bytes.len().min(KEY.len());
    !(&bytes[..len] == &KEY[..len])
}

/// Whether the bytes begin with the header of a blob of floating-point numbers.
fn begins_with_floats(bytes: &[u8]) -> bool
    ensures { IsTrue result ↔ IsFloats bytes.now }
{
    match read_header(bytes) {
        Ok(_) => false,
        Err(fault) => match fault.reason {
            BlobReason::FloatPixels => true,
            _ => false,
        },
    }
}

/// How many pixels are valid, in all bands together.
fn count_valid(bands: &Bands) -> u64
    ensures { result ≡ sum_by valid_count bands.now }
{
    let mut valid = 0;
    for i in 0..bands.len() {
        valid += u64::from(bands.at(i).valid_count());
    }
    valid
}

/// The shape of bands.
fn shape_of(bands: &Bands) -> Shape
    ensures { IsShapeOf bands.now result }
{
    // That there is one is known once they were counted.
    let count = bands.len();
    let first = bands.at(0);
    Shape {
        kind: first.kind(),
        rows: first.rows(),
        cols: first.cols(),
        depth: first.depth(),
        bands: count as u32,
        valid: count_valid(bands),
    }
}

/// Whether this is wrong first: the version of the first blob.
fn is_of_version(fault: &BandsFault) -> bool
    ensures { IsTrue result ↔ ((fault.now.place ≡ 6)
        × (fault.now.reason ≡ BandReason.Blob BlobReason.BadVersion)) }
{
    fault.place == 6 && matches!(fault.reason, BandReason::Blob(BlobReason::BadVersion))
}

/// The verdict on bytes that are no tile of bands for this fault.
fn judged_by(bytes: &[u8], fault: BandsFault) -> Judged
    requires key { ¬ IsForeign bytes.now }
    requires whole_numbers { ¬ IsFloats bytes.now }
    requires fault { BandsFaultAt bytes.now fault.place fault.reason }
    ensures { IsJudged bytes.now result }
{
    if is_of_version(&fault) {
        return Judged::Unread;
    }
    Judged::Damaged(fault)
}

/// Judges the bytes of a tile. Each list of bytes has one verdict. Want of memory is the only
/// error.
pub fn judge(alloc: Global, bytes: &[u8]) -> Result<Judged, AllocError>
    ensures { IfOk result (λ judged. IsJudged bytes.now judged) }
{
    if begins_otherwise(bytes) {
        return Ok(Judged::Foreign);
    }
    if begins_with_floats(bytes) {
        return Ok(judge_sums(bytes));
    }
    match decode_bands(alloc, bytes) {
        Ok(bands) => Ok(Judged::Whole(shape_of(&bands))),
        Err(BandsStop::Fault(fault)) => Ok(judged_by(bytes, fault)),
        Err(BandsStop::OutOfMemory) => Err(AllocError),
    }
}
