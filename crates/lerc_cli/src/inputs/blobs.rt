//! Reading the blobs of bands that are all of the input, or of a tile's bytes: the bands, or the
//! bytes of each blob once all were decoded.

ghost use Rattle.std.specs.Prelude.{◌≡◌, Err, OnOk};
ghost use Rattle.outside_io.specs.streams.Faults.{IsCause};
ghost use Rattle.outside_io.specs.streams.Source.{TakesUpTo, IsAtEnd};
ghost use Rattle.lerc_cli.specs.inputs.Refused.{band_reason_of};
ghost use Rattle.lerc_cli.specs.inside.Opening.{DecodesTile, tile_fault_of};
ghost use Rattle.lerc_cli.specs.inside.Reads.{KeepsBlobs, ReadsBands, stop_of};

use crate::refusal::{Fault, Reason, Refusal};
use lerc_decode::{
    BandsFromFault, BandsStop, KeptBlobs, decode_bands, decode_bands_from, keep_bands_from,
};
use lerc_grammar::{BandReason, BandsFault};
use outside_io::Source;
use program_ends::Stop;
use raster_values::Bands;
use std::alloc::Global;

/// What is wrong in blobs of bands, as a reason.
fn band_reason(reason: BandReason) -> Reason
    ensures { result ≡ band_reason_of reason }
{
    match reason {
        BandReason::Blob(reason) => Reason::Blob(reason),
        BandReason::BadBand => Reason::BadBand,
    }
}

/// A fault of blobs of bands as a refusal.
fn bands_refusal(fault: BandsFault) -> Refusal
    ensures { result ≡ Refusal.Input
        (record { reason = band_reason_of fault.reason; place = fault.place }) }
{
    Refusal::Input(Fault {
        reason: band_reason(fault.reason),
        place: fault.place,
    })
}

/// Why a source gave no bands, as a stop.
fn bands_stop(fault: BandsFromFault) -> Stop<Refusal>
    ensures { result ≡ stop_of fault }
{
    match fault {
        BandsFromFault::Fault(fault) => Stop::Refused(bands_refusal(fault)),
        BandsFromFault::Source => Stop::Source,
        BandsFromFault::OutOfMemory => Stop::OutOfMemory,
    }
}

/// Reads the bands of the blobs that are all that the source has. Memory is wanted only where a
/// lawful header stands whole.
pub fn read_bands<S: Source>(alloc: Global, src: &mut S) -> Result<Bands, Stop<Refusal>>
    ensures bands { ReadsBands (S.left src.old) result }
    ensures source { IsCause (result ≡ Err Stop.Source) (S.faults src.old) (S.faults src.new) }
    ensures taken { TakesUpTo 2147483649 (S.left src.old) (S.left src.new) }
    ensures end { OnOk result (IsAtEnd (S.left src.new)) }
{
    match decode_bands_from(alloc, src) {
        Ok(bands) => Ok(bands),
        Err(fault) => Err(bands_stop(fault)),
    }
}

/// Reads the blobs of bands that are all that the source has, each decoded whole, and answers the
/// bytes of each. Memory is wanted only where a lawful header stands whole.
pub fn read_kept<S: Source>(alloc: Global, src: &mut S) -> Result<KeptBlobs, Stop<Refusal>>
    ensures blobs { KeepsBlobs (S.left src.old) result }
    ensures source { IsCause (result ≡ Err Stop.Source) (S.faults src.old) (S.faults src.new) }
    ensures taken { TakesUpTo 2147483649 (S.left src.old) (S.left src.new) }
    ensures end { OnOk result (IsAtEnd (S.left src.new)) }
{
    match keep_bands_from(alloc, src) {
        Ok(blobs) => Ok(blobs),
        Err(fault) => Err(bands_stop(fault)),
    }
}

/// Why a tile gave no bands, as a stop.
fn tile_fault(fault: BandsStop) -> Stop<Refusal>
    ensures { result ≡ tile_fault_of fault }
{
    match fault {
        BandsStop::Fault(fault) => Stop::Refused(bands_refusal(fault)),
        BandsStop::OutOfMemory => Stop::OutOfMemory,
    }
}

/// The bands of the blobs that these bytes are.
pub fn decode_tile(alloc: Global, tile: &[u8]) -> Result<Bands, Stop<Refusal>>
    ensures { DecodesTile tile.now result }
{
    match decode_bands(alloc, tile) {
        Ok(bands) => Ok(bands),
        Err(fault) => Err(tile_fault(fault)),
    }
}
