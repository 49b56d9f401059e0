//! Reading the one grid that is all of the input, and encoding its bands.

ghost use Rattle.std.specs.Prelude.{◌≡◌, ◌<◌, ◌≤◌, Err, IfErr, IfOk, OnOk, length};
ghost use Rattle.outside_io.specs.streams.Faults.{IsCause};
ghost use Rattle.outside_io.specs.streams.Source.{IsAtEnd};
ghost use Rattle.raster_values.specs.Bands.{AreBands};
ghost use Rattle.raster_grids.specs.Taken.{TookSome};
ghost use Rattle.grid_blobs.specs.declared.stop.InputReason.{InputReason};
ghost use Rattle.grid_blobs.specs.declared.stop.InputStop.{InputStop};
ghost use Rattle.grid_blobs.specs.Blobs.{AreBlobsOf};
ghost use Rattle.grid_blobs.specs.Stops.{IsStopOf, SaysOfAny};
ghost use Rattle.grid_blobs.specs.inside.Reads.{MakesBlobs, ReadsGrid};

use crate::stop::{InputFault, InputReason, InputStop, grid_stop};
use lerc_encode::{EncodeFault, encode_bands};
use lerc_header::{Step, Version};
use outside_io::{Bytes, Source, has_more};
use raster_grids::{bands_read, bands_size};
use raster_values::Bands;
use std::alloc::Global;

/// That a byte stands behind the grid.
fn leftover_stop(place: u64) -> InputStop
    ensures { result ≡ InputStop.Fault (record { reason = InputReason.Leftover; place = place }) }
{
    InputStop::Fault(InputFault {
        reason: InputReason::Leftover,
        place,
    })
}

/// Reads the bands of the grid that is all that the source has. Behind the grid it asks for one
/// byte more, so that it knows the end.
fn read_grid<S: Source>(alloc: Global, src: &mut S) -> Result<Bands, InputStop>
    ensures grid { ReadsGrid (S.left src.old) result }
    ensures source { IsCause (result ≡ Err InputStop.Source)
        (S.faults src.old) (S.faults src.new) }
    ensures taken { TookSome (S.left src.old) (S.left src.new) }
    ensures end { OnOk result (IsAtEnd (S.left src.new)) }
{
    let bands = match bands_read(alloc, src, 0) {
        Ok(bands) => bands,
        Err(fault) => return Err(grid_stop(fault)),
    };
    match has_more(src) {
        Ok(false) => Ok(bands),
        Ok(true) => Err(leftover_stop(bands_size(&bands))),
        Err(_) => Err(InputStop::Source),
    }
}

/// The blobs that are chosen for bands.
fn blobs_of(alloc: Global, bands: &Bands, version: Version, error: u32) -> Result<Bytes, InputStop>
    requires { AreBands bands.now }
    ensures { MakesBlobs version error bands.now result }
{
    match encode_bands(alloc, bands, version, Step::of(error)) {
        Ok(blobs) => Ok(blobs),
        Err(EncodeFault::DepthNeedsV4) => Err(InputStop::Fault(InputFault {
            reason: InputReason::DepthNeedsV4,
            place: 13,
        })),
        Err(EncodeFault::OutOfMemory) => Err(InputStop::OutOfMemory),
    }
}

/// Reads one grid, which is to be all that the source has, and answers the blobs that are chosen
/// for its bands: in this version, with values that are at most this error from the given ones.
///
/// Refusals come in this order: the first fault of the grid, a byte behind it, and more than one
/// depth in version 3. The source is read to its end before anything is encoded.
pub fn encode_grid<S: Source>(
    alloc: Global,
    version: Version,
    error: u32,
    src: &mut S,
) -> Result<Bytes, InputStop>
    ensures blobs { IfOk result (λ blobs. AreBlobsOf version error (S.left src.old) blobs) }
    ensures some { IfOk result (λ blobs. 0 < length blobs) }
    ensures few { IfOk result (λ blobs. length blobs ≤ 134217728) }
    ensures refused { IfErr result (λ stop. IsStopOf version (S.left src.old) stop) }
    ensures deep { IfErr result (λ stop. SaysOfAny version stop) }
    ensures source { IsCause (result ≡ Err InputStop.Source)
        (S.faults src.old) (S.faults src.new) }
    ensures taken { TookSome (S.left src.old) (S.left src.new) }
    ensures end { OnOk result (IsAtEnd (S.left src.new)) }
{
    let bands = match read_grid(alloc, src) {
        Ok(bands) => bands,
        Err(stop) => return Err(stop),
    };
    blobs_of(alloc, &bands, version, error)
}
