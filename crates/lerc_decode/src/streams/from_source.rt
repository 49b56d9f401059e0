//! Decoding from a source.

ghost use Rattle.std.specs.Prelude.{◌≡◌, ◌<◌, ◌≤◌, ◌⊎◌, [], IfOk, OnOk, length};
ghost use Rattle.outside_io.specs.streams.Faults.{CountsFaults};
ghost use Rattle.outside_io.specs.streams.Source.{IsAtEnd, TakesUpTo};
ghost use Rattle.raster_values.specs.Raster.{IsRaster};
ghost use Rattle.lerc_decode.specs.Decoding.{IsStageOf};
ghost use Rattle.lerc_decode.specs.States.{missing_at};
ghost use Rattle.lerc_decode.specs.Feeding.{Begins, Follows, Joins};
ghost use Rattle.lerc_decode.specs.FromSource.{CountsSource, IsDecoded, IsSized};
ghost use Rattle.lerc_decode.specs.inside.Feeding.{from_finished, work_left};

use crate::streams::PIECE;
use crate::streams::decoder::{DecodeFault, Decoder};
use lerc_header::BlobFault;
use outside_io::{Failed, Source};
use raster_values::Raster;
use std::alloc::Global;

/// A raster, and how many bytes its blob has.
#[derive(Drop)]
pub struct Decoded {
    pub raster: Raster,
    pub size: usize,
}

/// Why a source gave no raster.
#[derive(Clone, Copy, Debug)]
pub enum FromFault {
    Blob(BlobFault),
    Source,
    OutOfMemory,
}

/// Feeds the decoder with one call on the source, of at most as many bytes as it wants. Answers how
/// many bytes came.
fn feed_once<S: Source>(
    src: &mut S,
    decoder: &mut Decoder,
    room: &mut [u8],
) -> Result<usize, Failed>
    requires short { length room.old ≤ missing_at decoder.old.stage (length decoder.old.taken) }
    requires stands { IsStageOf decoder.old.before decoder.old.taken decoder.old.stage }
    ensures counted { CountsFaults result (S.faults src.old) (S.faults src.new) }
    ensures fed { OnOk result (Follows decoder.new.stage
        (Joins (S.left src.old) (S.left src.new) decoder.old.taken decoder.new.taken)) }
    ensures begins { OnOk result (Begins (S.left src.old) decoder.old.taken decoder.new.taken) }
    ensures taken { TakesUpTo (missing_at decoder.old.stage (length decoder.old.taken))
        (S.left src.old) (S.left src.new) }
    ensures stands { IsStageOf decoder.new.before decoder.new.taken decoder.new.stage }
    ensures before { decoder.new.before ≡ decoder.old.before }
    ensures within { IfOk result (λ n. n ≤ length room.old) }
    ensures same { IfOk result (λ n. n ≡ 0 → decoder.new ≡ decoder.old) }
    ensures end { IfOk result (λ n. n ≡ 0 → (length room.old ≡ 0) ⊎ IsAtEnd (S.left src.new)) }
    ensures less { IfOk result (λ n. 0 < n → work_left decoder.new < work_left decoder.old) }
{
    let got = src.take(room)?;
    if got > 0 {
        decoder.feed(&room[..got]);
    }
    Ok(got)
}

/// Feeds the decoder from a source until nothing more is decided, or the source ends or fails. It
/// asks for no more bytes than the decoder wants, so that none behind the blob is taken.
pub fn feed_from<S: Source>(src: &mut S, decoder: &mut Decoder) -> Result<(), Failed>
    ensures counted { CountsFaults result (S.faults src.old) (S.faults src.new) }
    ensures fed { OnOk result (Follows decoder.new.stage
        (Joins (S.left src.old) (S.left src.new) decoder.old.taken decoder.new.taken)) }
    ensures begins { OnOk result (Begins (S.left src.old) decoder.old.taken decoder.new.taken) }
    ensures taken { decoder.old.taken ≡ [] → TakesUpTo 134217728 (S.left src.old) (S.left src.new) }
    ensures stands { IsStageOf decoder.new.before decoder.new.taken decoder.new.stage }
    ensures before { decoder.new.before ≡ decoder.old.before }
    ensures end { OnOk result ((missing_at decoder.new.stage (length decoder.new.taken) ≡ 0)
        ⊎ IsAtEnd (S.left src.new)) }
{
    // For the proofs: what holds of each decoder.
    let _state = decoder.state();
    let mut buf = [0u8; PIECE];
    loop {
        let wants = decoder.wants().min(PIECE);
        let got = feed_once(src, decoder, &mut buf[..wants])?;
        if got == 0 {
            return Ok(());
        }
    }
}

/// The answer of a decoder that took so many bytes, as that of a source.
fn answer(finished: Result<Raster, DecodeFault>, size: usize) -> Result<Decoded, FromFault>
    ensures { result ≡ from_finished finished size }
{
    match finished {
        Ok(raster) => Ok(Decoded { raster, size }),
        Err(DecodeFault::Blob(fault)) => Err(FromFault::Blob(fault)),
        Err(DecodeFault::OutOfMemory) => Err(FromFault::OutOfMemory),
    }
}

/// Decodes the blob that comes first of the source's bytes, and counts them. `Ok` takes its bytes
/// alone, and a fault of the blob the bytes that decide it alone.
pub fn decode_sized<S: Source>(alloc: Global, src: &mut S) -> Result<Decoded, FromFault>
    ensures counted { CountsSource result (S.faults src.old) (S.faults src.new) }
    ensures raster { IfOk result (λ d. IsRaster d.raster) }
    ensures told { IsSized result (S.left src.old) (S.left src.new) }
    ensures taken { TakesUpTo 134217728 (S.left src.old) (S.left src.new) }
{
    let mut decoder = Decoder::new(alloc);
    match feed_from(src, &mut decoder) {
        Ok(()) => {
            let size = decoder.bytes().len();
            answer(decoder.finish(), size)
        }
        Err(_) => Err(FromFault::Source),
    }
}

/// Decodes the blob that comes first of the source's bytes. `Ok` takes its bytes alone, and a fault
/// of the blob the bytes that decide it alone.
pub fn decode_from<S: Source>(alloc: Global, src: &mut S) -> Result<Raster, FromFault>
    ensures counted { CountsSource result (S.faults src.old) (S.faults src.new) }
    ensures raster { IfOk result (λ r. IsRaster r) }
    ensures told { IsDecoded result (S.left src.old) (S.left src.new) }
    ensures taken { TakesUpTo 134217728 (S.left src.old) (S.left src.new) }
{
    match decode_sized(alloc, src) {
        Ok(decoded) => Ok(decoded.raster),
        Err(fault) => Err(fault),
    }
}
