//! Decoding all bands of a source.

ghost use Rattle.std.specs.Prelude.{◌≡◌, ◌<◌, ◌≤◌, ◌⊎◌, ℕ, List, [], IfOk, OnOk, Option, length};
ghost use Rattle.outside_io.specs.streams.Faults.{CountsFaults};
ghost use Rattle.outside_io.specs.streams.Source.{IsAtEnd, TakesUpTo};
ghost use Rattle.raster_values.specs.Bands.{AreBands};
ghost use Rattle.lerc_decode.specs.Reading.{IsAfter, wanted};
ghost use Rattle.lerc_decode.specs.inside.BandsFeeding.{HasRead, room_of};
ghost use Rattle.lerc_decode.specs.inside.BandsAnswers.{from_stop};
ghost use Rattle.lerc_decode.specs.inside.Kept.{IsKeeping};
ghost use Rattle.lerc_decode.specs.BandsSource.{AreBlobsRead, CountsBands, IsBandsRead, LeavesRest};

use crate::streams::PIECE;
use crate::streams::bands::{BandsDecoder, BandsStop};
use crate::streams::kept::KeptBlobs;
use lerc_grammar::BandsFault;
use outside_io::{Failed, Source};
use raster_values::Bands;
use std::alloc::Global;

/// Why a source gave no bands.
#[derive(Clone, Copy, Debug)]
pub enum BandsFromFault {
    Fault(BandsFault),
    Source,
    OutOfMemory,
}

/// Feeds the decoder with one call on the source, of at most as many bytes as it wants. Answers how
/// many bytes came.
fn step_once<S: Source>(
    src: &mut S,
    decoder: &mut BandsDecoder,
    room: &mut [u8],
) -> Result<usize, Failed>
    requires short { length room.old ≤ wanted decoder.old.stage }
    ensures counted { CountsFaults result (S.faults src.old) (S.faults src.new) }
    ensures read { OnOk result ((first : Option (List ℕ))
        → HasRead first (S.left src.old) decoder.old
        → HasRead first (S.left src.new) decoder.new) }
    ensures taken { TakesUpTo (wanted decoder.old.stage) (S.left src.old) (S.left src.new) }
    ensures end { IfOk result (λ n. n ≡ 0 → (length room.old ≡ 0) ⊎ IsAtEnd (S.left src.new)) }
    ensures less { IfOk result (λ n. 0 < n → room_of decoder.new < room_of decoder.old) }
    ensures same { IfOk result (λ n. n ≡ 0 → decoder.new ≡ decoder.old) }
    ensures keeps { IsKeeping decoder.old.front.kept → IsKeeping decoder.new.front.kept }
{
    // For the proofs: what holds of each decoder.
    let _state = decoder.state();
    let got = src.take(room)?;
    if got > 0 {
        decoder.step(&room[..got]);
    }
    Ok(got)
}

/// Feeds the decoder from a source until a fault is decided, or the source ends or fails. It asks
/// for no more bytes than the decoder wants, so that none behind the one that decides is taken.
fn step_all<S: Source>(src: &mut S, decoder: &mut BandsDecoder) -> Result<(), Failed>
    requires { IsAfter [] decoder.old }
    ensures counted { CountsFaults result (S.faults src.old) (S.faults src.new) }
    ensures read { OnOk result (HasRead (S.left src.old) (S.left src.new) decoder.new) }
    ensures end { OnOk result ((wanted decoder.new.stage ≡ 0) ⊎ IsAtEnd (S.left src.new)) }
    ensures keeps { IsKeeping decoder.old.front.kept → IsKeeping decoder.new.front.kept }
    ensures taken { TakesUpTo 2147483649 (S.left src.old) (S.left src.new) }
{
    let mut buf = [0u8; PIECE];
    loop {
        let wants = decoder.wants().min(PIECE);
        let got = step_once(src, decoder, &mut buf[..wants])?;
        if got == 0 {
            return Ok(());
        }
    }
}

/// Why a decoder gave no bands, as an answer about its source.
fn why(stop: BandsStop) -> BandsFromFault
    ensures { result ≡ from_stop stop }
{
    match stop {
        BandsStop::Fault(fault) => BandsFromFault::Fault(fault),
        BandsStop::OutOfMemory => BandsFromFault::OutOfMemory,
    }
}

/// Decodes the tile that all of the source's bytes are. A fault takes the bytes that decide it
/// alone.
pub fn decode_bands_from<S: Source>(alloc: Global, src: &mut S) -> Result<Bands, BandsFromFault>
    ensures counted { CountsBands result (S.faults src.old) (S.faults src.new) }
    ensures bands { IfOk result (λ bands. AreBands bands) }
    ensures told { IsBandsRead result (S.left src.old) }
    ensures left { LeavesRest result (S.left src.old) (S.left src.new) }
    ensures end { OnOk result (IsAtEnd (S.left src.new)) }
    ensures taken { TakesUpTo 2147483649 (S.left src.old) (S.left src.new) }
{
    let mut decoder = BandsDecoder::new(alloc);
    match step_all(src, &mut decoder) {
        Ok(()) => match decoder.finish() {
            Ok(bands) => Ok(bands),
            Err(stop) => Err(why(stop)),
        },
        Err(_) => Err(BandsFromFault::Source),
    }
}

/// Decodes the tile that all of the source's bytes are, and answers its blobs. A fault takes the
/// bytes that decide it alone.
pub fn keep_bands_from<S: Source>(alloc: Global, src: &mut S) -> Result<KeptBlobs, BandsFromFault>
    ensures counted { CountsBands result (S.faults src.old) (S.faults src.new) }
    ensures told { AreBlobsRead result (S.left src.old) }
    ensures left { LeavesRest result (S.left src.old) (S.left src.new) }
    ensures end { OnOk result (IsAtEnd (S.left src.new)) }
    ensures taken { TakesUpTo 2147483649 (S.left src.old) (S.left src.new) }
{
    let mut decoder = BandsDecoder::new_keeping(alloc);
    match step_all(src, &mut decoder) {
        Ok(()) => match decoder.finish_kept() {
            Ok(found) => {
                let (_, kept) = found;
                match kept {
                    Some(kept) => Ok(kept),
                    None => unreachable!(),
                }
            }
            Err(stop) => Err(why(stop)),
        },
        Err(_) => Err(BandsFromFault::Source),
    }
}
