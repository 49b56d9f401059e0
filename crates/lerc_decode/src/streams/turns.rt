//! What a piece of a blob comes to behind other blobs.

ghost use Rattle.std.specs.Prelude.{◌≡◌, ◌<◌, ◌≤◌, ◌⊎◌, ◌++◌, ℕ, List, min, length, take};
ghost use Rattle.lerc_grammar.specs.BandsReading.{IsInside};
ghost use Rattle.lerc_decode.specs.declared.streams.turns.Next.TheVariants.{OutOfMemory};
ghost use Rattle.lerc_decode.specs.Decoding.{IsStageOf};
ghost use Rattle.lerc_decode.specs.Reading.{GoesOnBehind};
ghost use Rattle.lerc_decode.specs.States.{missing_at};
ghost use Rattle.lerc_decode.specs.inside.Turns.{IsCompared, IsNext};

use crate::streams::decoder::{Decoder, FedState};
use crate::streams::front_blobs::FrontBlobs;
use lerc_grammar::{BandReason, BandsFault};
use raster_values::Raster;

/// A whole blob.
#[derive(Drop)]
pub(crate) struct Ended {
    pub(crate) band: Raster,
    pub(crate) blob: Vec<u8>,
}

/// What a piece came to. A fault's place counts from the blob's first byte.
#[derive(Drop)]
pub(crate) enum Next {
    Goes(Decoder),
    Ends(Ended),
    Refused(BandsFault),
    OutOfMemory,
}

/// What a piece came to, and how many bytes of it were used.
#[derive(Drop)]
pub(crate) struct Turn {
    pub(crate) used: usize,
    pub(crate) next: Next,
}

/// Goes on where the header, once it is whole, is like those before.
fn compare(decoder: Decoder, front: &FrontBlobs) -> Next
    requires { IsStageOf decoder.before decoder.taken decoder.stage }
    ensures { IsCompared decoder front.now.bands result }
{
    match decoder.header() {
        Some(header) => match front.unlike(&header) {
            Some(fault) => Next::Refused(fault),
            None => Next::Goes(decoder),
        },
        None => Next::Goes(decoder),
    }
}

/// Gives the decoder of a blob bytes of the piece up to what it decides next, at least one.
pub(crate) fn take_turn(decoder: Decoder, front: &FrontBlobs, piece: &[u8]) -> Turn
    requires some { 0 < length piece.now }
    requires goes { GoesOnBehind front.now.bands decoder }
    ensures within { result.used ≤ length piece.now }
    ensures used { (result.next ≡ OutOfMemory)
        ⊎ (result.used ≡ min (missing_at decoder.stage (length decoder.taken)) (length piece.now)) }
    ensures next { (taken bytes : List ℕ) → IsInside taken front.now.bands bytes decoder.taken
        → IsNext (taken ++ take result.used piece.now) front.now.bands bytes result.next }
{
    let mut decoder = decoder;
    let wants = decoder.wants().min(piece.len());
    let fed = decoder.feed(&piece[..wants]);
    let used = fed.used;
    match fed.state {
        FedState::More => Turn {
            used,
            next: compare(decoder, front),
        },
        FedState::Done => {
            let (band, blob) = decoder.into_parts();
            Turn {
                used,
                next: Next::Ends(Ended { band, blob }),
            }
        }
        FedState::Refused(fault) => Turn {
            used,
            next: Next::Refused(BandsFault {
                reason: BandReason::Blob(fault.reason),
                place: fault.place,
            }),
        },
        FedState::OutOfMemory => Turn {
            used,
            next: Next::OutOfMemory,
        },
    }
}
