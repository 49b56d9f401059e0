//! The whole blobs that a decoder of bands has taken: their bands, and the blobs where they are
//! kept.

ghost use Rattle.std.specs.Prelude.{◌≡◌, ◌<◌, ◌+◌, ◌^◌, ◌++◌, [], ◌∷◌, IfOk, IfSome, IsNone, OnOk};
ghost use Rattle.std.specs.Prelude.{None, Some, length};
ghost use Rattle.first_fault.specs.Parts.{IsEmpty};
ghost use Rattle.raster_values.specs.Bands.{MayBeBands};
ghost use Rattle.raster_cells.specs.Shapes.{IsShape};
ghost use Rattle.lerc_grammar.specs.Bands.{last_after, unlike_faults};
ghost use Rattle.lerc_decode.specs.Decoding.{Key};
ghost use Rattle.lerc_decode.specs.Reading.{WholeFront};
ghost use Rattle.lerc_decode.specs.inside.Turns.{with_blob};
ghost use Rattle.lerc_decode.specs.inside.Kept.{IsKeeping};

use crate::streams::decoder::Decoder;
use crate::streams::kept::KeptBlobs;
use lerc_grammar::{BandReason, BandsFault};
use lerc_header::{BlobReason, Header};
use raster_values::{Bands, GREATEST_VALUES, Raster};
use std::alloc::{AllocError, Global};
use std::marker::Model;
use std::mem;

/// The whole blobs in front.
#[derive(Drop)]
pub(crate) struct FrontBlobs {
    bands: Option<Bands>,
    // How many bytes they are.
    place: u64,
    kept: Option<KeptBlobs>,
}

impl Model for FrontBlobs {
    ghost use Rattle.lerc_decode.specs.Reading.{WholeFront};

    ghost Value = { WholeFront };

    ghost use Rattle.lerc_decode.specs.inside.Turns.{bands_in};

    ghost view = { λ a. record { bands = bands_in a.bands; place = a.place; kept = a.kept } };
}

/// A header that is not like that of the first blob.
fn bad_band(place: usize) -> Option<BandsFault>
    ensures { result ≡ Some (record { reason = BandReason.BadBand; place = place }) }
{
    Some(BandsFault {
        reason: BandReason::BadBand,
        place: place as u64,
    })
}

impl FrontBlobs {
    /// No blob.
    pub(crate) fn new(kept: Option<KeptBlobs>) -> FrontBlobs
        ensures { result ≡ record { bands = []; place = 0; kept = kept } }
    {
        FrontBlobs {
            bands: None,
            place: 0,
            kept,
        }
    }

    /// One whole blob more.
    pub(crate) fn add(
        &mut self,
        alloc: Global,
        band: Raster,
        blob: Vec<u8>,
    ) -> Result<(), AllocError>
        requires bands { MayBeBands (self.old.bands ++ band ∷ []) }
        requires few { self.old.place + length blob.items < 2 ^ 64 }
        ensures ok { OnOk result (self.new ≡ with_blob self.old band blob.items) }
        ensures keeps { IsKeeping self.old.kept → IsKeeping self.new.kept }
    {
        let bands = match mem::replace(&mut self.bands, None) {
            Some(bands) => {
                let mut bands = bands;
                bands.push(band)?;
                bands
            }
            None => Bands::of(alloc, band)?,
        };
        self.bands = Some(bands);
        self.place += blob.len() as u64;
        match &mut self.kept {
            Some(kept) => kept.push(blob),
            None => Ok(()),
        }
    }

    /// How many blobs there are.
    pub(crate) fn len(&self) -> usize
        ensures { result ≡ length self.now.bands }
    {
        match &self.bands {
            Some(bands) => bands.len(),
            None => 0,
        }
    }

    /// How many bytes they are.
    pub(crate) fn place(&self) -> u64
        ensures { result ≡ self.now.place }
    {
        self.place
    }

    /// A decoder of the blob behind them.
    pub(crate) fn next(&self, alloc: Global) -> Result<Decoder, AllocError>
        ensures taken { IfOk result (λ d. d.taken ≡ []) }
        ensures stage { IfOk result (λ d. d.stage ≡ Key) }
        ensures before { IfOk result (λ d. d.before ≡ last_after None self.now.bands) }
    {
        match &self.bands {
            Some(bands) => Decoder::after(alloc, bands.at(bands.len() - 1)),
            None => Ok(Decoder::new(alloc)),
        }
    }

    /// What is wrong first with a header behind them: it is not like the first one, or with it
    /// there are too many values.
    pub(crate) fn unlike(&self, header: &Header) -> Option<BandsFault>
        requires { IsShape header.now.rows header.now.cols header.now.depth }
        ensures fault { IfSome result (λ f.
            unlike_faults self.now.bands header.now f.place f.reason) }
        ensures none { IsNone result → IsEmpty (unlike_faults self.now.bands header.now) }
    {
        let Some(bands) = &self.bands else {
            return None;
        };
        let count = bands.len();
        let first = bands.at(0);
        let head = header.version.head_length();
        if header.rows != first.rows() {
            return bad_band(14);
        }
        if header.cols != first.cols() {
            return bad_band(18);
        }
        if header.depth != first.depth() {
            return bad_band(head - 44);
        }
        if header.kind != first.kind() {
            return bad_band(head - 28);
        }
        let values = header.rows as u64 * header.cols as u64 * header.depth as u64;
        if (count as u64 + 1) * values > GREATEST_VALUES {
            return Some(BandsFault {
                reason: BandReason::Blob(BlobReason::TooLarge),
                place: head as u64 - 44,
            });
        }
        None
    }

    /// Their bands, and they themselves where they are kept.
    pub(crate) fn finish(self) -> (Bands, Option<KeptBlobs>)
        requires { 0 < length self.bands }
        ensures bands { result.0 ≡ self.bands }
        ensures kept { result.1 ≡ self.kept }
    {
        let FrontBlobs { bands, kept, .. } = self;
        match bands {
            Some(bands) => (bands, kept),
            None => unreachable!(),
        }
    }
}
