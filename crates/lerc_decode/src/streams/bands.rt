//! The decoder of a tile: of one to 16 blobs, one behind the other.

ghost use Rattle.std.specs.Prelude.{◌≡◌, ◌+◌, ◌<◌, ◌≤◌, ◌⊎◌, ◌↔◌, ◌++◌, ℕ, List, [], ◌∷◌, ◌^◌};
ghost use Rattle.std.specs.Prelude.{IfOk};
ghost use Rattle.std.specs.Prelude.{Err, None, min, codes, length, take};
ghost use Rattle.lerc_decode.specs.BandsStates.{state_of, GoesOn, IsBandsTold, IsBandsFinish};
ghost use Rattle.lerc_grammar.specs.declared.bands.BandReason.{BandReason};
ghost use Rattle.lerc_decode.specs.Reading.{NoMemory, Wrong, IsAfter, HasEndedAt, wanted};
ghost use Rattle.lerc_grammar.specs.BandsReading.{IsBetween};
ghost use Rattle.lerc_decode.specs.Reading.{IsAt, IsFrontOf};
ghost use Rattle.lerc_decode.specs.inside.Turns.{IsNext};
ghost use Rattle.lerc_decode.specs.inside.Kept.{IsKeeping};
ghost use Rattle.lerc_decode.specs.inside.BandsStages.{stage_in, IsRaised, IsBegunBehind};
ghost use Rattle.lerc_decode.specs.inside.BandsStages.{IsKeptFinish};

use crate::streams::decoder::Decoder;
use crate::streams::front_blobs::FrontBlobs;
use crate::streams::kept::KeptBlobs;
use crate::streams::turns::{Ended, Next, Turn, take_turn};
use lerc_grammar::{BandReason, BandsFault};
use lerc_header::{BlobReason, KEY};
use raster_values::{Bands, GREATEST_BANDS};
use std::alloc::{AllocError, Global};
use std::marker::Model;
use std::mem;

/// What is known of the bytes taken.
#[derive(Clone, Copy, Debug, PartialEq, Eq)]
pub enum BandsState {
    /// A blob is cut, or a key of a further one.
    More,
    /// They are one to 16 whole blobs. More may follow.
    Whole,
    Refused(BandsFault),
    OutOfMemory,
}

/// What a call took, and what is known then.
#[derive(Clone, Copy, Debug, PartialEq, Eq)]
pub struct BandsFed {
    pub used: usize,
    pub state: BandsState,
}

/// Why there are no bands.
#[derive(Clone, Copy, Debug, PartialEq, Eq)]
pub enum BandsStop {
    Fault(BandsFault),
    OutOfMemory,
}

/// What is decided next, or how it ended.
#[derive(Drop)]
enum BandsProgress {
    Inside(Decoder),
    /// So many bytes of a key came behind a whole blob.
    Behind(usize),
    Refused(BandsFault),
    OutOfMemory,
}

/// Takes the bytes of a tile in pieces. It keeps the rasters, and the bytes of one blob.
#[derive(Drop)]
pub struct BandsDecoder {
    alloc: Global,
    front: FrontBlobs,
    progress: BandsProgress,
}

impl Model for BandsDecoder {
    ghost use Rattle.lerc_decode.specs.Reading.{BandsDecoding};

    ghost Value = { BandsDecoding };

    ghost use Rattle.lerc_decode.specs.inside.Bands.{seen_bands, IsInsideBands};

    ghost view = { seen_bands };

    ghost invariant = { IsInsideBands };
}

/// A fault so many bytes further on.
fn raise_fault(fault: BandsFault, by: u64) -> BandsProgress
    requires { by + fault.place < 2 ^ 64 }
    ensures { IsRaised fault by result }
{
    BandsProgress::Refused(BandsFault {
        reason: fault.reason,
        place: by + fault.place,
    })
}

/// Where the decoder of bands is when a piece of a blob came to this.
fn settle(alloc: Global, front: &mut FrontBlobs, next: Next) -> BandsProgress
    requires { (taken : List ℕ) × ((bytes : List ℕ)
        × (IsFrontOf bytes front.old × IsNext taken front.old.bands bytes next)) }
    ensures at { (taken bytes : List ℕ) → IsFrontOf bytes front.old
        → IsNext taken front.old.bands bytes next → IsAt taken front.new (stage_in result) }
    ensures none { next ≡ Next.OutOfMemory → stage_in result ≡ NoMemory }
    ensures keeps { IsKeeping front.old.kept → IsKeeping front.new.kept }
{
    match next {
        Next::Goes(decoder) => BandsProgress::Inside(decoder),
        Next::Ends(ended) => {
            let Ended { band, blob } = ended;
            match front.add(alloc, band, blob) {
                Ok(()) => BandsProgress::Behind(0),
                Err(_) => BandsProgress::OutOfMemory,
            }
        }
        Next::Refused(fault) => raise_fault(fault, front.place()),
        Next::OutOfMemory => BandsProgress::OutOfMemory,
    }
}

/// A further blob, whose key has come.
fn begin_next(alloc: Global, front: &FrontBlobs) -> BandsProgress
    ensures { IsBegunBehind front.now.bands result }
{
    match front.next(alloc) {
        Ok(next) => {
            let mut decoder = next;
            decoder.feed(&KEY);
            BandsProgress::Inside(decoder)
        }
        Err(_) => BandsProgress::OutOfMemory,
    }
}

/// What a byte is behind a whole blob and so many bytes of a key.
fn follow(alloc: Global, front: &FrontBlobs, have: usize, byte: u8) -> BandsProgress
    requires { have < 6 }
    ensures { (taken bytes : List ℕ) → IsFrontOf bytes front.now
        → IsBetween taken front.now.bands bytes (take have (codes "Lerc2 "))
        → IsAt (taken ++ byte ∷ []) front.now (stage_in result) }
{
    if front.len() == GREATEST_BANDS as usize || byte != KEY[have] {
        return BandsProgress::Refused(BandsFault {
            reason: BandReason::Blob(BlobReason::Leftover),
            place: front.place(),
        });
    }
    if have < 5 {
        return BandsProgress::Behind(have + 1);
    }
    begin_next(alloc, front)
}

impl BandsDecoder {
    /// A decoder that has taken no byte.
    pub fn new(alloc: Global) -> BandsDecoder
        ensures taken { IsAfter [] result }
        ensures kept { result.front.kept ≡ None }
    {
        BandsDecoder {
            alloc,
            front: FrontBlobs::new(None),
            progress: BandsProgress::Inside(Decoder::new(alloc)),
        }
    }

    /// One that keeps the blobs.
    pub(crate) fn new_keeping(alloc: Global) -> BandsDecoder
        ensures taken { IsAfter [] result }
        ensures kept { result.front.kept ≡ Some [] }
    {
        BandsDecoder {
            alloc,
            front: FrontBlobs::new(Some(KeptBlobs::new(alloc))),
            progress: BandsProgress::Inside(Decoder::new(alloc)),
        }
    }

    /// Takes bytes of the piece up to what is decided next, at least one.
    pub(crate) fn step(&mut self, piece: &[u8]) -> usize
        requires some { 0 < length piece.now }
        ensures within { result ≤ length piece.now }
        ensures taken { (taken : List ℕ) → IsAfter taken self.old
            → IsAfter (taken ++ take result piece.now) self.new }
        ensures used { (self.new.stage ≡ NoMemory)
            ⊎ (result ≡ min (wanted self.old.stage) (length piece.now)) }
        ensures ended { HasEndedAt self.old.stage → self.new ≡ self.old }
        ensures keeps { IsKeeping self.old.front.kept → IsKeeping self.new.front.kept }
    {
        match mem::replace(&mut self.progress, BandsProgress::OutOfMemory) {
            BandsProgress::Inside(decoder) => {
                let Turn { used, next } = take_turn(decoder, &self.front, piece);
                self.progress = settle(self.alloc, &mut self.front, next);
                used
            }
            BandsProgress::Behind(have) => {
                self.progress = follow(self.alloc, &self.front, have, piece[0]);
                1
            }
            BandsProgress::Refused(fault) => {
                self.progress = BandsProgress::Refused(fault);
                0
            }
            BandsProgress::OutOfMemory => 0,
        }
    }

    /// What is known of the bytes taken.
    pub fn state(&self) -> BandsState
        ensures value { result ≡ state_of self.now.stage }
        ensures some { (taken : List ℕ) × IsAfter taken self.now }
    {
        match &self.progress {
            BandsProgress::Inside(_) => BandsState::More,
            BandsProgress::Behind(have) => {
                if *have == 0 {
                    BandsState::Whole
                } else {
                    BandsState::More
                }
            }
            BandsProgress::Refused(fault) => BandsState::Refused(*fault),
            BandsProgress::OutOfMemory => BandsState::OutOfMemory,
        }
    }

    /// How many bytes are missing to what is decided next: behind a whole blob each byte may
    /// decide. It is 0 where nothing more is decided.
    pub fn wants(&self) -> usize
        ensures { result ≡ wanted self.now.stage }
    {
        match &self.progress {
            BandsProgress::Inside(decoder) => decoder.wants(),
            BandsProgress::Behind(_) => 1,
            BandsProgress::Refused(_) => 0,
            BandsProgress::OutOfMemory => 0,
        }
    }

    /// Takes bytes of the piece up to the one that decides a fault, and none behind it.
    pub fn feed(&mut self, piece: &[u8]) -> BandsFed
        ensures within { result.used ≤ length piece.now }
        ensures taken { (taken : List ℕ) → IsAfter taken self.old
            → IsAfter (taken ++ take result.used piece.now) self.new }
        ensures state { result.state ≡ state_of self.new.stage }
        ensures told { (taken : List ℕ) → IsAfter taken self.new → IsBandsTold taken result.state }
        ensures whole { GoesOn result.state → result.used ≡ length piece.now }
        ensures ended { HasEndedAt self.old.stage → (self.new ≡ self.old) × (result.used ≡ 0) }
    {
        let mut used = 0;
        while used < piece.len() && self.wants() > 0 {
            used += self.step(&piece[used..]);
        }
        BandsFed {
            used,
            state: self.state(),
        }
    }

    /// The bands and where blobs are kept these, or why there are none.
    pub(crate) fn finish_kept(self) -> Result<(Bands, Option<KeptBlobs>), BandsStop>
        ensures verdict { (taken : List ℕ) → IsAfter taken self
            → IsKeptFinish taken self.front.kept result }
        ensures memory { (result ≡ Err BandsStop.OutOfMemory) ↔ (self.stage ≡ NoMemory) }
        ensures refused { (place : ℕ) (reason : BandReason) → self.stage ≡ Wrong place reason
            → result ≡ Err (BandsStop.Fault (record { reason = reason; place = place })) }
    {
        let BandsDecoder {
            front,
            progress,
            ..
        } = self;
        match progress {
            BandsProgress::Inside(decoder) => Err(BandsStop::Fault(BandsFault {
                reason: BandReason::Blob(BlobReason::Truncated),
                place: front.place() + decoder.bytes().len() as u64,
            })),
            BandsProgress::Behind(have) => {
                if have > 0 {
                    return Err(BandsStop::Fault(BandsFault {
                        reason: BandReason::Blob(BlobReason::Leftover),
                        place: front.place(),
                    }));
                }
                Ok(front.finish())
            }
            BandsProgress::Refused(fault) => Err(BandsStop::Fault(fault)),
            BandsProgress::OutOfMemory => Err(BandsStop::OutOfMemory),
        }
    }

    /// The bands of the tile that the bytes taken are, or what is wrong with it first. It takes no
    /// memory.
    pub fn finish(self) -> Result<Bands, BandsStop>
        ensures verdict { (taken : List ℕ) → IsAfter taken self → IsBandsFinish taken result }
        ensures memory { (result ≡ Err BandsStop.OutOfMemory) ↔ (self.stage ≡ NoMemory) }
        ensures refused { (place : ℕ) (reason : BandReason) → self.stage ≡ Wrong place reason
            → result ≡ Err (BandsStop.Fault (record { reason = reason; place = place })) }
    {
        match self.finish_kept() {
            Ok(found) => {
                let (bands, _) = found;
                Ok(bands)
            }
            Err(stop) => Err(stop),
        }
    }
}

/// The bands of the tile that all these bytes are, or what is wrong with it first.
pub fn decode_bands(alloc: Global, bytes: &[u8]) -> Result<Bands, BandsStop>
    ensures { IsBandsFinish bytes.now result }
{
    let mut decoder = BandsDecoder::new(alloc);
    let fed = decoder.feed(bytes);
    match fed.state {
        BandsState::Refused(fault) => Err(BandsStop::Fault(fault)),
        BandsState::OutOfMemory => Err(BandsStop::OutOfMemory),
        BandsState::More => decoder.finish(),
        BandsState::Whole => decoder.finish(),
    }
}
