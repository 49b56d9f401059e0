//! The decoder.

ghost use Rattle.std.specs.Prelude.{◌≡◌, ◌<◌, ◌≤◌, ◌+◌, ◌-◌, ◌*◌, ◌^◌, ◌++◌, ◌↔◌, min, max, []};
ghost use Rattle.std.specs.Prelude.{length, take, vec_capacity, IfOk, IsTrue, MatchBool, None};
ghost use Rattle.std.specs.Prelude.{Option, Some};
ghost use Rattle.lerc_header.specs.Head.{HeadAt, head_length};
ghost use Rattle.lerc_header.specs.HeadFaults.{HasKey, HasVersion};
ghost use Rattle.lerc_grammar.specs.Mask.{Previous, previous_of};
ghost use Rattle.lerc_decode.specs.Decoding.{Key, Whole, HasTaken, IsSame, IsStageOf};
ghost use Rattle.lerc_decode.specs.inside.Steps.{StepsKey, StepsFields, StepsBody};
ghost use Rattle.lerc_decode.specs.inside.Stages.{stage_of, header_in, KeepsHead, HasEnded};
ghost use Rattle.lerc_decode.specs.States.{state_at, missing_at, IsTold, HasStopped, IsFinished};
ghost use Rattle.lerc_decode.specs.States.{IsUsed};
ghost use Rattle.lerc_decode.specs.inside.Steps.{UsesKey, UsesFields, UsesBody};

use crate::blob::body::{BodyStop, body};
use crate::blob::front::{header_at, version_at};
use crate::blob::previous_mask::PreviousMask;
use lerc_header::{BlobFault, BlobReason, Header, Version};
use raster_values::Raster;
use std::alloc::{AllocError, Global};
use std::marker::Model;

/// Whether a blob is whole.
#[derive(Clone, Copy, Debug, PartialEq, Eq)]
pub enum FedState {
    More,
    Done,
    Refused(BlobFault),
    OutOfMemory,
}

/// What a call took, and what is known then.
#[derive(Clone, Copy, Debug, PartialEq, Eq)]
pub struct Fed {
    pub used: usize,
    pub state: FedState,
}

/// Why there is no raster.
#[derive(Clone, Copy, Debug, PartialEq, Eq)]
pub enum DecodeFault {
    Blob(BlobFault),
    OutOfMemory,
}

/// What is decided next, or how it ended.
#[derive(Drop)]
enum Progress {
    Key,
    Fields(Version),
    Body(Header),
    Done(Raster),
    Refused(BlobFault),
    OutOfMemory,
}

/// Takes the bytes of a blob in pieces.
#[derive(Drop)]
pub struct Decoder {
    alloc: Global,
    // The bytes taken, until the header is whole.
    head: [u8; 66],
    have: usize,
    // The bytes taken, from the whole header on.
    blob: Vec<u8>,
    progress: Progress,
    before: Option<PreviousMask>,
}

impl Model for Decoder {
    ghost use Rattle.lerc_decode.specs.Decoding.{Key, Decoding};

    ghost Value = { Decoding };

    ghost use Rattle.lerc_decode.specs.inside.Inside.{seen, IsInside};

    ghost view = { seen };

    ghost invariant = { IsInside };
}

/// Puts bytes of the piece behind those that are there, as many as are missing to `want`. Answers
/// how many.
fn fill(head: &mut [u8; 66], have: usize, want: usize, piece: &[u8]) -> usize
    requires have { have ≤ want }
    requires want { want ≤ 66 }
    ensures used { result ≡ min (length piece.now) (want - have) }
    ensures room { length head.new ≡ length head.old }
    ensures bytes { take (have + result) head.new ≡ take have head.old ++ take result piece.now }
{
    let used = piece.len().min(want - have);
    let free = &mut head[have..have + used];
    free.copy_from_slice(&piece[..used]);
    used
}

/// How many bytes there is to be room for where `len` are there and more follow, so that there are
/// `whole`: for twice as many as are there, but for no more than the blob has.
fn room_wanted(len: usize, whole: usize, size: usize) -> usize
    requires more { len ≤ whole }
    requires within { whole ≤ size }
    requires few { size < 2 ^ 32 }
    ensures value { result ≡ min (max whole (2 * len)) size }
    ensures enough { whole ≤ result }
{
    whole.max(2 * len).min(size)
}

/// Makes room for so many more bytes of a blob of `size` bytes; whether there was memory for it.
fn make_room(blob: &mut Vec<u8>, more: usize, size: usize) -> bool
    requires within { length blob.old.items + more ≤ size }
    requires few { size < 2 ^ 32 }
    ensures bytes { blob.new.items ≡ blob.old.items }
    ensures room { IsTrue result → length blob.old.items + more ≤ vec_capacity blob.new }
    ensures most { vec_capacity blob.new ≤ max (vec_capacity blob.old)
        (min (max (length blob.old.items + more) (2 * length blob.old.items)) size) }
{
    let len = blob.len();
    if len + more <= blob.capacity() {
        return true;
    }
    let room = room_wanted(len, len + more, size);
    blob.reserve_exact(room - len).is_ok()
}

/// Puts bytes of a blob of `size` bytes behind those of the vector; whether there was memory for
/// them.
fn grow(blob: &mut Vec<u8>, bytes: &[u8], size: usize) -> bool
    requires within { length blob.old.items + length bytes.now ≤ size }
    requires few { size < 2 ^ 32 }
    ensures { MatchBool result (blob.new.items ≡ blob.old.items ++ bytes.now)
        (blob.new.items ≡ blob.old.items) }
{
    make_room(blob, bytes.len(), size) && blob.extend_from_slice(bytes).is_ok()
}

/// What a whole header says; its bytes are put into the vector where it stands.
fn after_fields(version: Version, blob: &mut Vec<u8>, head: &[u8]) -> Progress
    requires long { length head.now ≡ head_length version }
    requires key { HasKey (take 10 head.now) }
    requires version { HasVersion (take 10 head.now) version }
    requires empty { blob.old.items ≡ [] }
    ensures kept { KeepsHead result blob.new.items head.now }
    ensures sound { (before : Option Previous) → IsStageOf before head.now (stage_of result) }
{
    match header_at(version, head) {
        Ok(header) => match blob.extend_from_slice(head) {
            Ok(()) => Progress::Body(header),
            Err(_) => Progress::OutOfMemory,
        },
        Err(fault) => Progress::Refused(fault),
    }
}

/// What a whole blob is.
fn after_body(alloc: Global, blob: &[u8], header: Header, before: &Option<PreviousMask>) -> Progress
    requires head { HeadAt blob.now header }
    requires size { length blob.now ≡ header.size }
    ensures ended { HasEnded result }
    ensures sound { IsStageOf before.now blob.now (stage_of result) }
{
    match body(alloc, blob, &header, before) {
        Ok(raster) => Progress::Done(raster),
        Err(BodyStop::Fault(fault)) => Progress::Refused(fault),
        Err(BodyStop::OutOfMemory) => Progress::OutOfMemory,
    }
}

impl Decoder {
    /// A decoder that has taken no byte, of a blob with no raster before it.
    pub fn new(alloc: Global) -> Decoder
        ensures taken { result.taken ≡ [] }
        ensures stage { result.stage ≡ Key }
        ensures before { result.before ≡ None }
    {
        Decoder {
            alloc,
            head: [0; 66],
            have: 0,
            blob: Vec::new(alloc),
            progress: Progress::Key,
            before: None,
        }
    }

    /// A decoder that has taken no byte, of a blob behind that of this raster. It keeps which
    /// pixels are valid, and none of the values.
    pub fn after(alloc: Global, previous: &Raster) -> Result<Decoder, AllocError>
        ensures taken { IfOk result (λ decoder. decoder.taken ≡ []) }
        ensures stage { IfOk result (λ decoder. decoder.stage ≡ Key) }
        ensures before { IfOk result (λ decoder.
            decoder.before ≡ Some (previous_of previous.now)) }
    {
        let before = PreviousMask::of(alloc, previous)?;
        Ok(Decoder {
            alloc,
            head: [0; 66],
            have: 0,
            blob: Vec::new(alloc),
            progress: Progress::Key,
            before: Some(before),
        })
    }

    /// Takes bytes up to the version's end.
    fn feed_key(&mut self, piece: &[u8]) -> usize
        ensures taken { HasTaken self.old self.new piece.now result }
        ensures steps { StepsKey self.old.stage self.old self.new piece.now result }
        ensures exact { length piece.now ≤ missing_at self.old.stage (length self.old.taken)
            → UsesKey self.old.stage self.new.stage piece.now result }
        ensures sound { IsStageOf self.new.before self.new.taken self.new.stage }
    {
        let Progress::Key = &self.progress else {
            return 0;
        };
        let used = fill(&mut self.head, self.have, 10, piece);
        self.have += used;
        if self.have == 10 {
            self.progress = match version_at(&self.head[..10]) {
                Ok(version) => Progress::Fields(version),
                Err(fault) => Progress::Refused(fault),
            };
        }
        used
    }

    /// Takes bytes up to the header's end.
    fn feed_fields(&mut self, piece: &[u8]) -> usize
        ensures taken { HasTaken self.old self.new piece.now result }
        ensures steps { StepsFields self.old.stage self.old self.new piece.now result }
        ensures exact { length piece.now ≤ missing_at self.old.stage (length self.old.taken)
            → UsesFields self.old.stage self.new.stage piece.now result }
        ensures sound { IsStageOf self.new.before self.new.taken self.new.stage }
    {
        let Progress::Fields(version) = &self.progress else {
            return 0;
        };
        let version = *version;
        let want = version.head_length();
        let used = fill(&mut self.head, self.have, want, piece);
        self.have += used;
        if self.have == want {
            self.progress = after_fields(version, &mut self.blob, &self.head[..want]);
        }
        used
    }

    /// Takes bytes up to the blob's end, and makes the raster there.
    fn feed_body(&mut self, piece: &[u8]) -> usize
        ensures taken { HasTaken self.old self.new piece.now result }
        ensures steps { StepsBody self.old.stage self.old self.new piece.now result }
        ensures exact { length piece.now ≤ missing_at self.old.stage (length self.old.taken)
            → UsesBody self.old.stage self.new.stage piece.now result }
        ensures sound { IsStageOf self.new.before self.new.taken self.new.stage }
    {
        let Progress::Body(header) = &self.progress else {
            return 0;
        };
        let header = *header;
        let size = header.size as usize;
        let used = piece.len().min(size - self.blob.len());
        if !grow(&mut self.blob, &piece[..used], size) {
            self.progress = Progress::OutOfMemory;
            return 0;
        }
        if self.blob.len() == size {
            self.progress = after_body(self.alloc, &self.blob, header, &self.before);
        }
        used
    }

    /// What is known of the bytes taken.
    pub fn state(&self) -> FedState
        ensures value { result ≡ state_at self.now.stage }
        ensures sound { IsStageOf self.now.before self.now.taken self.now.stage }
    {
        match &self.progress {
            Progress::Key => FedState::More,
            Progress::Fields(_) => FedState::More,
            Progress::Body(_) => FedState::More,
            Progress::Done(_) => FedState::Done,
            Progress::Refused(fault) => FedState::Refused(*fault),
            Progress::OutOfMemory => FedState::OutOfMemory,
        }
    }

    /// The bytes taken so far.
    pub fn bytes(&self) -> &[u8]
        ensures { result.now ≡ self.now.taken }
    {
        if self.blob.is_empty() {
            &self.head[..self.have]
        } else {
            &self.blob
        }
    }

    /// How many bytes are missing to what is decided next: up to ten bytes, then up to the header's
    /// end, then up to the blob's end. It is 0 where nothing more is decided.
    pub fn wants(&self) -> usize
        ensures missing { result ≡ missing_at self.now.stage (length self.now.taken) }
        ensures some { 0 < result ↔ (state_at self.now.stage ≡ FedState.More) }
    {
        match &self.progress {
            Progress::Key => 10 - self.have,
            Progress::Fields(version) => version.head_length() - self.have,
            Progress::Body(header) => header.size as usize - self.blob.len(),
            Progress::Done(_) => 0,
            Progress::Refused(_) => 0,
            Progress::OutOfMemory => 0,
        }
    }

    /// The header, once it is whole and while the blob is not.
    pub(crate) fn header(&self) -> Option<Header>
        ensures { result ≡ header_in self.now.stage }
    {
        match &self.progress {
            Progress::Body(header) => Some(*header),
            _ => None,
        }
    }

    /// The raster of the whole blob, and its bytes.
    pub(crate) fn into_parts(self) -> (Raster, Vec<u8>)
        requires { state_at self.stage ≡ FedState.Done }
        ensures raster { self.stage ≡ Whole result.0 }
        ensures bytes { result.1.items ≡ self.taken }
    {
        let Decoder { blob, progress, .. } = self;
        match progress {
            Progress::Done(raster) => (raster, blob),
            _ => unreachable!(),
        }
    }

    /// Takes bytes of the piece up to the one that decides, and none behind it.
    pub fn feed(&mut self, piece: &[u8]) -> Fed
        ensures taken { HasTaken self.old self.new piece.now result.used }
        ensures state { result.state ≡ state_at self.new.stage }
        ensures verdict { IsTold self.new.before self.new.taken self.new.stage }
        ensures sound { IsStageOf self.new.before self.new.taken self.new.stage }
        ensures exact { length piece.now ≤ missing_at self.old.stage (length self.old.taken)
            → IsUsed self.new.stage piece.now result.used }
        ensures whole { result.state ≡ FedState.More → result.used ≡ length piece.now }
        ensures ended { HasStopped self.old.stage → IsSame self.old self.new result.used }
    {
        let key = self.feed_key(piece);
        let fields = self.feed_fields(&piece[key..]);
        let body = self.feed_body(&piece[key + fields..]);
        Fed {
            used: key + fields + body,
            state: self.state(),
        }
    }

    /// The raster of the blob, or why there is none. It takes no memory.
    pub fn finish(self) -> Result<Raster, DecodeFault>
        ensures { IsFinished self.stage self.taken result }
    {
        let Decoder {
            have,
            blob,
            progress,
            ..
        } = self;
        let taken = if blob.is_empty() { have } else { blob.len() };
        match progress {
            Progress::Done(raster) => Ok(raster),
            Progress::Refused(fault) => Err(DecodeFault::Blob(fault)),
            Progress::OutOfMemory => Err(DecodeFault::OutOfMemory),
            _ => Err(DecodeFault::Blob(BlobFault {
                reason: BlobReason::Truncated,
                place: taken as u64,
            })),
        }
    }
}
