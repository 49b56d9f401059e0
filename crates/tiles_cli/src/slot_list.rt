//! A list of slots, read whole, line by line.

ghost use Rattle.std.specs.Prelude.{◌≡◌, ◌↔◌, ◌<◌, IfErr, IfOk, IfSome, IsTrue, MatchResult, OnOk, length};
ghost use Rattle.outside_io.specs.streams.Source.{IsAtEnd};
ghost use Rattle.raster_grids.specs.Taken.{TookBytes};
ghost use Rattle.tiles_cli.specs.SlotList.{CountsListStop, IsGap, IsSlotList, TellsList};
ghost use Rattle.tiles_cli.specs.inside.Fields.{IsFieldLength, IsFree, IsLineLength, IsListStop, IsListedAt, IsWrongAt, SlotIn, TookPiece};

use bundle_index::Slot;
use command_words::slot_of;
use outside_io::{Failed, Source, Word, take_all};
use std::alloc::{AllocError, Global};

/// How many bytes of a list are taken at once.
const PIECE: usize = 4096;

/// How many pieces of a list are taken: a list has fewer than 2^24 bytes.
const MOST_PIECES: usize = 4096;

/// Why a text is no list of slots.
#[derive(Clone, Copy, Debug, PartialEq, Eq)]
pub enum ListReason {
    /// A line does not begin with a row and a column, both up to 127.
    BadLine,
    /// The text ends within a line.
    Truncated,
    /// The text has 2^24 bytes or more.
    TooLong,
}

/// What is wrong first in a text that is no list, and where.
#[derive(Clone, Copy, Debug, PartialEq, Eq)]
pub struct ListFault {
    pub reason: ListReason,
    pub place: u64,
}

/// Why a list was not read.
#[derive(Clone, Copy, Debug, PartialEq, Eq)]
pub enum ListStop {
    /// The text is no list.
    Fault(ListFault),
    /// The source failed.
    Source,
    /// There is no memory for the list.
    OutOfMemory,
}

/// A slot of a line, and the place behind the line.
#[derive(Clone, Copy)]
struct ListedSlot {
    slot: Slot,
    behind: usize,
}

/// A fault at a place.
fn fault(reason: ListReason, place: usize) -> ListStop
    ensures { result ≡ ListStop.Fault (record { reason = reason; place = place }) }
{
    ListStop::Fault(ListFault {
        reason,
        place: place as u64,
    })
}

/// Whether the byte stands between fields.
fn is_gap(byte: u8) -> bool
    ensures { IsTrue result ↔ IsGap byte }
{
    byte == b' ' || byte == b'\t'
}

/// How many bytes stand in front of the first gap.
fn field_len(text: &[u8]) -> usize
    ensures { IsFieldLength text.now result }
{
    for at in 0..text.len() {
        if is_gap(text[at]) {
            return at;
        }
    }
    text.len()
}

/// How many bytes the line has that comes first, if it has a line feed.
fn line_len(text: &[u8]) -> Option<usize>
    ensures { IsLineLength text.now result }
{
    for at in 0..text.len() {
        if text[at] == b'\n' {
            return Some(at);
        }
    }
    None
}

/// A field as a word.
fn word_of(alloc: Global, field: &[u8]) -> Result<Word, AllocError>
    ensures { IfOk result (λ word. word ≡ field.now) }
{
    Ok(Word::new(Vec::from_slice(alloc, field)?))
}

/// The slot that a line names.
fn slot_in(alloc: Global, line: &[u8]) -> Result<Option<Slot>, AllocError>
    ensures { IfOk result (λ slot. SlotIn line.now slot) }
{
    let row_len = field_len(line);
    if row_len == line.len() {
        return Ok(None);
    }
    let behind = &line[row_len + 1..];
    let row = word_of(alloc, &line[..row_len])?;
    let col = word_of(alloc, &behind[..field_len(behind)])?;
    Ok(slot_of(&row, &col))
}

/// The slot of the line that begins at a place of the text, and the place behind the line.
fn slot_at(alloc: Global, text: &[u8], at: usize) -> Result<ListedSlot, ListStop>
    requires { at < length text.now }
    ensures ok { IfOk result (λ found. IsListedAt text.now at found) }
    ensures err { IfErr result (λ stop. IsWrongAt text.now at stop) }
{
    let rest = &text[at..];
    let Some(len) = line_len(rest) else {
        return Err(fault(ListReason::Truncated, text.len()));
    };
    match slot_in(alloc, &rest[..len]) {
        Ok(Some(slot)) => Ok(ListedSlot {
            slot,
            behind: at + len + 1,
        }),
        Ok(None) => Err(fault(ListReason::BadLine, at)),
        Err(_) => Err(ListStop::OutOfMemory),
    }
}

/// The slots of a text.
fn slots_in(alloc: Global, text: &[u8]) -> Result<Vec<Slot>, ListStop>
    ensures { MatchResult result (λ slots. IsSlotList text.now slots.items)
        (λ stop. IsListStop text.now stop) }
{
    let mut slots = Vec::new(alloc);
    let mut at = 0;
    while at < text.len() {
        let found = match slot_at(alloc, text, at) {
            Ok(found) => found,
            Err(stop) => return Err(stop),
        };
        match slots.push(found.slot) {
            Ok(()) => {}
            Err(_) => return Err(ListStop::OutOfMemory),
        }
        at = found.behind;
    }
    Ok(slots)
}

/// Takes a piece of the text, and says whether there may be more.
fn take_piece<S: Source>(src: &mut S, text: &mut Vec<u8>) -> Result<bool, ListStop>
    ensures took { IfOk result (λ more. TookPiece (S.left src.old) (S.left src.new)
        text.old.items text.new.items more) }
    ensures free { IfErr result (λ stop. IsFree stop) }
    ensures counted { CountsListStop result (S.faults src.old) (S.faults src.new) }
{
    let mut piece = [0; PIECE];
    let taken = match take_all(src, &mut piece) {
        Ok(taken) => taken,
        Err(Failed) => return Err(ListStop::Source),
    };
    match text.extend_from_slice(&piece[..taken]) {
        Ok(()) => Ok(taken == PIECE),
        Err(_) => Err(ListStop::OutOfMemory),
    }
}

/// Takes the whole text of a source.
fn take_text<S: Source>(alloc: Global, src: &mut S) -> Result<Vec<u8>, ListStop>
    ensures took { IfOk result (λ text. TookBytes (S.left src.old) (S.left src.new) text.items) }
    ensures end { OnOk result (IsAtEnd (S.left src.new)) }
    ensures tells { IfErr result (λ stop. TellsList (S.left src.old) stop) }
    ensures counted { CountsListStop result (S.faults src.old) (S.faults src.new) }
{
    let mut text = Vec::new(alloc);
    for _piece in 0..MOST_PIECES {
        match take_piece(src, &mut text) {
            Ok(true) => {}
            Ok(false) => return Ok(text),
            Err(stop) => return Err(stop),
        }
    }
    Err(fault(ListReason::TooLong, PIECE * MOST_PIECES))
}

/// The slots of a list, which is all that the source has. It is read whole, and its lines are then
/// looked at in their order. The text and the slots take memory.
pub fn read_slots<S: Source>(alloc: Global, src: &mut S) -> Result<Vec<Slot>, ListStop>
    ensures ok { IfOk result (λ slots.
        IfSome (S.left src.old) (λ text. IsSlotList text slots.items)) }
    ensures tells { IfErr result (λ stop. TellsList (S.left src.old) stop) }
    ensures counted { CountsListStop result (S.faults src.old) (S.faults src.new) }
{
    match take_text(alloc, src) {
        Ok(text) => slots_in(alloc, text.as_slice()),
        Err(stop) => Err(stop),
    }
}
