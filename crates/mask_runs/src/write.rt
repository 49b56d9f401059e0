//! Writing the chosen runs.

ghost use Rattle.std.specs.Prelude.{◌≡◌, ◌^◌, ◌<◌, ◌≤◌, ◌++◌, min, length, drop, slice_index, take};
ghost use Rattle.mask_runs.specs.Runs.{Runs};
ghost use Rattle.mask_runs.specs.Chosen.{equal_bytes, before_repeat, piece_bytes, chosen_runs};
ghost use Rattle.mask_runs.specs.Ending.{ending_with};
ghost use Rattle.mask_runs.specs.inside.Steps.{IsFirstChoice, piece_of, count_in, size_in};

use byteorder::{ByteOrder, LittleEndian};

/// The most bytes of a mask that a run gives.
const MOST: usize = 32_767;

/// The fewest equal bytes that are written as a repeat.
const LEAST_REPEAT: usize = 5;

/// The first piece of a mask, which gives so many bytes of it.
#[derive(Clone, Copy)]
enum Choice {
    Literal(usize),
    Repeat(usize),
}

impl Choice {
    /// How many bytes of the mask it gives.
    fn count(self) -> usize
        ensures { result ≡ count_in self }
    {
        match self {
            Choice::Literal(count) | Choice::Repeat(count) => count,
        }
    }

    /// How many bytes are written for it.
    fn size(self) -> usize
        requires { count_in self ≤ 32767 }
        ensures { result ≡ size_in self }
    {
        match self {
            Choice::Literal(count) => 2 + count,
            Choice::Repeat(_) => 3,
        }
    }
}

/// A byte of a mask whose last byte is `last`.
#[inline(always)]
fn byte_at(mask: &[u8], last: u8, i: usize) -> u8
    requires { i < length mask.now }
    ensures { result ≡ slice_index (ending_with mask.now last) i }
{
    if i + 1 == mask.len() { last } else { mask[i] }
}

/// How many equal bytes come first, up to the most that a run gives.
fn equal_first(mask: &[u8], last: u8) -> usize
    ensures { result ≡ min (equal_bytes (ending_with mask.now last)) 32767 }
{
    let most = mask.len().min(MOST);
    for i in 0..most {
        if byte_at(mask, last, i) != byte_at(mask, last, 0) {
            return i;
        }
    }
    most
}

/// How many bytes stand before the next repeat, up to the most that a run gives.
fn literal_first(mask: &[u8], last: u8) -> usize
    ensures { result ≡ min (before_repeat (ending_with mask.now last)) 32767 }
{
    // The bytes from `start` up to `i` are equal.
    let mut start = 0;
    for i in 0..mask.len().min(MOST + LEAST_REPEAT - 1) {
        if byte_at(mask, last, i) != byte_at(mask, last, start) {
            start = i;
        }
        if i - start == LEAST_REPEAT - 1 {
            return start;
        }
    }
    mask.len().min(MOST)
}

/// The first piece of a mask that is not empty.
fn first_choice(mask: &[u8], last: u8) -> Choice
    requires { 0 < length mask.now }
    ensures { IsFirstChoice (ending_with mask.now last) result }
{
    let equal = equal_first(mask, last);
    if equal >= LEAST_REPEAT {
        Choice::Repeat(equal)
    } else {
        Choice::Literal(literal_first(mask, last))
    }
}

/// Copies the first bytes of a mask over as many.
fn copy_front(mask: &[u8], last: u8, out: &mut [u8])
    requires { length out.old ≤ length mask.now }
    ensures { out.new ≡ take (length out.old) (ending_with mask.now last) }
{
    let count = out.len();
    out.copy_from_slice(&mask[..count]);
    if count > 0 && count == mask.len() {
        out[count - 1] = last;
    }
}

/// Writes the run of the first piece of a mask.
fn write_choice(choice: Choice, mask: &[u8], last: u8, out: &mut [u8])
    requires first { IsFirstChoice (ending_with mask.now last) choice }
    requires room { size_in choice ≤ length out.old }
    ensures { out.new
        ≡ piece_bytes (piece_of (ending_with mask.now last) choice)
        ++ drop (size_in choice) out.old }
{
    match choice {
        Choice::Literal(count) => {
            LittleEndian::write_i16(out, count as i16);
            copy_front(mask, last, &mut out[2..2 + count]);
        }
        Choice::Repeat(count) => {
            LittleEndian::write_i16(out, -(count as i16));
            out[2] = byte_at(mask, last, 0);
        }
    }
}

/// The last byte of a mask, and 0 of one that has none.
fn last_of(mask: &[u8]) -> u8
    ensures { ending_with mask.now result ≡ mask.now }
{
    if mask.is_empty() {
        0
    } else {
        mask[mask.len() - 1]
    }
}

/// The length of the chosen runs of a mask, the end mark included.
pub fn runs_len(mask: &[u8]) -> usize
    requires { length mask.now ≤ 2 ^ 21 }
    ensures { result ≡ length (chosen_runs mask.now) }
{
    runs_len_with(mask, last_of(mask))
}

/// The length of the chosen runs of a mask whose last byte is `last` instead of that which stands
/// there, the end mark included.
pub fn runs_len_with(mask: &[u8], last: u8) -> usize
    requires { length mask.now ≤ 2 ^ 21 }
    ensures { result ≡ length (chosen_runs (ending_with mask.now last)) }
{
    let mut size = 2;
    let mut at = 0;
    while at < mask.len() {
        let choice = first_choice(&mask[at..], last);
        size += choice.size();
        at += choice.count();
    }
    size
}

/// Writes the chosen runs of a mask into `out`, which has the length that `runs_len` tells.
///
/// At a place from which five or more bytes are equal, the run is a repeat of all of them. Else it
/// is a literal up to the next such place, or up to the end of the mask. No run gives more than
/// 32,767 bytes. The end mark comes last.
pub fn write_runs(mask: &[u8], out: &mut [u8])
    requires size { length mask.now ≤ 2 ^ 21 }
    requires room { length out.old ≡ length (chosen_runs mask.now) }
    ensures chosen { out.new ≡ chosen_runs mask.now }
    ensures runs { Runs out.new mask.now }
{
    write_runs_with(mask, last_of(mask), out);
}

/// Writes the chosen runs of a mask whose last byte is `last` instead of that which stands there,
/// into `out`, which has the length that `runs_len_with` tells.
pub fn write_runs_with(mask: &[u8], last: u8, out: &mut [u8])
    requires size { length mask.now ≤ 2 ^ 21 }
    requires room { length out.old ≡ length (chosen_runs (ending_with mask.now last)) }
    ensures chosen { out.new ≡ chosen_runs (ending_with mask.now last) }
    ensures runs { Runs out.new (ending_with mask.now last) }
{
    let mut from = 0;
    let mut to = 0;
    while from < mask.len() {
        let rest = &mask[from..];
        let choice = first_choice(rest, last);
        write_choice(choice, rest, last, &mut out[to..]);
        to += choice.size();
        from += choice.count();
    }
    LittleEndian::write_i16(&mut out[to..], i16::MIN);
}
