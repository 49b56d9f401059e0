//! The head of a list.

ghost use Rattle.std.specs.Prelude.{◌≡◌, ◌+◌, ◌*◌, ◌≤◌, ◌↔◌, ◌++◌, ℕ};
ghost use Rattle.std.specs.Prelude.{IfErr, MatchResult, length, drop};
ghost use Rattle.byteorder.specs.Endian.{little_number};
ghost use Rattle.bit_stuff.specs.Head.{IsListHead, count_size, list_head_bytes, list_head_faults, head_size};
ghost use Rattle.bit_stuff.specs.declared.heads.ListHead.{ListHead};
ghost use Rattle.bit_stuff.specs.declared.heads.ListFault.{ListFault};

use byteorder::{ByteOrder, LittleEndian};

/// The head of a list: how many bits a number takes, whether the list is in the table form, and how
/// many numbers it has.
#[derive(Clone, Copy, Debug, PartialEq, Eq)]
pub struct ListHead {
    /// The bits of a number of the list, or in the table form of an entry: 0 to 31.
    pub width: u32,
    /// Whether the list is in the table form.
    pub table: bool,
    /// How many numbers the list has.
    pub count: u32,
}

/// Why bytes are not a list.
#[derive(Clone, Copy, Debug, PartialEq, Eq)]
pub enum ListReason {
    /// The bytes end within a field.
    Cut,
    /// The head has the size code 3, which has no meaning.
    BadHead,
    /// The list has not the wanted number of numbers.
    BadCount,
    /// A table of width 0, or of fewer than two entries.
    BadTable,
    /// An index that is not below the number of entries.
    BadIndex,
}

/// The first fault of a list, and its place from the list's first byte.
#[derive(Clone, Copy, Debug, PartialEq, Eq)]
pub struct ListFault {
    /// What is wrong.
    pub reason: ListReason,
    /// The place of the field that is wrong.
    pub at: usize,
}

/// How many bytes the count of this size code takes.
fn count_len(code: u8) -> usize
    ensures value { result ≡ count_size code }
    ensures small { result ≤ 4 }
{
    match code {
        0 => 4,
        1 => 2,
        _ => 1,
    }
}

/// The count of this size code in front of the bytes.
fn count_in(bytes: &[u8], code: u8) -> u32
    requires { count_size code ≤ length bytes.now }
    ensures { result ≡ little_number (count_size code) bytes.now }
{
    match code {
        0 => LittleEndian::read_u32(bytes),
        1 => u32::from(LittleEndian::read_u16(bytes)),
        _ => u32::from(bytes[0]),
    }
}

/// The answer to a head with this fault.
fn refuse(reason: ListReason, at: usize) -> Result<(ListHead, usize), ListFault>
    ensures { result ≡ Err (record { reason = reason; at = at }) }
{
    Err(ListFault { reason, at })
}

/// Reads a head, with one clause for both answers.
fn head_of(bytes: &[u8], want: u32) -> Result<(ListHead, usize), ListFault>
    ensures { MatchResult result
        (λ r. IsListHead bytes.now r.0 r.1 × (r.0.count ≡ want))
        (λ f. (f.at ≤ length bytes.now) × list_head_faults want bytes.now f.at f.reason) }
{
    if bytes.is_empty() {
        return refuse(ListReason::Cut, 0);
    }
    let first = bytes[0];
    let code = first / 64;
    let width = u32::from(first % 32);
    let table = first / 32 % 2 == 1;
    if code == 3 {
        return refuse(ListReason::BadHead, 0);
    }
    if table && width == 0 {
        return refuse(ListReason::BadTable, 0);
    }
    let used = 1 + count_len(code);
    if bytes.len() < used {
        return refuse(ListReason::Cut, 1);
    }
    let count = count_in(&bytes[1..], code);
    if count != want {
        return refuse(ListReason::BadCount, 1);
    }
    Ok((
        ListHead {
            width,
            table,
            count,
        },
        used,
    ))
}

/// Reads the head of a list of `want` numbers, and how many bytes it takes.
///
/// The first byte has the width in bits 0 to 4, the table form in bit 5 and the size of the count
/// in bits 6 and 7: 0 is four bytes, 1 is two, 2 is one. The count follows, lowest byte first. The
/// faults come in this order: `Cut` at 0 for no byte; `BadHead` at 0 for the size code 3;
/// `BadTable` at 0 for the table form at width 0; `Cut` at 1 for a count that is cut; `BadCount` at
/// 1 for one that is not `want`.
pub fn read_head(bytes: &[u8], want: u32) -> Result<(ListHead, usize), ListFault>
    ensures ok { (head : ListHead) (used : ℕ) →
        (result ≡ Ok (record { 0 = head; 1 = used }))
        ↔ (IsListHead bytes.now head used × (head.count ≡ want)) }
    ensures fault { (f : ListFault) →
        (result ≡ Err f) ↔ list_head_faults want bytes.now f.at f.reason }
    ensures within { IfErr result (λ f. f.at ≤ length bytes.now) }
{
    head_of(bytes, want)
}

/// How many bytes `write_head` takes for a list of `count` numbers.
pub fn head_len(count: u32) -> usize
    ensures { result ≡ head_size count }
{
    match count {
        0..=255 => 2,
        256..=65535 => 3,
        _ => 5,
    }
}

/// Writes the head of a list over the front of `out`, its count in one byte up to 255, in two up to
/// 65,535 and else in four. Answers how many bytes that took; the rest of `out` stays.
#[tactic(auto, unfolding(crate::specs::Head::list_head_bytes))]
pub fn write_head(width: u32, table: bool, count: u32, out: &mut [u8]) -> usize
    requires width { width ≤ 31 }
    requires room { head_size count ≤ length out.old }
    ensures used { result ≡ head_size count }
    ensures bytes { out.new ≡ list_head_bytes width table count ++ drop (head_size count) out.old }
{
    let form = width as u8 + 32 * u8::from(table);
    if count <= 255 {
        out[0] = form + 128;
        out[1] = count as u8;
        2
    } else if count <= 65535 {
        out[0] = form + 64;
        LittleEndian::write_u16(&mut out[1..], count as u16);
        3
    } else {
        out[0] = form;
        LittleEndian::write_u32(&mut out[1..], count);
        5
    }
}
