//! Reading lists.

ghost use Rattle.std.specs.Prelude.{◌≡◌, ◌∷◌, ◌+◌, ◌-◌, ◌^◌, ◌<◌, ◌≤◌, ◌↔◌, ◌++◌, ℕ, List, All, IfErr, IfOk};
ghost use Rattle.std.specs.Prelude.{IsTrue, IsFalse, MatchResult, length, slice_index, take};
ghost use Rattle.bit_stuff.specs.Stuffed.{IsStuffed, stuffed_size};
ghost use Rattle.bit_stuff.specs.declared.heads.ListFault.{ListFault};
ghost use Rattle.lut_stuff.specs.Faults.{list_body_faults, data_faults, entry_faults, index_faults};
ghost use Rattle.lut_stuff.specs.Faults.{list_faults, list_table_faults};
ghost use Rattle.lut_stuff.specs.Lists.{IsList, IsTabled};
ghost use Rattle.lut_stuff.specs.inside.Indexes.{AreLookedUp, HasEntries, HasIndexes, IsBody};

use bit_stuff::{
    ListFault, ListHead, ListReason, digit_count, read_head, stuffed_len, unstuff_front,
};

/// The answer with this fault.
fn refuse(reason: ListReason, at: usize) -> Result<usize, ListFault>
    ensures { result ≡ Err (record { reason = reason; at = at }) }
{
    Err(ListFault { reason, at })
}

/// The answer of a part that stands behind the first `n` bytes.
fn behind(n: usize, part: Result<usize, ListFault>) -> Result<usize, ListFault>
    requires { MatchResult part (λ used. n + used < 2 ^ 64) (λ f. n + f.at < 2 ^ 64) }
    ensures { MatchResult part (λ used. result ≡ Ok (n + used))
        (λ f. result ≡ Err (record { reason = f.reason; at = n + f.at })) }
{
    match part {
        Ok(used) => Ok(n + used),
        Err(fault) => refuse(fault.reason, n + fault.at),
    }
}

/// Reads numbers of `width` bits, and how many bytes they take.
fn read_numbers(bytes: &[u8], width: u32, out: &mut [u32]) -> Result<usize, ListFault>
    requires count { length out.old ≤ 1024 }
    requires width { width ≤ 31 }
    ensures { MatchResult result
        (λ used. (used ≤ length bytes.now) × IsStuffed (take used bytes.now) width out.new)
        (λ f. (f.at ≡ 0) × data_faults (length out.old) width bytes.now f.at f.reason) }
{
    let used = stuffed_len(out.len(), width);
    if bytes.len() < used {
        return refuse(ListReason::Cut, 0);
    }
    unstuff_front(bytes, width, out);
    Ok(used)
}

/// Puts the entry in the place of each index; whether there is one for each.
fn look_up(table: &[u32], out: &mut [u32]) -> bool
    ensures found { IsTrue result → AreLookedUp table.now out.old out.new }
    ensures missing { IsFalse result → ¬ All (λ i. i < length table.now) out.old }
{
    for value in out.iter_mut() {
        let index = *value as usize;
        if index >= table.len() {
            return false;
        }
        *value = table[index];
    }
    true
}

/// Reads indexes into a table, and how many bytes they take.
fn read_indexes(bytes: &[u8], table: &[u32], out: &mut [u32]) -> Result<usize, ListFault>
    requires count { length out.old ≤ 1024 }
    requires some { 2 ≤ length table.now }
    requires few { length table.now ≤ 256 }
    ensures { MatchResult result
        (λ used. HasIndexes table.now (length table.now - 1) bytes.now used out.new)
        (λ f. (f.at ≡ 0)
        × index_faults (length out.old) (length table.now - 1) bytes.now f.at f.reason) }
{
    let used = read_numbers(bytes, digit_count(table.len() as u32 - 1), out)?;
    if look_up(table, out) {
        Ok(used)
    } else {
        refuse(ListReason::BadIndex, 0)
    }
}

/// Reads the entries of a table behind its entry 0, which is there, and how many bytes they take.
fn read_entries(bytes: &[u8], width: u32, table: &mut [u32]) -> Result<usize, ListFault>
    requires width { width ≤ 31 }
    requires some { 2 ≤ length table.old }
    requires few { length table.old ≤ 256 }
    requires zero { slice_index table.old 0 ≡ 0 }
    ensures { MatchResult result
        (λ used. HasEntries width bytes.now used table.new)
        (λ f. (f.at ≡ 0) × data_faults (length table.old - 1) width bytes.now f.at f.reason) }
{
    read_numbers(bytes, width, &mut table[1..])
}

/// Reads the entries of a table of this size over `table`, which begins with its entry 0, and then
/// the indexes into it, and how many bytes all that takes.
fn read_tabled(
    bytes: &[u8],
    width: u32,
    size: usize,
    table: &mut [u32],
    out: &mut [u32],
) -> Result<usize, ListFault>
    requires count { length out.old ≤ 1024 }
    requires width { width ≤ 31 }
    requires some { 2 ≤ size }
    requires few { size ≤ 256 }
    requires room { size ≤ length table.old }
    requires zero { slice_index table.old 0 ≡ 0 }
    ensures { MatchResult result
        (λ used. (used ≤ length bytes.now) × IsTabled width (size ∷ take used bytes.now) out.new)
        (λ f. (f.at ≤ length bytes.now)
        × entry_faults (length out.old) width (size - 1) bytes.now f.at f.reason) }
{
    let table = &mut table[..size];
    let used = read_entries(bytes, width, table)?;
    behind(used, read_indexes(&bytes[used..], table, out))
}

/// Reads a table and the indexes into it, and how many bytes they take.
fn read_table(bytes: &[u8], width: u32, out: &mut [u32]) -> Result<usize, ListFault>
    requires count { length out.old ≤ 1024 }
    requires width { width ≤ 31 }
    ensures { MatchResult result
        (λ used. (used ≤ length bytes.now) × IsTabled width (take used bytes.now) out.new)
        (λ f. (f.at ≤ length bytes.now)
        × list_table_faults (length out.old) width bytes.now f.at f.reason) }
{
    if bytes.is_empty() {
        return refuse(ListReason::Cut, 0);
    }
    let size = usize::from(bytes[0]);
    if size < 2 {
        return refuse(ListReason::BadTable, 0);
    }
    let mut table = [0; 256];
    behind(1, read_tabled(&bytes[1..], width, size, &mut table, out))
}

/// Reads what stands behind a head, and how many bytes that takes.
fn read_body(bytes: &[u8], head: ListHead, out: &mut [u32]) -> Result<usize, ListFault>
    requires count { length out.old ≤ 1024 }
    requires width { head.width ≤ 31 }
    ensures { MatchResult result
        (λ used. (used ≤ length bytes.now) × IsBody head (take used bytes.now) out.new)
        (λ f. (f.at ≤ length bytes.now)
        × list_body_faults (length out.old) head bytes.now f.at f.reason) }
{
    if head.table {
        read_table(bytes, head.width, out)
    } else {
        read_numbers(bytes, head.width, out)
    }
}

/// Reads a list, with one clause for both answers.
fn read_form(bytes: &[u8], out: &mut [u32]) -> Result<usize, ListFault>
    requires { length out.old ≤ 1024 }
    ensures { MatchResult result
        (λ used. (used ≤ length bytes.now) × IsList (take used bytes.now) out.new)
        (λ f. (f.at ≤ length bytes.now) × list_faults (length out.old) bytes.now f.at f.reason) }
{
    let (head, used) = read_head(bytes, out.len() as u32)?;
    behind(used, read_body(&bytes[used..], head, out))
}

/// Reads a list of as many numbers as `out` has, in either form, from the front of the bytes; how
/// many bytes it takes. Spare bits are not looked at.
///
/// The faults come in this order, each with its place: the head's own (`read_head`); `Cut` at the
/// first byte of the numbers where they are cut. In the table form `Cut` at the byte that counts
/// the entries where that is cut, `BadTable` there where it is below 2, `Cut` at the first byte of
/// the entries or of the indexes where these are cut, and `BadIndex` at the first byte of the
/// indexes where one of them has no entry. After a fault `out` has any content.
pub fn read_list(bytes: &[u8], out: &mut [u32]) -> Result<usize, ListFault>
    requires { length out.old ≤ 1024 }
    ensures ok { IfOk result
        (λ used. (used ≤ length bytes.now) × IsList (take used bytes.now) out.new) }
    ensures complete { (front rest values : List ℕ) → bytes.now ≡ front ++ rest →
        length values ≡ length out.old → IsList front values →
        (result ≡ Ok (length front)) × (out.new ≡ values) }
    ensures fault { (f : ListFault) →
        (result ≡ Err f) ↔ list_faults (length out.old) bytes.now f.at f.reason }
    ensures within { IfErr result (λ f. f.at ≤ length bytes.now) }
{
    read_form(bytes, out)
}
