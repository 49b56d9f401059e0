//! Lists in both forms, over `lut_stuff` and `bit_stuff`.

ghost use Rattle.std.specs.Prelude.{◌≡◌, ◌^◌, ◌<◌, ◌≤◌, length, true, All};

use bit_stuff::{ListFault, read_head, simple_len, write_simple};
use case_rows::{CaseStop, Row, Told};
use lut_stuff::{read_list, table_len, write_table, write_table_front};
use std::alloc::Global;

/// Calls what stands behind `list.`
pub(crate) fn call(alloc: Global, row: &Row, told: &mut Told) -> Result<(), CaseStop> {
    match row.call.as_slice() {
        b"head" => head(row, told),
        b"read" => read(alloc, row, told),
        b"simple" => simple(alloc, row, told),
        b"table" => table(alloc, row, told),
        b"long" => long(alloc, row, told),
        _ => Err(CaseStop::BadRow),
    }
}

/// Tells the reason and the place of a fault.
fn tell_fault(fault: ListFault, told: &mut Told) -> Result<(), CaseStop> {
    told.fact(fault.reason)?;
    told.word(fault.at)
}

/// `head COUNT BYTES`: the width, whether there is a table, the count, and how many bytes the head
/// of a list of so many numbers takes; or its fault.
fn head(row: &Row, told: &mut Told) -> Result<(), CaseStop> {
    match read_head(row.bytes(1)?, row.number(0)?) {
        Ok((head, used)) => {
            told.word(head.width)?;
            told.word(head.table)?;
            told.word(head.count)?;
            told.word(used)
        }
        Err(fault) => tell_fault(fault, told),
    }
}

/// `read COUNT BYTES`: how many bytes a list of so many numbers takes, and the numbers; or its
/// fault.
fn read(alloc: Global, row: &Row, told: &mut Told) -> Result<(), CaseStop> {
    let count = row.size(0, 1024)?;
    if count > 1024 {
        return Err(CaseStop::BadRow);
    }
    let mut values = vec![in alloc; 77u32; count]?;
    match read_list(row.bytes(1)?, &mut values) {
        Ok(used) => {
            told.word(used)?;
            told.list(&values)
        }
        Err(fault) => tell_fault(fault, told),
    }
}

/// Whether a list may have the values.
fn suit(values: &[u32]) -> bool
    ensures count { result ≡ true → length values.now ≤ 1024 }
    ensures values { result ≡ true → All (λ v. v < 2 ^ 31) values.now }
{
    values.len() <= 1024 && values.iter().all(|v| *v < 2147483648)
}

/// `simple VALUES`: the chosen list of the numbers in the simple form.
fn simple(alloc: Global, row: &Row, told: &mut Told) -> Result<(), CaseStop> {
    let values = row.numbers::<u32>(alloc, 0)?;
    if !suit(&values) {
        return Err(CaseStop::BadRow);
    }
    let mut bytes = vec![in alloc; 77u8; simple_len(&values)]?;
    write_simple(&values, &mut bytes);
    told.bytes(&bytes)
}

/// The chosen list of the numbers in the table form, if they have one. The call that writes it over
/// the front of a longer list writes the same, and leaves what stands behind it; else it is told
/// what that call wrote.
fn written(alloc: Global, values: &[u32], told: &mut Told) -> Result<Option<Vec<u8>>, CaseStop> {
    if !suit(values) {
        return Err(CaseStop::BadRow);
    }
    let Some(size) = table_len(values) else {
        return Ok(None);
    };
    if size > 2048 {
        return Err(CaseStop::BadRow);
    }
    let mut bytes = vec![in alloc; 0u8; size]?;
    write_table(values, &mut bytes);
    let mut front = vec![in alloc; 77u8; size + 9]?;
    let used = write_table_front(values, &mut front);
    if used != size
        || &front[..size] != bytes.as_slice()
        || front[size..].iter().any(|b| *b != 77)
    {
        told.bytes(&front)?;
    }
    Ok(Some(bytes))
}

/// The same list, which is read back as the numbers; else it is told what is read.
fn table_of(alloc: Global, values: &[u32], told: &mut Told) -> Result<Option<Vec<u8>>, CaseStop> {
    let Some(bytes) = written(alloc, values, told)? else {
        return Ok(None);
    };
    let mut back = vec![in alloc; 77u32; values.len()]?;
    if values.len() > 1024
        || read_list(&bytes, &mut back) != Ok(bytes.len())
        || back.as_slice() != values
    {
        told.list(&back)?;
    }
    Ok(Some(bytes))
}

/// `table VALUES`: the chosen list of the numbers in the table form, or `none`.
fn table(alloc: Global, row: &Row, told: &mut Told) -> Result<(), CaseStop> {
    let values = row.numbers::<u32>(alloc, 0)?;
    match table_of(alloc, &values, told)? {
        Some(bytes) => told.bytes(&bytes),
        None => told.word("none"),
    }
}

/// One number for bytes, to compare long ones by.
fn digest(bytes: &[u8]) -> u32 {
    let mut all = 0u32;
    for b in bytes {
        all = all
            .wrapping_mul(31)
            .wrapping_add(u32::from(*b))
            .wrapping_add(1);
    }
    all
}

/// So many numbers, of which number `i` is `7 * i * i + 3 * i` modulo a number, times a factor.
fn computed(alloc: Global, count: u32, modulus: u32, factor: u32) -> Result<Vec<u32>, CaseStop> {
    let mut values = Vec::new(alloc);
    for i in 0..count {
        let square = i.wrapping_mul(7).wrapping_add(3).wrapping_mul(i);
        let value = square.checked_rem(modulus).ok_or(CaseStop::BadRow)?;
        values.push(value.wrapping_mul(factor))?;
    }
    Ok(values)
}

/// `long COUNT MODULUS FACTOR`: the length and the digest of the chosen list in the table form of
/// so many computed numbers, or `none`.
fn long(alloc: Global, row: &Row, told: &mut Told) -> Result<(), CaseStop> {
    let values = computed(alloc, row.number(0)?, row.number(1)?, row.number(2)?)?;
    match table_of(alloc, &values, told)? {
        Some(bytes) => {
            told.word(bytes.len())?;
            told.word(digest(&bytes))
        }
        None => told.word("none"),
    }
}
