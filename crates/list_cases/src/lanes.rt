//! Loops over lists of numbers, over `lane_kernels`. Each is called with every front of the list,
//! the empty one and the whole one too.

ghost use Rattle.std.specs.Prelude.{◌≡◌, All, true};
ghost use Rattle.lane_kernels.specs.Kernels.{IsSmall, IsStepSize};

use case_rows::{CaseStop, Row, Told};
use lane_kernels::{minus, plus_capped, plus_capped_unsigned, range, running_sums};
use std::alloc::Global;

/// Calls what stands behind `lane.`
pub(crate) fn call(alloc: Global, row: &Row, told: &mut Told) -> Result<(), CaseStop> {
    match row.call.as_slice() {
        b"range" => ranges(alloc, row, told),
        b"minus" => differences(alloc, row, told),
        b"plus" => capped(alloc, row, told),
        b"sums" => running(alloc, row, told),
        _ => Err(CaseStop::BadRow),
    }
}

/// `range VALUES`: the least and the greatest number of each front that has some.
fn ranges(alloc: Global, row: &Row, told: &mut Told) -> Result<(), CaseStop> {
    let values = row.numbers::<i64>(alloc, 0)?;
    let (mut least, mut greatest) = (Vec::new(alloc), Vec::new(alloc));
    for count in 0..=values.len() {
        if let Some(ends) = range(&values[..count]) {
            least.push(ends.0)?;
            greatest.push(ends.1)?;
        }
    }
    told.list(&least)?;
    told.list(&greatest)
}

/// Whether a number is at most 2 ^ 32 in absolute value.
fn is_small(number: i64) -> bool
    ensures { result ≡ true → IsSmall number }
{
    number.unsigned_abs() <= 4294967296
}

/// The numbers less another one.
fn less(alloc: Global, values: &[i64], least: i64) -> Result<Vec<i64>, CaseStop> {
    if !is_small(least) || !values.iter().all(|v| v.unsigned_abs() <= 4294967296) {
        return Err(CaseStop::BadRow);
    }
    let mut out = vec![in alloc; 77i64; values.len()]?;
    minus(values, least, &mut out);
    Ok(out)
}

/// `minus LEAST VALUES`: the numbers less another one. Where those of a front are others, it is
/// told which.
fn differences(alloc: Global, row: &Row, told: &mut Told) -> Result<(), CaseStop> {
    let (least, values) = (row.number::<i64>(0)?, row.numbers::<i64>(alloc, 1)?);
    let whole = less(alloc, &values, least)?;
    for count in 0..values.len() {
        let front = less(alloc, &values[..count], least)?;
        if !whole.starts_with(&front) || front.len() != count {
            told.list(&front)?;
        }
    }
    told.list(&whole)
}

/// Where sums start, the step, and what they are capped at.
#[derive(Clone, Copy)]
struct Sums {
    offset: i64,
    step: i64,
    top: i64,
}

/// Whether sums may be made of these.
fn are_lawful(sums: Sums) -> bool
    ensures offset { result ≡ true → IsSmall sums.offset }
    ensures step { result ≡ true → IsStepSize sums.step }
    ensures top { result ≡ true → IsSmall sums.top }
{
    is_small(sums.offset) && is_small(sums.top) && 1 <= sums.step && sums.step <= 8589934592
}

/// The sums from the offset in so many steps, none above the top.
fn signed(alloc: Global, qs: &[i64], sums: Sums) -> Result<Vec<i64>, CaseStop> {
    if !are_lawful(sums) || !qs.iter().all(|q| 0 <= *q && *q <= 2147483647) {
        return Err(CaseStop::BadRow);
    }
    let mut out = vec![in alloc; 77i64; qs.len()]?;
    plus_capped(qs, sums.offset, sums.step, sums.top, &mut out);
    Ok(out)
}

/// The same of numbers without a sign.
fn unsigned(alloc: Global, qs: &[u32], sums: Sums) -> Result<Vec<i64>, CaseStop> {
    if !are_lawful(sums) {
        return Err(CaseStop::BadRow);
    }
    let mut out = vec![in alloc; 77i64; qs.len()]?;
    plus_capped_unsigned(qs, sums.offset, sums.step, sums.top, &mut out);
    Ok(out)
}

/// `plus OFFSET STEP TOP STEPS`: the sums from the offset in so many steps, none above the top.
/// Where those of a front are others, or those of numbers without a sign, it is told which.
fn capped(alloc: Global, row: &Row, told: &mut Told) -> Result<(), CaseStop> {
    let sums = Sums {
        offset: row.number(0)?,
        step: row.number(1)?,
        top: row.number(2)?,
    };
    let (qs, plain) = (row.numbers::<i64>(alloc, 3)?, row.numbers::<u32>(alloc, 3)?);
    let whole = signed(alloc, &qs, sums)?;
    for count in 0..=qs.len().min(plain.len()) {
        let front = signed(alloc, &qs[..count], sums)?;
        let other = unsigned(alloc, &plain[..count], sums)?;
        if !whole.starts_with(&front) || front.len() != count || other != front {
            told.list(&front)?;
            told.list(&other)?;
        }
    }
    told.list(&whole)
}

/// Each byte's sum with those before it.
fn summed(alloc: Global, first: u8, bytes: &[u8]) -> Result<Vec<u8>, CaseStop> {
    let mut out = bytes.to_vec(alloc)?;
    running_sums(first, &mut out);
    Ok(out)
}

/// `sums FIRST BYTES`: the sums, modulo 256, of the first number and each byte up to one. Where
/// those of a front are others, it is told which.
fn running(alloc: Global, row: &Row, told: &mut Told) -> Result<(), CaseStop> {
    let (first, bytes) = (row.number::<u8>(0)?, row.numbers::<u8>(alloc, 1)?);
    let whole = summed(alloc, first, &bytes)?;
    for count in 0..bytes.len() {
        let front = summed(alloc, first, &bytes[..count])?;
        if !whole.starts_with(&front) || front.len() != count {
            told.list(&front)?;
        }
    }
    told.list(&whole)
}
