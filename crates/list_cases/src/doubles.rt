//! Doubles as twice their values, both ways, over `double_bits`.

use case_rows::{CaseStop, Row, Told};
use double_bits::{bits_of, halves_of};

/// Calls what stands behind `double.`
pub(crate) fn call(row: &Row, told: &mut Told) -> Result<(), CaseStop> {
    match row.call.as_slice() {
        b"halves" => halves(row, told),
        b"bits" => bits(row, told),
        _ => Err(CaseStop::BadRow),
    }
}

/// `halves BITS`: twice the value of the double with these bits, the highest byte first, if that is
/// a whole number.
fn halves(row: &Row, told: &mut Told) -> Result<(), CaseStop> {
    match <[u8; 8]>::try_from(row.bytes(0)?) {
        Ok(bits) => told.fact(halves_of(u64::from_be_bytes(bits))),
        Err(_) => Err(CaseStop::BadRow),
    }
}

/// `bits HALVES`: the bits of the double whose value is half the number, and twice that value.
fn bits(row: &Row, told: &mut Told) -> Result<(), CaseStop> {
    let halves = row.number::<i64>(0)?;
    if halves.unsigned_abs() >= 17_179_869_184 {
        return Err(CaseStop::BadRow);
    }
    let bits = bits_of(halves);
    told.bytes(&bits.to_be_bytes())?;
    told.fact(halves_of(bits))
}
