//! Slots, entries and headers.

ghost use Rattle.std.specs.Prelude.{◌<◌, ◌^◌, IfOk};

use bundle_index::{BundleHeader, Entry, Slot, entry_place};
use case_rows::{CaseStop, Row, Told};

/// Entries end below this place, and tiles have fewer bytes than this.
const PLACES: u64 = 1 << 40;

const SIZES: u32 = 1 << 24;

/// The header that a word is.
fn header_of(row: &Row, at: usize) -> Result<BundleHeader, CaseStop> {
    match <[u8; 64]>::try_from(row.bytes(at)?) {
        Ok(bytes) => Ok(BundleHeader::of(bytes)),
        Err(_) => Err(CaseStop::BadRow),
    }
}

/// A size of a tile.
fn size_of(row: &Row, at: usize) -> Result<u32, CaseStop>
    ensures { IfOk result (λ n. n < 2 ^ 24) }
{
    let size = row.number(at)?;
    if size < SIZES {
        Ok(size)
    } else {
        Err(CaseStop::BadRow)
    }
}

/// `fresh GREATEST LENGTH`: the bytes of the header of a bundle of no tiles.
fn fresh(row: &Row, told: &mut Told) -> Result<(), CaseStop> {
    told.bytes(&BundleHeader::fresh(row.number(0)?, row.number(1)?).bytes())
}

/// `header BYTES`: the greatest size, the slack, the length, and the first field that fails.
fn header(row: &Row, told: &mut Told) -> Result<(), CaseStop> {
    let header = header_of(row, 0)?;
    told.word(header.greatest())?;
    told.word(header.slack())?;
    told.word(header.length())?;
    told.fact(header.fault())
}

/// `after HEADER OLD SIZE LENGTH`: the bytes of the header after a put over a tile of the old size.
fn after(row: &Row, told: &mut Told) -> Result<(), CaseStop> {
    let old = Entry {
        offset: 0,
        size: size_of(row, 1)?,
    };
    let header = header_of(row, 0)?;
    told.bytes(
        &header
            .after_put(old, row.number(2)?, row.number(3)?)
            .bytes(),
    )
}

/// `pack OFFSET SIZE`: the bytes of an entry.
fn pack(row: &Row, told: &mut Told) -> Result<(), CaseStop> {
    let (offset, size) = (row.number(0)?, size_of(row, 1)?);
    if offset >= PLACES {
        return Err(CaseStop::BadRow);
    }
    told.bytes(&Entry { offset, size }.pack().to_le_bytes())
}

/// `unpack BYTES`: the offset and the size of an entry.
fn unpack(row: &Row, told: &mut Told) -> Result<(), CaseStop> {
    let Ok(bytes) = <[u8; 8]>::try_from(row.bytes(0)?) else {
        return Err(CaseStop::BadRow);
    };
    let entry = Entry::unpack(u64::from_le_bytes(bytes));
    told.word(entry.offset)?;
    told.word(entry.size)
}

/// The row, the column, the number and the place of a slot, or that there is none.
fn tell_slot(slot: Option<Slot>, told: &mut Told) -> Result<(), CaseStop> {
    let Some(slot) = slot else {
        return told.word("none");
    };
    told.word(slot.row())?;
    told.word(slot.col())?;
    told.word(slot.number())?;
    told.word(entry_place(slot))
}

pub(crate) fn call(row: &Row, told: &mut Told) -> Result<(), CaseStop> {
    match row.call.as_slice() {
        b"fresh" => fresh(row, told),
        b"header" => header(row, told),
        b"after" => after(row, told),
        b"pack" => pack(row, told),
        b"unpack" => unpack(row, told),
        b"slot" => tell_slot(Slot::of(row.number(0)?, row.number(1)?), told),
        b"number" => tell_slot(Slot::of_number(row.number(0)?), told),
        _ => Err(CaseStop::BadRow),
    }
}
