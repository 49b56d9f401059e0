//! Words of rows that stand for what a volume takes.

use case_rows::{CaseStop, Row};
use outside_io::{Pick, VolFile};

/// The file that a word names: `bundle` or `journal`.
pub(crate) fn file_of(row: &Row, at: usize) -> Result<VolFile, CaseStop> {
    match row.bytes(at)? {
        b"bundle" => Ok(VolFile::Bundle),
        b"journal" => Ok(VolFile::Journal),
        _ => Err(CaseStop::BadRow),
    }
}

/// The image that a word names: `oldest`, `newest`, or a byte for a torn one.
pub(crate) fn pick_of(row: &Row, at: usize) -> Result<Pick, CaseStop> {
    match row.bytes(at)? {
        b"oldest" => Ok(Pick::Oldest),
        b"newest" => Ok(Pick::Newest),
        _ => Ok(Pick::Torn(row.number(at)?)),
    }
}

/// The number that a word stands for, or none where it is empty.
pub(crate) fn number_or_none(row: &Row, at: usize) -> Result<Option<u64>, CaseStop> {
    if row.bytes(at)?.is_empty() {
        return Ok(None);
    }
    Ok(Some(row.number(at)?))
}
