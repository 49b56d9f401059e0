//! What a bundle holds once it is recovered, as a text.

use crate::store::sessions::{Ended, recover_session, text_of};
use bundle_index::{Entry, Slot};
use bundle_store::Session;
use case_rows::CaseStop;
use outside_io::{MemVolume, Pick, VolFile, Volume};
use std::alloc::Global;
use volume_rows::{image, part, whole};

/// How many slots a bundle has.
const SLOTS: u16 = 16384;

/// The images of a moment that are tried: as last synced, as read, torn with 0 and with 255.
pub(crate) const PICKS: [Pick; 4] = [Pick::Oldest, Pick::Newest, Pick::Torn(0), Pick::Torn(255)];

/// The line of a tile: its row, its column, and its record: the number in front of it, and its
/// bytes.
fn line_of(
    alloc: Global,
    vol: &mut MemVolume,
    slot: Slot,
    entry: Entry,
) -> Result<Vec<u8>, CaseStop> {
    let at = entry.offset.checked_sub(4).ok_or(CaseStop::BadRow)?;
    let count = (entry.size as usize).saturating_add(4);
    let record = part(alloc, vol, VolFile::Bundle, at, count)?;
    let mut line = format!(in alloc; "{} {} ", slot.row(), slot.col())?.into_bytes();
    line.extend_from_slice(&record)?;
    line.push(b'\n')?;
    Ok(line)
}

/// The slots that have a tile, and their entries.
fn entries_of(alloc: Global, session: &Session) -> Result<Vec<(Slot, Entry)>, CaseStop> {
    let mut list = Vec::new(alloc);
    for number in 0..SLOTS {
        if let Some(slot) = Slot::of_number(number) {
            let entry = session.kept_entry(slot);
            if entry.size > 0 {
                list.push((slot, entry))?;
            }
        }
    }
    Ok(list)
}

/// What a volume holds once it is recovered: a line for each tile, or the fault.
fn content_of(alloc: Global, vol: &mut MemVolume) -> Result<Vec<u8>, CaseStop> {
    let session = match recover_session(alloc, vol) {
        Ok(session) => session,
        Err(fault) => return text_of(alloc, Err(Ended::Fault(fault))),
    };
    let mut text = Vec::new(alloc);
    for (slot, entry) in &entries_of(alloc, &session)? {
        text.extend_from_slice(&line_of(alloc, vol, *slot, *entry)?)?;
    }
    Ok(text)
}

/// What one image of a moment holds.
pub(crate) fn content_at(
    alloc: Global,
    vol: &MemVolume,
    moment: u64,
    pick: Pick,
) -> Result<Vec<u8>, CaseStop> {
    content_of(alloc, &mut image(alloc, vol, moment, pick)?)
}

/// What each of the four images of now holds where all hold the same; else that they differ.
pub(crate) fn content_of_all(alloc: Global, vol: &MemVolume) -> Result<Vec<u8>, CaseStop> {
    let first = content_at(alloc, vol, vol.moment(), Pick::Newest)?;
    for pick in PICKS {
        if content_at(alloc, vol, vol.moment(), pick)? != first {
            return Ok(Vec::from_slice(alloc, b"images differ")?);
        }
    }
    Ok(first)
}

/// The bytes of both files.
#[derive(Drop)]
pub(crate) struct Files {
    pub(crate) bundle: Vec<u8>,
    pub(crate) journal: Vec<u8>,
}

/// The files of a volume, as a read gives them, without a call of it.
pub(crate) fn files_of(alloc: Global, vol: &MemVolume) -> Result<Files, CaseStop> {
    let mut read = image(alloc, vol, vol.moment(), Pick::Newest)?;
    let bundle = whole(alloc, &mut read, VolFile::Bundle)?;
    let journal = whole(alloc, &mut read, VolFile::Journal)?;
    Ok(Files { bundle, journal })
}
